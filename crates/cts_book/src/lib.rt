//! A book of entries: one list that only grows, and beginnings of it that were seen, which can be copied, compared and handed on.
#![tactic(auto)]

mod book;

pub use book::{Book, Front, Naming, NewBook};
