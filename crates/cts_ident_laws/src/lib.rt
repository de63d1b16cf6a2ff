//! Laws of identification: a packet is known again by its names, and one that no definition fits stays unknown.
//!
//! They are said of the definitions that the contracts of `cts_ident` cite, so they are laws of what it answers.
#![tactic(auto)]

mod names;

pub use names::{names_are_kept, names_are_known};
