//! The worker of a line, which is an interface or a slot of a router: it makes one connection after another, posts what comes from each and
//! puts what the history has for its peer, each change of the history in one hold of the turn. What the history says of it is what its dialer tells.
#![tactic(auto)]

mod board;
mod catching;
mod dials;
mod ending;
mod hand;
mod holds;
mod opening;
mod posting;
mod puts;
mod rounds;
mod sight;
mod worker;

pub use ending::{LineEnd, LineWhy};
pub use worker::LineWorker;
