//! The worker of a desk: the clients of its door, whose requests are answered at points of the one history.
#![tactic(auto)]

mod answering;
mod dials;
mod ending;
mod hand;
mod holds;
mod laws;
mod puts;
mod rounds;
mod source;
mod talk;
mod worker;

pub use dials::connect;
pub use ending::{DeskEnd, DeskWhy};
pub use hand::AtHand;
pub use holds::ByHolds;
pub use laws::{out_of_memory_is_told, streams_are_put};
pub use source::Source;
pub use talk::Talk;
pub use worker::DeskWorker;
