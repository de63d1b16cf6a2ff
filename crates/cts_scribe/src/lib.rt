//! The scribe: the worker that keeps the packet logs of the one history in a vault, each in parts of bounded size where the site has a cycle. The heads of
//! the logs come first, and then what the history gives to them, as it grows. The rules of this crate are the project's own, as the logs are, after those of
//! COSMOS.
#![tactic(auto)]

mod board;
mod bounds;
mod cycles;
mod ending;
mod follower;
mod following;
mod growth;
mod heads;
mod holds;
mod laws;
mod putting;
mod sight;
mod worker;

pub use ending::{ScribeEnd, ScribeWhy};
pub use laws::{
    closed_logs_are_whole, logs_grow, one_part_without_cycle, stops_leave_logs,
    stops_leave_logs_of_halls,
};
pub use worker::Scribe;
