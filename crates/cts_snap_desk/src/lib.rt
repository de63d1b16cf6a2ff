//! The worker of a desk that answers look-ups from a snapshot, and all else in holds of the turn.
#![tactic(auto)]

mod course;
mod ending;
mod holding;
mod reads;
mod worker;

pub use ending::{SnapDeskEnd, SnapWhy};
pub use reads::ByReads;
pub use worker::SnapDesk;
