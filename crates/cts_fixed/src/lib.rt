//! FIXED: frames that begin as a packet of known length does.
#![tactic(auto)]

mod fixed;
mod found;
mod starts;

pub use fixed::{Fixed, FixedSearch};
pub use starts::begins_with;
