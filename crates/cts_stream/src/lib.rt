//! The protocols BURST, LENGTH and TERMINATED.
#![tactic(auto)]

mod burst;
mod length;
mod protocols;
mod terminated;

pub use burst::BurstSearch;
pub use length::LengthSearch;
pub use protocols::{Burst, Length, Terminated};
pub use terminated::TerminatedSearch;
