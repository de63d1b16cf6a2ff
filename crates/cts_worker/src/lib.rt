//! What the workers of a server share: the interfaces, the slots, the desks and the scribe, each with a pass of the turn round the one history. A hold
//! that only looks whether a Stop stands, the last entries of a worker, and what is appended for a worker that was not started. The rules of
//! this crate are the project's own.
#![tactic(auto)]

mod ending;
mod holds;
mod laws;
mod progress;
mod resting;

pub use ending::stop;
pub use holds::{cancel, end, sees_stop};
pub use laws::who_is_off;
pub use progress::Progress;
pub use resting::nap;
