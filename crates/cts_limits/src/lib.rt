//! Limits: the colour of a value, and the limits state that an item's samples leave, with their persistence. No call takes
//! memory.
#![tactic(auto)]

mod judging;
mod laws;
mod running;

pub use judging::judge;
pub use laws::samples_leave_states;
pub use running::{Change, RunState, fresh, step};
