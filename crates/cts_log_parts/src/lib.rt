//! Logs in parts: what the parts of a log are, which a cycle begins entry by entry, what entries give to them, how that is put into a
//! vault, and what a stop leaves of them. The rule of the parts is this project's own.
#![tactic(auto)]

mod cuts;
mod laws;
mod putting;

pub use cuts::Cuts;
pub use laws::{
    cuts_tell_growth, parts_are_grown, parts_are_one, parts_are_read, parts_grow, stops_leave_parts,
};
pub use putting::put_growth;
