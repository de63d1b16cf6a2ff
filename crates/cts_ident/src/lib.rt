//! Which packet or command some bytes, or some names, are.
//!
//! Identification is the plain first match: the first packet, in order of definition, of the targets that a connection
//! reaches, all of whose id fields lie within the bytes and have their id values there. No call takes memory.
#![tactic(auto)]

mod connection;
mod matches;
mod naming;
mod search;

pub use naming::named;
pub use search::{identify, identify_command};
