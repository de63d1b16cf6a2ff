//! The table of the methods of the JSON interface, and what a call of one asks: which params it takes, lent from the call.
//!
//! The names of the methods and the order of their params follow the documentation of the COSMOS 4 JSON API; `stop_server`,
//! `get_limits_events` and the params of `inject_tlm` are this project's own. What a method answers is said in `cts_api`.
#![tactic(auto)]

mod method;
mod params;
mod reading;
mod words;

pub use method::{Method, method_named};
pub use params::{ItemWords, LimitsWords, PacketWords};
pub use reading::{Asking, Order, read_asking};
