//! The methods of the JSON interface: what each asks, what it answers at a point of the history, and what it appends.
//!
//! The names of the methods, the order of their params and what they answer follow the documentation of the COSMOS 4 JSON API. This
//! project's own are `stop_server`, `get_limits_events` and `interface_state` as they are here, the params of `inject_tlm` (an object
//! of raw values, without a kind of value), the result null of `set_limits`, the codes -32001 to -32003 with all their messages and
//! the order in which they are tried, and that decimals are exact and are texts. The codes from -32700 to -32600 are those of
//! JSON-RPC 2.0. `docs/METHODS.md` has each method, and what a client of COSMOS finds different.
#![tactic(auto)]

mod answering;
mod changing;
mod commands;
mod injecting;
mod interfaces;
mod laws;
mod limits;
mod looked;
mod looking;
mod naming;
mod refusal;
mod replying;
mod response;
mod sending;
mod settling;
mod shown;
mod values;

pub use laws::{
    answers_are_whole, bytes_are_made, replies_are_legal, replies_are_of_their_desk, reply_is_one,
    rows_are_as_defined,
};
pub use looked::Look;
pub use looking::look;
pub use replying::{answer, reply};
pub use settling::Answer;
