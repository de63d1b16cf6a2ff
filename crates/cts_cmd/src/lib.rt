//! Commands: what a command text asks for, and the bytes of the command that is asked for. Of the same words, raw values that are
//! written over the bytes of a telemetry packet.
//!
//! The form of the texts, `TARGET COMMAND with NAME value, ..`, and what REQUIRED, HAZARDOUS, STATE, OVERFLOW and the range of a
//! parameter mean are those of the COSMOS 4 documentation. The order of the checks, the places at which a text is refused, and
//! that names and states are taken in any case are this project's rules.
#![tactic(auto)]

mod build_command;
mod built;
mod contents;
mod hazards;
mod injection;
mod laws;
mod names;
mod param;
mod reading;
mod refused;
mod request;
mod telling;
mod text_fault;
mod values;
mod words;
mod write;

pub use build_command::build;
pub use built::Built;
pub use injection::inject;
pub use laws::{
    a_text_asks_for_one_request_or_fails_once, a_text_is_a_request_or_fails,
    fields_stand_unless_written_over, injections_have_one_outcome, raw_values_are_of_their_kind,
    request_has_one_command,
};
pub use reading::parse;
pub use refused::Refused;
pub use request::{Checks, Given, Request};
pub use telling::refusal_text;
pub use text_fault::{TextCause, TextFault};
