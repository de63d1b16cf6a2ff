//! Definitions files, read from their statements: the telemetry packets and the commands of all targets, with their items,
//! or the first statement that is refused, and why.
//!
//! The statements are those of the COSMOS 4 documentation for command and telemetry definitions, in this project's profile;
//! what is refused, and in which order causes are tried, is this project's own rule.
#![tactic(auto)]

mod adding;
mod causes;
mod counts;
mod doubles;
mod draft;
mod drafted;
mod items;
mod kinds;
mod laws;
mod open;
mod packets;
mod places;
mod reading;
mod values;

pub use cts_defstatement::{DefCause, DefFault};
pub use laws::{
    definitions_are_in_order, definitions_are_of_their_lines, first_statement_is_refused,
};
pub use reading::read_definitions;
