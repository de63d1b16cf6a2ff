//! The values of telemetry items: what their bits say in a packet's bytes, what that converts to, and how it is shown. The kinds
//! of values, conversions, states, formats and units are those of the documentation of COSMOS 4; numbers are exact, where it has
//! floating point.
#![tactic(auto)]

mod converting;
mod digits;
mod formatting;
mod kinds;
mod laws;
mod numbers;
mod pieces;
mod plains;
mod polynomial;
mod raws;
mod segments;
mod states;
mod texts;
mod value;
mod widths;

pub use converting::{before_states, converted, measured, state_seen};
pub use formatting::{formatted, with_units};
pub use kinds::value_of;
pub use laws::{rounded_is_nearest, used_segment_is_nearest};
pub use plains::plain;
pub use raws::{raw, raw_number};
pub use states::state_of;
pub use value::{Value, ValueKind};
