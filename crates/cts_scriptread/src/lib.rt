//! Scripts: the events that their lines say in a site, line by line, or why the first line that is refused is so. A line is a
//! statement of the common grammar of words; its keyword and the names in it are read in any case, its fixed words exactly.
#![tactic(auto)]

mod cause;
mod digits;
mod events;
mod form;
mod judging;
mod laws;
mod makers;
mod reading;
mod words;

pub use cause::{ScriptCause, ScriptFault};
pub use laws::{
    events_are_of_their_lines, first_line_is_refused, names_are_those_of_the_site,
    numbers_are_written_within_their_bounds,
};
pub use makers::{interface_named, slot_named};
pub use reading::{read_events, read_script};
