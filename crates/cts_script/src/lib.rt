//! The printed lines of the history's entries, in the format of this project's own transcript: the number, the time, the maker and what
//! the entry says, with one space between each two words; and after each entry the lines of its limits events. What an event gives
//! besides its entries has a line too.
#![tactic(auto)]

mod effects;
mod events;
mod laws;
mod limits;
mod limits_event;
mod lines;
mod makers;
mod texts;
mod times;
mod what;
mod why;

pub use effects::{effect_line, put_effect_line};
pub use laws::lines_join;
pub use limits_event::LimitsEvent;
pub use lines::{entry_lines, put_entry_lines};
