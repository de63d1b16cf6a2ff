//! Laws of rehearsals over a site: what their requests ask. They stand above the core, so that no code is proved a second time for
//! them.
#![tactic(auto)]

mod laws;

pub use laws::{orders_are_written, orders_ask_for_commands};
