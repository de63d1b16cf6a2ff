//! What the entries of a history give to the two packet logs of its site: the packets of the interfaces that are logged to that of telemetry, and the commands
//! for these to that of commands, each laid out as an entry of a log file of the site's layout. The replay and the scribe stand on it. The rules of this crate
//! are the project's own, as the logs are, after those of COSMOS.
#![tactic(auto)]

mod batch;
mod laws;
mod put;

pub use batch::Batch;
pub use laws::logs_grow;
