//! The reader of site files: which interfaces and routers a server has, over which protocols, and how many desks.
//!
//! A site is read from the statements of its file and the definitions of its packets. It is refused at the first
//! statement with a cause.
#![tactic(auto)]

mod causes;
mod completing;
mod draft;
mod fault;
mod fixed;
mod keyword;
mod line;
mod opened;
mod reading;
mod step;
mod targets;
mod words;

pub use fault::{SiteCause, SiteFault};
pub use reading::read_site;
