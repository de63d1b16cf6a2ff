//! What the history has to say of each connection of an interface or a slot, by what came from it and
//! what was put to it, and what goes out of it: the definitions on which the core and the running lines stand.
#![tactic(auto)]

mod laws;
mod lending;

pub use laws::{connections, examples, lines, makers, tellings};
pub use lending::lend;
