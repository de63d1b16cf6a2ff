//! The server's core. Its definition: what each event does, and what a list of events does, with tests of what is enabled; its laws
//! are in `cts_core_laws`. And the core that runs events, of which each step is what the definition says: the `World`.
#![tactic(auto)]

mod calling;
mod draining;
mod enabling;
mod fault;
mod running;
mod world;

pub use fault::WorldFault;
pub use world::World;
