//! The events of a rehearsal: a large input of the demo's site, made from a number choice by choice. All of them are enabled by
//! their form, whatever the core does. And the summary that is put of what they came to.
#![tactic(auto)]

mod bodies;
mod choice;
mod laws;
mod pieces;
mod rehearsal;
mod tally;

pub use laws::rehearsals_walk;
pub use rehearsal::{Rehearsal, generated};
pub use tally::{Tally, summary};
