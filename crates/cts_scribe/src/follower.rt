// The state of a scribe.
use crate::cycles::Cycles;
use cts_table::Hall;
use cts_turn::Pass;
use cts_worker::Progress;

/// A scribe's pass, how far it has followed what that has seen, and how long the last part of each log is then.
#[derive(Drop)]
pub(crate) struct Follower {
    pub pass: Pass<Hall>,
    pub progress: Progress,
    pub cycles: Cycles,
}
