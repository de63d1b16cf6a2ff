// How a line ends.

use cts_table::Hall;
use cts_turn::Pass;

/// Why a line ended.
#[derive(Clone, Copy, Debug, PartialEq, Eq)]
pub enum LineWhy {
    /// A Stop stands.
    Stopped,
    /// There will be no connection any more.
    Finished,
    /// Its connection ended, or a dial failed, and the interface does not connect again.
    NoReconnect,
    /// The door of a slot failed.
    DoorFailed,
    /// The history is full.
    Full,
    /// No memory was found.
    NoMemory,
    /// It did not start.
    Cancelled,
}

/// What a line leaves: its pass, how many connections it opened in the history, and why it ended.
#[derive(Drop)]
pub struct LineEnd {
    pub pass: Pass<Hall>,
    pub connections: u64,
    pub why: LineWhy,
}
