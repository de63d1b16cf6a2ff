// How a desk ends, and how it leaves a client.

use cts_base::List;
use cts_table::Hall;
use cts_turn::Pass;

/// Why a desk ended.
#[derive(Clone, Copy, Debug, PartialEq, Eq)]
pub enum DeskWhy {
    /// A Stop stands.
    Stopped,
    /// Its door has no client any more.
    Finished,
    /// A dial of its door failed.
    DoorFailed,
    /// It was not started.
    Cancelled,
}

/// The end of a desk.
#[derive(Drop)]
pub struct DeskEnd {
    /// Its pass.
    pub pass: Pass<Hall>,
    /// How many entries stood at the beginning of the hold of each request, in order.
    pub fronts: List<u64>,
    /// Why it ended.
    pub why: DeskWhy,
}

/// Why a desk hangs up on a client.
#[derive(Clone, Copy)]
pub(crate) enum HangUp {
    /// A Stop stands.
    Stopped,
    /// The connection is over for another cause.
    Over,
}
