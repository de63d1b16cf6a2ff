// How a scribe ends.

use cts_table::Hall;
use cts_turn::Pass;

/// Why a scribe ended.
#[derive(Clone, Copy, Debug, PartialEq, Eq)]
pub enum ScribeWhy {
    /// Every other worker has ended, and all that stands is in the logs.
    Drained,
    /// An append or a sync failed.
    VaultFailed,
    /// No memory was found.
    NoMemory,
    /// It was not started.
    Cancelled,
}

/// The end of a scribe.
#[derive(Drop)]
pub struct ScribeEnd {
    /// Its pass.
    pub pass: Pass<Hall>,
    /// How many entries it has followed.
    pub cursor: u64,
    /// Why it ended.
    pub why: ScribeWhy,
}
