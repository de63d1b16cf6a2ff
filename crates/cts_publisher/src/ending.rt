// How a publisher ends.

use cts_table::Hall;
use cts_turn::Pass;

/// Why a publisher ended.
#[derive(Clone, Copy, Debug, PartialEq, Eq)]
pub enum PublisherWhy {
    /// Every worker has ended, and all that stands is published.
    Ended,
    /// No memory was found.
    NoMemory,
    /// It was not started.
    Cancelled,
}

/// The end of a publisher.
#[derive(Drop)]
pub struct PublisherEnd {
    /// Its pass.
    pub pass: Pass<Hall>,
    /// Why it ended.
    pub why: PublisherWhy,
}
