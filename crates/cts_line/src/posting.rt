// What became of a piece.

use cts_entry::Why;

/// What became of a piece in the history.
#[derive(Clone, Copy, Drop)]
pub(crate) enum Posting {
    /// All its packets were posted, if there were any.
    Posted(bool),
    /// The connection was closed.
    Closed(Why),
}
