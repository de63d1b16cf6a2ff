//! A statement of a configuration text.

use cts_base::{Bytes, List};

/// The words of a line or of joined lines.
#[derive(Debug, Drop)]
pub struct Statement {
    /// The number of the first line, counted from 1.
    pub line: u32,
    /// The words, without their quotes.
    pub words: List<Bytes>,
}
