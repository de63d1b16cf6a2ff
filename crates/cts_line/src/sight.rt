// What a line sees when it looks.

use cts_base::Bytes;

/// What a line sees of the history when it looks.
#[derive(Drop)]
pub(crate) struct Sight {
    /// The spellings of what is to be put, none where one is refused.
    pub spellings: Vec<Option<Bytes>>,
    /// How many entries there are.
    pub place: usize,
    /// Whether a Stop stands.
    pub stop: bool,
}
