// What a look at the history gives.

/// What a look at the history gives.
#[derive(Clone, Copy)]
pub(crate) enum Sight {
    /// More stands than was taken in.
    More,
    /// All that stands was taken in, and some worker has not ended.
    Still,
    /// All that stands was taken in, and every worker has ended in it.
    Over,
}
