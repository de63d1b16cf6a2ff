// What a look at the history gives.
use crate::growth::Growth;

/// What a look at the history gives.
#[derive(Drop)]
pub(crate) enum Sight {
    /// There were more entries, which give this to the logs.
    More(Growth),
    /// Nothing new, and some worker has not ended.
    Still,
    /// Nothing new, and every other worker has ended, as now the scribe.
    Drained,
}
