// How much counts in a history.
ghost use Rattle.std.specs.Prelude.{◌≡◌, ◌≤◌};
ghost use Rattle.cts_entry.specs.Histories.{bytes_in, entries_in};
ghost use Rattle.cts_entry.specs.Legal.{most_bytes, most_entries};

use cts_entry::{bytes_for, entries_for};
use cts_table::History;

/// What a history takes of the limits of a server.
#[derive(Clone, Copy, Debug, PartialEq, Eq)]
pub struct Counted {
    /// The entries that count.
    pub entries: u64,
    /// The bytes of packets and commands.
    pub bytes: u64,
}

/// How many entries count in a history within the limits of a server, and how many bytes.
#[tactic(auto, using(crate::proofs::Lists::sum_more, crate::proofs::Lists::sum_within))]
pub fn count_history(history: &History) -> Counted
    requires entries { entries_in history.now ≤ most_entries }
    requires bytes { bytes_in history.now ≤ most_bytes }
    ensures entries { result.entries ≡ entries_in history.now }
    ensures bytes { result.bytes ≡ bytes_in history.now }
{
    let mut entries = 0u64;
    let mut bytes = 0u64;
    'entries: for n in 0..history.count() {
        let what = &history.get(n).what;
        entries += entries_for(what);
        bytes += bytes_for(what);
    }
    Counted { entries, bytes }
}
