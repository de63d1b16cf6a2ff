// Several entries that are appended to a hall.
ghost use Rattle.std.specs.Prelude.{◌≡◌};
ghost use Rattle.cts_entry.specs.Histories.{bytes_in};
ghost use Rattle.cts_framing.specs.Packets.{capped};
ghost use Rattle.cts_connection.specs.Postings.{CanAddAll, added_all};

use cts_entry::{Entry, bytes_for};
use cts_table::Hall;

/// How many bytes the packets and commands of these entries have, up to 2^64 - 1.
pub(crate) fn weight(entries: &[Entry]) -> u64
    ensures { result ≡ capped (bytes_in entries.now) }
{
    let mut left = entries;
    let mut bytes: u64 = 0;
    'left: while let Some((first, after)) = left.split_first() {
        bytes = bytes.saturating_add(bytes_for(&first.what));
        left = after;
    }
    bytes
}

/// Appends entries for which there is room, in order. It takes no memory.
pub(crate) fn append_all(hall: &mut Hall, entries: Vec<Entry>)
    requires { CanAddAll hall.old entries.items }
    ensures { hall.new ≡ added_all hall.old entries.items }
{
    for entry in entries {
        hall.append(entry);
    }
}
