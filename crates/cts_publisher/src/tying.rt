// Whether what a reader has read is what was published.
ghost use Rattle.std.specs.Prelude.{◌≡◌, ◌<◌, ◌⊎◌, length, true, false};
ghost use mathlib.Core.List.{IsPrefix};
ghost use Rattle.cts_outside.specs.Causes.{Rose};

use cts_snap::{Grounds, Pane, Replicates, Snap, SnapReader, SnapWriter};
use cts_table::Hall;
use std::sync::Wait;

/// Whether a reader's list is the published one, which then begins with all that this reader has read or was told of: it learns from the writer, and
/// reads once more. It is not where that read was refused, or where the reader's list is longer. It takes no memory, and waits for nobody.
pub fn tie<J: Grounds + Send + Sync, T: Replicates<J>, R: Wait + Drop>(
    writer: &SnapWriter<J, T, R>,
    reader: &mut SnapReader<J>,
) -> bool
    ensures seen { IsPrefix reader.old.list reader.new.list }
    ensures told { IsPrefix writer.now.published reader.new.list }
    ensures tied { result ≡ true → reader.new.list ≡ writer.now.published }
    ensures apart { result ≡ false → Rose reader.old.refused reader.new.refused ⊎ (length writer.now.published < length reader.new.list) }
{
    Snap::learn(reader, Snap::tell(writer));
    let read = reader.show(
        |hall: &Hall| -> u64
            ensures { result ≡ length hall.now.entries }
        { hall.count() },
    );
    match read {
        Ok(count) => count <= Snap::published(writer),
        Err(_) => false,
    }
}
