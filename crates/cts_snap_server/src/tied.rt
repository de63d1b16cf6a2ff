// What a desk leaves that read from a snapshot, once all passes have come back.
ghost use Rattle.std.specs.Prelude.{◌≡◌, ℕ, List};
ghost use Rattle.cts_entry.specs.declared.entry.Entry.{Entry};
ghost use Rattle.cts_outside.specs.Seen.{LineSeen};
ghost use Rattle.cts_publisher.specs.declared.ending.PublisherWhy.{PublisherWhy};
ghost use Rattle.cts_snap_server.specs.Publishers.{OwesPublisher};
ghost use Rattle.cts_snap_server.specs.Replied.{AnswersSo};
ghost use Rattle.cts_snap_server.specs.SnapDesks.{OwesSnapDesk, PaneSeen};
ghost use Rattle.cts_table.specs.declared.basis.Basis.{Basis};

use crate::SnapDeskLeft;
use cts_base::List;
use cts_desk::DeskWhy;
use cts_publisher::tie;
use cts_snap::{Grounds, Replicates, SnapReader, SnapWriter};
use std::sync::Wait;

/// What a desk left, once its reader was tied or was not.
#[derive(Drop)]
pub struct TiedDesk<X> {
    /// Its door.
    pub door: X,
    /// The fronts of its requests, in order.
    pub fronts: List<u64>,
    /// Why it ended.
    pub why: DeskWhy,
    /// Whether what it read is of the history that stands at the end.
    pub tied: bool,
}

/// Ties the reader of a desk to what the publisher's writer published. Where the history begins with what either has seen, the desk's replies
/// are of it: those that it gave in holds, and those that it read where it is tied. Where it is not tied, what it read is over its reader's
/// list. It takes no memory, and waits for nobody.
pub fn tie_desk<Q: Drop, J: Grounds + Send + Sync, T: Replicates<J>, R: Wait + Drop>(
    writer: &SnapWriter<J, T, R>,
    left: SnapDeskLeft<Q, SnapReader<J>>,
) -> TiedDesk<Q>
    ensures door { result.door ≡ left.door }
    ensures fronts { result.fronts ≡ left.fronts }
    ensures why { result.why ≡ left.why }
    ensures answers { (basis : Basis) (by : ℕ) (found : List ℕ) (history : List Entry) (old new : LineSeen) (before : PaneSeen) (ended : PublisherWhy)
        → J.basis ≡ basis → OwesPublisher basis.site history writer.now ended
        → OwesSnapDesk basis by found history old new before
        (record { basis = J.basis; list = left.reader.list; refused = left.reader.refused }) left.fronts left.why
        → AnswersSo basis by history left.reader.list result.tied result.fronts }
{
    let SnapDeskLeft {
        door,
        reader,
        fronts,
        why,
    } = left;
    let mut reader = reader;
    let tied = tie(writer, &mut reader);
    TiedDesk {
        door,
        fronts,
        why,
        tied,
    }
}
