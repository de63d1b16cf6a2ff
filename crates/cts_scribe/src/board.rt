// What a scribe does to the hall in one hold.
ghost use Rattle.std.specs.Prelude.{◌≡◌, ◌<◌, ◌++◌, IfOk, false, length, take};
ghost use Rattle.cts_scribe.specs.Following.{Lays, Sees};
ghost use Rattle.cts_scribe.specs.Growing.{Count};
ghost use Rattle.cts_worker.specs.Followed.{Follows};
ghost use Rattle.cts_worker.specs.Lasts.{MayEnd, first_moment, last_entries};

use crate::cycles::Cycles;
use crate::growth::Growth;
use crate::sight::Sight;
use cts_base::Memory;
use cts_def::{Site, Time};
use cts_table::Hall;
use cts_trace::lend;
use cts_worker::Progress;
use std::alloc::Global;

/// The most entries that are followed in one hold, so that the other workers need not wait long for the turn.
const MOST_LAID: u64 = 256;

/// The moment of a scribe's entries.
pub(crate) const FIRST_MOMENT: Time = Time {
    seconds: 0,
    micros: 0,
};

/// Follows the next entries of the hall; or, where none stand, ends the scribe if every other worker has ended.
///
/// # Errors
///
/// `Memory`.
pub(crate) fn see(
    alloc: Global,
    site: &Site,
    hall: &mut Hall,
    by: u32,
    progress: &mut Progress,
    cycles: &mut Cycles,
) -> Result<Sight, Memory>
    requires site { site.now ≡ hall.old.basis.site }
    requires may { MayEnd hall.old.basis.site by hall.old.entries }
    requires follows { Follows progress.old hall.old.entries }
    requires count { Count site.now (take progress.old.place hall.old.entries) cycles.old }
    ensures sees { Sees site.now by hall.old.entries progress.old result hall.new.entries progress.new cycles.new }
    ensures basis { hall.new.basis ≡ hall.old.basis }
{
    hall.is_kept();
    if progress.place < hall.count() {
        let (next, growth) = lay_out(alloc, site, hall, *progress, cycles)?;
        *progress = next;
        return Ok(Sight::More(growth));
    }
    if !progress.have_ended(site, by) {
        return Ok(Sight::Still);
    }
    say_ended(hall, by);
    Ok(Sight::Drained)
}

// Follows the next entries, and lays out what they give to the logs: so many, or up to one that would give too much. That one is left for the next
// look; but the first is followed however long it is.
fn lay_out(
    alloc: Global,
    site: &Site,
    hall: &Hall,
    from: Progress,
    cycles: &mut Cycles,
) -> Result<(Progress, Growth), Memory>
    requires site { site.now ≡ hall.now.basis.site }
    requires ahead { from.place < length hall.now.entries }
    requires follows { Follows from hall.now.entries }
    requires count { Count site.now (take from.place hall.now.entries) cycles.old }
    ensures lays { IfOk result (λ r. Lays site.now hall.now.entries from r.0 r.1) }
    ensures count { IfOk result (λ r. Count site.now (take r.0.place hall.now.entries) cycles.new) }
{
    hall.is_kept();
    let end = hall.count().min(from.place.saturating_add(MOST_LAID));
    let mut progress = from;
    let mut growth = Growth::none(alloc);
    'entries: while progress.place < end {
        let entry = lend(hall, progress.place);
        let is_first = progress.place == from.place;
        let added = growth.add(alloc, site, entry, is_first, cycles)?;
        if !added {
            break;
        }
        progress.follow(entry);
    }
    Ok((progress, growth))
}

// Says that the scribe has ended.
fn say_ended(hall: &mut Hall, by: u32)
    requires may { MayEnd hall.old.basis.site by hall.old.entries }
    ensures entries { hall.new.entries ≡ hall.old.entries ++ last_entries false by first_moment hall.old.entries }
    ensures basis { hall.new.basis ≡ hall.old.basis }
{
    hall.is_kept();
    hall.end(by, FIRST_MOMENT);
}
