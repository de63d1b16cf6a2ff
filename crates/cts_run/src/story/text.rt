// The text of what an event did.
ghost use Rattle.std.specs.Prelude.{◌≡◌, ◌++◌, map, take, drop, IfOk};
ghost use Rattle.std.specs.List.{filter};
ghost use Rattle.cts_script.specs.Effects.{effect_line};
ghost use Rattle.cts_run.specs.Transcript.{line_event, lines_of};
ghost use Rattle.cts_monitor.specs.Events.{events_from};
ghost use Rattle.cts_monitor.proofs.Placed.{at_place};

use cts_base::Memory;
use cts_def::Site;
use cts_entry::{Effect, Stands};
use cts_script::{LimitsEvent, put_effect_line, put_entry_lines};
use cts_table::{Hall, LimitsEvent as Change};
use cts_trace::lend;
use std::alloc::Global;

/// The lines of the entries from this number on, each with its limits events after it, and then that of an effect.
pub(crate) fn event_text(
    alloc: Global,
    hall: &Hall,
    from: u64,
    effect: &Effect,
) -> Result<Vec<u8>, Memory>
    ensures { IfOk result (λ v. v.items ≡ lines_of hall.now.basis.site (take from hall.now.entries) (drop from hall.now.entries)
        ++ effect_line hall.now.basis.site effect.now) }
{
    let changes = hall.events(alloc, from)?;
    let mut text = lines_from(alloc, hall.site(), hall, &changes, from)?;
    put_effect_line(&mut text, hall.site(), effect)?;
    Ok(text)
}

// The lines of the entries from this number on, each with the changes of limits states at it.
fn lines_from<H: Stands>(
    alloc: Global,
    site: &Site,
    history: &H,
    changes: &[Change],
    from: u64,
) -> Result<Vec<u8>, Memory>
    requires { changes.now ≡ events_from site.now (H.list history.now) from }
    ensures { IfOk result (λ v. v.items ≡ lines_of site.now (take from (H.list history.now)) (drop from (H.list history.now))) }
{
    let mut lines = Vec::new(alloc);
    for i in 0..history.count().saturating_sub(from) {
        let n = from + i;
        let events = events_at(alloc, changes, n)?;
        put_entry_lines(alloc, &mut lines, site, n, lend(history, n), &events)?;
    }
    Ok(lines)
}

// The changes at one entry, as they are printed.
fn events_at(alloc: Global, changes: &[Change], n: u64) -> Result<Vec<LimitsEvent>, Memory>
    ensures { IfOk result (λ v. v.items ≡ map line_event (filter (at_place n) changes.now)) }
{
    let mut found = Vec::new(alloc);
    for change in changes {
        if change.at == n {
            found.push(line_event(change))?;
        }
    }
    Ok(found)
}

fn line_event(change: &Change) -> LimitsEvent
    ensures { result ≡ line_event change.now }
{
    LimitsEvent {
        at: change.at,
        packet: change.packet,
        item: change.item,
        before: change.before,
        after: change.after,
    }
}
