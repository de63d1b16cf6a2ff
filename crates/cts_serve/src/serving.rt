// The server: its words, its workers and its end.
ghost use Rattle.std.specs.Prelude.{◌≡◌, ◌≤◌, ◌<◌, ◌↔◌, ◌⊎◌, [], false, map, true, IfSome, IsSome, IsSomeAnd, None, Some};
ghost use Rattle.cts_def.specs.Most.{most_interfaces};
ghost use Rattle.cts_def.specs.Sites.{SiteData};
ghost use Rattle.cts_server.specs.Troubles.{has_closed};
ghost use Rattle.cts_server.specs.declared.outcome.trouble.Trouble.TheVariants.{HistoryFull as FullHistory};
ghost use Rattle.cts_entry.specs.Histories.{entries_in};
ghost use Rattle.cts_entry.specs.Legal.{most_entries};
ghost use Rattle.cts_outside.specs.Causes.{Steady};
ghost use Rattle.cts_scribe.specs.Vaults.{AreBlank};
ghost use Rattle.cts_server.specs.Headline.{Headline};
ghost use Rattle.cts_server.specs.Places.{AreThere, most_doors};
ghost use Rattle.cts_server.specs.Ready.{ready_line};
ghost use Rattle.cts_server.specs.Serving.{HasIdled, HasServed};
ghost use Rattle.cts_run.specs.Command.{ShelfAt, first_phases};
ghost use Rattle.cts_run.specs.Load.{site_asked};
ghost use Rattle.cts_run.specs.Phases.{first_halt};
ghost use Rattle.cts_serve.specs.Clauses.{Starts, TellsFaults, TellsFull, TellsShelf, TellsUsage};
ghost use Rattle.cts_serve.specs.Served.{DialFailedIn, EndsServing, IsFine, VaultIsSteady};
ghost use Rattle.cts_serve.specs.Serving.{IsPlanned, worked_of};
ghost use Rattle.cts_serve.specs.Words.{asked_to_serve};

pub mod ended;
mod host;
mod telling;

use crate::words::read_serving;
use cts_chain::Framer;
use cts_connection::Supplier;
use cts_outside::{Clock, Crew, Dialer, Files, Gate, Sink, Vault};
use cts_run::{Status, end, end_misused};
use ended::Ended;
use host::{Means, host};
use std::alloc::Global;
use std::sync::Wait;
use std::thread::Threads;
use telling::finish;

/// Runs the server: reads the definitions and the site that its words name, takes the boxes of the site's chains from the shelf, lets
/// the workers of the site work, and answers how it ended, with the history and why each worker ended.
///
/// The words are those after the program's name, `serve DEFS SITE`; others are `Usage`. There are 16 lines, 12 doors and a vault: the
/// dialer in place k is that of interface k, the door in place 2 r + s that of slot s of router r, and the door in place 8 + d that of desk
/// d. Those that the site needs go with their workers to the crew, and stand in their places again at every answer. `READY` is put before
/// the workers begin, `END n` when all have ended, and then the last line of the status. It waits, and promises nothing of when it returns.
pub fn serve<
    R: Threads + Wait + Sync,
    C: Framer + Send,
    B: Supplier<C>,
    F: Files,
    O: Sink,
    D: Dialer + Send,
    Q: Dialer + Send,
    V: Vault + Send,
    K: Clock + Sync,
    W: Crew,
    G: Gate + Sync,
>(
    rt: &R,
    alloc: Global,
    words: &[&str],
    shelf: &mut B,
    files: &mut F,
    out: &mut O,
    lines: &mut Vec<Option<D>>,
    doors: &mut Vec<Option<Q>>,
    vault: &mut Option<V>,
    clock: &K,
    crew: &mut W,
    gate: &G,
) -> Ended
    requires lines { AreThere most_interfaces lines.old.items }
    requires doors { AreThere most_doors doors.old.items }
    requires vault { IsSomeAnd vault.old (λ v. AreBlank (V.seen v).told) }
    // Whether it was started: wherever its status is one that only such a server has, and only where no phase has a reason to halt.
    ensures starts { Starts (F.seen files.old).told (asked_to_serve (map (λ w. w.now) words.now)) (B.stock shelf.old) result
        (O.seen out.old) (O.seen out.new) }
    // Where it was: the history is legal, each worker owes what its kind owes, and all were the jobs of one `all` of the crew. So it holds
    // what the headline says.
    ensures served { IfSome result.scribe (λ scribe. (site : SiteData) × (digest : _) × IsPlanned (F.seen files.old).told
        (asked_to_serve (map (λ w. w.now) words.now)) site digest
        × HasServed D.seen Q.seen V.seen site digest (worked_of result scribe) lines.old.items lines.new.items doors.old.items doors.new.items
        vault.old vault.new (W.seen crew.old) (W.seen crew.new)
        × Headline D.seen Q.seen V.seen site digest (worked_of result scribe) lines.old.items lines.new.items doors.old.items doors.new.items
        vault.new) }
    // And there `READY` was put, the number of entries, and the last line of the first trouble that shows; its status is told.
    ensures ends { IfSome result.scribe (λ scribe. EndsServing ready_line result.lines result.desks scribe result.history result.status
        (O.seen out.old) (O.seen out.new)) }
    // Where it was not started, devices were aimed at most.
    ensures idle { result.scribe ≡ None → (site : SiteData) × (digest : _) × IsPlanned (F.seen files.old).told
        (asked_to_serve (map (λ w. w.now) words.now)) site digest
        × HasIdled D.seen Q.seen V.seen site lines.old.items lines.new.items doors.old.items doors.new.items
        vault.old vault.new (W.seen crew.old) (W.seen crew.new) }
    // All devices stand in their places.
    ensures back { AreThere most_interfaces lines.new.items × AreThere most_doors doors.new.items × IsSome vault.new }
    // The files stay.
    ensures stays { (F.seen files.new).told ≡ (F.seen files.old).told }
    // ---- its statuses
    // Fine only where nothing failed and each worker ended for a plain reason.
    ensures fine { result.status ≡ Status.Ok → IsFine V.seen (F.seen files.old) (F.seen files.new) (O.seen out.old)
        (O.seen out.new) vault.old vault.new (W.seen crew.old) (W.seen crew.new) result }
    // That of usage exactly where the words ask for no server; then the line that says which ones fit is put.
    ensures usage { TellsUsage (asked_to_serve (map (λ w. w.now) words.now)) result.status (O.seen out.old) (O.seen out.new) }
    // Those of faults only where a count rose in this call.
    ensures faults { TellsFaults Q.seen V.seen result.status (F.seen files.old) (F.seen files.new) (O.seen out.old) (O.seen out.new)
        doors.old.items doors.new.items vault.old vault.new (W.seen crew.old) (W.seen crew.new) }
    // That of a full history by what was closed and by how much counts.
    ensures full { TellsFull result.status result.history }
    // That of a short shelf exactly where it is short, but for want of memory and faults.
    ensures shelf { TellsShelf (F.seen files.old).told (asked_to_serve (map (λ w. w.now) words.now)) (B.stock shelf.old) result.status
        (F.seen files.old) (F.seen files.new) }
    // Where the phases of the words have no reason to halt, no count rose and the limits of the history were not reached, all is fine, or memory ran out.
    ensures complete { Steady (F.seen files.old).faults (F.seen files.new).faults → Steady (F.seen files.old).absences (F.seen files.new).absences
        → Steady (O.seen out.old).faults (O.seen out.new).faults
        → VaultIsSteady V.seen vault.old vault.new → Steady (W.seen crew.old).faults (W.seen crew.new).faults
        → (DialFailedIn Q.seen doors.old.items doors.new.items → ⊥)
        → has_closed FullHistory result.history ≡ false → entries_in result.history < most_entries
        → IfSome (F.seen files.old).told (λ all. IfSome (asked_to_serve (map (λ w. w.now) words.now))
        (λ n. first_halt (first_phases (B.stock shelf.old) all n.0 n.1) ≡ None → (result.status ≡ Status.Ok) ⊎ (result.status ≡ Status.Memory))) }
    // ---- the shelf
    // Without words for a server it is as it was; and else exactly the boxes of all chains of the site are gone, where the phases have no reason to halt.
    ensures untouched { asked_to_serve (map (λ w. w.now) words.now) ≡ None → B.stock shelf.new ≡ B.stock shelf.old }
    ensures boxes { IfSome (F.seen files.old).told (λ all. IfSome (asked_to_serve (map (λ w. w.now) words.now))
        (λ n. ShelfAt (site_asked all n.0 n.1) (first_halt (first_phases (B.stock shelf.old) all n.0 n.1)) result.status (B.stock shelf.old)
        (B.stock shelf.new))) }
{
    match read_serving(words) {
        Some((definitions, site)) => {
            let means = Means {
                rt,
                alloc,
                definitions: &definitions,
                site: &site,
                clock,
                gate,
            };
            match host(&means, shelf, files, out, lines, doors, vault, crew) {
                Ok(worked) => finish(worked, out),
                Err(halt) => Ended::unstarted(alloc, end(alloc, Err(halt), out)),
            }
        }
        None => Ended::unstarted(alloc, end_misused(out)),
    }
}
