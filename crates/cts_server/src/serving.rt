// The workers of a site at work.
ghost use Rattle.std.specs.Prelude.{◌≡◌, IfOk, IsSome, IsSomeAnd, OnErr, map};
ghost use Rattle.std.specs.Arc.{arc_value};
ghost use Rattle.cts_chain.specs.Builds.{AreFresh};
ghost use Rattle.cts_connection.specs.LineChains.{line_chains};
ghost use Rattle.cts_def.specs.Most.{most_desks, most_interfaces, most_slots};
ghost use Rattle.cts_scribe.specs.Vaults.{AreBlank};
ghost use Rattle.cts_server.specs.Begun.{IsBegun};
ghost use Rattle.cts_server.specs.Places.{AreThere, most_doors};
ghost use Rattle.cts_server.specs.Ready.{PutsReady};
ghost use Rattle.cts_server.specs.Serving.{HasIdled, HasServed, IdledParts, ServedParts};

use crate::WorkerContext;
use crate::running::run_workers;
use crate::settling::{close, settle};
use crate::staging::{Begun, Staged, begin, stage};
use crate::undone::tasks_back;
use crate::worked::{NotStarted, Worked};
use cts_chain::Framer;
use cts_def::{MOST_SLOTS, Site};
use cts_outside::{Clock, Crew, Dialer, Gate, Sink, Vault};
use std::alloc::Global;
use std::sync::{Arc, Wait};
use std::thread::Threads;

/// What a server hands to all workers of its site.
#[derive(Drop)]
pub struct Shared<'a, R, K, G> {
    /// The runtime.
    pub rt: &'a R,
    /// Where their memory comes from.
    pub alloc: Global,
    /// The digest of the definitions, for the heads of the logs.
    pub digest: &'a [u8; 16],
    /// The clock of their entries.
    pub clock: &'a K,
    /// The gate of their stages.
    pub gate: &'a G,
}

/// The workers of a site do their work: each interface with the dialer in the place of its number, each slot of a router with the door
/// in its place, each desk with the door in its place after those of the slots, and the scribe with the vault. Each dialer and door that
/// the site needs is aimed once; then `READY` is put; and then all workers run as jobs of one `all` of the crew, in the order interfaces,
/// slots, desks, scribe. It waits for the last of them, and then each device stands in its old place again. The chains are those of the
/// lines, in this order.
///
/// # Errors
///
/// `Memory`, and `WriteFault` where `READY` could not be put. No worker has begun then, and each device stands in its place.
pub fn serve_site<
    R: Threads + Wait + Sync,
    D: Dialer + Send,
    Q: Dialer + Send,
    V: Vault + Send,
    C: Framer + Send,
    O: Sink,
    K: Clock + Sync,
    G: Gate + Sync,
    W: Crew,
>(
    shared: &Shared<'_, R, K, G>,
    site: Arc<Site>,
    chains: Vec<C>,
    out: &mut O,
    lines: &mut Vec<Option<D>>,
    doors: &mut Vec<Option<Q>>,
    vault: &mut Option<V>,
    crew: &mut W,
) -> Result<Worked, NotStarted>
    requires chains { AreFresh (line_chains (arc_value site)) (map C.shape chains.items) }
    requires lines { AreThere most_interfaces lines.old.items }
    requires doors { AreThere most_doors doors.old.items }
    requires vault { IsSomeAnd vault.old (λ v. AreBlank (V.seen v).told) }
    // What the workers did whose site was served.
    ensures served { IfOk result (λ w. HasServed D.seen Q.seen V.seen (arc_value site) shared.now.digest.now w
        lines.old.items lines.new.items doors.old.items doors.new.items vault.old vault.new (W.seen crew.old) (W.seen crew.new)) }
    // Where it was not, devices were aimed at most.
    ensures idle { OnErr result (HasIdled D.seen Q.seen V.seen (arc_value site)
        lines.old.items lines.new.items doors.old.items doors.new.items vault.old vault.new (W.seen crew.old) (W.seen crew.new)) }
    ensures ready { PutsReady (O.seen out.old) (O.seen out.new) result }
    ensures back { AreThere most_interfaces lines.new.items × AreThere most_doors doors.new.items × IsSome vault.new }
{
    let begun = begin(shared.alloc, &site, chains)?;
    let (slots, desks) = doors.as_mut_slice().split_at_mut(MOST_SLOTS);
    let of = SiteOf {
        shared,
        site: &site,
    };
    run_site(
        &of,
        begun,
        out,
        lines.as_mut_slice(),
        slots,
        desks,
        vault,
        crew,
    )
}

// A site, and what all its workers are handed.
#[derive(Drop)]
struct SiteOf<'a, 'b, R, K, G> {
    shared: &'a Shared<'b, R, K, G>,
    site: &'a Site,
}

// The devices are aimed and go with their workers, READY is put, the workers work, and the devices come back.
fn run_site<
    R: Threads + Wait + Sync,
    D: Dialer + Send,
    Q: Dialer + Send,
    V: Vault + Send,
    C: Framer + Send,
    O: Sink,
    K: Clock + Sync,
    G: Gate + Sync,
    W: Crew,
>(
    of: &SiteOf<'_, '_, R, K, G>,
    begun: Begun<C>,
    out: &mut O,
    lines: &mut [Option<D>],
    slots: &mut [Option<Q>],
    desks: &mut [Option<Q>],
    vault: &mut Option<V>,
    crew: &mut W,
) -> Result<Worked, NotStarted>
    requires begun { IsBegun of.now.site.now begun }
    requires chains { AreFresh (line_chains of.now.site.now) (map C.shape begun.chains.items) }
    requires there { AreThere most_interfaces lines.old × AreThere most_slots slots.old × AreThere most_desks desks.old × IsSomeAnd vault.old
        (λ v. AreBlank (V.seen v).told) }
    ensures served { IfOk result (λ w. ServedParts D.seen Q.seen V.seen of.now.site.now of.now.shared.now.digest.now w
        lines.old lines.new slots.old slots.new desks.old desks.new vault.old vault.new (W.seen crew.old) (W.seen crew.new)) }
    ensures idle { OnErr result (IdledParts D.seen Q.seen V.seen of.now.site.now
        lines.old lines.new slots.old slots.new desks.old desks.new vault.old vault.new (W.seen crew.old) (W.seen crew.new)) }
    ensures ready { PutsReady (O.seen out.old) (O.seen out.new) result }
    ensures back { AreThere most_interfaces lines.new × AreThere most_slots slots.new × AreThere most_desks desks.new × IsSome vault.new }
{
    let shared = of.shared;
    let site = of.site;
    let staged = stage(shared.alloc, site, begun, out, lines, slots, desks, vault)?;
    let Staged {
        turn,
        pass,
        tasks,
        room,
    } = staged;
    let context = WorkerContext {
        rt: shared.rt,
        alloc: shared.alloc,
        site,
        turn: &turn,
        digest: shared.digest,
        clock: shared.clock,
        gate: shared.gate,
    };
    match run_workers(&context, pass, tasks, crew) {
        Ok((pass, notes)) => {
            let history = close(turn, pass, shared.digest);
            Ok(settle(history, notes, room, lines, slots, desks, vault))
        }
        Err(tasks) => {
            tasks_back(tasks, lines, slots, desks, vault);
            Err(NotStarted::Memory)
        }
    }
}
