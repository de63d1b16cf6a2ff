// A server up to the end of its workers.
ghost use Rattle.std.specs.Prelude.{◌≡◌, ◌≢◌, ◌∷◌, [], false, map, IfErr, IfOk, IfSome, IsSome, IsSomeAnd, None, OnErr, OnOk, Some};
ghost use Rattle.std.specs.Arc.{arc_value};
ghost use Rattle.cts_chain.specs.Builds.{AreFresh, Taken};
ghost use Rattle.cts_connection.specs.LineChains.{line_chains, line_uses};
ghost use Rattle.cts_def.specs.Most.{most_interfaces};
ghost use Rattle.cts_def.specs.Sites.{SiteData};
ghost use Rattle.cts_scribe.specs.Vaults.{AreBlank};
ghost use Rattle.cts_server.specs.Places.{AreThere, most_doors};
ghost use Rattle.cts_server.specs.Ready.{ready_line};
ghost use Rattle.cts_server.specs.Serving.{HasIdled, HasServed};
ghost use Rattle.cts_run.specs.Command.{LeavesShelf, first_phases};
ghost use Rattle.cts_run.specs.Load.{digest_asked, site_asked};
ghost use Rattle.cts_run.specs.Phases.{FileCounts, Gives, LoadCounts, first_halt};
ghost use Rattle.cts_run.specs.Putting.{IsPut, SinkCounts};
ghost use Rattle.cts_serve.specs.Served.{serves_on};
ghost use Rattle.cts_serve.specs.Serving.{Finds, IsPlanned, UnstartedBy, answered, done_as};
ghost use Rattle.cts_run.specs.Start.{shelf_phase};
ghost use Rattle.cts_run.specs.Endings.{halt_status};
ghost use Rattle.cts_run.specs.declared.halt.status.Status.TheVariants.{Usage};

use cts_chain::Framer;
use cts_connection::{Supplier, build_chains};
use cts_def::Site;
use cts_outside::{Clock, Crew, Dialer, Files, Gate, Sink, Vault};
use cts_run::{Digest, FileName, Halt, load_site};
use cts_server::{NotStarted, Shared, Worked, serve_site};
use std::alloc::Global;
use std::sync::{Arc, Wait};
use std::thread::Threads;

// What a server is started from.
#[derive(Drop)]
struct Plan<C> {
    site: Arc<Site>,
    digest: Digest,
    // The chains of its lines, in the order of their numbers.
    chains: Vec<C>,
}

/// What a server is started with that no call of it changes: the runtime, its memory, the names of both files, the clock and the gate.
#[derive(Drop)]
pub(crate) struct Means<'h, 'a, R, K, G> {
    pub rt: &'h R,
    pub alloc: Global,
    pub definitions: &'h FileName<'a>,
    pub site: &'h FileName<'a>,
    pub clock: &'h K,
    pub gate: &'h G,
}

/// Reads definitions and a site, takes the boxes of its chains from the shelf, and lets the workers of the site work.
pub(crate) fn host<
    'a,
    R: Threads + Wait + Sync,
    C: Framer + Send,
    B: Supplier<C>,
    F: Files,
    O: Sink,
    D: Dialer + Send,
    Q: Dialer + Send,
    V: Vault + Send,
    K: Clock + Sync,
    W: Crew,
    G: Gate + Sync,
>(
    means: &Means<'_, 'a, R, K, G>,
    shelf: &mut B,
    files: &mut F,
    out: &mut O,
    lines: &mut Vec<Option<D>>,
    doors: &mut Vec<Option<Q>>,
    vault: &mut Option<V>,
    crew: &mut W,
) -> Result<Worked, Halt<'a>>
    requires lines { AreThere most_interfaces lines.old.items }
    requires doors { AreThere most_doors doors.old.items }
    requires vault { IsSomeAnd vault.old (λ v. AreBlank (V.seen v).told) }
    ensures stays { (F.seen files.new).told ≡ (F.seen files.old).told }
    ensures files { FileCounts result (F.seen files.old) (F.seen files.new) }
    ensures sink { SinkCounts result (O.seen out.old) (O.seen out.new) }
    ensures halts { IfErr result (λ h. IfSome (F.seen files.old).told
        (λ all. UnstartedBy (first_phases (B.stock shelf.old) all means.now.definitions.now means.now.site.now) h (O.seen out.old) (O.seen out.new))) }
    ensures unserved { IfErr result (λ h. serves_on (halt_status h) ≡ false) }
    ensures fits { IfErr result (λ h. halt_status h ≢ Usage) }
    ensures idle { OnErr result ((s : SiteData) × (digest : _)
        × IsPlanned (F.seen files.old).told (Some (means.now.definitions.now, means.now.site.now)) s digest
        × HasIdled D.seen Q.seen V.seen s lines.old.items lines.new.items doors.old.items doors.new.items vault.old vault.new (W.seen crew.old)
        (W.seen crew.new)) }
    ensures planned { OnOk result (IfSome (F.seen files.old).told
        (λ all. first_halt (first_phases (B.stock shelf.old) all means.now.definitions.now means.now.site.now) ≡ None)) }
    ensures ready { OnOk result (IsPut ready_line (O.seen out.old) (O.seen out.new)) }
    ensures served { IfOk result (λ w. (s : SiteData) × (digest : _)
        × IsPlanned (F.seen files.old).told (Some (means.now.definitions.now, means.now.site.now)) s digest
        × HasServed D.seen Q.seen V.seen s digest w lines.old.items lines.new.items doors.old.items doors.new.items vault.old vault.new
        (W.seen crew.old) (W.seen crew.new)) }
    ensures boxes { IfSome (F.seen files.old).told
        (λ all. LeavesShelf all means.now.definitions.now means.now.site.now (done_as result) (B.stock shelf.old) (B.stock shelf.new)) }
    ensures back { AreThere most_interfaces lines.new.items × AreThere most_doors doors.new.items × IsSome vault.new }
{
    match prepare(means.alloc, means.definitions, means.site, shelf, files) {
        Ok(plan) => {
            let Plan {
                site: own,
                digest,
                chains,
            } = plan;
            let shared = Shared {
                rt: means.rt,
                alloc: means.alloc,
                digest: digest.bytes(),
                clock: means.clock,
                gate: means.gate,
            };
            answered(serve_site(&shared, own, chains, out, lines, doors, vault, crew))
        }
        Err(halt) => Err(halt),
    }
}

// Reads definitions and a site, and takes the boxes of its chains from the shelf.
fn prepare<'a, C: Framer + Send, B: Supplier<C>, F: Files>(
    alloc: Global,
    definitions: &FileName<'a>,
    site: &FileName<'a>,
    shelf: &mut B,
    files: &mut F,
) -> Result<Plan<C>, Halt<'a>>
    ensures stays { (F.seen files.new).told ≡ (F.seen files.old).told }
    ensures counts { LoadCounts result (F.seen files.old) (F.seen files.new) }
    ensures finds { IfSome (F.seen files.old).told (λ all. Finds (first_phases (B.stock shelf.old) all definitions.now site.now)
        (λ plan. (arc_value plan.site ≡ site_asked all definitions.now site.now) × (plan.digest ≡ digest_asked all definitions.now)) result) }
    ensures fresh { IfOk result (λ plan. AreFresh (line_chains (arc_value plan.site)) (map C.shape plan.chains.items)) }
    ensures boxes { IfSome (F.seen files.old).told (λ all. LeavesShelf all definitions.now site.now (done_as result) (B.stock shelf.old) (B.stock shelf.new)) }
{
    match load_site(alloc, files, definitions, site) {
        Ok((site, digest)) => plan_of(alloc, site, digest, shelf),
        Err(halt) => Err(halt),
    }
}

// What a server of a site is started from. Where it halts the shelf is as it was.
fn plan_of<'a, C: Framer + Send, B: Supplier<C>>(
    alloc: Global,
    site: Site,
    digest: Digest,
    shelf: &mut B,
) -> Result<Plan<C>, Halt<'a>>
    ensures gives { Gives (shelf_phase (B.stock shelf.old) site ∷ []) (λ plan. (arc_value plan.site ≡ site) × (plan.digest ≡ digest)) result }
    ensures fresh { IfOk result (λ plan. AreFresh (line_chains (arc_value plan.site)) (map C.shape plan.chains.items)) }
    ensures taken { OnOk result (Taken (B.stock shelf.old) (line_uses site) (B.stock shelf.new)) }
    ensures kept { OnErr result (B.stock shelf.new ≡ B.stock shelf.old) }
{
    match Arc::new(alloc, site) {
        Ok(site) => match build_chains(alloc, &site, shelf) {
            Ok(chains) => Ok(Plan {
                site,
                digest,
                chains,
            }),
            Err(why) => Err(Halt::from(why)),
        },
        Err(_) => Err(Halt::Memory),
    }
}

// What a server answers whose workers have worked, or have not begun.
fn answered<'a>(served: Result<Worked, NotStarted>) -> Result<Worked, Halt<'a>>
    ensures { result ≡ answered served }
{
    match served {
        Ok(worked) => Ok(worked),
        Err(NotStarted::Memory) => Err(Halt::Memory),
        Err(NotStarted::WriteFault) => Err(Halt::WriteFault),
    }
}
