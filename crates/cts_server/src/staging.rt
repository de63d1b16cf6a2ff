// What there is before the workers of a site begin.
ghost use Rattle.std.specs.Prelude.{◌≡◌, [], false, true, IfOk, IsSome, IsSomeAnd, OnErr, map};
ghost use Rattle.std.specs.Arc.{arc_value};
ghost use Rattle.cts_chain.specs.Builds.{AreFresh};
ghost use Rattle.cts_connection.specs.LineChains.{line_chains};
ghost use Rattle.cts_def.specs.Most.{most_desks, most_interfaces, most_slots};
ghost use Rattle.cts_def.specs.Sites.{IsSoundSite};
ghost use Rattle.cts_outside.specs.Seen.{CrewSeen};
ghost use Rattle.cts_scribe.specs.Vaults.{AreBlank};
ghost use Rattle.cts_server.specs.Aims.{desk_aims, line_aims, slot_aims};
ghost use Rattle.cts_server.specs.Begun.{IsBegun, IsRoom, IsStaged};
ghost use Rattle.cts_server.specs.Owed.{server_basis};
ghost use Rattle.cts_server.specs.Places.{AreThere};
ghost use Rattle.cts_server.specs.Ready.{PutsReady, ReadyFailed, ReadyPut};
ghost use Rattle.cts_server.specs.Serving.{IdledParts};
ghost use Rattle.cts_turn.specs.Lists.{makers_from};
ghost use Rattle.cts_turn.specs.Passes.{IsPassOf, view};
ghost use Rattle.cts_worker.specs.Grounds.{ground};

use crate::Work;
use crate::aims::{Aims, aims_of};
use crate::running::Task;
use crate::tasks::tasks_of;
use crate::undone::tasks_back;
use crate::worked::{DeskNote, NotStarted};
use cts_base::Memory;
use cts_chain::Framer;
use cts_def::{MOST_DESKS, MOST_LINES, Site};
use cts_line::LineWhy;
use cts_outside::{Dialer, Sink, Vault};
use cts_table::Hall;
use cts_turn::{Pass, Turn};
use std::alloc::Global;
use std::sync::Arc;

/// How many workers a site may have: its lines, its desks and the scribe.
const MOST_WORKERS: usize = MOST_LINES + MOST_DESKS as usize + 1;

/// What there is before a device leaves its place: the turn with the pass of all makers, the aims, the chains, and the room for what the
/// workers leave.
#[derive(Drop)]
pub struct Begun<C: Drop> {
    pub(crate) turn: Turn<Hall>,
    pub(crate) pass: Pass<Hall>,
    pub(crate) aims: Aims,
    pub(crate) chains: Vec<C>,
    pub(crate) room: Room,
}

/// Room for what each line and each desk leaves.
#[derive(Drop)]
pub struct Room {
    pub(crate) whys: Vec<LineWhy>,
    pub(crate) left: Vec<DeskNote>,
}

/// What there is when the workers may begin: the turn with the pass of all makers, the tasks with the devices, and the room for what the
/// workers leave.
#[derive(Drop)]
pub struct Staged<D, Q, V, C> {
    pub turn: Turn<Hall>,
    pub pass: Pass<Hall>,
    pub tasks: Vec<Task<Work<D, Q, V, C>>>,
    pub room: Room,
}

/// Makes all that is made before a device leaves its place, but the tasks.
///
/// # Errors
///
/// `Memory`.
pub fn begin<C: Framer>(alloc: Global, site: &Arc<Site>, chains: Vec<C>) -> Result<Begun<C>, Memory>
    ensures pass { IfOk result (λ b. IsPassOf b.turn b.pass × ((view b.pass).makers ≡ makers_from 0) × ((view b.pass).seen ≡ [])) }
    ensures ground { IfOk result (λ b. (ground b.turn ≡ server_basis (arc_value site.now)) × IsSoundSite (arc_value site.now)) }
    ensures aims { IfOk result (λ b. (b.aims.lines.items ≡ line_aims (arc_value site.now)) × (b.aims.slots.items ≡ slot_aims (arc_value site.now))
        × (b.aims.desks.items ≡ desk_aims (arc_value site.now))) }
    ensures chains { IfOk result (λ b. b.chains.items ≡ chains.items) }
    ensures room { IfOk result (λ b. IsRoom b.room) }
{
    let aims = aims_of(alloc, site)?;
    let whys = Vec::with_capacity(alloc, MOST_LINES)?;
    let left = Vec::with_capacity(alloc, MOST_DESKS as usize)?;
    let hall = Hall::new(alloc, site.clone()?)?;
    hall.is_kept();
    let (turn, pass) = Turn::new(alloc, hall)?;
    Ok(Begun {
        turn,
        pass,
        aims,
        chains,
        room: Room { whys, left },
    })
}

// Whether the line was put that says that the workers begin.
fn puts_ready<O: Sink>(out: &mut O) -> bool
    ensures put { result ≡ true → ReadyPut (O.seen out.old) (O.seen out.new) }
    ensures fault { result ≡ false → ReadyFailed (O.seen out.old) (O.seen out.new) }
{
    match out.put(b"READY\n") {
        Ok(()) => true,
        Err(_) => false,
    }
}

/// All devices that the site needs are aimed and go with the tasks of their workers, and then the line is put that says that these begin.
///
/// # Errors
///
/// `Memory`, and `WriteFault` where the line could not be put. Each device stands in its place then.
pub fn stage<D: Dialer, Q: Dialer, V: Vault, C: Framer, O: Sink>(
    alloc: Global,
    site: &Site,
    begun: Begun<C>,
    out: &mut O,
    lines: &mut [Option<D>],
    slots: &mut [Option<Q>],
    desks: &mut [Option<Q>],
    vault: &mut Option<V>,
) -> Result<Staged<D, Q, V, C>, NotStarted>
    requires begun { IsBegun site.now begun }
    requires chains { AreFresh (line_chains site.now) (map C.shape begun.chains.items) }
    requires there { AreThere most_interfaces lines.old × AreThere most_slots slots.old × AreThere most_desks desks.old × IsSomeAnd vault.old
        (λ v. AreBlank (V.seen v).told) }
    ensures staged { IfOk result (λ s. IsStaged D.seen Q.seen V.seen C.shape site.now lines.old lines.new slots.old slots.new desks.old desks.new vault.old s) }
    ensures idle { OnErr result ((crew : CrewSeen) → IdledParts D.seen Q.seen V.seen site.now
        lines.old lines.new slots.old slots.new desks.old desks.new vault.old vault.new crew crew) }
    ensures ready { PutsReady (O.seen out.old) (O.seen out.new) result }
    ensures back { OnErr result (AreThere most_interfaces lines.new × AreThere most_slots slots.new × AreThere most_desks desks.new × IsSome vault.new) }
{
    let Begun {
        turn,
        pass,
        aims,
        chains,
        room,
    } = begun;
    let Ok(mut tasks) = Vec::with_capacity(alloc, MOST_WORKERS) else {
        return Err(NotStarted::Memory);
    };
    tasks_of(site, aims, chains, lines, slots, desks, vault, &mut tasks);
    if !puts_ready(out) {
        tasks_back(tasks, lines, slots, desks, vault);
        return Err(NotStarted::WriteFault);
    }
    Ok(Staged {
        turn,
        pass,
        tasks,
        room,
    })
}
