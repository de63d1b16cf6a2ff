// The devices of a site go with their workers.
ghost use Rattle.std.specs.Prelude.{◌≡◌, ◌+◌, ◌<◌, ◌≤◌, ◌∷◌, [], IsSomeAnd, None, Some, drop, length, vec_capacity, vec_len};
ghost use Rattle.std.specs.List.{AllByRecursion};
ghost use Rattle.cts_def.specs.Makers.{first_desk, first_slot};
ghost use Rattle.cts_def.specs.Most.{most_desks, most_interfaces, most_slots};
ghost use Rattle.cts_scribe.specs.Vaults.{AreBlank};
ghost use Rattle.cts_server.specs.Aims.{aimed_at};
ghost use Rattle.cts_server.specs.Kinds.{IsDesk, IsInterface, IsScribe, IsSlot};
ghost use Rattle.cts_server.specs.Making.{AreFit, FitsDesk, FitsLine, ReadyDesk, ReadyLine, ReadyScribe, Staffed, Taken};
ghost use Rattle.cts_server.specs.Places.{AreThere, IsThere};

use crate::aims::Aims;
use crate::places::{take_at, take_first};
use crate::running::Task;
use crate::{ByKind, Line, Work};
use cts_chain::Framer;
use cts_def::{FIRST_DESK, FIRST_SLOT, SCRIBE, Site};
use cts_outside::{Aim, Dialer, Vault};

/// All devices that the site needs are aimed, and leave their places for the tasks of their workers, in the order of these.
pub(crate) fn tasks_of<D: Dialer, Q: Dialer, V: Vault, C: Framer>(
    site: &Site,
    aims: Aims,
    mut chains: Vec<C>,
    lines: &mut [Option<D>],
    slots: &mut [Option<Q>],
    desks: &mut [Option<Q>],
    vault: &mut Option<V>,
    tasks: &mut Vec<Task<Work<D, Q, V, C>>>,
)
    requires there { AreThere most_interfaces lines.old × AreThere most_slots slots.old × AreThere most_desks desks.old }
    requires many { (vec_len aims.lines ≤ most_interfaces) × (vec_len aims.slots ≤ most_slots) × (vec_len aims.desks ≤ most_desks) }
    requires lines { AreFit (λ by c. FitsLine site.now by (C.shape c)) 0 aims.lines.items chains.items }
    requires slots { AreFit (λ by c. FitsLine site.now by (C.shape c)) first_slot aims.slots.items (drop (length aims.lines.items) chains.items) }
    requires desks { AreFit (FitsDesk site.now) first_desk aims.desks.items desks.old }
    requires vault { IsSomeAnd vault.old (λ v. AreBlank (V.seen v).told) }
    requires empty { tasks.old.items ≡ [] }
    requires room { vec_len aims.lines + vec_len aims.slots + vec_len aims.desks + 1 ≤ vec_capacity tasks.old }
    ensures staff { Staffed (IsInterface (λ by aim d l. ReadyLine site.now by aim (D.seen d) (D.seen l.device) (C.shape l.chain)))
        (IsSlot (λ by aim d l. ReadyLine site.now by aim (Q.seen d) (Q.seen l.device) (C.shape l.chain)))
        (IsDesk (λ by aim d k. ReadyDesk site.now by aim (Q.seen d) (Q.seen k))) (IsScribe (λ v. ReadyScribe V.seen site.now vault.old v))
        aims.lines.items aims.slots.items aims.desks.items lines.old lines.new slots.old slots.new desks.old desks.new tasks.new.items }
    ensures vault { vault.new ≡ None }
{
    let Aims {
        lines: line_aims,
        slots: slot_aims,
        desks: desk_aims,
    } = aims;
    line_tasks(site, lines, line_aims, &mut chains, tasks);
    slot_tasks(site, slots, slot_aims, &mut chains, tasks);
    desk_tasks(site, desks, desk_aims, tasks);
    tasks.push_reserved(Task {
        by: SCRIBE,
        work: ByKind::Scribe(take_vault(site, vault)),
    });
}

// The vault leaves its place for the scribe of the site.
fn take_vault<V: Vault>(site: &Site, vault: &mut Option<V>) -> V
    requires vault { IsSomeAnd vault.old (λ v. AreBlank (V.seen v).told) }
    ensures ready { ReadyScribe V.seen site.now vault.old result }
    ensures vault { vault.new ≡ None }
{
    let Some(vault) = vault.take() else {
        unreachable!()
    };
    vault
}

// What a line works with: its device leaves its place and is aimed, and its chain is the next one.
fn take_line<D: Dialer, C: Framer>(
    places: &mut [Option<D>],
    place: usize,
    aim: Aim,
    chains: &mut Vec<C>,
) -> Line<D, C>
    requires within { place < length places.old }
    requires there { AllByRecursion IsThere (drop place places.old) }
    requires chain { 0 < vec_len chains.old }
    ensures device { (d : D) × (drop place places.old ≡ Some d ∷ drop (place + 1) places.old) × (D.seen result.device ≡ aimed_at aim (D.seen d)) }
    ensures others { drop (place + 1) places.new ≡ drop (place + 1) places.old }
    ensures long { length places.new ≡ length places.old }
    ensures chain { chains.old.items ≡ result.chain ∷ chains.new.items }
{
    let mut device = take_at(places, place);
    device.aim(aim);
    Line {
        device,
        chain: take_first(chains),
    }
}

// Each interface of the site gets its dialer and its chain.
fn line_tasks<D: Dialer, C: Framer, S: Drop, K: Drop, V: Drop>(
    site: &Site,
    places: &mut [Option<D>],
    mut aims: Vec<Aim>,
    chains: &mut Vec<C>,
    tasks: &mut Vec<Task<ByKind<Line<D, C>, S, K, V>>>,
)
    requires there { AllByRecursion IsThere places.old }
    requires many { vec_len aims ≤ length places.old }
    requires few { length places.old ≤ most_interfaces }
    requires fit { AreFit (λ by c. FitsLine site.now by (C.shape c)) 0 aims.items chains.old.items }
    requires room { vec_len tasks.old + vec_len aims ≤ vec_capacity tasks.old }
    ensures taken { Taken (IsInterface (λ by aim d l. ReadyLine site.now by aim (D.seen d) (D.seen l.device) (C.shape l.chain)))
        0 aims.items places.old places.new tasks.old.items tasks.new.items }
    ensures chains { chains.new.items ≡ drop (length aims.items) chains.old.items }
    ensures room { vec_capacity tasks.new ≡ vec_capacity tasks.old }
{
    let mut place = 0;
    'lines: while !aims.is_empty() {
        let line = take_line(places, place, take_first(&mut aims), chains);
        tasks.push_reserved(Task {
            by: place as u32,
            work: ByKind::Interface(line),
        });
        place += 1;
    }
}

// Each slot of the site gets its door and its chain.
fn slot_tasks<Q: Dialer, C: Framer, I: Drop, K: Drop, V: Drop>(
    site: &Site,
    places: &mut [Option<Q>],
    mut aims: Vec<Aim>,
    chains: &mut Vec<C>,
    tasks: &mut Vec<Task<ByKind<I, Line<Q, C>, K, V>>>,
)
    requires there { AllByRecursion IsThere places.old }
    requires many { vec_len aims ≤ length places.old }
    requires few { length places.old ≤ most_interfaces }
    requires fit { AreFit (λ by c. FitsLine site.now by (C.shape c)) first_slot aims.items chains.old.items }
    requires room { vec_len tasks.old + vec_len aims ≤ vec_capacity tasks.old }
    ensures taken { Taken (IsSlot (λ by aim d l. ReadyLine site.now by aim (Q.seen d) (Q.seen l.device) (C.shape l.chain)))
        first_slot aims.items places.old places.new tasks.old.items tasks.new.items }
    ensures chains { chains.new.items ≡ drop (length aims.items) chains.old.items }
    ensures room { vec_capacity tasks.new ≡ vec_capacity tasks.old }
{
    let mut place = 0;
    'lines: while !aims.is_empty() {
        let line = take_line(places, place, take_first(&mut aims), chains);
        tasks.push_reserved(Task {
            by: FIRST_SLOT + place as u32,
            work: ByKind::Slot(line),
        });
        place += 1;
    }
}

// Each desk of the site gets its door.
fn desk_tasks<Q: Dialer, I: Drop, S: Drop, V: Drop>(
    site: &Site,
    places: &mut [Option<Q>],
    mut aims: Vec<Aim>,
    tasks: &mut Vec<Task<ByKind<I, S, Q, V>>>,
)
    requires there { AllByRecursion IsThere places.old }
    requires many { vec_len aims ≤ length places.old }
    requires few { length places.old ≤ most_interfaces }
    requires fit { AreFit (FitsDesk site.now) first_desk aims.items places.old }
    requires room { vec_len tasks.old + vec_len aims ≤ vec_capacity tasks.old }
    ensures taken { Taken (IsDesk (λ by aim d k. ReadyDesk site.now by aim (Q.seen d) (Q.seen k))) first_desk aims.items places.old places.new
        tasks.old.items tasks.new.items }
    ensures room { vec_capacity tasks.new ≡ vec_capacity tasks.old }
{
    let mut place = 0;
    'desks: while !aims.is_empty() {
        let aim = take_first(&mut aims);
        let mut door = take_at(places, place);
        door.aim(aim);
        tasks.push_reserved(Task {
            by: FIRST_DESK + place as u32,
            work: ByKind::Desk(door),
        });
        place += 1;
    }
}
