// What is kept of a packet's items as the history grows.
ghost use Rattle.std.specs.Prelude.{◌≡◌, ◌+◌, ◌<◌, ◌≤◌, ◌++◌, length, map, slice_get, take, vec_len, vec_capacity, IfOk, None};
ghost use Rattle.std.specs.List.{Contains};
ghost use Rattle.std.specs.Option.{ForSome};
ghost use Rattle.cts_limits.specs.States.{change_from};
ghost use Rattle.cts_monitor.specs.Brought.{brings};
ghost use Rattle.cts_monitor.specs.Cells.{CanSample, CellsTell, Fit, begun_cell, first_limits, sampled, sampled_all, turns};
ghost use Rattle.cts_monitor.specs.Events.{as_event};
ghost use Rattle.cts_monitor.specs.Places.{PlacesTell};
ghost use Rattle.cts_monitor.specs.Samples.{setting_of};
ghost use Rattle.cts_monitor.specs.Settings.{watched};

use crate::choices::DEFAULT;
use crate::lending::lend;
use crate::places::Places;
use crate::sampling::take;
use crate::settings::{
    enabling_told, first_enabled, first_persistence, limits_in, may_set, persistence_told,
};
use crate::types::{LimitsEvent, Setting};
use cts_base::Memory;
use cts_def::{Item, Limits, LimitsSetup, Packet, Site};
use cts_entry::{Entry, Stands};
use cts_limits::{Change, RunState, fresh};
use std::alloc::Global;
use std::marker::Model;

/// What is kept of an item: its limits state with the run, and what counts for it.
#[derive(Clone, Copy)]
pub(crate) struct Cell {
    pub state: RunState,
    pub setting: Setting,
}

/// What is kept of each item of a packet.
#[derive(Drop)]
pub(crate) struct Cells {
    cells: Vec<Cell>,
}

impl Model for Cells {
    ghost use Rattle.std.specs.Prelude.{List};
    ghost use Rattle.cts_monitor.specs.declared.cells.Cell.{Cell};

    ghost Value = { List Cell };

    ghost view = { λ r. r.cells.items };
}

// The limits of DEFAULT in an item's definition.
fn first_limits(setup: &Option<LimitsSetup>) -> Option<Limits>
    ensures { result ≡ first_limits setup.now }
{
    match setup {
        None => None,
        Some(setup) => limits_in(DEFAULT, setup.sets.as_slice()),
    }
}

// An item of a packet that has limits, and the numbers of both.
#[derive(Clone, Copy)]
struct WatchedItem<'a> {
    packet: &'a Packet,
    item: &'a Item,
    number: u32,
    index: u32,
}

// What counts for an item after the entry of this place, the last one, where this counted before it.
fn setting_after<H: Stands>(
    of: &WatchedItem<'_>,
    before: Setting,
    places: &Places,
    site: &Site,
    history: &H,
    at: u64,
) -> Setting
    requires place { at + 1 ≡ length (H.list history.now) }
    requires places { PlacesTell site.now (H.list history.now) places.now }
    requires before { before ≡ setting_of (watched of.now.packet.now of.now.item.now of.now.number of.now.index) (take at (H.list history.now)) }
    ensures { result ≡ setting_of (watched of.now.packet.now of.now.item.now of.now.number of.now.index) (H.list history.now) }
{
    let entry = lend(history, at);
    if !may_set(entry, of.number, of.index) {
        return before;
    }
    let item = of.item;
    let current = places.current(site, history).as_slice();
    let own = places.limits(&item.limits, of.number, of.index, current, history);
    Setting {
        limits: own.or(places.limits(&item.limits, of.number, of.index, DEFAULT, history)),
        persistence: persistence_told(entry, of.number, of.index).unwrap_or(before.persistence),
        enabled: enabling_told(entry, of.number, of.index).unwrap_or(before.enabled),
    }
}

impl Cell {
    /// What is kept of an item before the first entry.
    fn begin(item: &Item) -> Cell
        ensures { result ≡ begun_cell item.now }
    {
        Cell {
            state: fresh(),
            setting: Setting {
                limits: first_limits(&item.limits),
                persistence: first_persistence(&item.limits),
                enabled: first_enabled(&item.limits),
            },
        }
    }

    // Keeps what counts after the entry of this place, the last one.
    fn reset<H: Stands>(
        &mut self,
        of: &WatchedItem<'_>,
        places: &Places,
        site: &Site,
        history: &H,
        at: u64,
    )
        requires place { at + 1 ≡ length (H.list history.now) }
        requires places { PlacesTell site.now (H.list history.now) places.now }
        requires before { self.old.setting ≡ setting_of (watched of.now.packet.now of.now.item.now of.now.number of.now.index) (take at (H.list history.now)) }
        ensures { self.new ≡ record self.old {
          setting
              = setting_of (watched of.now.packet.now of.now.item.now of.now.number of.now.index) (H.list history.now);
        } }
    {
        self.setting = setting_after(of, self.setting, places, site, history, at);
    }

    /// Takes the packet's bytes, and tells the change of the state.
    fn take(&mut self, packet: &Packet, item: &Item, bytes: &[u8]) -> Option<Change>
        requires held { Contains packet.now.items item.now }
        requires can { CanSample item.now self.old }
        ensures kept { self.new ≡ sampled packet.now bytes.now item.now self.old }
        ensures change { result ≡ change_from self.old.state.color self.new.state.color }
    {
        let _kind = item.kind;
        let (state, change) = take(packet, item, self.setting, bytes, self.state);
        self.state = state;
        change
    }
}

// Appends the event of a change, if there is one, where there is a place for it.
fn tell_reserved(
    at: u64,
    packet: u32,
    item: u32,
    change: Option<Change>,
    events: &mut Vec<LimitsEvent>,
)
    requires { vec_len events.old < vec_capacity events.old }
    ensures items { events.new.items ≡ events.old.items ++ as_event at packet item change }
    ensures len { vec_len events.new ≤ vec_len events.old + 1 }
    ensures capacity { vec_capacity events.new ≡ vec_capacity events.old }
{
    if let Some(change) = change {
        events.push_reserved(LimitsEvent {
            at,
            packet,
            item,
            before: change.before,
            after: change.after,
        });
    }
}

impl Cells {
    /// What is kept of these items before the first entry.
    pub(crate) fn begin(alloc: Global, items: &[Item]) -> Result<Cells, Memory>
        ensures { IfOk result (λ r. r ≡ map begun_cell items.now) }
    {
        let mut cells = Vec::new(alloc);
        for item in items {
            cells.push(Cell::begin(item))?;
        }
        Ok(Cells { cells })
    }

    /// Takes the packet's bytes at each item in order, and appends the events, for which there are places.
    pub(crate) fn sample_all(
        &mut self,
        at: u64,
        number: u32,
        packet: &Packet,
        bytes: &[u8],
        events: &mut Vec<LimitsEvent>,
    )
        requires fit { Fit packet.now.items self.old }
        requires places { vec_len events.old + length packet.now.items ≤ vec_capacity events.old }
        ensures cells { self.new ≡ sampled_all packet.now bytes.now packet.now.items self.old }
        ensures events { events.new.items ≡ events.old.items ++ turns at number 0 packet.now bytes.now packet.now.items self.old }
        ensures len { vec_len events.new ≤ vec_len events.old + length packet.now.items }
        ensures capacity { vec_capacity events.new ≡ vec_capacity events.old }
    {
        let items = packet.items.as_slice();
        for i in 0..items.len() {
            let change = self.cells[i].take(packet, &items[i], bytes);
            tell_reserved(at, number, i as u32, change, events);
        }
    }

    /// Keeps of each item what counts after the entry of this place, the last one, which brings no bytes.
    pub(crate) fn reset_all<H: Stands>(
        &mut self,
        packet: &Packet,
        number: u32,
        places: &Places,
        site: &Site,
        history: &H,
        at: u64,
    )
        requires place { at + 1 ≡ length (H.list history.now) }
        requires quiet { ForSome (slice_get (H.list history.now) at) (λ e. brings e.what ≡ None) }
        requires places { PlacesTell site.now (H.list history.now) places.now }
        requires tells { CellsTell packet.now number 0 (take at (H.list history.now)) packet.now.items self.old }
        ensures { CellsTell packet.now number 0 (H.list history.now) packet.now.items self.new }
    {
        let items = packet.items.as_slice();
        for i in 0..items.len() {
            let of = WatchedItem {
                packet,
                item: &items[i],
                number,
                index: i as u32,
            };
            self.cells[i].reset(&of, places, site, history, at);
        }
    }

    /// What is kept of an item, if there is one of this number.
    pub(crate) fn cell(&self, item: u32) -> Option<Cell>
        ensures { result ≡ slice_get self.now item }
    {
        self.cells.as_slice().get(item as usize).copied()
    }
}
