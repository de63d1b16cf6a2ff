// What is kept of all items and the events, as the history grows.
ghost use Rattle.std.specs.Prelude.{◌≡◌, ◌+◌, ◌-◌, ◌*◌, ◌<◌, ◌≤◌, ◌^◌, drop, length, max, option_map, slice_get, take, IfOk, OnOk, OnErr, None, Some};
ghost use Rattle.std.specs.List.{filter};
ghost use Rattle.std.specs.Option.{ForSome};
ghost use Rattle.cts_def.specs.declared.ident.Ident.TheVariants.{Known};
ghost use Rattle.cts_monitor.specs.Brought.{brings};
ghost use Rattle.cts_monitor.specs.Cells.{Fit};
ghost use Rattle.cts_monitor.specs.Events.{is_from};
ghost use Rattle.cts_monitor.specs.Grid.{GridTells, IsPartedAt, begun_grid, cell_in, cells_at, is_setting, known_part, sampled_packet};
ghost use Rattle.cts_monitor.specs.Places.{PlacesTell, room_at};
ghost use Rattle.cts_monitor.specs.Widest.{width_of};

use crate::cells::{Cell, Cells};
use crate::lending::lend;
use crate::places::Places;
use crate::types::LimitsEvent;
use crate::watching::watches;
use cts_base::Memory;
use cts_def::{Ident, Packet, Site};
use cts_entry::{Entry, Stands, What};
use std::alloc::Global;
use std::marker::Model;

/// What is kept of each item of each telemetry packet, the events so far, and how many more there are places for.
#[derive(Drop)]
pub(crate) struct Grid {
    rows: Vec<Cells>,
    events: Vec<LimitsEvent>,
    free: u64,
}

impl Model for Grid {
    ghost use Rattle.std.specs.Prelude.{◌+◌, ◌≤◌, vec_len, vec_capacity};
    ghost use Rattle.cts_monitor.specs.Grid.{GridData};

    ghost Value = { GridData };

    ghost view = { λ w. record { rows = w.rows.items; events = w.events.items; free = w.free } };

    ghost invariant = { λ w. vec_len w.events + w.free ≤ vec_capacity w.events };
}

// Whether the entry may change what counts for an item.
fn is_setting(entry: &Entry) -> bool
    ensures { result ≡ is_setting entry.now.what }
{
    matches!(
        entry.what,
        What::SetLimits { .. } | What::Enable { .. } | What::LimitsSetIs { .. }
    )
}

// The packet of the site's definitions that the entry brings, and its bytes.
fn brought_known(entry: &Entry) -> Option<(u32, &[u8])>
    ensures { option_map (λ b. (b.0, b.1.now)) result ≡ known_part (brings entry.now.what) }
{
    match &entry.what {
        What::Packet {
            ident: Ident::Known(number),
            stored: false,
            bytes,
        } => Some((*number, bytes.as_slice())),
        What::Injected { packet, bytes } => Some((*packet, bytes.as_slice())),
        _ => None,
    }
}

// How many events stand before those at entries from this one on.
fn first_from(events: &[LimitsEvent], from: u64) -> usize
    requires { IsPartedAt from events.now }
    ensures within { result ≤ length events.now }
    ensures found { drop result events.now ≡ filter (is_from from) events.now }
{
    let mut first = events.len();
    while first > 0 && from <= events[first - 1].at {
        first -= 1;
    }
    first
}

impl Grid {
    /// What is kept before the first entry: a row for each packet, and none where no item of the site is watched.
    pub(crate) fn begin(alloc: Global, site: &Site) -> Result<Grid, Memory>
        ensures { IfOk result (λ g. g ≡ begun_grid site.now) }
    {
        let mut rows = Vec::new(alloc);
        if watches(site) {
            for packet in site.definitions.telemetry.as_slice() {
                rows.push(Cells::begin(alloc, packet.items.as_slice())?)?;
            }
        }
        Ok(Grid {
            rows,
            events: Vec::new(alloc),
            free: 0,
        })
    }

    // Takes bytes of a packet of the site. It takes no memory.
    fn take(&mut self, at: u64, number: u32, packet: &Packet, bytes: &[u8])
        requires within { number < length self.old.rows }
        requires fit { Fit packet.now.items (cells_at self.old.rows number) }
        requires free { length packet.now.items ≤ self.old.free }
        ensures { self.new ≡ sampled_packet at number packet.now bytes.now self.old }
    {
        let row = &mut self.rows[number as usize];
        row.sample_all(at, number, packet, bytes, &mut self.events);
        self.free -= packet.items.len() as u64;
    }

    /// Takes memory until there are at least that many places for events.
    pub(crate) fn reserve(&mut self, free: u64) -> Result<(), Memory>
        requires { free < 2 ^ 60 }
        ensures ok { OnOk result (self.new ≡ record self.old { free = max self.old.free free }) }
        ensures err { OnErr result (self.new ≡ self.old) }
    {
        let wanted = self.free.max(free);
        if self.events.reserve(wanted as usize).is_err() {
            return Err(Memory);
        }
        self.free = wanted;
        Ok(())
    }

    // Takes bytes of a packet that the entry of this place, the last one, brings.
    fn bring<H: Stands>(&mut self, site: &Site, history: &H, at: u64, number: u32, bytes: &[u8])
        requires place { at + 1 ≡ length (H.list history.now) }
        requires few { length (H.list history.now) < 2 ^ 32 - 1 }
        requires brought { ForSome (slice_get (H.list history.now) at) (λ e. brings e.what ≡ Some (Known number, bytes.now)) }
        requires free { width_of site.now ≤ self.old.free }
        requires tells { GridTells site.now (take at (H.list history.now)) self.old }
        ensures tells { GridTells site.now (H.list history.now) self.new }
        ensures free { self.old.free ≤ self.new.free + width_of site.now }
    {
        if (number as usize) < self.rows.len() {
            let packet = &site.definitions.telemetry.as_slice()[number as usize];
            self.take(at, number, packet, bytes);
        }
    }

    // Keeps of each item what counts after the entry of this place, the last one, which brings no bytes.
    fn reset<H: Stands>(&mut self, site: &Site, places: &Places, history: &H, at: u64)
        requires place { at + 1 ≡ length (H.list history.now) }
        requires quiet { ForSome (slice_get (H.list history.now) at) (λ e. brings e.what ≡ None) }
        requires places { PlacesTell site.now (H.list history.now) places.now }
        requires tells { GridTells site.now (take at (H.list history.now)) self.old }
        ensures tells { GridTells site.now (H.list history.now) self.new }
        ensures free { self.new.free ≡ self.old.free }
    {
        for p in 0..self.rows.len() {
            let packet = &site.definitions.telemetry.as_slice()[p];
            self.rows[p].reset_all(packet, p as u32, places, site, history, at);
        }
    }

    /// Notes the entry of this place, the last one. It takes no memory.
    pub(crate) fn note<H: Stands>(&mut self, site: &Site, places: &Places, history: &H, at: u64)
        requires place { at + 1 ≡ length (H.list history.now) }
        requires few { length (H.list history.now) < 2 ^ 32 - 1 }
        requires free { width_of site.now * room_at (H.list history.now) at ≤ self.old.free }
        requires places { PlacesTell site.now (H.list history.now) places.now }
        requires tells { GridTells site.now (take at (H.list history.now)) self.old }
        ensures tells { GridTells site.now (H.list history.now) self.new }
        ensures free { self.old.free ≤ self.new.free + width_of site.now * room_at (H.list history.now) at }
    {
        let entry = lend(history, at);
        if is_setting(entry) {
            self.reset(site, places, history, at);
        } else if let Some((number, bytes)) = brought_known(entry) {
            self.bring(site, history, at, number, bytes);
        }
    }

    /// The events at entries from this one on. Of the others it looks at the last alone.
    pub(crate) fn events_from(&self, alloc: Global, from: u64) -> Result<Vec<LimitsEvent>, Memory>
        requires { IsPartedAt from self.now.events }
        ensures { IfOk result (λ found. found.items ≡ filter (is_from from) self.now.events) }
    {
        let first = first_from(self.events.as_slice(), from);
        let found = self.events[first..].iter().copied().collect(alloc)?;
        Ok(found)
    }

    /// What is kept of an item, where there is one of these numbers.
    pub(crate) fn cell(&self, packet: u32, item: u32) -> Option<Cell>
        ensures { result ≡ cell_in self.now.rows packet item }
    {
        match self.rows.as_slice().get(packet as usize) {
            Some(row) => row.cell(item),
            None => None,
        }
    }
}
