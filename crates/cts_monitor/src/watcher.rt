// What is kept of limits as the history grows.
ghost use Rattle.std.specs.Prelude.{◌≡◌, ◌+◌, ◌-◌, ◌<◌, ◌≤◌, ◌^◌, [], length, max, is_none, not, take, IfOk, OnOk, OnErr};
ghost use Rattle.cts_base.specs.Names.{in_upper_case};
ghost use Rattle.cts_def.specs.Most.{most_items, most_sets};
ghost use Rattle.cts_monitor.specs.Events.{events_from};
ghost use Rattle.cts_monitor.specs.Items.{has_limits, item_at};
ghost use Rattle.cts_monitor.specs.Places.{GivenTells, room_at};
ghost use Rattle.cts_monitor.specs.Samples.{setting_of, state_at};
ghost use Rattle.cts_monitor.specs.Sets.{is_set_known, sets_known};
ghost use Rattle.cts_monitor.specs.Settings.{current_set, limits_of, limits_used_of, watched};
ghost use Rattle.cts_monitor.specs.Watcher.{WatcherTells};
ghost use Rattle.cts_monitor.specs.Widest.{widest, width_of};

use crate::choices::DEFAULT;
use crate::finding::watched_at;
use crate::grid::Grid;
use crate::lending::lend;
use crate::places::Places;
use crate::types::{LimitsEvent, LimitsUsed, Setting};
use crate::watching::watches;
use cts_base::{Memory, Name};
use cts_def::{Color, Item, Packet, Site};
use cts_entry::{Stands, entries_for};
use std::alloc::Global;
use std::marker::Model;

/// What is kept of limits as a history grows: the setting that counts and the limits state of each item, the changes of the states, and
/// where the entries stand that set limits. There is room for what some more entries make of it.
#[derive(Drop)]
pub struct Watcher {
    grid: Grid,
    places: Places,
    width: u64,
    spare: u64,
}

impl Model for Watcher {
    ghost use Rattle.cts_monitor.specs.Watcher.{HasSpare, WatcherData};

    ghost Value = { WatcherData };

    ghost view = { λ w. record {
      rows = w.grid.rows;
      events = w.grid.events;
      given = w.places.given;
      sets = w.places.sets;
      chosen = w.places.chosen;
      width = w.width;
      spare = w.spare;
    } };

    ghost invariant = { λ w. HasSpare w.width w.spare w.grid.free w.places.free };
}

// The most items of a telemetry packet.
fn widest(site: &Site) -> u64
    ensures widest { result ≡ widest site.now }
    ensures narrow { result ≤ most_items }
{
    let mut most = 0;
    for packet in site.definitions.telemetry.as_slice() {
        most = packet.items.len().max(most);
    }
    most as u64
}

// How many events an entry may make.
fn width_of(site: &Site) -> u64
    ensures width { result ≡ width_of site.now }
    ensures narrow { result ≤ most_items }
{
    if watches(site) { widest(site) } else { 0 }
}

// A site's definitions name no more limits sets than a server holds.
fn recall_few_sets(site: &Site)
    ensures { length site.now.definitions.set_names ≤ most_sets }
{
    let _packets = site.definitions.telemetry.as_slice();
}

fn limits_used_of<H: Stands>(
    held: &Packet,
    found: &Item,
    packet: u32,
    item: u32,
    set: &[u8],
    setting: Setting,
    places: &Places,
    history: &H,
) -> Option<LimitsUsed>
    requires given { GivenTells (H.list history.now) places.now.given }
    requires setting { setting ≡ setting_of (watched held.now found.now packet item) (H.list history.now) }
    ensures used { result ≡ limits_used_of (watched held.now found.now packet item) (in_upper_case set.now) (H.list history.now) }
    ensures none { is_none result ≡ is_none found.now.limits }
{
    let own = places.limits(&found.limits, packet, item, set, history);
    let limits = own.or(places.limits(&found.limits, packet, item, DEFAULT, history))?;
    Some(LimitsUsed {
        own: own.is_some(),
        limits,
        persistence: setting.persistence,
        enabled: setting.enabled,
    })
}

impl Watcher {
    /// It stands for a history of the site that has no entries, and has room for none. `Memory` where none was found for what is kept of
    /// the items and of the sets.
    pub fn begin(alloc: Global, site: &Site) -> Result<Watcher, Memory>
        ensures tells { IfOk result (λ w. WatcherTells site.now [] w) }
        ensures spare { IfOk result (λ w. w.spare ≡ 0) }
        ensures few { IfOk result (λ w. sets_known site.now [] ≤ most_sets) }
    {
        recall_few_sets(site);
        let grid = Grid::begin(alloc, site)?;
        let places = Places::begin(alloc)?;
        Ok(Watcher {
            grid,
            places,
            width: width_of(site),
            spare: 0,
        })
    }

    /// Makes room for what at least that number of entries makes of it. After a `Memory` nothing else has changed.
    pub fn reserve(&mut self, entries: u64) -> Result<(), Memory>
        requires { entries < 2 ^ 40 }
        ensures ok { OnOk result (self.new ≡ record self.old { spare = max self.old.spare entries }) }
        ensures err { OnErr result (self.new ≡ self.old) }
    {
        let wanted = self.spare.max(entries);
        self.grid.reserve(self.width * wanted)?;
        self.places.reserve(wanted)?;
        self.spare = wanted;
        Ok(())
    }

    /// Takes the entry of this place, the last one, for which there is room: then it stands for the history with it. It takes no memory.
    pub fn note<H: Stands>(&mut self, site: &Site, history: &H, at: u64)
        requires place { at + 1 ≡ length (H.list history.now) }
        requires few { length (H.list history.now) < 2 ^ 32 - 1 }
        requires sets { sets_known site.now (H.list history.now) ≤ most_sets }
        requires spare { room_at (H.list history.now) at ≤ self.old.spare }
        requires tells { WatcherTells site.now (take at (H.list history.now)) self.old }
        ensures tells { WatcherTells site.now (H.list history.now) self.new }
        ensures spare { self.new.spare ≡ self.old.spare - room_at (H.list history.now) at }
    {
        let room = entries_for(&lend(history, at).what);
        self.places.note(site, history, at);
        self.grid.note(site, &self.places, history, at);
        self.spare -= room;
    }

    /// The current limits set.
    pub fn limits_set<'a, H: Stands>(&self, site: &'a Site, history: &'a H) -> &'a Name
        requires { WatcherTells site.now (H.list history.now) self.now }
        ensures { result.now ≡ current_set (H.list history.now) }
    {
        self.places.current(site, history)
    }

    /// Whether a limits set is known, by its name in any case.
    pub fn set_known<H: Stands>(&self, site: &Site, history: &H, set: &[u8]) -> bool
        requires { WatcherTells site.now (H.list history.now) self.now }
        ensures { result ≡ is_set_known site.now (H.list history.now) (in_upper_case set.now) }
    {
        self.places.set_known(site, history, set)
    }

    /// How many limits sets are known.
    pub fn sets_known<H: Stands>(&self, site: &Site, history: &H) -> u32
        requires tells { WatcherTells site.now (H.list history.now) self.now }
        requires few { sets_known site.now (H.list history.now) ≤ most_sets }
        ensures { result ≡ sets_known site.now (H.list history.now) }
    {
        self.places.sets_known(site, history)
    }

    /// The limits of an item of the site that count where a set is asked for, by its name in any case: `own` says whether the item
    /// has limits in that set, and else they are those of DEFAULT as they are now. `None` exactly where the item has no limits.
    pub fn limits_of<H: Stands>(
        &self,
        site: &Site,
        history: &H,
        packet: u32,
        item: u32,
        set: &[u8],
    ) -> Option<LimitsUsed>
        requires { WatcherTells site.now (H.list history.now) self.now }
        ensures used { result ≡ limits_of site.now packet item (in_upper_case set.now) (H.list history.now) }
        ensures none { is_none result ≡ not (has_limits (item_at site.now packet item)) }
    {
        let (held, found) = watched_at(site, packet, item)?;
        let cell = self.grid.cell(packet, item)?;
        limits_used_of(
            held,
            found,
            packet,
            item,
            set,
            cell.setting,
            &self.places,
            history,
        )
    }

    /// The limits state of an item of the site, and Stale where there is no such item.
    pub fn state_of<H: Stands>(&self, site: &Site, history: &H, packet: u32, item: u32) -> Color
        requires { WatcherTells site.now (H.list history.now) self.now }
        ensures { result ≡ state_at site.now packet item (H.list history.now) }
    {
        match self.grid.cell(packet, item) {
            Some(cell) => cell.state.color,
            None => Color::Stale,
        }
    }

    /// The changes of limits states at the entries from this one on, in the order of the entries, and at one entry in the order of the
    /// items. `Memory` where none was found for them.
    pub fn events<H: Stands>(
        &self,
        alloc: Global,
        site: &Site,
        history: &H,
        from: u64,
    ) -> Result<Vec<LimitsEvent>, Memory>
        requires { WatcherTells site.now (H.list history.now) self.now }
        ensures { IfOk result (λ found. found.items ≡ events_from site.now (H.list history.now) from) }
    {
        self.grid.events_from(alloc, from)
    }
}
