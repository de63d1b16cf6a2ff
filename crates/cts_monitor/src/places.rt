// Where the entries stand that set limits, so that what counts is found without the others.
ghost use Rattle.std.specs.Prelude.{◌≡◌, ◌+◌, ◌-◌, ◌<◌, ◌≤◌, ◌^◌, ◌||◌, length, max, slice_get, take, IfOk, OnOk, OnErr, Some};
ghost use Rattle.std.specs.List.{flat_map, list_any};
ghost use Rattle.std.specs.Option.{ForSome, option_copied};
ghost use Rattle.cts_base.specs.Names.{in_upper_case};
ghost use Rattle.cts_def.specs.Most.{most_sets};
ghost use Rattle.cts_entry.specs.Histories.{latest};
ghost use Rattle.cts_monitor.specs.Places.{GivenTells, IsChoiceAt, PlacesTell, SetsTell, begun_places, limits_at, names_at, room_at};
ghost use Rattle.cts_monitor.specs.Sets.{is_among, is_set_known, set_named, sets_known};
ghost use Rattle.cts_monitor.specs.Settings.{current_set, limits_in, sets_told, sets_with};

use crate::choices::{default_name, set_chosen};
use crate::known::{is_among, names_set, set_named};
use crate::lending::lend;
use crate::settings::{limits_in, limits_told};
use cts_base::{Memory, Name};
use cts_def::{Limits, LimitsSetup, Site};
use cts_entry::{Entry, Stands};
use std::alloc::Global;
use std::marker::Model;

/// How many sets may be known.
const MOST_SETS: usize = 64;

/// The places of the entries that give limits, of those that named a set which the site lacks, and of the one that chose the
/// current set.
#[derive(Drop)]
pub(crate) struct Places {
    given: Vec<u64>,
    sets: Vec<u64>,
    chosen: Option<u64>,
    free: u64,
}

impl Model for Places {
    ghost use Rattle.std.specs.Prelude.{◌+◌, ◌≤◌, vec_len, vec_capacity};
    ghost use Rattle.cts_monitor.specs.Places.{PlacesData};

    ghost Value = { PlacesData };

    ghost view = { λ p. record { given = p.given.items; sets = p.sets.items; chosen = p.chosen; free = p.free } };

    ghost invariant = { λ p. (vec_len p.given + p.free ≤ vec_capacity p.given) × (64 ≤ vec_capacity p.sets) };
}

// The entry at a place, where there is one.
fn entry_at<H: Stands>(history: &H, n: u64) -> Option<&Entry>
    ensures { option_copied result ≡ slice_get (H.list history.now) n }
{
    if n < history.count() {
        Some(lend(history, n))
    } else {
        None
    }
}

fn names_at<H: Stands>(history: &H, set: &[u8], n: u64) -> bool
    ensures { result ≡ names_at (H.list history.now) (in_upper_case set.now) n }
{
    match entry_at(history, n) {
        Some(entry) => names_set(entry, set),
        None => false,
    }
}

fn limits_at<H: Stands>(history: &H, set: &[u8], packet: u32, item: u32, n: u64) -> Option<Limits>
    ensures { result ≡ limits_at (H.list history.now) (in_upper_case set.now) packet item n }
{
    match entry_at(history, n) {
        Some(entry) => limits_told(entry, packet, item, set),
        None => None,
    }
}

impl Places {
    /// The places before the first entry.
    pub(crate) fn begin(alloc: Global) -> Result<Places, Memory>
        ensures { IfOk result (λ p. p ≡ begun_places) }
    {
        Ok(Places {
            given: Vec::new(alloc),
            sets: Vec::with_capacity(alloc, MOST_SETS)?,
            chosen: None,
            free: 0,
        })
    }

    /// Makes room for the places of at least that number of entries.
    pub(crate) fn reserve(&mut self, free: u64) -> Result<(), Memory>
        requires { free < 2 ^ 60 }
        ensures ok { OnOk result (self.new ≡ record self.old { free = max self.old.free free }) }
        ensures err { OnErr result (self.new ≡ self.old) }
    {
        let wanted = self.free.max(free);
        if self.given.reserve(wanted as usize).is_err() {
            return Err(Memory);
        }
        self.free = wanted;
        Ok(())
    }

    /// The current set.
    pub(crate) fn current<'a, H: Stands>(&self, site: &'a Site, history: &'a H) -> &'a Name
        requires { IsChoiceAt (H.list history.now) self.now.chosen }
        ensures { result.now ≡ current_set (H.list history.now) }
    {
        let Some(n) = self.chosen else {
            return default_name(site);
        };
        match set_chosen(lend(history, n)) {
            Some(set) => set,
            None => default_name(site),
        }
    }

    fn is_named<H: Stands>(&self, history: &H, set: &[u8]) -> bool
        ensures { result ≡ list_any (names_at (H.list history.now) (in_upper_case set.now)) self.now.sets }
    {
        self.sets.iter().any(|n| names_at(history, set, *n))
    }

    // Whether the site has the set, or the entry at one of the places names it.
    fn is_known<H: Stands>(&self, site: &Site, history: &H, set: &Name) -> bool
        ensures { result ≡ (is_among site.now.definitions.set_names set.now || list_any (names_at (H.list history.now) set.now) self.now.sets) }
    {
        is_among(site.definitions.set_names.as_slice(), set.as_slice())
            || self.is_named(history, set.as_slice())
    }

    /// Whether a limits set is known, by its name in any case.
    pub(crate) fn set_known<H: Stands>(&self, site: &Site, history: &H, set: &[u8]) -> bool
        requires { SetsTell site.now (H.list history.now) self.now.sets }
        ensures { result ≡ is_set_known site.now (H.list history.now) (in_upper_case set.now) }
    {
        is_among(site.definitions.set_names.as_slice(), set) || self.is_named(history, set)
    }

    /// How many limits sets are known.
    pub(crate) fn sets_known<H: Stands>(&self, site: &Site, history: &H) -> u32
        requires tells { SetsTell site.now (H.list history.now) self.now.sets }
        requires few { sets_known site.now (H.list history.now) ≤ most_sets }
        ensures { result ≡ sets_known site.now (H.list history.now) }
    {
        (site.definitions.set_names.len() + self.sets.len()) as u32
    }

    fn limits_given<H: Stands>(
        &self,
        history: &H,
        packet: u32,
        item: u32,
        set: &[u8],
    ) -> Option<Limits>
        ensures { result ≡ latest (limits_at (H.list history.now) (in_upper_case set.now) packet item) self.now.given }
    {
        let mut found = None;
        for n in self.given.as_slice() {
            found = limits_at(history, set, packet, item, *n).or(found);
        }
        found
    }

    /// The limits of an item in a set, as they stand after the entries.
    pub(crate) fn limits<H: Stands>(
        &self,
        setup: &Option<LimitsSetup>,
        packet: u32,
        item: u32,
        set: &[u8],
        history: &H,
    ) -> Option<Limits>
        requires { GivenTells (H.list history.now) self.now.given }
        ensures { result ≡ limits_in (in_upper_case set.now) (sets_with setup.now (flat_map (sets_told packet item) (H.list history.now))) }
    {
        match setup {
            None => None,
            Some(setup) => self
                .limits_given(history, packet, item, set)
                .or(limits_in(set, setup.sets.as_slice())),
        }
    }

    /// Notes the entry of this place, the last one. It takes no memory.
    pub(crate) fn note<H: Stands>(&mut self, site: &Site, history: &H, at: u64)
        requires place { at + 1 ≡ length (H.list history.now) }
        requires tells { PlacesTell site.now (take at (H.list history.now)) self.old }
        requires free { room_at (H.list history.now) at ≤ self.old.free }
        requires few { sets_known site.now (H.list history.now) ≤ most_sets }
        ensures tells { PlacesTell site.now (H.list history.now) self.new }
        ensures free { self.old.free ≤ self.new.free + room_at (H.list history.now) at }
    {
        let entry = lend(history, at);
        let Some(set) = set_named(entry) else {
            if set_chosen(entry).is_some() {
                self.chosen = Some(at);
            }
            return;
        };
        let known = self.is_known(site, history, set);
        self.given.push_reserved(at);
        self.free -= 1;
        if !known {
            self.sets.push_reserved(at);
        }
    }
}
