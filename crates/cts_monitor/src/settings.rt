// What entries and definitions give an item: limits in sets, a persistence, and whether samples are taken.
ghost use Rattle.std.specs.Prelude.{◌≡◌};
ghost use Rattle.cts_base.specs.Names.{in_upper_case};
ghost use Rattle.cts_monitor.specs.Settings.{limits_in, limits_named, limits_told, may_set, persistence_told, first_persistence, enabling_told, first_enabled};

use cts_base::{Name, spells};
use cts_def::{Item, Limits, LimitsSetup};
use cts_entry::{Entry, What};

fn limits_if_named(set: &[u8], given: &(Name, Limits)) -> Option<Limits>
    ensures { result ≡ limits_named (in_upper_case set.now) given.now }
{
    if spells(set, given.0.as_slice()) {
        Some(given.1)
    } else {
        None
    }
}

/// The limits of a set among these.
pub(crate) fn limits_in(set: &[u8], sets: &[(Name, Limits)]) -> Option<Limits>
    ensures { result ≡ limits_in (in_upper_case set.now) sets.now }
{
    let mut found = None;
    for given in sets {
        found = limits_if_named(set, given).or(found);
    }
    found
}

pub(crate) fn limits_told(entry: &Entry, packet: u32, item: u32, set: &[u8]) -> Option<Limits>
    ensures { result ≡ limits_told (in_upper_case set.now) packet item entry.now }
{
    match &entry.what {
        What::SetLimits {
            packet: at,
            item: index,
            set: name,
            limits,
            persistence: _,
            enabled: _,
        } => {
            if *at == packet && *index == item && spells(set, name.as_slice()) {
                Some(*limits)
            } else {
                None
            }
        }
        _ => None,
    }
}

pub(crate) fn persistence_told(entry: &Entry, packet: u32, item: u32) -> Option<u32>
    ensures { result ≡ persistence_told packet item entry.now }
{
    match &entry.what {
        What::SetLimits {
            packet: at,
            item: index,
            set: _,
            limits: _,
            persistence,
            enabled: _,
        } => {
            if *at == packet && *index == item {
                Some(*persistence)
            } else {
                None
            }
        }
        _ => None,
    }
}

pub(crate) fn enabling_told(entry: &Entry, packet: u32, item: u32) -> Option<bool>
    ensures { result ≡ enabling_told packet item entry.now }
{
    match &entry.what {
        What::SetLimits {
            packet: at,
            item: index,
            set: _,
            limits: _,
            persistence: _,
            enabled,
        } => {
            if *at == packet && *index == item {
                Some(*enabled)
            } else {
                None
            }
        }
        What::Enable {
            packet: at,
            item: index,
            enabled,
        } => {
            if *at == packet && *index == item {
                Some(*enabled)
            } else {
                None
            }
        }
        _ => None,
    }
}

pub(crate) fn first_persistence(setup: &Option<LimitsSetup>) -> u32
    ensures { result ≡ first_persistence setup.now }
{
    match setup {
        None => 1,
        Some(setup) => setup.persistence,
    }
}

pub(crate) fn first_enabled(setup: &Option<LimitsSetup>) -> bool
    ensures { result ≡ first_enabled setup.now }
{
    match setup {
        None => true,
        Some(setup) => setup.enabled,
    }
}

/// Whether an entry may change what counts for an item.
pub(crate) fn may_set(entry: &Entry, packet: u32, item: u32) -> bool
    ensures { result ≡ may_set packet item entry.now }
{
    match &entry.what {
        What::SetLimits {
            packet: at,
            item: index,
            set: _,
            limits: _,
            persistence: _,
            enabled: _,
        } => *at == packet && *index == item,
        What::Enable {
            packet: at,
            item: index,
            enabled: _,
        } => *at == packet && *index == item,
        What::LimitsSetIs { set: _ } => true,
        _ => false,
    }
}
