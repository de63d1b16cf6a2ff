// The limits sets that are known.
ghost use Rattle.std.specs.Prelude.{◌≡◌, option_map};
ghost use Rattle.cts_base.specs.Names.{in_upper_case};
ghost use Rattle.cts_monitor.specs.Sets.{is_among, names, set_named};

use cts_base::{Name, spells};
use cts_entry::{Entry, What};

/// The set for which the entry gives limits, if it does.
pub(crate) fn set_named(entry: &Entry) -> Option<&Name>
    ensures { option_map (λ n. n.now) result ≡ set_named entry.now.what }
{
    match &entry.what {
        What::SetLimits {
            packet: _,
            item: _,
            set,
            limits: _,
            persistence: _,
            enabled: _,
        } => Some(set),
        _ => None,
    }
}

pub(crate) fn names_set(entry: &Entry, set: &[u8]) -> bool
    ensures { result ≡ names (in_upper_case set.now) entry.now }
{
    match set_named(entry) {
        Some(name) => spells(set, name.as_slice()),
        None => false,
    }
}

pub(crate) fn is_among(sets: &[Name], set: &[u8]) -> bool
    ensures { result ≡ is_among sets.now (in_upper_case set.now) }
{
    sets.iter().any(|name| spells(set, name.as_slice()))
}
