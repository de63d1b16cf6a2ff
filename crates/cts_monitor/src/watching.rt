// Whether a site has items whose limits state may change.
ghost use Rattle.std.specs.Prelude.{◌≡◌, ℕ, [], false, List};
ghost use Rattle.std.specs.List.{list_any};
ghost use Rattle.cts_def.specs.Items.{has_color};
ghost use Rattle.cts_entry.specs.declared.entry.Entry.{Entry};
ghost use Rattle.cts_monitor.specs.Events.{events_from};
ghost use Rattle.cts_monitor.specs.Watching.{has_watched, is_watched, watches};

use cts_def::{Item, Packet, Site, StateDef};

/// Whether an item of the site's telemetry has limits or state colours. Where none has, no history of it has a change of a limits
/// state.
pub fn watches(site: &Site) -> bool
    ensures watched { result ≡ watches site.now }
    ensures none { result ≡ false → (h : List Entry) (n : ℕ) → events_from site.now h n ≡ [] }
{
    any_is_watched(site)
}

fn any_is_watched(site: &Site) -> bool
    ensures { result ≡ watches site.now }
{
    site.definitions
        .telemetry
        .as_slice()
        .iter()
        .any(|packet| has_watched(packet))
}

fn has_watched(packet: &Packet) -> bool
    ensures { result ≡ has_watched packet.now }
{
    packet.items.as_slice().iter().any(|item| is_watched(item))
}

/// Whether an item has limits or state colours.
pub fn is_watched(item: &Item) -> bool
    ensures { result ≡ is_watched item.now }
{
    item.limits.is_some() || have_color(item.states.as_slice())
}

fn have_color(states: &[StateDef]) -> bool
    ensures { result ≡ list_any has_color states.now }
{
    states.iter().any(|state| has_color(state))
}

fn has_color(state: &StateDef) -> bool
    ensures { result ≡ has_color state.now }
{
    state.color.is_some()
}
