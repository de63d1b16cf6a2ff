// Items by their numbers.
ghost use Rattle.std.specs.Prelude.{◌≡◌, option_map};
ghost use Rattle.std.specs.Option.{ForSome};
ghost use Rattle.std.specs.List.{Contains};
ghost use Rattle.cts_monitor.specs.Settings.{watched, watched_at};

use cts_def::{Item, Packet, Site};

/// A telemetry item and its packet, by their numbers.
pub(crate) fn watched_at(site: &Site, packet: u32, item: u32) -> Option<(&Packet, &Item)>
    ensures found { option_map (λ f. watched f.0.now f.1.now packet item) result ≡ watched_at site.now packet item }
    ensures held { ForSome result (λ f. Contains f.0.now.items f.1.now) }
{
    let held = site.definitions.telemetry.as_slice().get(packet as usize)?;
    let found = held.items.as_slice().get(item as usize)?;
    Some((held, found))
}
