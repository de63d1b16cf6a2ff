// Packets and commands by their names.
ghost use Rattle.std.specs.Prelude.{◌≡◌, ◌<◌, ◌↔◌, ℕ, length, IsTrue};
ghost use Rattle.std.specs.List.{IsDistinct};
ghost use Rattle.cts_def.specs.Packets.{have_same_names, is_named};
ghost use Rattle.cts_def.specs.Sites.{targets_at};
ghost use Rattle.cts_def.specs.declared.ident.Ident.{Ident};
ghost use Rattle.cts_ident.specs.Identification.{
  IsMatch,
  first_of,
  is_worker,
  named,
  router_targets,
  worker_packets,
  worker_targets,
};

use crate::connection::{commands, routes, telemetry};
use crate::search::first_named;
use cts_def::{FIRST_SLOT, Ident, Site};

/// The packet of these names, compared in any case, among those of the targets that a worker reaches: a telemetry packet for
/// an interface, a command for a router's slot. `Unknown` where there is none.
///
/// Workers have the numbers of makers of entries: an interface's own, and two for each router from the first slot on.
pub fn named(site: &Site, by: u32, target: &[u8], packet: &[u8]) -> Ident
    requires { IsTrue (is_worker site.now by) }
    ensures value { result ≡ named site.now by target.now packet.now }
    ensures known { (n : ℕ) → (result ≡ Ident.Known n)
        ↔ IsMatch (worker_targets site.now by) (worker_packets site.now.definitions by) (is_named target.now packet.now) n }
    ensures unknown { (result ≡ Ident.Unknown)
        ↔ ((n : ℕ) → IsMatch (worker_targets site.now by) (worker_packets site.now.definitions by) (is_named target.now packet.now) n → ⊥) }
{
    if by < FIRST_SLOT {
        named_packet(site, by, target, packet)
    } else {
        named_command(site, (by - FIRST_SLOT) / 2, target, packet)
    }
}

fn named_packet(site: &Site, interface: u32, target: &[u8], name: &[u8]) -> Ident
    ensures value { result ≡ first_of (targets_at site.now.interfaces interface) site.now.definitions.telemetry (is_named target.now name.now) }
    ensures distinct { IsDistinct have_same_names site.now.definitions.telemetry }
{
    first_named(
        telemetry(site),
        site.interfaces.as_slice(),
        &[interface],
        target,
        name,
    )
}

fn named_command(site: &Site, router: u32, target: &[u8], name: &[u8]) -> Ident
    requires { router < length site.now.routers }
    ensures value { result ≡ first_of (router_targets site.now router) site.now.definitions.commands (is_named target.now name.now) }
    ensures distinct { IsDistinct have_same_names site.now.definitions.commands }
{
    first_named(
        commands(site),
        site.interfaces.as_slice(),
        routes(site.routers.as_slice(), router),
        target,
        name,
    )
}
