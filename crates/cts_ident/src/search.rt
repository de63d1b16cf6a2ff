// Identification.
ghost use Rattle.std.specs.Prelude.{◌≡◌, ◌<◌, ◌≤◌, ◌↔◌, ◌&&◌, ℕ, length, IsTrue, IfSome};
ghost use Rattle.std.specs.List.{position};
ghost use Rattle.cts_def.specs.Most.{most_packets};
ghost use Rattle.cts_def.specs.Packets.{PacketData, is_named, is_of};
ghost use Rattle.cts_def.specs.Sites.{routed_targets, targets_at};
ghost use Rattle.cts_def.specs.declared.ident.Ident.{Ident};
ghost use Rattle.cts_ident.specs.Identification.{
  IsFirstMatch,
  IsMatch,
  identified,
  identified_command,
  first_of,
  fits,
  router_targets,
};
ghost use Rattle.cts_ident.specs.Matches.{at_place};

use crate::connection::{commands, is_routed, routes, telemetry};
use crate::matches::fits;
use cts_def::{Ident, Interface, Packet, Site};

/// The first telemetry packet, in order of definition, of the interface's targets, all of whose id fields lie within the
/// bytes and have their id values there. `Unknown` where there is none. A packet without id items matches every buffer.
pub fn identify(site: &Site, interface: u32, bytes: &[u8]) -> Ident
    requires { interface < length site.now.interfaces }
    ensures value { result ≡ identified site.now interface bytes.now }
    ensures known { (n : ℕ) → (result ≡ Ident.Known n)
        ↔ IsFirstMatch (targets_at site.now.interfaces interface) site.now.definitions.telemetry (fits bytes.now) n }
    ensures unknown { (result ≡ Ident.Unknown)
        ↔ ((n : ℕ) → IsMatch (targets_at site.now.interfaces interface) site.now.definitions.telemetry (fits bytes.now) n → ⊥) }
{
    identified(site, interface, bytes)
}

fn identified(site: &Site, interface: u32, bytes: &[u8]) -> Ident
    ensures { result ≡ identified site.now interface bytes.now }
{
    first_that_fits(
        telemetry(site),
        site.interfaces.as_slice(),
        &[interface],
        bytes,
    )
}

/// The first command, in order of definition, of the targets of the router's interfaces, all of whose id fields lie within
/// the bytes and have their id values there. `Unknown` where there is none.
pub fn identify_command(site: &Site, router: u32, bytes: &[u8]) -> Ident
    requires { router < length site.now.routers }
    ensures value { result ≡ identified_command site.now router bytes.now }
    ensures known { (n : ℕ) → (result ≡ Ident.Known n)
        ↔ IsFirstMatch (router_targets site.now router) site.now.definitions.commands (fits bytes.now) n }
    ensures unknown { (result ≡ Ident.Unknown)
        ↔ ((n : ℕ) → IsMatch (router_targets site.now router) site.now.definitions.commands (fits bytes.now) n → ⊥) }
{
    identified_command(site, router, bytes)
}

fn identified_command(site: &Site, router: u32, bytes: &[u8]) -> Ident
    requires { router < length site.now.routers }
    ensures { result ≡ identified_command site.now router bytes.now }
{
    first_that_fits(
        commands(site),
        site.interfaces.as_slice(),
        routes(site.routers.as_slice(), router),
        bytes,
    )
}

// The first of these packets, of the targets of the interfaces of these numbers, that the bytes begin as.
fn first_that_fits(
    packets: &[Packet],
    interfaces: &[Interface],
    routes: &[u32],
    bytes: &[u8],
) -> Ident
    requires { length packets.now ≤ most_packets }
    ensures { result ≡ first_of (routed_targets interfaces.now routes.now) packets.now (fits bytes.now) }
{
    ident(place_that_fits(packets, interfaces, routes, bytes))
}

fn place_that_fits(
    packets: &[Packet],
    interfaces: &[Interface],
    routes: &[u32],
    bytes: &[u8],
) -> Option<usize>
    ensures { result ≡ position (λ (p : PacketData). is_of (routed_targets interfaces.now routes.now) p && fits bytes.now p) packets.now }
{
    packets.iter().position(|packet| is_routed(interfaces, routes, &packet.target)
        && fits(packet, bytes))
}

/// The first of these packets, of the targets of the interfaces of these numbers, that has these names.
pub(crate) fn first_named(
    packets: &[Packet],
    interfaces: &[Interface],
    routes: &[u32],
    target: &[u8],
    name: &[u8],
) -> Ident
    requires { length packets.now ≤ most_packets }
    ensures { result ≡ first_of (routed_targets interfaces.now routes.now) packets.now (is_named target.now name.now) }
{
    ident(place_named(packets, interfaces, routes, target, name))
}

fn place_named(
    packets: &[Packet],
    interfaces: &[Interface],
    routes: &[u32],
    target: &[u8],
    name: &[u8],
) -> Option<usize>
    ensures { result ≡ position (λ (p : PacketData). is_of (routed_targets interfaces.now routes.now) p && is_named target.now name.now p) packets.now }
{
    packets.iter().position(|other| is_routed(interfaces, routes, &other.target)
        && other.is_named(target, name))
}

// The packet at this place.
fn ident(place: Option<usize>) -> Ident
    requires { IfSome place (λ n. n < most_packets) }
    ensures { result ≡ at_place place }
{
    match place {
        Some(n) => Ident::Known(n as u32),
        None => Ident::Unknown,
    }
}
