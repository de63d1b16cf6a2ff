// The targets that connections reach.
ghost use Rattle.std.specs.Prelude.{◌≡◌, ◌<◌, ◌≤◌, length};
ghost use Rattle.std.specs.List.{IsDistinct, list_any};
ghost use Rattle.cts_def.specs.Most.{most_packets};
ghost use Rattle.cts_def.specs.Items.{is_same};
ghost use Rattle.cts_def.specs.Packets.{have_same_names};
ghost use Rattle.cts_def.specs.Sites.{routed_targets, targets_at};
ghost use Rattle.cts_ident.specs.Identification.{routes_at};

use cts_base::Name;
use cts_def::{Interface, Packet, Router, Site};

/// The telemetry packets of the site.
pub(crate) fn telemetry(site: &Site) -> &[Packet]
    ensures value { result.now ≡ site.now.definitions.telemetry }
    ensures few { length result.now ≤ most_packets }
    ensures distinct { IsDistinct have_same_names result.now }
{
    let definitions = &site.definitions;
    definitions.telemetry.as_slice()
}

/// The commands of the site.
pub(crate) fn commands(site: &Site) -> &[Packet]
    ensures value { result.now ≡ site.now.definitions.commands }
    ensures few { length result.now ≤ most_packets }
    ensures distinct { IsDistinct have_same_names result.now }
{
    let definitions = &site.definitions;
    definitions.commands.as_slice()
}

/// The numbers of the interfaces that the router of this number routes.
pub(crate) fn routes(routers: &[Router], number: u32) -> &[u32]
    requires { number < length routers.now }
    ensures { result.now ≡ routes_at routers.now number }
{
    let router = &routers[number as usize];
    router.routes.as_slice()
}

/// Whether the target is reached by one of the interfaces of these numbers.
pub(crate) fn is_routed(interfaces: &[Interface], routes: &[u32], target: &Name) -> bool
    ensures { result ≡ list_any (is_same target.now) (routed_targets interfaces.now routes.now) }
{
    any_reaches(interfaces, routes, target)
}

fn any_reaches(interfaces: &[Interface], routes: &[u32], target: &Name) -> bool
    ensures { result ≡ list_any (λ n. list_any (is_same target.now) (targets_at interfaces.now n)) routes.now }
{
    routes
        .iter()
        .any(|route| is_reached(interfaces, *route, target))
}

/// Whether the target is reached by the interface of this number.
pub(crate) fn is_reached(interfaces: &[Interface], number: u32, target: &Name) -> bool
    ensures { result ≡ list_any (is_same target.now) (targets_at interfaces.now number) }
{
    match interfaces.get(number as usize) {
        Some(interface) => interface.has_target(target),
        None => false,
    }
}
