// Whether a shelf has the boxes of two worlds.
ghost use Rattle.std.specs.Prelude.{◌≡◌, ◌≤◌, ◌*◌, ◌+◌, length, option_map, if◌then◌else◌, None, Some};
ghost use Rattle.cts_chain.specs.Builds.{use_specs, uses_in};
ghost use Rattle.cts_chain.specs.Stocking.{is_short, needed};
ghost use Rattle.cts_connection.specs.LineChains.{line_uses};
ghost use Rattle.cts_def.specs.Protocols.{kind_of, spec_data};
ghost use Rattle.cts_proto.specs.Stock.{counted, one_if_same, stocked};
ghost use Rattle.cts_run.specs.Hub.{joint, router_uses};
ghost use Rattle.cts_run.specs.Start.{short_halt, short_kind, site_specs};

use crate::halt::Halt;
use cts_chain::{Chain, Framer};
use cts_connection::Supplier;
use cts_def::{Interface, Kind, ProtoSpec, ProtoUse, Router, Site};
use cts_proto::Shelf;

/// A supplier of chains whose boxes can be counted.
pub trait Counted<C: Framer>: Supplier<C> {
    /// How many boxes of a kind there are, up to 2^32 - 1.
    fn boxes(&self, kind: Kind) -> u32
        ensures { result ≡ counted (stocked kind (Self.stock self.now)) };
}

impl Counted<Chain> for Shelf {
    fn boxes(&self, kind: Kind) -> u32 {
        self.count(kind)
    }
}

/// Why a command halts where the worlds of both sites together need more boxes of a kind than there are: by the first such kind, in their
/// order.
pub(crate) fn shortage<'a, C: Framer, B: Counted<C>>(
    above: &Site,
    below: &Site,
    shelf: &B,
) -> Option<Halt<'a>>
    ensures { result ≡ option_map (short_halt (B.stock shelf.now) (joint above.now below.now)) (short_kind (B.stock shelf.now) (joint above.now below.now)) }
{
    if let Some(halt) = short_of::<C, B>(above, below, shelf, Kind::Burst) {
        return Some(halt);
    }
    if let Some(halt) = short_of::<C, B>(above, below, shelf, Kind::Fixed) {
        return Some(halt);
    }
    if let Some(halt) = short_of::<C, B>(above, below, shelf, Kind::Length) {
        return Some(halt);
    }
    if let Some(halt) = short_of::<C, B>(above, below, shelf, Kind::Terminated) {
        return Some(halt);
    }
    short_of::<C, B>(above, below, shelf, Kind::Preidentified)
}

// The same of one kind.
fn short_of<'a, C: Framer, B: Counted<C>>(
    above: &Site,
    below: &Site,
    shelf: &B,
    kind: Kind,
) -> Option<Halt<'a>>
    ensures { result ≡ if is_short (B.stock shelf.now) (site_specs (joint above.now below.now)) kind
        then Some (short_halt (B.stock shelf.now) (joint above.now below.now) kind) else None }
{
    let needed = needed_by_site(above, kind) + needed_by_site(below, kind);
    let stocked = shelf.boxes(kind);
    if stocked < needed {
        Some(Halt::ShelfEmpty {
            kind,
            needed,
            stocked,
        })
    } else {
        None
    }
}

// How many boxes of a kind the world of a site needs.
fn needed_by_site(site: &Site, kind: Kind) -> u32
    ensures count { result ≡ needed kind (use_specs (line_uses site.now)) }
    ensures few { result ≤ 96 }
{
    needed_by_interfaces(site.interfaces.as_slice(), kind)
        + needed_by_routers(site.routers.as_slice(), kind)
}

fn needed_by_interfaces(interfaces: &[Interface], kind: Kind) -> u32
    requires { length interfaces.now ≤ 16 }
    ensures count { result ≡ needed kind (use_specs (uses_in interfaces.now)) }
    ensures few { result ≤ 4 * length interfaces.now }
{
    let Some((first, later)) = interfaces.split_first() else {
        return 0;
    };
    let more = needed_by_interfaces(later, kind);
    needed(first.chain.as_slice(), kind) + more
}

// Each router has two slots, with a chain for each.
fn needed_by_routers(routers: &[Router], kind: Kind) -> u32
    requires { length routers.now ≤ 4 }
    ensures count { result ≡ needed kind (use_specs (router_uses routers.now)) }
    ensures few { result ≤ 8 * length routers.now }
{
    let Some((first, later)) = routers.split_first() else {
        return 0;
    };
    let more = needed_by_routers(later, kind);
    2 * needed(first.chain.as_slice(), kind) + more
}

// How many of these uses are of this kind.
fn needed(uses: &[ProtoUse], wanted: Kind) -> u32
    requires { length uses.now ≤ 4 }
    ensures count { result ≡ needed wanted (use_specs uses.now) }
    ensures few { result ≤ length uses.now }
{
    let Some((first, rest)) = uses.split_first() else {
        return 0;
    };
    let more = needed(rest, wanted);
    one_if(&first.spec, wanted) + more
}

fn one_if(spec: &ProtoSpec, wanted: Kind) -> u32
    ensures same { result ≡ one_if_same (kind_of (spec_data spec.now)) wanted }
    ensures few { result ≤ 1 }
{
    match (spec, wanted) {
        (ProtoSpec::Burst { .. }, Kind::Burst) => 1,
        (ProtoSpec::Fixed { .. }, Kind::Fixed) => 1,
        (ProtoSpec::Length { .. }, Kind::Length) => 1,
        (ProtoSpec::Terminated { .. }, Kind::Terminated) => 1,
        (ProtoSpec::Preidentified { .. }, Kind::Preidentified) => 1,
        _ => 0,
    }
}
