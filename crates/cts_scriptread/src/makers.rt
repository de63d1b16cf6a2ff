//! The makers that a word names in a site.

ghost use Rattle.std.specs.Prelude.{◌≡◌, ◌<◌, ◌≤◌, IfSome, length};
ghost use Rattle.std.specs.List.{position};
ghost use Rattle.cts_base.specs.Names.{spells};
ghost use Rattle.cts_scriptread.specs.Makers.{interface_named, maker_named, router_named, side_of, slot_named};

use cts_base::spells;
use cts_def::{FIRST_SLOT, Interface, Router, Site};

fn interface_place(interfaces: &[Interface], word: &[u8]) -> Option<usize>
    ensures place { result ≡ position (λ i. spells word.now i.name) interfaces.now }
    ensures within { IfSome result (λ n. n < length interfaces.now) }
{
    interfaces
        .iter()
        .position(|interface| spells(word, interface.name.as_slice()))
}

fn router_place(routers: &[Router], word: &[u8]) -> Option<usize>
    ensures place { result ≡ position (λ r. spells word.now r.name) routers.now }
    ensures within { IfSome result (λ n. n < length routers.now) }
{
    routers
        .iter()
        .position(|router| spells(word, router.name.as_slice()))
}

/// The number of the interface of this name, in any case.
pub fn interface_named(site: &Site, word: &[u8]) -> Option<u32>
    ensures { result ≡ interface_named site.now word.now }
{
    let place = interface_place(site.interfaces.as_slice(), word)?;
    Some(place as u32)
}

fn router_named(site: &Site, word: &[u8]) -> Option<u32>
    ensures number { result ≡ router_named site.now word.now }
    ensures few { IfSome result (λ n. n < 4) }
{
    let place = router_place(site.routers.as_slice(), word)?;
    Some(place as u32)
}

fn side_of(end: &[u8]) -> Option<u32>
    ensures side { result ≡ side_of end.now }
    ensures two { IfSome result (λ n. n < 2) }
{
    if end == b"/0".as_slice() {
        Some(0)
    } else if end == b"/1".as_slice() {
        Some(1)
    } else {
        None
    }
}

/// The number of the slot that a word names: a router's name in any case, and `/0` or `/1`.
#[tactic(auto, unfolding(crate::specs::Makers::slot_named))]
pub fn slot_named(site: &Site, word: &[u8]) -> Option<u32>
    ensures { result ≡ slot_named site.now word.now }
{
    let (name, end) = word.split_at(word.len().saturating_sub(2));
    let side = side_of(end)?;
    let router = router_named(site, name)?;
    Some(FIRST_SLOT + 2 * router + side)
}

/// The number of the interface or slot that a word names.
pub(crate) fn maker_named(site: &Site, word: &[u8]) -> Option<u32>
    ensures { result ≡ maker_named site.now word.now }
{
    match interface_named(site, word) {
        Some(interface) => Some(interface),
        None => slot_named(site, word),
    }
}
