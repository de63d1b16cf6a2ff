// Shelves of boxes, chains that are built on them, and shelves that lack a box.
ghost use Rattle.std.specs.Prelude.{IfOk};
ghost use Rattle.cts_chain.specs.Shapes.{IsIdle};

use crate::labels::site_with;
use cts_chain::{Chain, Chained};
use cts_def::{Interface, Kind, Site};
use cts_fixed::Fixed;
use cts_preid::Preidentified;
use cts_proto::{Boxed, Shelf};
use cts_rows::same;
use cts_stream::{Burst, Length, Terminated};
use std::alloc::Global;
use std::test::Fail;

/// Puts a box on the shelf.
pub fn put(shelf: &mut Shelf, protocol: Boxed) -> Result<(), Fail> {
    match shelf.put(protocol) {
        Ok(()) => Ok(()),
        Err(_) => Err(Fail::new("out of memory")),
    }
}

/// Puts a box of a kind on the shelf.
fn stock(alloc: Global, shelf: &mut Shelf, kind: Kind) -> Result<(), Fail> {
    match kind {
        Kind::Burst => put(shelf, Box::new(alloc, Burst::blank(alloc))?),
        Kind::Fixed => put(shelf, Box::new(alloc, Fixed::blank(alloc))?),
        Kind::Length => put(shelf, Box::new(alloc, Length::blank(alloc))?),
        Kind::Terminated => put(shelf, Box::new(alloc, Terminated::blank(alloc))?),
        Kind::Preidentified => put(shelf, Box::new(alloc, Preidentified::blank(alloc))?),
    }
}

/// Puts a box of each of these kinds on the shelf.
fn stock_all(alloc: Global, shelf: &mut Shelf, kinds: &[Kind]) -> Result<(), Fail> {
    for kind in kinds {
        stock(alloc, shelf, *kind)?;
    }
    Ok(())
}

const EACH_KIND: [Kind; 5] = [
    Kind::Burst,
    Kind::Fixed,
    Kind::Length,
    Kind::Terminated,
    Kind::Preidentified,
];

/// A shelf with so many boxes of each kind.
pub fn stocked(alloc: Global, count: u32) -> Result<Shelf, Fail> {
    let mut shelf = Shelf::new(alloc);
    for _ in 0..count {
        stock_all(alloc, &mut shelf, &EACH_KIND)?;
    }
    Ok(shelf)
}

/// A shelf with two boxes of BURST and of LENGTH, and one of each other kind.
fn stocked_for_chains(alloc: Global) -> Result<Shelf, Fail> {
    let mut shelf = stocked(alloc, 1)?;
    stock_all(alloc, &mut shelf, &[Kind::Burst, Kind::Length])?;
    Ok(shelf)
}

/// The first interface of a site.
pub fn interface_of(site: &Site) -> Result<&Interface, Fail> {
    match site.interfaces.as_slice().first() {
        Some(interface) => Ok(interface),
        None => Err(Fail::new("no interface")),
    }
}

/// The chain of an interface with these protocols, to which nothing came yet.
pub fn chain_of(alloc: Global, protocols: &str) -> Result<Chain, Fail>
    ensures { IfOk result (λ chain. IsIdle (⟦<Chain as Chained>⟧.shape chain)) }
{
    let site = site_with(alloc, protocols)?;
    chain_at(alloc, &site)
}

fn chain_at(alloc: Global, site: &Site) -> Result<Chain, Fail>
    ensures { IfOk result (λ chain. IsIdle (⟦<Chain as Chained>⟧.shape chain)) }
{
    let mut shelf = stocked_for_chains(alloc)?;
    chain_over(alloc, &mut shelf, site)
}

/// The chain of the first interface of a site over the boxes of a shelf, to which nothing came yet.
pub fn chain_over(alloc: Global, shelf: &mut Shelf, site: &Site) -> Result<Chain, Fail>
    ensures { IfOk result (λ chain. IsIdle (⟦<Chain as Chained>⟧.shape chain)) }
{
    let interface = interface_of(site)?;
    match Chain::build(alloc, shelf, interface.chain.as_slice()) {
        Ok(chain) => Ok(chain),
        Err(_) => Err(Fail::new("no chain")),
    }
}

/// Whether the interface's chain is built, or why not, and how many boxes of LENGTH and of TERMINATED are left on the shelf.
fn built(alloc: Global, shelf: &mut Shelf, interface: &Interface) -> Result<String, Fail> {
    let answer = built_or_not(alloc, shelf, interface)?;
    let (length, terminated) = (shelf.count(Kind::Length), shelf.count(Kind::Terminated));
    Ok(format!(in alloc; "{answer} {length} {terminated}")?)
}

fn built_or_not(alloc: Global, shelf: &mut Shelf, interface: &Interface) -> Result<String, Fail> {
    match Chain::build(alloc, shelf, interface.chain.as_slice()) {
        Ok(_) => Ok(format!(in alloc; "built")?),
        Err(fault) => Ok(format!(in alloc; "{fault:?}")?),
    }
}

/// A chain that needs three boxes of LENGTH and one of TERMINATED.
const THREE: &str =
    "LENGTH;PROTOCOL WRITE LENGTH;PROTOCOL READ LENGTH;PROTOCOL READ TERMINATED 0x0a 0x0a";

/// What is told of this chain before and after one more box of LENGTH, and whether a box of BURST is left.
fn told_of_three(alloc: Global) -> Result<String, Fail> {
    let site = site_with(alloc, THREE)?;
    told_of_site(alloc, &site)
}

fn told_of_site(alloc: Global, site: &Site) -> Result<String, Fail> {
    let interface = interface_of(site)?;
    let mut shelf = stocked_for_chains(alloc)?;
    told_over(alloc, &mut shelf, interface)
}

fn told_over(alloc: Global, shelf: &mut Shelf, interface: &Interface) -> Result<String, Fail> {
    let before = built(alloc, shelf, interface)?;
    stock(alloc, shelf, Kind::Length)?;
    let after = built(alloc, shelf, interface)?;
    let left = takes_burst(shelf);
    Ok(format!(in alloc; "{before}; {after}; {left}")?)
}

/// Whether a box of BURST was left, which is taken.
fn takes_burst(shelf: &mut Shelf) -> bool {
    shelf.take(Kind::Burst).is_some()
}

#[test]
fn the_first_kind_that_is_short_is_told(rt: HostRuntime) -> Result<(), Fail> {
    let wanted = "ShelfEmpty { kind: Length, needed: 3, stocked: 2 } 2 1; built 0 0; true";
    let told = told_of_three(rt.alloc())?;
    same(told.as_str(), wanted, THREE)
}
