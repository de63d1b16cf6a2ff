// The chains of a site's lines.
ghost use Rattle.std.specs.Prelude.{◌≡◌, true, IfOk, IfSome};
ghost use Rattle.cts_chain.specs.Builds.{CanBeBuilt, IsFresh};
ghost use Rattle.cts_connection.specs.LinePlaces.{is_line};
ghost use Rattle.cts_framing.specs.Chains.{uses_at};

use cts_chain::{Chain, Chained};
use cts_def::{FIRST_SLOT, Interface, ProtoUse, Router, Site};
use cts_preid::Preidentified;
use cts_proto::{Boxed, Shelf};
use cts_stream::{Burst, Length, Terminated};
use std::alloc::Global;
use std::test::Fail;

/// A shelf with so many boxes of BURST, of LENGTH, of PREIDENTIFIED and of TERMINATED.
fn stocked(alloc: Global, count: u32) -> Result<Shelf, Fail> {
    let mut shelf = Shelf::new(alloc);
    for _ in 0..count {
        stock_each(alloc, &mut shelf)?;
    }
    Ok(shelf)
}

fn stock_each(alloc: Global, shelf: &mut Shelf) -> Result<(), Fail> {
    put(shelf, Box::new(alloc, Burst::blank(alloc))?)?;
    put(shelf, Box::new(alloc, Length::blank(alloc))?)?;
    put(shelf, Box::new(alloc, Preidentified::blank(alloc))?)?;
    put(shelf, Box::new(alloc, Terminated::blank(alloc))?)
}

fn put(shelf: &mut Shelf, protocol: Boxed) -> Result<(), Fail> {
    match shelf.put(protocol) {
        Ok(()) => Ok(()),
        Err(_) => Err(Fail::new("out of memory")),
    }
}

fn uses_of_interface(interface: &Interface) -> &[ProtoUse]
    ensures uses { result.now ≡ interface.now.chain }
    ensures can { CanBeBuilt result.now }
{
    interface.chain.as_slice()
}

fn uses_of_router(router: &Router) -> &[ProtoUse]
    ensures uses { result.now ≡ router.now.chain }
    ensures can { CanBeBuilt result.now }
{
    router.chain.as_slice()
}

/// The uses of the chain of a line.
fn uses_of(site: &Site, by: u32) -> &[ProtoUse]
    requires { is_line site.now by ≡ true }
    ensures uses { result.now ≡ uses_at site.now by }
    ensures can { CanBeBuilt result.now }
{
    if by < FIRST_SLOT {
        return uses_of_interface(&site.interfaces.as_slice()[by as usize]);
    }
    uses_of_router(&site.routers.as_slice()[((by - FIRST_SLOT) / 2) as usize])
}

/// The chain of a line, to which nothing came yet.
pub fn chain_of(alloc: Global, site: &Site, by: u32) -> Result<Chain, Fail>
    requires { is_line site.now by ≡ true }
    ensures { IfOk result (λ chain. IsFresh (uses_at site.now by) (⟦<Chain as Chained>⟧.shape chain)) }
{
    let mut shelf = stocked(alloc, 2)?;
    match Chain::build(alloc, &mut shelf, uses_of(site, by)) {
        Ok(chain) => Ok(chain),
        Err(_) => Err(Fail::new("no chain")),
    }
}
