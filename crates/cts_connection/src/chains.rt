// The chains of a site's lines.
ghost use Rattle.std.specs.Prelude.{◌≡◌, ◌<◌, [], IfErr, IfNone, IfOk, IfSome, None, OnErr, OnOk, map, slice_index_or, take};
ghost use Rattle.cts_chain.specs.Builds.{AllCanBeBuilt, AreFresh, CanBeBuilt, FaultIs, Taken, use_specs};
ghost use Rattle.cts_chain.specs.declared.build.ChainFault.TheVariants.{Memory as NoMemory};
ghost use Rattle.cts_chain.specs.Stocking.{first_short};
ghost use Rattle.cts_connection.specs.LinePlaces.{line_count};
ghost use Rattle.cts_connection.specs.LineChains.{line_chains, line_uses};

use crate::place::line_count;
use crate::supplier::Supplier;
use cts_chain::{ChainFault, Framer};
use cts_def::{MOST_LINES, ProtoUse, Site};
use std::alloc::Global;

/// The chains of all lines of a site, one for each interface and two for each router, in order of their places. The boxes of their
/// protocols are taken from the shelf, and after a refusal the shelf is as it was.
///
/// # Errors
///
/// `ShelfEmpty` with the first kind, in their order, of which all these chains together need more boxes than the shelf holds, and
/// `Memory`, where no kind is short.
pub fn build_chains<C: Framer, B: Supplier<C>>(
    alloc: Global,
    site: &Site,
    shelf: &mut B,
) -> Result<Vec<C>, ChainFault>
    ensures fresh { IfOk result (λ chains. AreFresh (line_chains site.now) (map C.shape chains.items)) }
    ensures enough { OnOk result (first_short (B.stock shelf.old) (use_specs (line_uses site.now)) ≡ None) }
    ensures taken { OnOk result (Taken (B.stock shelf.old) (line_uses site.now) (B.stock shelf.new)) }
    ensures fault { IfErr result (λ e. FaultIs (B.stock shelf.old) (line_uses site.now) e) }
    ensures kept { OnErr result (B.stock shelf.new ≡ B.stock shelf.old) }
{
    shelf.build_all(alloc, &chains_of(site)[..line_count(site)])
}

/// The first kind, in their order, of which all chains of a site's lines together need more boxes than the shelf holds, if there is
/// one. It takes no memory.
pub fn shortage_of<C: Framer, B: Supplier<C>>(site: &Site, shelf: &B) -> Option<ChainFault>
    ensures short { IfSome result (λ e. (e ≡ NoMemory → ⊥) × FaultIs (B.stock shelf.now) (line_uses site.now) e) }
    ensures enough { IfNone result (first_short (B.stock shelf.now) (use_specs (line_uses site.now)) ≡ None) }
{
    shelf.shortage(&chains_of(site)[..line_count(site)])
}

/// The uses of the chain of each line, in order of their places, and then none.
fn chains_of(site: &Site) -> [&[ProtoUse]; MOST_LINES]
    ensures chains { map (λ uses. uses.now) (take (line_count site.now) result) ≡ line_chains site.now }
    ensures can { AllCanBeBuilt (line_chains site.now) }
{
    let mut chains: [&[ProtoUse]; MOST_LINES] = [&[]; MOST_LINES];
    for place in 0..line_count(site) {
        chains[place] = chain_at(site, place);
    }
    chains
}

/// The uses of the chain of the line at a place: those of an interface, or of a router at either of its two places.
fn chain_at(site: &Site, place: usize) -> &[ProtoUse]
    requires { place < line_count site.now }
    ensures chain { result.now ≡ slice_index_or (line_chains site.now) place [] }
    ensures can { CanBeBuilt result.now }
{
    let interfaces = site.interfaces.as_slice();
    if place < interfaces.len() {
        let interface = &interfaces[place];
        return interface.chain.as_slice();
    }
    let routers = site.routers.as_slice();
    let router = &routers[(place - interfaces.len()) / 2];
    router.chain.as_slice()
}
