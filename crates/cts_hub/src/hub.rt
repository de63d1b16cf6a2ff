// A router of one site tied to an interface of another.
ghost use Rattle.std.specs.Prelude.{◌≡◌, option_map};
ghost use Rattle.cts_def.specs.Sites.{routed_targets, targets_at};
ghost use Rattle.cts_hub.specs.Ties.{first_missing};

use crate::chains::chains_fit;
use crate::same::Same;
use crate::targets::first_missing;
use cts_base::{Memory, Name};
use cts_def::{Interface, Site};
use cts_entry::Event;
use cts_play::pieces_of;
use std::alloc::Global;
use std::marker::Model;

/// A router of one site tied to an interface of another. It is seen as the number of that interface.
#[derive(Debug, Drop)]
pub struct Hub {
    // the number of the interface below
    interface: u32,
}

impl Model for Hub {
    ghost use Rattle.std.specs.Prelude.{ℕ};

    ghost Value = { ℕ };

    ghost view = { λ h. h.interface };
}

/// Why they cannot be tied.
#[derive(Debug, Drop)]
pub enum HubFault {
    /// What the router writes and what the interface reads is not one PREIDENTIFIED with the same parameters in both.
    Chain,
    /// The definitions of the two sites differ.
    Definitions,
    /// This target of an interface that is routed is none of the interface's.
    Target { name: Name },
    /// Memory ran out.
    Memory,
}

impl Hub {
    ghost use Rattle.std.specs.Prelude.{◌≡◌, ◌<◌, ◌≤◌, IfOk, Some, length, slice_get};
    ghost use Rattle.cts_def.specs.Sites.{InterfaceData, RouterData};
    ghost use Rattle.cts_hub.specs.Ties.{HubIs};
    ghost use Rattle.cts_play.specs.Pieces.{ArePieces};

    /// Ties a router of the site above to an interface of the site below.
    ///
    /// # Errors
    ///
    /// The first that holds of `Chain`, `Definitions` and `Target`, with the first such target; and `Memory`.
    pub fn new(above: &Site, router: u32, below: &Site, interface: u32) -> Result<Hub, HubFault>
        requires router { router < length above.now.routers }
        requires interface { interface < length below.now.interfaces }
        ensures { (r : RouterData) (i : InterfaceData) → slice_get above.now.routers router ≡ Some r
            → slice_get below.now.interfaces interface ≡ Some i → HubIs above.now r below.now i interface result }
    {
        let from = &above.routers.as_slice()[router as usize];
        let to = &below.interfaces.as_slice()[interface as usize];
        if !chains_fit(from.chain.as_slice(), to.chain.as_slice()) {
            return Err(HubFault::Chain);
        }
        if !above.definitions.same(&below.definitions) {
            return Err(HubFault::Definitions);
        }
        match missing_among(above.interfaces.as_slice(), from.routes.as_slice(), to) {
            Some(name) => match name.clone() {
                Ok(name) => Err(HubFault::Target { name }),
                Err(_) => Err(HubFault::Memory),
            },
            None => Ok(Hub { interface }),
        }
    }

    /// These bytes, as the router put them, as pieces of the interface's connection: each has `cut` bytes, the last one perhaps fewer.
    ///
    /// # Errors
    ///
    /// `Memory`.
    pub fn events(&self, alloc: Global, bytes: &[u8], cut: u32) -> Result<Vec<Event>, Memory>
        requires least { 1 ≤ cut }
        requires most { cut ≤ 65536 }
        ensures { IfOk result (λ events. ArePieces self.now cut bytes.now events.items) }
    {
        pieces_of(alloc, self.interface, bytes, cut as usize)
    }
}

// The first target of these interfaces that the interface has not.
#[tactic(auto, using(crate::proofs::Missing::missing_found, crate::proofs::Missing::missing_later))]
fn missing_among<'a>(
    interfaces: &'a [Interface],
    routes: &[u32],
    to: &Interface,
) -> Option<&'a Name>
    ensures { option_map (λ n. n.now) result ≡ first_missing to.now.targets (routed_targets interfaces.now routes.now) }
{
    let (route, later) = routes.split_first()?;
    match missing_of(interfaces, *route, to) {
        Some(name) => Some(name),
        None => missing_among(interfaces, later, to),
    }
}

// The first target of the interface of this number, if there is one, that the other interface has not.
#[tactic(auto, using(crate::proofs::Missing::targets_there, crate::proofs::Missing::targets_nowhere))]
fn missing_of<'a>(interfaces: &'a [Interface], route: u32, to: &Interface) -> Option<&'a Name>
    ensures { option_map (λ n. n.now) result ≡ first_missing to.now.targets (targets_at interfaces.now route) }
{
    match interfaces.get(route as usize) {
        Some(interface) => first_missing(to, interface.targets.as_slice()),
        None => None,
    }
}
