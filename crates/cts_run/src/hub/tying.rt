// A router of the one site tied to an interface of the other.
ghost use Rattle.std.specs.Prelude.{◌≡◌, ◌<◌, true, length};
ghost use Rattle.cts_def.specs.Sites.{IsSoundSite};
ghost use Rattle.cts_entry.specs.Workers.{is_slot};
ghost use Rattle.cts_run.specs.Hubbing.{MakesTie, TiesEnds};

use crate::halt::Halt;
use crate::halt::hub_cause::HubCause;
use crate::hub::ends::{Ends, ends_of};
use crate::tie::Tie;
use cts_def::{FIRST_SLOT, Site};
use cts_hub::{Hub, HubFault};
use cts_ident_laws::names_are_kept;
use cts_play_laws::chains_are_kept;

/// A hub, and the ends that it ties.
#[derive(Drop)]
pub struct Tied {
    pub hub: Hub,
    pub ends: Ends,
}

/// Ties the slot of the site above to the interface of the site below that the words name.
pub(crate) fn tie_both<'a>(above: &Site, below: &Site, tie: &Tie<'_>) -> Result<Tied, Halt<'a>>
    requires { above.now.definitions ≡ below.now.definitions }
    ensures { MakesTie above.now below.now tie.now result }
{
    match ends_of(above, below, tie) {
        Some(ends) => tie_ends(above, below, ends),
        None => Err(Halt::Misused),
    }
}

// Ties them, where they are there.
fn tie_ends<'a>(above: &Site, below: &Site, ends: Ends) -> Result<Tied, Halt<'a>>
    requires definitions { above.now.definitions ≡ below.now.definitions }
    requires slot { is_slot above.now ends.slot ≡ true }
    requires interface { ends.interface < length below.now.interfaces }
    ensures { TiesEnds above.now below.now ends result }
{
    let router = (ends.slot - FIRST_SLOT) / 2;
    match Hub::new(above, router, below, ends.interface) {
        Ok(hub) => {
            is_sound(above);
            is_sound(below);
            chains_are_kept(above);
            names_are_kept(&below.definitions);
            Ok(Tied { hub, ends })
        }
        Err(HubFault::Chain) => Err(Halt::HubRefused {
            cause: HubCause::Chain,
        }),
        Err(HubFault::Definitions) => unreachable!(),
        Err(HubFault::Target { .. }) => Err(Halt::HubRefused {
            cause: HubCause::Target,
        }),
        Err(HubFault::Memory) => Err(Halt::Memory),
    }
}

// Does nothing: a site keeps the rules of sites.
fn is_sound(site: &Site)
    ensures { IsSoundSite site.now }
{
    let _port = site.api_port;
}
