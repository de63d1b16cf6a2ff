// What a site's values keep that its definitions do not say.
ghost use Rattle.std.specs.Prelude.{◌≡◌, IsTrue};
ghost use Rattle.std.specs.List.{AllByRecursion};
ghost use Rattle.cts_def.specs.Protocols.{is_chain};
ghost use Rattle.cts_def.specs.Sites.{InterfaceData};
ghost use Rattle.cts_play_laws.specs.Keeping.{HaveStages};

use cts_def::{Interface, Site};

/// Does nothing: each interface of a site has a chain with a stage.
#[tactic(auto, using(crate::proofs::Staged::have_stages))]
pub fn chains_are_kept(site: &Site)
    ensures { HaveStages site.now }
{
    kept_chains(site.interfaces.as_slice());
}

// Does nothing: the chains of interfaces are chains.
fn kept_chains(interfaces: &[Interface])
    ensures { AllByRecursion (λ (i : InterfaceData). IsTrue (is_chain i.chain)) interfaces.now }
{
    if let Some((interface, later)) = interfaces.split_first() {
        is_chain(interface);
        kept_chains(later);
    }
}

fn is_chain(interface: &Interface)
    ensures { IsTrue (is_chain interface.now.chain) }
{
    let _port = interface.port;
}
