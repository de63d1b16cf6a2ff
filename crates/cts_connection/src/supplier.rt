// What is asked of what supplies chains. It is written over any of them, since what contracts see of a core with boxed protocols in it
// could not be said otherwise.
ghost use Rattle.std.specs.Prelude.{◌≡◌, ◌≤◌, IfErr, IfNone, IfOk, IfSome, None, OnOk, OnErr, length, map};
ghost use Rattle.cts_chain.specs.Builds.{AllCanBeBuilt, AreFresh, FaultIs, Taken, all_uses, use_specs};
ghost use Rattle.cts_chain.specs.declared.build.ChainFault.TheVariants.{Memory as NoMemory};
ghost use Rattle.cts_chain.specs.Stocking.{first_short};
ghost use Rattle.cts_def.specs.Most.{most_lines};

use cts_chain::{Chain, ChainFault, Framer, build_all, shortage};
use cts_def::ProtoUse;
use cts_proto::{Shelf, Stocked};
use std::alloc::Global;

/// What the chains of a site are taken from.
pub trait Supplier<C: Framer>: Stocked {
    /// The first kind, in their order, of which all these chains together need more boxes than there are, if there is one.
    fn shortage(&self, chains: &[&[ProtoUse]]) -> Option<ChainFault>
        requires count { length chains.now ≤ most_lines }
        requires chains { AllCanBeBuilt (map (λ uses. uses.now) chains.now) }
        ensures short { IfSome result (λ e. (e ≡ NoMemory → ⊥) × FaultIs (Self.stock self.now) (all_uses (map (λ uses. uses.now) chains.now)) e) }
        ensures enough { IfNone result (first_short (Self.stock self.now) (use_specs (all_uses (map (λ uses. uses.now) chains.now))) ≡ None) };

    /// Builds a chain for each of these lists of uses, in order, at most as many as a site has lines. After a refusal the boxes are as they were.
    ///
    /// # Errors
    ///
    /// `ShelfEmpty` with the first kind, in their order, of which all these chains together need more boxes than there are, and
    /// `Memory`, where no kind is short.
    fn build_all(&mut self, alloc: Global, chains: &[&[ProtoUse]]) -> Result<Vec<C>, ChainFault>
        requires count { length chains.now ≤ most_lines }
        requires chains { AllCanBeBuilt (map (λ uses. uses.now) chains.now) }
        ensures enough { OnOk result (first_short (Self.stock self.old) (use_specs (all_uses (map (λ uses. uses.now) chains.now))) ≡ None) }
        ensures fresh { IfOk result (λ built. AreFresh (map (λ uses. uses.now) chains.now) (map C.shape built.items)) }
        ensures taken { OnOk result (Taken (Self.stock self.old) (all_uses (map (λ uses. uses.now) chains.now)) (Self.stock self.new)) }
        ensures fault { IfErr result (λ e. FaultIs (Self.stock self.old) (all_uses (map (λ uses. uses.now) chains.now)) e) }
        ensures kept { OnErr result (Self.stock self.new ≡ Self.stock self.old) };
}

impl Supplier<Chain> for Shelf {
    fn shortage(&self, chains: &[&[ProtoUse]]) -> Option<ChainFault> {
        shortage(self, chains)
    }

    fn build_all(
        &mut self,
        alloc: Global,
        chains: &[&[ProtoUse]],
    ) -> Result<Vec<Chain>, ChainFault> {
        build_all(alloc, self, chains)
    }
}
