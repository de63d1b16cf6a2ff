// What a worker works with, and how it does.
ghost use Rattle.std.specs.Prelude.{◌≡◌, [], ◌∷◌, true, false};
ghost use Rattle.cts_trace.specs.Makers.{of_maker};
ghost use Rattle.cts_turn.specs.Passes.{IsPassOf, view};
ghost use Rattle.cts_worker.specs.Grounds.{ground};
ghost use Rattle.cts_worker.specs.Holds.{Onward};

use crate::WorkerContext;
use cts_outside::{Clock, Gate};
use cts_table::Hall;
use cts_turn::Pass;
use std::sync::Wait;

/// What a worker works with: its devices, what it may do with them, and what it owes at its end. The workers of a site run over any duty.
pub trait Duty: Drop {
    ghost use Rattle.std.specs.Prelude.{Bool, List, ℕ};
    ghost use Rattle.cts_def.specs.Sites.{SiteData};
    ghost use Rattle.cts_entry.specs.declared.entry.Entry.{Entry};
    ghost use Rattle.cts_server.specs.Lasting.{Lasts};
    ghost use Rattle.cts_table.specs.declared.basis.Basis.{Basis};

    /// What its worker leaves, beside its pass.
    type Left: Send + Drop;

    /// The worker of this number may do it, for this site and over these limits.
    ghost can: { SiteData → Self → ℕ → Basis → Type 0 };

    /// What the worker of this number owes that did it, with logs of this digest: by the places at which its holds began, the history, and what
    /// it left.
    ghost owes: { List ℕ → Self → ℕ → Basis → List ℕ → List Entry → Self.Left → Type 0 };

    /// Whether what was left says that the worker was not started.
    ghost was_cancelled: { Self.Left → Bool };

    /// Does it with a pass of the worker's number alone, which has no entry yet. It may wait.
    fn work<'a, R: Wait, K: Clock, G: Gate>(
        self,
        context: &WorkerContext<'a, R, K, G>,
        by: u32,
        pass: Pass<Hall>,
    ) -> (Pass<Hall>, Self::Left)
        requires pass { IsPassOf context.now.turn.now pass }
        requires makers { (view pass).makers ≡ by ∷ [] }
        requires new { of_maker by (view pass).seen ≡ [] }
        requires can { can context.now.site.now self by (ground context.now.turn.now) }
        ensures pass { IsPassOf context.now.turn.now result.0 }
        ensures makers { (view result.0).makers ≡ by ∷ [] }
        ensures onward { Onward (view pass) (view result.0) }
        ensures owes { owes context.now.digest.now self by (ground context.now.turn.now) (view result.0).found (view result.0).seen result.1 }
        ensures worked { was_cancelled result.1 ≡ false };

    /// Ends its worker, which was not started. It may wait for the turn.
    fn cancel<'a, R: Wait, K, G>(
        self,
        context: &WorkerContext<'a, R, K, G>,
        by: u32,
        pass: Pass<Hall>,
    ) -> (Pass<Hall>, Self::Left)
        requires pass { IsPassOf context.now.turn.now pass }
        requires makers { (view pass).makers ≡ by ∷ [] }
        requires new { of_maker by (view pass).seen ≡ [] }
        requires can { can context.now.site.now self by (ground context.now.turn.now) }
        ensures pass { IsPassOf context.now.turn.now result.0 }
        ensures makers { (view result.0).makers ≡ by ∷ [] }
        ensures onward { Onward (view pass) (view result.0) }
        ensures owes { owes context.now.digest.now self by (ground context.now.turn.now) (view result.0).found (view result.0).seen result.1 }
        ensures cancelled { was_cancelled result.1 ≡ true };

    /// Whether `cancel` left this, and not `work`.
    fn cancelled(left: &Self::Left) -> bool
        ensures { result ≡ was_cancelled left.now };

    /// What is owed of a history is owed of every longer one with the same entries of the worker.
    ghost lasts: { (digest : List ℕ) (work : Self) (by : ℕ) (basis : Basis) (found : List ℕ) (left : Self.Left)
        → Lasts by (λ (history : List Entry). owes digest work by basis found history left) };
}
