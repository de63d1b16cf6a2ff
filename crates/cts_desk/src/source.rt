// Where the replies of a desk come from.
ghost use Rattle.std.specs.Prelude.{◌≡◌, ◌++◌, ◌∷◌, [], List, ℕ};
ghost use Rattle.cts_turn.specs.Passes.{IsPassOf, view};
ghost use Rattle.cts_worker.specs.Grounds.{ground};
ghost use Rattle.cts_worker.specs.Holds.{Onward};
ghost use Rattle.cts_desk.specs.Exchanges.{Exchange};
ghost use Rattle.cts_desk.specs.Holds.{IsReady, text_of};

use cts_api::Answer;
use cts_base::Memory;
use cts_def::Time;
use cts_table::Hall;
use cts_turn::{Pass, Turn};
use std::alloc::Global;
use std::sync::Wait;

/// Where the replies of a desk come from. What a desk does with them is written over any source.
pub trait Source: Drop {
    ghost use Rattle.std.specs.Prelude.{◌≡◌, [], List, ℕ};
    ghost use Rattle.cts_entry.specs.declared.entry.Entry.{Entry};
    ghost use Rattle.cts_table.specs.declared.basis.Basis.{Basis};
    ghost use Rattle.cts_turn.specs.declared.rule.View.{View};
    ghost use Rattle.cts_worker.specs.Holds.{Hold};
    ghost use Rattle.cts_desk.specs.Exchanges.{Exchange, fronts_of};

    /// What is known of the exchanges of a desk so far, beside their fronts and what the desk has seen. The number is one that was fixed when the
    /// desk began, as a count of the source's own.
    ghost going: { Self → ℕ → Basis → ℕ → List ℕ → View Entry Basis → List Exchange → Type 0 };

    /// It is a source of replies for this site and these limits.
    ghost fits: { Self → Basis → Type 0 };

    /// Asks for the reply to a body, after the exchanges with these fronts. Gives back the pass, and how many entries stood where the reply is of.
    fn ask<W: Wait>(
        &mut self,
        rt: &W,
        alloc: Global,
        turn: &Turn<Hall>,
        pass: Pass<Hall>,
        by: u32,
        time: Time,
        body: &[u8],
        fronts: &[u64],
    ) -> (Pass<Hall>, u64, Result<Answer, Memory>)
        requires pass { IsPassOf turn.now pass }
        requires ready { IsReady (ground turn.now) by (view pass) }
        requires fits { fits self.old (ground turn.now) }
        ensures pass { IsPassOf turn.now result.0 }
        ensures ready { IsReady (ground turn.now) by (view result.0) }
        ensures onward { Onward (view pass) (view result.0) }
        ensures fits { fits self.new (ground turn.now) }
        ensures going { (n : ℕ) (xs : List Exchange) → going self.old n (ground turn.now) by fronts.now (view pass) xs
            → going self.new n (ground turn.now) by (fronts.now ++ result.1 ∷ []) (view result.0)
            (xs ++ record { body = body.now; front = result.1; text = text_of result.2 } ∷ []) };

    /// The fronts are those of the exchanges.
    ghost counts: { (s : Self) (n : ℕ) (b : Basis) (by : ℕ) (fronts : List ℕ) (v : View Entry Basis) (xs : List Exchange)
        → going s n b by fronts v xs → fronts ≡ fronts_of xs };

    /// A look changes nothing of them.
    ghost stays: { (s : Self) (n : ℕ) (b : Basis) (by : ℕ) (fronts : List ℕ) (v w : View Entry Basis) (xs : List Exchange)
        → Hold by v w [] → going s n b by fronts v xs → going s n b by fronts w xs };
}
