// The passes of the makers 0 and 1, and the turn closed after them.
ghost use Rattle.std.specs.Prelude.{◌≡◌, ◌∷◌, []};
ghost use Rattle.cts_turn.specs.Lists.{makers_from, of, StartsWith};
ghost use Rattle.cts_turn.specs.Passes.{IsPassOf, basis_of, view};

use cts_entry::Stands;
use cts_turn::{Pass, Turn};

/// The passes of the makers 0 and 1.
pub fn first_two<S: Stands>(turn: &Turn<S>, pass: &mut Pass<S>) -> (Pass<S>, Pass<S>)
    requires pass { IsPassOf turn.now pass.old }
    requires makers { (view pass.old).makers ≡ makers_from 0 }
    ensures pass { IsPassOf turn.now pass.new × IsPassOf turn.now result.0 × IsPassOf turn.now result.1 }
    ensures makers { ((view pass.new).makers ≡ makers_from 2) × ((view result.0).makers ≡ 0 ∷ []) × ((view result.1).makers ≡ 1 ∷ []) }
    ensures seen { ((view pass.new).seen ≡ (view pass.old).seen) × ((view result.0).seen ≡ (view pass.old).seen) × ((view result.1).seen ≡ (view pass.old).seen) }
{
    let first = turn.split(pass);
    let second = turn.split(pass);
    (first, second)
}

/// The state, once the passes of the makers 0 and 1 have come back. It has of each of the two what its pass saw.
pub fn close_two<S: Stands>(turn: Turn<S>, mut rest: Pass<S>, first: Pass<S>, second: Pass<S>) -> S
    requires pass { IsPassOf turn rest × IsPassOf turn first × IsPassOf turn second }
    requires makers { ((view rest).makers ≡ makers_from 2) × ((view first).makers ≡ 0 ∷ []) × ((view second).makers ≡ 1 ∷ []) }
    ensures basis { S.basis result ≡ basis_of S.basis turn }
    ensures first { of (λ e. e.by) 0 (S.list result) ≡ of (λ e. e.by) 0 (view first).seen }
    ensures second { of (λ e. e.by) 1 (S.list result) ≡ of (λ e. e.by) 1 (view second).seen }
{
    turn.join(&mut rest, first);
    turn.join(&mut rest, second);
    turn.close(rest)
}
