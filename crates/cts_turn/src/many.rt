//! Any number of passes: handed out, taken back, and the turn closed after them.
ghost use Rattle.std.specs.Prelude.{◌≡◌, ℕ, ◌<◌, true, ◌∷◌, [], All, IfOk, length, slice_index_or};
ghost use Rattle.cts_turn.specs.Lists.{has, makers_from, of, StartsWith};
ghost use Rattle.cts_turn.specs.Passes.{IsPassOf, basis_of, view};

use crate::turn::{Pass, Turn};
use cts_base::Memory;
use cts_entry::Stands;
use std::alloc::Global;

/// A pass for each maker below `n`, in their order; the other makers stay with the pass. `Memory` where none was
/// found for the list of them, and then nothing is handed out.
pub fn hand_out<S: Stands>(
    alloc: Global,
    turn: &Turn<S>,
    pass: &mut Pass<S>,
    n: usize,
) -> Result<Vec<Pass<S>>, Memory>
    requires pass { IsPassOf turn.now pass.old }
    requires makers { (view pass.old).makers ≡ makers_from 0 }
    requires some { n < 32 }
    ensures pass { IsPassOf turn.now pass.new }
    ensures left { IfOk result (λ v. (view pass.new).makers ≡ makers_from n) }
    ensures count { IfOk result (λ v. length v.items ≡ n) }
    ensures each { IfOk result (λ v. All (λ p. IsPassOf turn.now p) v.items) }
    ensures theirs { IfOk result (λ v. (k : ℕ) (d : _) → k < n → (view (slice_index_or v.items k d)).makers ≡ k ∷ []) }
{
    let mut passes = Vec::with_capacity(alloc, n)?;
    for _ in 0..n {
        let one = turn.split(pass);
        passes.push_reserved(one);
    }
    Ok(passes)
}

/// Joins these passes to this one.
pub fn take_back<S: Stands>(turn: &Turn<S>, pass: &mut Pass<S>, passes: Vec<Pass<S>>)
    requires pass { IsPassOf turn.now pass.old }
    requires each { All (λ p. IsPassOf turn.now p) passes.items }
    ensures pass { IsPassOf turn.now pass.new }
    ensures mine { (m : ℕ) → has m (view pass.old).makers ≡ true → has m (view pass.new).makers ≡ true }
    ensures theirs { All (λ p. (m : ℕ) → has m (view p).makers ≡ true → has m (view pass.new).makers ≡ true) passes.items }
    ensures seen { StartsWith (view pass.new).seen (view pass.old).seen }
    ensures told { All (λ p. StartsWith (view pass.new).seen (view p).seen) passes.items }
    ensures own { All (λ p. (m : ℕ) → has m (view p).makers ≡ true → of (λ e. e.by) m (view pass.new).seen ≡ of (λ e. e.by) m (view p).seen) passes.items }
{
    for one in passes {
        turn.join(pass, one);
    }
}

/// The state, where these are all passes that were handed out. Its list begins with what each of them saw, and has of
/// each maker just what its pass saw.
pub fn close_all<S: Stands>(turn: Turn<S>, mut pass: Pass<S>, passes: Vec<Pass<S>>) -> S
    requires pass { IsPassOf turn pass }
    requires each { All (λ p. IsPassOf turn p) passes.items }
    requires left { (view pass).makers ≡ makers_from (length passes.items) }
    requires theirs { (k : ℕ) (d : _) → k < length passes.items → (view (slice_index_or passes.items k d)).makers ≡ k ∷ [] }
    ensures basis { S.basis result ≡ basis_of S.basis turn }
    ensures seen { StartsWith (S.list result) (view pass).seen }
    ensures told { All (λ p. StartsWith (S.list result) (view p).seen) passes.items }
    ensures own { All (λ p. (m : ℕ) → has m (view p).makers ≡ true → of (λ e. e.by) m (S.list result) ≡ of (λ e. e.by) m (view p).seen) passes.items }
{
    take_back(&turn, &mut pass, passes);
    turn.close(pass)
}
