// The scribe, with the vault that it owns.
ghost use Rattle.std.specs.Prelude.{◌≡◌, ℕ, [], ◌∷◌, true, false};
ghost use Rattle.cts_server.specs.Scribes.{MayRunScribe, OwesScribe, is_cancelled};
ghost use Rattle.cts_trace.specs.Makers.{of_maker};
ghost use Rattle.cts_turn.specs.Passes.{IsPassOf, view};
ghost use Rattle.cts_worker.specs.Grounds.{ground};
ghost use Rattle.cts_worker.specs.Holds.{Onward};

use crate::{ScribeLeft, WorkerContext};
use cts_outside::Vault;
use cts_scribe::{Scribe, ScribeEnd};
use cts_table::Hall;
use cts_turn::Pass;
use std::sync::Wait;

/// Runs the scribe.
pub(crate) fn run_scribe<'a, R: Wait, V: Vault, K, G>(
    context: &WorkerContext<'a, R, K, G>,
    by: u32,
    pass: Pass<Hall>,
    vault: V,
) -> (Pass<Hall>, ScribeLeft<V>)
    requires pass { IsPassOf context.now.turn.now pass }
    requires makers { (view pass).makers ≡ by ∷ [] }
    requires new { of_maker by (view pass).seen ≡ [] }
    requires can { MayRunScribe (ground context.now.turn.now) by context.now.site.now (V.seen vault) }
    ensures pass { IsPassOf context.now.turn.now result.0 }
    ensures onward { Onward (view pass) (view result.0) }
    ensures owes { (cursor : ℕ) × OwesScribe (ground context.now.turn.now).site context.now.digest.now by (view result.0).seen (V.seen vault)
        (V.seen result.1.vault) cursor result.1.why }
    ensures worked { is_cancelled result.1.why ≡ false }
{
    let mut vault = vault;
    let end = Scribe::run(
        context.rt,
        context.alloc,
        context.site,
        by,
        context.turn,
        pass,
        context.digest,
        &mut vault,
    );
    let ScribeEnd {
        pass,
        cursor: _,
        why,
    } = end;
    (pass, ScribeLeft { vault, why })
}

/// Ends a scribe that was not started.
pub(crate) fn cancel_scribe<'a, R: Wait, V: Vault, K, G>(
    context: &WorkerContext<'a, R, K, G>,
    by: u32,
    pass: Pass<Hall>,
    vault: V,
) -> (Pass<Hall>, ScribeLeft<V>)
    requires pass { IsPassOf context.now.turn.now pass }
    requires makers { (view pass).makers ≡ by ∷ [] }
    requires new { of_maker by (view pass).seen ≡ [] }
    requires can { MayRunScribe (ground context.now.turn.now) by context.now.site.now (V.seen vault) }
    ensures pass { IsPassOf context.now.turn.now result.0 }
    ensures onward { Onward (view pass) (view result.0) }
    ensures owes { (cursor : ℕ) × OwesScribe (ground context.now.turn.now).site context.now.digest.now by (view result.0).seen (V.seen vault)
        (V.seen result.1.vault) cursor result.1.why }
    ensures cancelled { is_cancelled result.1.why ≡ true }
{
    let end = Scribe::cancel(context.rt, by, context.turn, pass);
    let ScribeEnd {
        pass,
        cursor: _,
        why,
    } = end;
    (pass, ScribeLeft { vault, why })
}
