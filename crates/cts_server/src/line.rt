// The worker of a line, with the device that it owns.
ghost use Rattle.std.specs.Prelude.{◌≡◌, ℕ, [], ◌∷◌, true, false};
ghost use Rattle.cts_server.specs.Lines.{MayRunLine, OwesLine, is_cancelled};
ghost use Rattle.cts_trace.specs.Makers.{of_maker};
ghost use Rattle.cts_turn.specs.Passes.{IsPassOf, view};
ghost use Rattle.cts_worker.specs.Grounds.{ground};
ghost use Rattle.cts_worker.specs.Holds.{Onward};

use crate::{Line, LineLeft, WorkerContext};
use cts_chain::Framer;
use cts_line::{LineEnd, LineWorker};
use cts_outside::{Clock, Dialer, Gate};
use cts_table::Hall;
use cts_turn::Pass;
use std::sync::Wait;

/// Runs the worker of a line.
pub(crate) fn run_line<'a, R: Wait, D: Dialer, C: Framer, K: Clock, G: Gate>(
    context: &WorkerContext<'a, R, K, G>,
    by: u32,
    pass: Pass<Hall>,
    line: Line<D, C>,
) -> (Pass<Hall>, LineLeft<D>)
    requires pass { IsPassOf context.now.turn.now pass }
    requires makers { (view pass).makers ≡ by ∷ [] }
    requires new { of_maker by (view pass).seen ≡ [] }
    requires can { MayRunLine (ground context.now.turn.now) by context.now.site.now (C.shape line.chain) }
    ensures pass { IsPassOf context.now.turn.now result.0 }
    ensures onward { Onward (view pass) (view result.0) }
    ensures owes { (connections : ℕ) × OwesLine (ground context.now.turn.now) by (view result.0).found (view result.0).seen (D.seen line.device)
        (D.seen result.1.device) connections result.1.why }
    ensures worked { is_cancelled result.1.why ≡ false }
{
    let Line { mut device, chain } = line;
    let end = LineWorker::run(
        context.rt,
        context.alloc,
        context.site,
        by,
        context.turn,
        pass,
        &mut device,
        chain,
        context.clock,
        context.gate,
    );
    let LineEnd {
        pass,
        connections: _,
        why,
    } = end;
    (pass, LineLeft { device, why })
}

/// Ends a line that was not started.
pub(crate) fn cancel_line<'a, R: Wait, D: Dialer, C: Framer, K, G>(
    context: &WorkerContext<'a, R, K, G>,
    by: u32,
    pass: Pass<Hall>,
    line: Line<D, C>,
) -> (Pass<Hall>, LineLeft<D>)
    requires pass { IsPassOf context.now.turn.now pass }
    requires makers { (view pass).makers ≡ by ∷ [] }
    requires new { of_maker by (view pass).seen ≡ [] }
    requires can { MayRunLine (ground context.now.turn.now) by context.now.site.now (C.shape line.chain) }
    ensures pass { IsPassOf context.now.turn.now result.0 }
    ensures onward { Onward (view pass) (view result.0) }
    ensures owes { (connections : ℕ) × OwesLine (ground context.now.turn.now) by (view result.0).found (view result.0).seen (D.seen line.device)
        (D.seen result.1.device) connections result.1.why }
    ensures cancelled { is_cancelled result.1.why ≡ true }
{
    let Line { device, chain: _ } = line;
    let end = LineWorker::cancel(context.rt, by, context.turn, pass);
    let LineEnd {
        pass,
        connections: _,
        why,
    } = end;
    (pass, LineLeft { device, why })
}
