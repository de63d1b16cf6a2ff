// The worker of a desk, with the door that it owns.
ghost use Rattle.std.specs.Prelude.{◌≡◌, [], ◌∷◌, true, false};
ghost use Rattle.cts_server.specs.Desks.{MayRunDesk, OwesDesk, is_cancelled};
ghost use Rattle.cts_trace.specs.Makers.{of_maker};
ghost use Rattle.cts_turn.specs.Passes.{IsPassOf, view};
ghost use Rattle.cts_worker.specs.Grounds.{ground};
ghost use Rattle.cts_worker.specs.Holds.{Onward};

use crate::{DeskLeft, WorkerContext};
use cts_desk::{DeskEnd, DeskWorker};
use cts_outside::{Clock, Dialer, Gate};
use cts_table::Hall;
use cts_turn::Pass;
use std::sync::Wait;

/// Runs the worker of a desk.
pub(crate) fn run_desk<'a, R: Wait, Q: Dialer, K: Clock, G: Gate>(
    context: &WorkerContext<'a, R, K, G>,
    by: u32,
    pass: Pass<Hall>,
    door: Q,
) -> (Pass<Hall>, DeskLeft<Q>)
    requires pass { IsPassOf context.now.turn.now pass }
    requires makers { (view pass).makers ≡ by ∷ [] }
    requires new { of_maker by (view pass).seen ≡ [] }
    requires can { MayRunDesk (ground context.now.turn.now) by }
    ensures pass { IsPassOf context.now.turn.now result.0 }
    ensures onward { Onward (view pass) (view result.0) }
    ensures owes { OwesDesk (ground context.now.turn.now) by (view result.0).found (view result.0).seen (Q.seen door)
        (Q.seen result.1.door) result.1.fronts result.1.why }
    ensures tied { result.1.tied ≡ true }
    ensures worked { is_cancelled result.1.why ≡ false }
{
    let mut door = door;
    let end = DeskWorker::run(
        context.rt,
        context.alloc,
        by,
        context.turn,
        pass,
        &mut door,
        context.clock,
        context.gate,
    );
    let DeskEnd { pass, fronts, why } = end;
    (
        pass,
        DeskLeft {
            door,
            fronts,
            why,
            tied: true,
        },
    )
}

/// Ends a desk that was not started.
pub(crate) fn cancel_desk<'a, R: Wait, Q: Dialer, K, G>(
    context: &WorkerContext<'a, R, K, G>,
    by: u32,
    pass: Pass<Hall>,
    door: Q,
) -> (Pass<Hall>, DeskLeft<Q>)
    requires pass { IsPassOf context.now.turn.now pass }
    requires makers { (view pass).makers ≡ by ∷ [] }
    requires new { of_maker by (view pass).seen ≡ [] }
    requires can { MayRunDesk (ground context.now.turn.now) by }
    ensures pass { IsPassOf context.now.turn.now result.0 }
    ensures onward { Onward (view pass) (view result.0) }
    ensures owes { OwesDesk (ground context.now.turn.now) by (view result.0).found (view result.0).seen (Q.seen door)
        (Q.seen result.1.door) result.1.fronts result.1.why }
    ensures tied { result.1.tied ≡ true }
    ensures cancelled { is_cancelled result.1.why ≡ true }
{
    let end = DeskWorker::cancel(context.rt, context.alloc, by, context.turn, pass);
    let DeskEnd { pass, fronts, why } = end;
    (
        pass,
        DeskLeft {
            door,
            fronts,
            why,
            tied: true,
        },
    )
}
