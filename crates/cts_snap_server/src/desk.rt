// The worker of a desk that reads from a pane, with the door and the pane that it owns.
ghost use Rattle.std.specs.Prelude.{◌≡◌, [], ◌∷◌};
ghost use Rattle.cts_desk.specs.declared.ending.DeskWhy.TheVariants.{Cancelled};
ghost use Rattle.cts_snap_desk.specs.Ending.{desk_why};
ghost use Rattle.cts_snap_server.specs.SnapDesks.{MayRunSnapDesk, OwesSnapDesk, pane_of};
ghost use Rattle.cts_trace.specs.Makers.{of_maker};
ghost use Rattle.cts_turn.specs.Passes.{IsPassOf, view};
ghost use Rattle.cts_worker.specs.Grounds.{ground};
ghost use Rattle.cts_worker.specs.Holds.{Onward};

use cts_base::List;
use cts_desk::{AtHand, DeskWhy};
use cts_outside::{Clock, Dialer, Gate};
use cts_snap::Pane;
use cts_snap_desk::{SnapDesk, SnapDeskEnd, SnapWhy};
use cts_table::Hall;
use cts_turn::Pass;
use std::sync::Wait;

/// What a desk leaves that reads from a pane.
#[derive(Drop)]
pub struct SnapDeskLeft<X, P> {
    /// Its door.
    pub door: X,
    /// Its pane.
    pub reader: P,
    /// The fronts of its requests, in order.
    pub fronts: List<u64>,
    /// Why it ended.
    pub why: DeskWhy,
}

// The reason of a desk with the same name.
fn why_of(why: SnapWhy) -> DeskWhy
    ensures { result ≡ desk_why why }
{
    match why {
        SnapWhy::Stopped => DeskWhy::Stopped,
        SnapWhy::Finished => DeskWhy::Finished,
        SnapWhy::DoorFailed => DeskWhy::DoorFailed,
        SnapWhy::Cancelled => DeskWhy::Cancelled,
    }
}

/// Runs the worker of a desk that reads from a pane.
pub fn run_snap_desk<'a, W: Wait, Q: Dialer, P: Pane, K: Clock, G: Gate>(
    hand: &AtHand<'a, W, K, G>,
    pass: Pass<Hall>,
    door: Q,
    reader: P,
) -> (Pass<Hall>, SnapDeskLeft<Q, P>)
    requires pass { IsPassOf hand.now.turn.now pass }
    requires makers { (view pass).makers ≡ hand.now.by ∷ [] }
    requires new { of_maker hand.now.by (view pass).seen ≡ [] }
    requires can { MayRunSnapDesk (ground hand.now.turn.now) hand.now.by (pane_of P.basis P.list P.refused reader) }
    ensures pass { IsPassOf hand.now.turn.now result.0 }
    ensures onward { Onward (view pass) (view result.0) }
    ensures owes { OwesSnapDesk (ground hand.now.turn.now) hand.now.by (view result.0).found (view result.0).seen (Q.seen door) (Q.seen result.1.door)
        (pane_of P.basis P.list P.refused reader) (pane_of P.basis P.list P.refused result.1.reader) result.1.fronts result.1.why }
    ensures worked { result.1.why ≡ Cancelled → ⊥ }
{
    let mut door = door;
    let end = SnapDesk::run(
        hand.rt, hand.alloc, hand.by, hand.turn, pass, reader, &mut door, hand.clock, hand.gate,
    );
    let SnapDeskEnd {
        pass,
        fronts,
        why,
        reader,
    } = end;
    let why = why_of(why);
    (
        pass,
        SnapDeskLeft {
            door,
            reader,
            fronts,
            why,
        },
    )
}

/// Ends such a desk that was not started.
pub fn cancel_snap_desk<'a, W: Wait, Q: Dialer, P: Pane, K, G>(
    hand: &AtHand<'a, W, K, G>,
    pass: Pass<Hall>,
    door: Q,
    reader: P,
) -> (Pass<Hall>, SnapDeskLeft<Q, P>)
    requires pass { IsPassOf hand.now.turn.now pass }
    requires makers { (view pass).makers ≡ hand.now.by ∷ [] }
    requires new { of_maker hand.now.by (view pass).seen ≡ [] }
    requires can { MayRunSnapDesk (ground hand.now.turn.now) hand.now.by (pane_of P.basis P.list P.refused reader) }
    ensures pass { IsPassOf hand.now.turn.now result.0 }
    ensures onward { Onward (view pass) (view result.0) }
    ensures owes { OwesSnapDesk (ground hand.now.turn.now) hand.now.by (view result.0).found (view result.0).seen (Q.seen door) (Q.seen result.1.door)
        (pane_of P.basis P.list P.refused reader) (pane_of P.basis P.list P.refused result.1.reader) result.1.fronts result.1.why }
    ensures cancelled { result.1.why ≡ Cancelled }
{
    let end = SnapDesk::cancel(hand.rt, hand.alloc, hand.by, hand.turn, pass, reader);
    let SnapDeskEnd {
        pass,
        fronts,
        why,
        reader,
    } = end;
    let why = why_of(why);
    (
        pass,
        SnapDeskLeft {
            door,
            reader,
            fronts,
            why,
        },
    )
}
