// The worker of a desk that answers look-ups from a snapshot.
ghost use Rattle.std.specs.Prelude.{◌≡◌, [], false, true};
ghost use Rattle.cts_entry.specs.Histories.{is_stopped};
ghost use Rattle.cts_entry.specs.Workers.{is_desk};
ghost use Rattle.cts_trace.specs.Makers.{LastEnded, of_maker};
ghost use Rattle.cts_outside.specs.Lines.{hung_up, told_after};
ghost use Rattle.cts_turn.specs.Lists.{StartsWith, has};
ghost use Rattle.cts_turn.specs.Passes.{IsPassOf, view};
ghost use Rattle.cts_desk.specs.Ending.{CausesEnd, stops_all};
ghost use Rattle.cts_desk.specs.Faults.{FaultsRise};
ghost use Rattle.cts_desk.specs.Told.{aim_of, past_of};
ghost use Rattle.cts_snap_desk.specs.Ending.{SnapEnds, desk_why};
ghost use Rattle.cts_snap_desk.specs.declared.ending.SnapWhy.TheVariants.{Cancelled, DoorFailed};
ghost use Rattle.cts_worker.specs.Lasts.{first_moment, last_entries};
ghost use Rattle.cts_worker.specs.Grounds.{ground};
ghost use Rattle.cts_worker.specs.Holds.{Onward};

use crate::ending::{SnapDeskEnd, SnapWhy, of_desk};
use crate::reads::ByReads;
use cts_base::List;
use cts_def::Time;
use cts_desk::{AtHand, DeskEnd, DeskWorker, Talk, connect};
use cts_outside::{Clock, Dialer, Gate, GateStage};
use cts_snap::Pane;
use cts_table::Hall;
use cts_turn::{Pass, Turn};
use cts_worker::end;
use std::alloc::Global;
use std::sync::Wait;

/// The worker of a desk that answers look-ups from a snapshot.
#[derive(Clone, Copy, Debug)]
pub struct SnapDesk;

impl SnapDesk {
    /// Does what the worker of a desk does, but that it reads from a pane what it can: a look-up is answered by what the pane gives, where that has no
    /// fewer entries than the desk's last front and than stood after its last own entries. All else is answered in a hold of the turn, and so a look-up
    /// whose read was refused. A read for which no memory was found, or which is over more entries than stand under the turn, is answered by want of
    /// memory, with the desk's last front. So every response but those is the reply over the first entries of the history or of the pane's list, as
    /// many as its front says; the fronts never fall, and what the desk appended stands before its later fronts.
    pub fn run<W: Wait, P: Pane, R: Dialer, K: Clock, G: Gate>(
        rt: &W,
        alloc: Global,
        by: u32,
        turn: &Turn<Hall>,
        pass: Pass<Hall>,
        reader: P,
        door: &mut R,
        clock: &K,
        gate: &G,
    ) -> SnapDeskEnd<P>
        requires pass { IsPassOf turn.now pass }
        requires by { has by (view pass).makers ≡ true }
        requires new { of_maker by (view pass).seen ≡ [] }
        requires desk { is_desk (ground turn.now).site by ≡ true }
        requires site { (P.basis reader).site ≡ (ground turn.now).site }
        ensures pass { IsPassOf turn.now result.pass }
        ensures onward { Onward (view pass) (view result.pass) }
        ensures site { (P.basis result.reader).site ≡ (ground turn.now).site }
        ensures ends { SnapEnds (ground turn.now) by (stops_all (desk_why result.why)) (P.basis result.reader) (P.list result.reader) (P.refused reader)
            (P.refused result.reader) result.fronts (view result.pass) (past_of (told_after hung_up (R.seen door.old).told)) (R.seen door.new).told }
        ensures ended { LastEnded by (view result.pass).seen }
        ensures cause { CausesEnd (view result.pass).seen (R.seen door.new).told (R.seen door.old).failed_dials (R.seen door.new).failed_dials
            (desk_why result.why) }
        ensures failed { (result.why ≡ DoorFailed → ⊥) → (R.seen door.new).failed_dials ≡ (R.seen door.old).failed_dials }
        ensures stops { stops_all (desk_why result.why) ≡ true → is_stopped (view result.pass).seen ≡ true }
        ensures faults { FaultsRise (R.seen door.old) (R.seen door.new) }
        ensures aim { aim_of (R.seen door.new).told ≡ aim_of (R.seen door.old).told }
        ensures idle { (R.seen door.new).linked ≡ false }
    {
        gate.pass(rt, by, GateStage::Started);
        door.hang_up();
        let source = ByReads::new(reader);
        let fronts = Vec::new(alloc);
        let talk = Talk {
            pass,
            fronts,
            source,
        };
        let hand = AtHand {
            rt,
            alloc,
            by,
            turn,
            clock,
            gate,
        };
        let (talk, why) = connect(&hand, talk, door);
        let why = of_desk(why);
        let Talk {
            pass,
            fronts,
            source,
        } = talk;
        let pass = end(rt, turn, pass, by, time_of(clock), stops_all(why));
        gate.pass(rt, by, GateStage::Posted);
        let fronts = List::of(fronts);
        let reader = source.into_pane();
        SnapDeskEnd {
            pass,
            fronts,
            why,
            reader,
        }
    }

    /// Ends a desk that was not started as the worker of a desk does, and gives its pane back.
    pub fn cancel<W: Wait, P: Pane>(
        rt: &W,
        alloc: Global,
        by: u32,
        turn: &Turn<Hall>,
        pass: Pass<Hall>,
        reader: P,
    ) -> SnapDeskEnd<P>
        requires pass { IsPassOf turn.now pass }
        requires by { has by (view pass).makers ≡ true }
        requires new { of_maker by (view pass).seen ≡ [] }
        requires desk { is_desk (ground turn.now).site by ≡ true }
        ensures pass { IsPassOf turn.now result.pass }
        ensures onward { Onward (view pass) (view result.pass) }
        ensures own { (stood : _) × StartsWith stood (view pass).seen × StartsWith (view result.pass).seen stood
            × (of_maker by (view result.pass).seen ≡ last_entries true by first_moment stood) }
        ensures stops { is_stopped (view result.pass).seen ≡ true }
        ensures fronts { result.fronts ≡ [] }
        ensures why { result.why ≡ Cancelled }
        ensures reader { result.reader ≡ reader }
    {
        let DeskEnd { pass, fronts, .. } = DeskWorker::cancel(rt, alloc, by, turn, pass);
        SnapDeskEnd {
            pass,
            fronts,
            why: SnapWhy::Cancelled,
            reader,
        }
    }
}

// What the clock shows.
fn time_of<K: Clock>(clock: &K) -> Time {
    let (seconds, micros) = clock.now();
    Time { seconds, micros }
}

fn stops_all(why: SnapWhy) -> bool
    ensures { result ≡ stops_all (desk_why why) }
{
    match why {
        SnapWhy::Stopped | SnapWhy::Finished => false,
        SnapWhy::DoorFailed | SnapWhy::Cancelled => true,
    }
}
