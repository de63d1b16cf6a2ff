// The worker of a desk.
ghost use Rattle.std.specs.Prelude.{◌≡◌, [], false, true};
ghost use Rattle.cts_entry.specs.Histories.{is_stopped};
ghost use Rattle.cts_entry.specs.Workers.{is_desk};
ghost use Rattle.cts_trace.specs.Makers.{LastEnded, of_maker};
ghost use Rattle.cts_outside.specs.Lines.{hung_up, told_after};
ghost use Rattle.cts_turn.specs.Lists.{StartsWith, has};
ghost use Rattle.cts_turn.specs.Passes.{IsPassOf, view};
ghost use Rattle.cts_desk.specs.Faults.{FaultsRise};
ghost use Rattle.cts_desk.specs.declared.ending.DeskWhy.TheVariants.{Cancelled, DoorFailed};
ghost use Rattle.cts_desk.specs.Ending.{CausesEnd, stops_all};
ghost use Rattle.cts_worker.specs.Lasts.{first_moment, last_entries};
ghost use Rattle.cts_worker.specs.Grounds.{ground};
ghost use Rattle.cts_worker.specs.Holds.{Onward};
ghost use Rattle.cts_desk.specs.Told.{Ends, aim_of, past_of};

use crate::answering::time_of;
use crate::dials::connect;
use crate::ending::{DeskEnd, DeskWhy};
use crate::hand::AtHand;
use crate::holds::ByHolds;
use crate::talk::Talk;
use cts_base::List;
use cts_outside::{Clock, Dialer, Gate, GateStage};
use cts_table::Hall;
use cts_turn::{Pass, Turn};
use cts_worker::{cancel, end};
use std::alloc::Global;
use std::sync::Wait;

/// The worker of a desk, which answers the requests of one client after another.
#[derive(Clone, Copy, Debug)]
pub struct DeskWorker;

impl DeskWorker {
    /// Hangs up, and serves one client of its door after another, until a Stop stands, there will be no client any more, or a dial fails. Each
    /// request is answered in one hold of the turn, and its response is the reply at the point of the history at which that hold began, or want
    /// of memory. What was put on each connection are the responses to what was taken from it, in order. Nothing is taken after a request that
    /// ends the connection, a refusal or want of memory, and no request is answered after a put that failed. Its last entry is Ended. It waits
    /// for the turn, and for no other reason but in the door's calls.
    pub fn run<W: Wait, R: Dialer, K: Clock, G: Gate>(
        rt: &W,
        alloc: Global,
        by: u32,
        turn: &Turn<Hall>,
        pass: Pass<Hall>,
        door: &mut R,
        clock: &K,
        gate: &G,
    ) -> DeskEnd
        requires pass { IsPassOf turn.now pass }
        requires by { has by (view pass).makers ≡ true }
        requires new { of_maker by (view pass).seen ≡ [] }
        requires desk { is_desk (ground turn.now).site by ≡ true }
        ensures pass { IsPassOf turn.now result.pass }
        ensures onward { Onward (view pass) (view result.pass) }
        ensures ends { Ends (ground turn.now) by (stops_all result.why) result.fronts (view result.pass)
            (past_of (told_after hung_up (R.seen door.old).told)) (R.seen door.new).told }
        ensures ended { LastEnded by (view result.pass).seen }
        ensures cause { CausesEnd (view result.pass).seen (R.seen door.new).told (R.seen door.old).failed_dials (R.seen door.new).failed_dials result.why }
        ensures failed { (result.why ≡ DoorFailed → ⊥) → (R.seen door.new).failed_dials ≡ (R.seen door.old).failed_dials }
        ensures stops { stops_all result.why ≡ true → is_stopped (view result.pass).seen ≡ true }
        ensures faults { FaultsRise (R.seen door.old) (R.seen door.new) }
        ensures aim { aim_of (R.seen door.new).told ≡ aim_of (R.seen door.old).told }
        ensures idle { (R.seen door.new).linked ≡ false }
    {
        gate.pass(rt, by, GateStage::Started);
        door.hang_up();
        let talk = Talk {
            pass,
            fronts: Vec::new(alloc),
            source: ByHolds,
        };
        let hand = AtHand {
            rt,
            alloc,
            by,
            turn,
            clock,
            gate,
        };
        let (talk, why) = connect(&hand, talk, door);
        let Talk { pass, fronts, .. } = talk;
        let pass = end(rt, turn, pass, by, time_of(clock), stops_all(why));
        gate.pass(rt, by, GateStage::Posted);
        DeskEnd {
            pass,
            fronts: List::of(fronts),
            why,
        }
    }

    /// Ends a desk that was not started: appends a Stop, where none stands, and its Ended, both at the first moment.
    pub fn cancel<W: Wait>(
        rt: &W,
        alloc: Global,
        by: u32,
        turn: &Turn<Hall>,
        pass: Pass<Hall>,
    ) -> DeskEnd
        requires pass { IsPassOf turn.now pass }
        requires by { has by (view pass).makers ≡ true }
        requires new { of_maker by (view pass).seen ≡ [] }
        requires desk { is_desk (ground turn.now).site by ≡ true }
        ensures pass { IsPassOf turn.now result.pass }
        ensures onward { Onward (view pass) (view result.pass) }
        ensures own { (stood : _) × StartsWith stood (view pass).seen × StartsWith (view result.pass).seen stood
            × (of_maker by (view result.pass).seen ≡ last_entries true by first_moment stood) }
        ensures stops { is_stopped (view result.pass).seen ≡ true }
        ensures fronts { result.fronts ≡ [] }
        ensures why { result.why ≡ Cancelled }
    {
        let pass = cancel(rt, by, turn, pass);
        DeskEnd {
            pass,
            fronts: List::of(Vec::new(alloc)),
            why: DeskWhy::Cancelled,
        }
    }
}

fn stops_all(why: DeskWhy) -> bool
    ensures { result ≡ stops_all why }
{
    match why {
        DeskWhy::Stopped | DeskWhy::Finished => false,
        DeskWhy::DoorFailed | DeskWhy::Cancelled => true,
    }
}
