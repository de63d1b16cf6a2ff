// Holds of the turn that every worker makes.
ghost use Rattle.std.specs.Prelude.{◌≡◌, ◌≤◌, [], length, true, List};
ghost use Rattle.cts_entry.specs.declared.entry.Entry.{Entry};
ghost use Rattle.cts_entry.specs.Histories.{is_stopped};
ghost use Rattle.cts_entry.specs.Workers.{is_worker};
ghost use Rattle.cts_trace.specs.Makers.{of_maker};
ghost use Rattle.cts_turn.specs.Lists.{StartsWith, has};
ghost use Rattle.cts_turn.specs.Passes.{IsPassOf, view};
ghost use Rattle.cts_worker.specs.Grounds.{ground};
ghost use Rattle.cts_worker.specs.Holds.{EndedHold, Hold, Onward};
ghost use Rattle.cts_worker.specs.Lasts.{MayEnd, first_moment, last_entries};

use crate::ending::end_in;
use cts_def::Time;
use cts_table::Hall;
use cts_turn::{Pass, Turn};
use std::sync::Wait;

/// Whether a Stop stands, in a hold that only looks. It waits for the turn, and takes no memory.
pub fn sees_stop<R: Wait>(
    rt: &R,
    turn: &Turn<Hall>,
    pass: Pass<Hall>,
    by: u32,
) -> (Pass<Hall>, bool)
    requires pass { IsPassOf turn.now pass }
    requires by { has by (view pass).makers ≡ true }
    ensures pass { IsPassOf turn.now result.0 }
    ensures hold { Hold by (view pass) (view result.0) [] }
    ensures stop { result.1 ≡ is_stopped (view result.0).seen }
{
    let held = turn.enter(rt, pass);
    let stop = held.state().stopped();
    (turn.leave(held), stop)
}

/// Appends the last entries of a worker, in one hold: a Stop, where it is to stop the server and none stands, and its Ended. It waits for the turn, and
/// takes no memory.
pub fn end<R: Wait>(
    rt: &R,
    turn: &Turn<Hall>,
    pass: Pass<Hall>,
    by: u32,
    time: Time,
    stops: bool,
) -> Pass<Hall>
    requires pass { IsPassOf turn.now pass }
    requires by { has by (view pass).makers ≡ true }
    requires may { MayEnd (ground turn.now).site by (view pass).seen }
    ensures pass { IsPassOf turn.now result }
    ensures ended { EndedHold by time stops (view pass) (view result) }
    ensures few { length (view result).seen ≤ 8000065 }
{
    let mut held = turn.enter(rt, pass);
    end_in(held.state_mut(), by, time, stops);
    turn.leave(held)
}

/// Ends a worker that was not started and has no entries: appends a Stop, where none stands, and its Ended, both at the first moment. It waits for the
/// turn, and takes no memory.
pub fn cancel<R: Wait>(rt: &R, by: u32, turn: &Turn<Hall>, pass: Pass<Hall>) -> Pass<Hall>
    requires pass { IsPassOf turn.now pass }
    requires by { has by (view pass).makers ≡ true }
    requires new { of_maker by (view pass).seen ≡ [] }
    requires worker { is_worker (ground turn.now).site by ≡ true }
    ensures pass { IsPassOf turn.now result }
    ensures onward { Onward (view pass) (view result) }
    ensures own { (stood : List Entry) × StartsWith stood (view pass).seen × StartsWith (view result).seen stood
        × (of_maker by (view result).seen ≡ last_entries true by first_moment stood) }
    ensures stops { is_stopped (view result).seen ≡ true }
{
    let time = Time {
        seconds: 0,
        micros: 0,
    };
    end(rt, turn, pass, by, time, true)
}
