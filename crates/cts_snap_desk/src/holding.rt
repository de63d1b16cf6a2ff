// A reply in a hold of the turn, with how many entries stood before it and after it.
ghost use Rattle.std.specs.Prelude.{◌≡◌, ◌≤◌, length, true, false};
ghost use Rattle.cts_entry.specs.Legal.{has_ended};
ghost use Rattle.cts_entry.specs.Workers.{is_desk};
ghost use Rattle.cts_turn.specs.Passes.{IsPassOf, view};
ghost use Rattle.cts_worker.specs.Grounds.{ground};
ghost use Rattle.cts_desk.specs.Holds.{Asked, AskedHold, IsReady, text_of};

use cts_api::{Answer, replies_are_of_their_desk, reply};
use cts_base::Memory;
use cts_def::Time;
use cts_table::Hall;
use cts_turn::{Pass, Turn};
use std::alloc::Global;
use std::sync::Wait;

/// A reply, and how many entries stood before it and after it.
#[derive(Drop)]
pub(crate) struct Replied {
    /// How many entries stood at the beginning of the hold.
    pub(crate) front: u64,
    /// How many stood at its end.
    pub(crate) stood: u64,
    /// The reply.
    pub(crate) answer: Result<Answer, Memory>,
}

// The reply over the hall.
fn reply_over(alloc: Global, hall: &mut Hall, by: u32, time: Time, body: &[u8]) -> Replied
    requires desk { is_desk hall.old.basis.site by ≡ true }
    requires active { has_ended by hall.old.entries ≡ false }
    ensures asked { Asked by hall.old body.now result.front (text_of result.answer) hall.new }
    ensures stood { result.stood ≡ length hall.new.entries }
{
    replies_are_of_their_desk();
    let front = hall.count();
    let answer = reply(alloc, hall, by, time, body);
    let stood = hall.count();
    Replied {
        front,
        stood,
        answer,
    }
}

/// Asks for the reply to a body in a hold. At its beginning stand no fewer entries than the pass knows of.
pub(crate) fn hold<W: Wait>(
    rt: &W,
    alloc: Global,
    turn: &Turn<Hall>,
    pass: Pass<Hall>,
    by: u32,
    time: Time,
    body: &[u8],
) -> (Pass<Hall>, Replied)
    requires pass { IsPassOf turn.now pass }
    requires ready { IsReady (ground turn.now) by (view pass) }
    ensures pass { IsPassOf turn.now result.0 }
    ensures asked { AskedHold (ground turn.now) by body.now result.1.front (text_of result.1.answer) (view pass) (view result.0) }
    ensures known { (view pass).known ≤ result.1.front }
    ensures stood { result.1.stood ≡ length (view result.0).seen }
{
    let mut held = turn.enter(rt, pass);
    let replied = reply_over(alloc, held.state_mut(), by, time, body);
    (turn.leave(held), replied)
}
