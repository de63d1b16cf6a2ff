// Holds of the turn, each for one event.
ghost use Rattle.std.specs.Prelude.{◌≡◌, [], true, false};
ghost use Rattle.cts_entry.specs.Histories.{is_stopped};
ghost use Rattle.cts_entry.specs.Legal.{has_ended};
ghost use Rattle.cts_entry.specs.Workers.{is_desk};
ghost use Rattle.cts_turn.specs.Passes.{IsPassOf, view};
ghost use Rattle.cts_worker.specs.Grounds.{ground};
ghost use Rattle.cts_worker.specs.Holds.{Hold};
ghost use Rattle.cts_desk.specs.Holds.{Asked, AskedHold, IsReady, text_of};

use crate::source::Source;
use crate::talk::Talk;
use cts_api::{Answer, replies_are_of_their_desk, reply};
use cts_base::Memory;
use cts_def::Time;
use cts_table::Hall;
use cts_turn::{Pass, Turn};
use cts_worker::sees_stop;
use std::alloc::Global;
use std::sync::Wait;

// The reply of a desk over the hall, and how many entries stood before it.
fn ask_hall(
    alloc: Global,
    hall: &mut Hall,
    by: u32,
    time: Time,
    body: &[u8],
) -> (u64, Result<Answer, Memory>)
    requires desk { is_desk hall.old.basis.site by ≡ true }
    requires active { has_ended by hall.old.entries ≡ false }
    ensures { Asked by hall.old body.now result.0 (text_of result.1) hall.new }
{
    replies_are_of_their_desk();
    let front = hall.count();
    let answer = reply(alloc, hall, by, time, body);
    (front, answer)
}

// Asks for the reply to a body, at a point of the history.
fn ask<W: Wait>(
    rt: &W,
    alloc: Global,
    turn: &Turn<Hall>,
    pass: Pass<Hall>,
    by: u32,
    time: Time,
    body: &[u8],
) -> (Pass<Hall>, u64, Result<Answer, Memory>)
    requires pass { IsPassOf turn.now pass }
    requires ready { IsReady (ground turn.now) by (view pass) }
    ensures pass { IsPassOf turn.now result.0 }
    ensures asked { AskedHold (ground turn.now) by body.now result.1 (text_of result.2) (view pass) (view result.0) }
{
    let mut held = turn.enter(rt, pass);
    let (front, answer) = ask_hall(alloc, held.state_mut(), by, time, body);
    (turn.leave(held), front, answer)
}

/// Replies over the hall under the turn, each in a hold of its own.
#[derive(Clone, Copy, Debug)]
pub struct ByHolds;

impl Source for ByHolds {
    ghost use Rattle.cts_desk.specs.Serving.{Going};
    ghost use Rattle.cts_desk.specs.Growing.{going_look};

    ghost going = { λ s n. Going };

    ghost fits = { λ s b. Unit {0} };

    fn ask<W: Wait>(
        &mut self,
        rt: &W,
        alloc: Global,
        turn: &Turn<Hall>,
        pass: Pass<Hall>,
        by: u32,
        time: Time,
        body: &[u8],
        _fronts: &[u64],
    ) -> (Pass<Hall>, u64, Result<Answer, Memory>) {
        ask(rt, alloc, turn, pass, by, time, body)
    }

    ghost counts = { λ s n b by fronts v xs g. g.fronts_are };

    ghost stays = { λ s n. going_look };
}

/// Looks whether a Stop stands.
pub(crate) fn look<W: Wait, S: Source>(
    rt: &W,
    turn: &Turn<Hall>,
    talk: Talk<S>,
    by: u32,
) -> (Talk<S>, bool)
    requires pass { IsPassOf turn.now talk.pass }
    requires ready { IsReady (ground turn.now) by (view talk.pass) }
    ensures pass { IsPassOf turn.now result.0.pass }
    ensures fronts { result.0.fronts ≡ talk.fronts }
    ensures source { result.0.source ≡ talk.source }
    ensures ready { IsReady (ground turn.now) by (view result.0.pass) }
    ensures hold { Hold by (view talk.pass) (view result.0.pass) [] }
    ensures stop { result.1 ≡ is_stopped (view result.0.pass).seen }
{
    let Talk {
        pass,
        fronts,
        source,
    } = talk;
    let (pass, stop) = sees_stop(rt, turn, pass, by);
    (
        Talk {
            pass,
            fronts,
            source,
        },
        stop,
    )
}
