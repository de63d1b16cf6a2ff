// The requests that stand in the bytes so far, and their responses.
ghost use Rattle.std.specs.Prelude.{◌≡◌, ◌<◌, ℕ, List, None, Some, true, false, option_map, IsSome, vec_len, vec_capacity};
ghost use Rattle.cts_outside.specs.Lines.{Connection};
ghost use Rattle.cts_turn.specs.Passes.{IsPassOf, view};
ghost use Rattle.cts_desk.specs.Faults.{FaultsRise};
ghost use Rattle.cts_desk.specs.Told.{aim_of};
ghost use Rattle.cts_worker.specs.Grounds.{ground};
ghost use Rattle.cts_desk.specs.Holds.{IsReady, text_of};
ghost use Rattle.cts_worker.specs.Holds.{Onward};
ghost use Rattle.cts_desk.specs.Serving.{Serving, Reads, Waits, Asks, goes_on};

use crate::hand::AtHand;
use crate::puts::{out_of_memory, put_memory, put_refusal, put_response};
use crate::source::Source;
use crate::talk::Talk;
use cts_api::Answer;
use cts_base::Memory;
use cts_def::Time;
use cts_http::{HttpStep, Reader};
use cts_outside::{Clock, Dialer, Gate, GateStage};
use std::sync::Wait;

// The text that is put for an answer.
fn text_of(answer: &Result<Answer, Memory>) -> Option<&[u8]>
    ensures { option_map (λ t. t.now) result ≡ text_of answer.now }
{
    match answer {
        Ok(answer) => match &answer.text {
            Some(text) => Some(text.as_slice()),
            None => None,
        },
        Err(_) => Some(out_of_memory()),
    }
}

// What the clock shows.
pub(crate) fn time_of<K: Clock>(clock: &K) -> Time {
    let (seconds, micros) = clock.now();
    Time { seconds, micros }
}

// Comes by the gate, if entries were appended.
fn comes_by<W: Wait, G: Gate>(rt: &W, by: u32, gate: &G, answer: &Result<Answer, Memory>) {
    match answer {
        Ok(answer) if answer.appended > 0 => gate.pass(rt, by, GateStage::Posted),
        _ => {}
    }
}

// One hold, and one response, after which the connection goes on or not.
fn reply_to<W: Wait, R: Dialer, K: Clock, G: Gate, S: Source>(
    hand: &AtHand<'_, W, K, G>,
    talk: Talk<S>,
    door: &mut R,
    reader: &Reader,
    last: bool,
) -> (Talk<S>, bool)
    requires pass { IsPassOf hand.now.turn.now talk.pass }
    requires ready { IsReady (ground hand.now.turn.now) hand.now.by (view talk.pass) }
    requires fits { S.fits talk.source (ground hand.now.turn.now) }
    requires linked { (R.seen door.old).linked ≡ true }
    requires room { vec_len talk.fronts < vec_capacity talk.fronts }
    requires given { IsSome reader.now.given }
    requires open { reader.now.refused ≡ None }
    requires last { reader.now.closed ≡ last }
    ensures pass { IsPassOf hand.now.turn.now result.0.pass }
    ensures ready { IsReady (ground hand.now.turn.now) hand.now.by (view result.0.pass) }
    ensures fits { S.fits result.0.source (ground hand.now.turn.now) }
    ensures onward { Onward (view talk.pass) (view result.0.pass) }
    ensures linked { (R.seen door.new).linked ≡ true }
    ensures dials { (R.seen door.new).failed_dials ≡ (R.seen door.old).failed_dials }
    ensures faults { FaultsRise (R.seen door.old) (R.seen door.new) }
    ensures aim { aim_of (R.seen door.new).told ≡ aim_of (R.seen door.old).told }
    ensures last { result.1 ≡ true → last ≡ false }
    ensures serves { (n : ℕ) (was : List Connection) (body : List ℕ) → Some body ≡ reader.now.given
        → Serving (S.going talk.source n (ground hand.now.turn.now) hand.now.by) was (Asks body) talk.fronts.items (view talk.pass) reader.now
        (R.seen door.old).told
        → Serving (S.going result.0.source n (ground hand.now.turn.now) hand.now.by) was (goes_on result.1 Reads)
        result.0.fronts.items (view result.0.pass) reader.now (R.seen door.new).told }
{
    let Talk {
        pass,
        mut fronts,
        mut source,
    } = talk;
    hand.gate.pass(hand.rt, hand.by, GateStage::Took);
    let time = time_of(hand.clock);
    let (pass, front, answer) = source.ask(
        hand.rt,
        hand.alloc,
        hand.turn,
        pass,
        hand.by,
        time,
        reader.body(),
        fronts.as_slice(),
    );
    fronts.push_reserved(front);
    comes_by(hand.rt, hand.by, hand.gate, &answer);
    let put = put_response(door, front, text_of(&answer));
    drop(answer);
    let talk = Talk {
        pass,
        fronts,
        source,
    };
    match put {
        Ok(()) => {
            hand.gate.pass(hand.rt, hand.by, GateStage::Answered);
            (talk, !last)
        }
        Err(_) => (talk, false),
    }
}

// Answers the request that the reader gave. Says whether the connection goes on.
fn answer<W: Wait, R: Dialer, K: Clock, G: Gate, S: Source>(
    hand: &AtHand<'_, W, K, G>,
    mut talk: Talk<S>,
    door: &mut R,
    reader: &Reader,
    last: bool,
) -> (Talk<S>, bool)
    requires pass { IsPassOf hand.now.turn.now talk.pass }
    requires ready { IsReady (ground hand.now.turn.now) hand.now.by (view talk.pass) }
    requires fits { S.fits talk.source (ground hand.now.turn.now) }
    requires linked { (R.seen door.old).linked ≡ true }
    requires given { IsSome reader.now.given }
    requires open { reader.now.refused ≡ None }
    requires last { reader.now.closed ≡ last }
    ensures pass { IsPassOf hand.now.turn.now result.0.pass }
    ensures ready { IsReady (ground hand.now.turn.now) hand.now.by (view result.0.pass) }
    ensures fits { S.fits result.0.source (ground hand.now.turn.now) }
    ensures onward { Onward (view talk.pass) (view result.0.pass) }
    ensures linked { (R.seen door.new).linked ≡ true }
    ensures dials { (R.seen door.new).failed_dials ≡ (R.seen door.old).failed_dials }
    ensures faults { FaultsRise (R.seen door.old) (R.seen door.new) }
    ensures aim { aim_of (R.seen door.new).told ≡ aim_of (R.seen door.old).told }
    ensures last { result.1 ≡ true → last ≡ false }
    ensures serves { (n : ℕ) (was : List Connection) (body : List ℕ) → Some body ≡ reader.now.given
        → Serving (S.going talk.source n (ground hand.now.turn.now) hand.now.by) was (Asks body) talk.fronts.items (view talk.pass) reader.now
        (R.seen door.old).told
        → Serving (S.going result.0.source n (ground hand.now.turn.now) hand.now.by) was (goes_on result.1 Reads)
        result.0.fronts.items (view result.0.pass) reader.now (R.seen door.new).told }
{
    match talk.fronts.reserve(1) {
        Ok(()) => reply_to(hand, talk, door, reader, last),
        Err(_) => {
            let _ = put_memory(door, talk.fronts.as_slice());
            (talk, false)
        }
    }
}

/// Answers all requests that stand in the bytes that the reader was fed. Says whether the connection goes on, for more bytes.
pub(crate) fn answer_all<W: Wait, R: Dialer, K: Clock, G: Gate, S: Source>(
    hand: &AtHand<'_, W, K, G>,
    mut talk: Talk<S>,
    door: &mut R,
    reader: &mut Reader,
) -> (Talk<S>, bool)
    requires pass { IsPassOf hand.now.turn.now talk.pass }
    requires ready { IsReady (ground hand.now.turn.now) hand.now.by (view talk.pass) }
    requires fits { S.fits talk.source (ground hand.now.turn.now) }
    requires linked { (R.seen door.old).linked ≡ true }
    requires open { reader.old.closed ≡ false }
    ensures pass { IsPassOf hand.now.turn.now result.0.pass }
    ensures ready { IsReady (ground hand.now.turn.now) hand.now.by (view result.0.pass) }
    ensures fits { S.fits result.0.source (ground hand.now.turn.now) }
    ensures onward { Onward (view talk.pass) (view result.0.pass) }
    ensures linked { (R.seen door.new).linked ≡ true }
    ensures dials { (R.seen door.new).failed_dials ≡ (R.seen door.old).failed_dials }
    ensures faults { FaultsRise (R.seen door.old) (R.seen door.new) }
    ensures aim { aim_of (R.seen door.new).told ≡ aim_of (R.seen door.old).told }
    ensures open { result.1 ≡ true → reader.new.closed ≡ false }
    ensures serves { (n : ℕ) (was : List Connection)
        → Serving (S.going talk.source n (ground hand.now.turn.now) hand.now.by) was Reads talk.fronts.items (view talk.pass) reader.old
        (R.seen door.old).told
        → Serving (S.going result.0.source n (ground hand.now.turn.now) hand.now.by) was (goes_on result.1 Waits)
        result.0.fronts.items (view result.0.pass) reader.new (R.seen door.new).told }
{
    'requests: for _ in hand.rt.forever() {
        let step = reader.next();
        match step {
            HttpStep::More => return (talk, true),
            HttpStep::Refuse(status) => {
                let put = put_refusal(door, status);
                drop(put);
                return (talk, false);
            }
            HttpStep::Request { last } => {
                let (next, goes) = answer(hand, talk, door, reader, last);
                talk = next;
                if !goes {
                    return (talk, false);
                }
            }
        }
    }
    unreachable!()
}
