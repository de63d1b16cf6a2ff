// A connection of a desk that stands, round by round.
ghost use Rattle.std.specs.Prelude.{◌≡◌, ◌<◌, ℕ, List, length, true, false, IfNone, IfSome};
ghost use Rattle.cts_outside.specs.Lines.{Connection};
ghost use Rattle.cts_entry.specs.Histories.{is_stopped};
ghost use Rattle.cts_turn.specs.Passes.{IsPassOf, view};
ghost use Rattle.cts_desk.specs.Faults.{FaultsRise};
ghost use Rattle.cts_desk.specs.Told.{aim_of};
ghost use Rattle.cts_worker.specs.Grounds.{ground};
ghost use Rattle.cts_desk.specs.Holds.{IsReady};
ghost use Rattle.cts_worker.specs.Holds.{Onward};
ghost use Rattle.cts_desk.specs.Serving.{Serving, Waits, Took, after, goes_on, halts_or, is_stop, over_unless};

use crate::answering::answer_all;
use crate::ending::HangUp;
use crate::hand::AtHand;
use crate::holds::look;
use crate::puts::put_memory;
use crate::source::Source;
use crate::talk::Talk;
use cts_http::Reader;
use cts_outside::{Clock, Dialer, Gate, Taken};
use std::sync::Wait;

// The desk hangs up on a connection that does not go on.
fn over_unless(goes: bool) -> Option<HangUp>
    ensures { result ≡ over_unless goes }
{
    if goes { None } else { Some(HangUp::Over) }
}

/// Whether a desk hangs up for a Stop.
pub(crate) fn is_stop(why: HangUp) -> bool
    ensures { result ≡ is_stop why }
{
    match why {
        HangUp::Stopped => true,
        HangUp::Over => false,
    }
}

// Posts the requests that a piece makes whole, one after another, and puts the response to each. Says whether the connection goes on.
fn post<W: Wait, R: Dialer, K: Clock, G: Gate, S: Source>(
    hand: &AtHand<'_, W, K, G>,
    talk: Talk<S>,
    door: &mut R,
    reader: &mut Reader,
    piece: &[u8],
) -> (Talk<S>, bool)
    requires pass { IsPassOf hand.now.turn.now talk.pass }
    requires ready { IsReady (ground hand.now.turn.now) hand.now.by (view talk.pass) }
    requires fits { S.fits talk.source (ground hand.now.turn.now) }
    requires linked { (R.seen door.old).linked ≡ true }
    requires open { reader.old.closed ≡ false }
    ensures pass { IsPassOf hand.now.turn.now result.0.pass }
    ensures ready { IsReady (ground hand.now.turn.now) hand.now.by (view result.0.pass) }
    ensures fits { S.fits result.0.source (ground hand.now.turn.now) }
    ensures onward { Onward (view talk.pass) (view result.0.pass) }
    ensures linked { (R.seen door.new).linked ≡ true }
    ensures dials { (R.seen door.new).failed_dials ≡ (R.seen door.old).failed_dials }
    ensures faults { FaultsRise (R.seen door.old) (R.seen door.new) }
    ensures aim { aim_of (R.seen door.new).told ≡ aim_of (R.seen door.old).told }
    ensures open { result.1 ≡ true → reader.new.closed ≡ false }
    ensures serves { (n : ℕ) (was : List Connection)
        → Serving (S.going talk.source n (ground hand.now.turn.now) hand.now.by) was (Took piece.now) talk.fronts.items (view talk.pass) reader.old
        (R.seen door.old).told
        → Serving (S.going result.0.source n (ground hand.now.turn.now) hand.now.by) was (goes_on result.1 Waits)
        result.0.fronts.items (view result.0.pass) reader.new (R.seen door.new).told }
{
    match reader.feed(piece) {
        Ok(()) => answer_all(hand, talk, door, reader),
        Err(_) => {
            let _ = put_memory(door, talk.fronts.as_slice());
            (talk, false)
        }
    }
}

/// Looks, takes a piece, posts its requests and puts the responses. Says why the desk hangs up, if it does.
pub(crate) fn round<W: Wait, R: Dialer, K: Clock, G: Gate, S: Source>(
    hand: &AtHand<'_, W, K, G>,
    talk: Talk<S>,
    door: &mut R,
    reader: &mut Reader,
    buffer: &mut [u8],
) -> (Talk<S>, Option<HangUp>)
    requires pass { IsPassOf hand.now.turn.now talk.pass }
    requires ready { IsReady (ground hand.now.turn.now) hand.now.by (view talk.pass) }
    requires fits { S.fits talk.source (ground hand.now.turn.now) }
    requires linked { (R.seen door.old).linked ≡ true }
    requires open { reader.old.closed ≡ false }
    requires room { 0 < length buffer.old }
    ensures pass { IsPassOf hand.now.turn.now result.0.pass }
    ensures ready { IsReady (ground hand.now.turn.now) hand.now.by (view result.0.pass) }
    ensures fits { S.fits result.0.source (ground hand.now.turn.now) }
    ensures onward { Onward (view talk.pass) (view result.0.pass) }
    ensures linked { (R.seen door.new).linked ≡ true }
    ensures dials { (R.seen door.new).failed_dials ≡ (R.seen door.old).failed_dials }
    ensures faults { FaultsRise (R.seen door.old) (R.seen door.new) }
    ensures aim { aim_of (R.seen door.new).told ≡ aim_of (R.seen door.old).told }
    ensures open { IfNone result.1 (reader.new.closed ≡ false) }
    ensures stop { IfSome result.1 (λ why. is_stop why ≡ true → is_stopped (view result.0.pass).seen ≡ true) }
    ensures serves { (n : ℕ) (was : List Connection)
        → Serving (S.going talk.source n (ground hand.now.turn.now) hand.now.by) was Waits talk.fronts.items (view talk.pass) reader.old
        (R.seen door.old).told
        → Serving (S.going result.0.source n (ground hand.now.turn.now) hand.now.by) was (after result.1)
        result.0.fronts.items (view result.0.pass) reader.new (R.seen door.new).told }
{
    let (talk, stop) = look(hand.rt, hand.turn, talk, hand.by);
    if stop {
        return (talk, Some(HangUp::Stopped));
    }
    match door.take(buffer) {
        Taken::Nothing => (talk, None),
        Taken::End => (talk, Some(HangUp::Over)),
        Taken::Failed => (talk, Some(HangUp::Over)),
        Taken::Got(count) => {
            let (talk, goes) = post(hand, talk, door, reader, &buffer[..count]);
            (talk, over_unless(goes))
        }
    }
}

/// Talks with the client of the connection that stands, until the desk hangs up. Says why it does.
pub(crate) fn talk<W: Wait, R: Dialer, K: Clock, G: Gate, S: Source>(
    hand: &AtHand<'_, W, K, G>,
    mut talk: Talk<S>,
    door: &mut R,
    reader: &mut Reader,
) -> (Talk<S>, HangUp)
    requires pass { IsPassOf hand.now.turn.now talk.pass }
    requires ready { IsReady (ground hand.now.turn.now) hand.now.by (view talk.pass) }
    requires fits { S.fits talk.source (ground hand.now.turn.now) }
    requires linked { (R.seen door.old).linked ≡ true }
    requires open { reader.old.closed ≡ false }
    ensures pass { IsPassOf hand.now.turn.now result.0.pass }
    ensures ready { IsReady (ground hand.now.turn.now) hand.now.by (view result.0.pass) }
    ensures fits { S.fits result.0.source (ground hand.now.turn.now) }
    ensures onward { Onward (view talk.pass) (view result.0.pass) }
    ensures linked { (R.seen door.new).linked ≡ true }
    ensures dials { (R.seen door.new).failed_dials ≡ (R.seen door.old).failed_dials }
    ensures faults { FaultsRise (R.seen door.old) (R.seen door.new) }
    ensures aim { aim_of (R.seen door.new).told ≡ aim_of (R.seen door.old).told }
    ensures stop { is_stop result.1 ≡ true → is_stopped (view result.0.pass).seen ≡ true }
    ensures serves { (n : ℕ) (was : List Connection)
        → Serving (S.going talk.source n (ground hand.now.turn.now) hand.now.by) was Waits talk.fronts.items (view talk.pass) reader.old
        (R.seen door.old).told
        → Serving (S.going result.0.source n (ground hand.now.turn.now) hand.now.by) was (halts_or (is_stop result.1))
        result.0.fronts.items (view result.0.pass) reader.new (R.seen door.new).told }
{
    let mut buffer = [0u8; 4096];
    'rounds: for _ in hand.rt.forever() {
        let (next, end) = round(hand, talk, door, reader, &mut buffer);
        talk = next;
        if let Some(why) = end {
            return (talk, why);
        }
    }
    unreachable!()
}
