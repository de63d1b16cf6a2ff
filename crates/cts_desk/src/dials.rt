// One connection of a desk after another.
ghost use Rattle.std.specs.Prelude.{◌≡◌, ℕ, true, false, List, None, Some};
ghost use Rattle.cts_entry.specs.Histories.{is_stopped};
ghost use Rattle.cts_outside.specs.Lines.{Connection};
ghost use Rattle.cts_turn.specs.Passes.{IsPassOf, view};
ghost use Rattle.cts_desk.specs.Faults.{FaultsRise};
ghost use Rattle.cts_desk.specs.Told.{aim_of};
ghost use Rattle.cts_desk.specs.Ending.{CausesEnd, CausesEndIf, may_cut, stopped_if};
ghost use Rattle.cts_desk.specs.declared.ending.DeskWhy.TheVariants.{DoorFailed};
ghost use Rattle.cts_worker.specs.Grounds.{ground};
ghost use Rattle.cts_desk.specs.Holds.{IsReady};
ghost use Rattle.cts_worker.specs.Holds.{Onward};
ghost use Rattle.cts_desk.specs.Serving.{Begins, Resting};

use crate::ending::DeskWhy;
use crate::hand::AtHand;
use crate::holds::look;
use crate::rounds;
use crate::source::Source;
use crate::talk::Talk;
use cts_http::Reader;
use cts_outside::{Clock, Dialed, Dialer, Gate};
use std::sync::Wait;

// Serves the client of the connection that stands, and hangs up. Says whether it is over for a Stop.
fn attend<W: Wait, R: Dialer, K: Clock, G: Gate, S: Source>(
    hand: &AtHand<'_, W, K, G>,
    talk: Talk<S>,
    door: &mut R,
) -> (Talk<S>, bool)
    requires pass { IsPassOf hand.now.turn.now talk.pass }
    requires ready { IsReady (ground hand.now.turn.now) hand.now.by (view talk.pass) }
    requires fits { S.fits talk.source (ground hand.now.turn.now) }
    requires linked { (R.seen door.old).linked ≡ true }
    ensures pass { IsPassOf hand.now.turn.now result.0.pass }
    ensures ready { IsReady (ground hand.now.turn.now) hand.now.by (view result.0.pass) }
    ensures fits { S.fits result.0.source (ground hand.now.turn.now) }
    ensures onward { Onward (view talk.pass) (view result.0.pass) }
    ensures idle { (R.seen door.new).linked ≡ false }
    ensures dials { (R.seen door.new).failed_dials ≡ (R.seen door.old).failed_dials }
    ensures faults { FaultsRise (R.seen door.old) (R.seen door.new) }
    ensures aim { aim_of (R.seen door.new).told ≡ aim_of (R.seen door.old).told }
    ensures stop { result.1 ≡ true → is_stopped (view result.0.pass).seen ≡ true }
    ensures serves { (n : ℕ) (was : List Connection)
        → Begins (S.going talk.source n (ground hand.now.turn.now) hand.now.by) was talk.fronts.items (view talk.pass) (R.seen door.old).told
        → Resting (S.going result.0.source n (ground hand.now.turn.now) hand.now.by) was result.1 result.0.fronts.items (view result.0.pass)
        (R.seen door.new).told }
{
    let mut reader = Reader::new(hand.alloc);
    let (talk, why) = rounds::talk(hand, talk, door, &mut reader);
    door.hang_up();
    drop(reader);
    (talk, rounds::is_stop(why))
}

// Serves the next client, if one is there. Says why the desk ends, if it does.
fn attempt<W: Wait, R: Dialer, K: Clock, G: Gate, S: Source>(
    hand: &AtHand<'_, W, K, G>,
    talk: Talk<S>,
    door: &mut R,
) -> (Talk<S>, Option<DeskWhy>)
    requires pass { IsPassOf hand.now.turn.now talk.pass }
    requires ready { IsReady (ground hand.now.turn.now) hand.now.by (view talk.pass) }
    requires fits { S.fits talk.source (ground hand.now.turn.now) }
    requires idle { (R.seen door.old).linked ≡ false }
    ensures pass { IsPassOf hand.now.turn.now result.0.pass }
    ensures ready { IsReady (ground hand.now.turn.now) hand.now.by (view result.0.pass) }
    ensures fits { S.fits result.0.source (ground hand.now.turn.now) }
    ensures onward { Onward (view talk.pass) (view result.0.pass) }
    ensures idle { (R.seen door.new).linked ≡ false }
    ensures faults { FaultsRise (R.seen door.old) (R.seen door.new) }
    ensures aim { aim_of (R.seen door.new).told ≡ aim_of (R.seen door.old).told }
    ensures cause { CausesEndIf (view result.0.pass).seen (R.seen door.new).told (R.seen door.old).failed_dials (R.seen door.new).failed_dials result.1 }
    ensures failed { (result.1 ≡ Some DoorFailed → ⊥) → (R.seen door.new).failed_dials ≡ (R.seen door.old).failed_dials }
    ensures serves { (n : ℕ) (was : List Connection)
        → Resting (S.going talk.source n (ground hand.now.turn.now) hand.now.by) was false talk.fronts.items (view talk.pass) (R.seen door.old).told
        → Resting (S.going result.0.source n (ground hand.now.turn.now) hand.now.by) was (may_cut result.1 (view result.0.pass).seen)
        result.0.fronts.items (view result.0.pass) (R.seen door.new).told }
{
    match door.dial() {
        Dialed::Linked => {
            let (talk, stop) = attend(hand, talk, door);
            (talk, stop_if(stop))
        }
        Dialed::Later => {
            let (talk, stop) = look(hand.rt, hand.turn, talk, hand.by);
            (talk, stop_if(stop))
        }
        Dialed::Finished => (talk, Some(DeskWhy::Finished)),
        Dialed::Failed => (talk, Some(DeskWhy::DoorFailed)),
    }
}

// A desk that has seen a Stop ends for it.
fn stop_if(stop: bool) -> Option<DeskWhy>
    ensures { result ≡ stopped_if stop }
{
    if stop { Some(DeskWhy::Stopped) } else { None }
}

/// Serves one client after another, with the replies of a source, until the desk ends, and says why. It appends no last entries.
pub fn connect<W: Wait, R: Dialer, K: Clock, G: Gate, S: Source>(
    hand: &AtHand<'_, W, K, G>,
    mut talk: Talk<S>,
    door: &mut R,
) -> (Talk<S>, DeskWhy)
    requires pass { IsPassOf hand.now.turn.now talk.pass }
    requires ready { IsReady (ground hand.now.turn.now) hand.now.by (view talk.pass) }
    requires fits { S.fits talk.source (ground hand.now.turn.now) }
    requires idle { (R.seen door.old).linked ≡ false }
    ensures pass { IsPassOf hand.now.turn.now result.0.pass }
    ensures ready { IsReady (ground hand.now.turn.now) hand.now.by (view result.0.pass) }
    ensures fits { S.fits result.0.source (ground hand.now.turn.now) }
    ensures onward { Onward (view talk.pass) (view result.0.pass) }
    ensures idle { (R.seen door.new).linked ≡ false }
    ensures faults { FaultsRise (R.seen door.old) (R.seen door.new) }
    ensures aim { aim_of (R.seen door.new).told ≡ aim_of (R.seen door.old).told }
    ensures cause { CausesEnd (view result.0.pass).seen (R.seen door.new).told (R.seen door.old).failed_dials (R.seen door.new).failed_dials result.1 }
    ensures failed { (result.1 ≡ DoorFailed → ⊥) → (R.seen door.new).failed_dials ≡ (R.seen door.old).failed_dials }
    ensures serves { (n : ℕ) (was : List Connection)
        → Resting (S.going talk.source n (ground hand.now.turn.now) hand.now.by) was false talk.fronts.items (view talk.pass) (R.seen door.old).told
        → Resting (S.going result.0.source n (ground hand.now.turn.now) hand.now.by) was (is_stopped (view result.0.pass).seen)
        result.0.fronts.items (view result.0.pass) (R.seen door.new).told }
{
    'dials: for _ in hand.rt.forever() {
        let (next, end) = attempt(hand, talk, door);
        talk = next;
        if let Some(why) = end {
            return (talk, why);
        }
    }
    unreachable!()
}
