// A connection that stands, from the Opened to the Closed.
ghost use Rattle.std.specs.Prelude.{◌≡◌, ◌≤◌, ◌<◌, ℕ, List, Option, Some, length, take, true, false, IfNone};
ghost use Rattle.cts_outside.specs.Lines.{Line, after_take, at_now, told_after};
ghost use Rattle.cts_outside.specs.declared.link.Taken.TheVariants.{Got};
ghost use Rattle.cts_trace.specs.Makers.{is_fault};
ghost use Rattle.cts_chain.specs.Shapes.{IsSameChain};
ghost use Rattle.cts_entry.specs.Histories.{is_connected};
ghost use Rattle.cts_entry.specs.Legal.{StopsAfter};
ghost use Rattle.cts_turn.specs.Lists.{has};
ghost use Rattle.cts_worker.specs.Grounds.{ground};
ghost use Rattle.cts_turn.specs.Passes.{IsPassOf, view};
ghost use Rattle.cts_connection.specs.LinePlaces.{is_line};
ghost use Rattle.cts_connection.specs.Routings.{site_routing};
ghost use Rattle.cts_worker.specs.Counts.{RoseIf};
ghost use Rattle.cts_worker.specs.Holds.{Onward};
ghost use Rattle.cts_line.specs.Ending.{Keeps, fails, has_stop};
ghost use Rattle.cts_line.specs.Telling.{Retells, SomeLine, since};
ghost use Rattle.cts_line.specs.Talks.{Ends, IsClosed, Suits, TalksAt, Takes, Waits, Went, closed_by, room_of};

use crate::catching::catch_up;
use crate::hand::AtHand;
use crate::holds;
use crate::posting::Posting;
use cts_chain::Framer;
use cts_connection::Connection;
use cts_entry::{Stands, Why};
use cts_outside::{Clock, Dialer, Gate, GateStage, Taken};
use cts_table::Hall;
use cts_turn::Pass;
use std::sync::Wait;

// What follows a hold that was to post a piece.
fn closed_by(posting: Posting) -> Option<Why>
    ensures { result ≡ closed_by posting }
{
    match posting {
        Posting::Posted(_some) => None,
        Posting::Closed(why) => Some(why),
    }
}

// Comes by the gate, if entries were appended.
fn comes_by<R: Wait, G: Gate>(rt: &R, by: u32, gate: &G, posting: Posting) {
    match posting {
        Posting::Posted(false) => {}
        _ => gate.pass(rt, by, GateStage::Posted),
    }
}

// Closes the connection.
fn close<R: Wait, C: Framer, K: Clock, G: Gate>(
    hand: &AtHand<R, K, G>,
    pass: Pass<Hall>,
    connection: &mut Connection<C>,
    why: Why,
) -> (Pass<Hall>, Option<Why>)
    requires pass { IsPassOf hand.now.turn.now pass }
    requires by { has hand.now.by (view pass).makers ≡ true }
    requires line { is_line (ground hand.now.turn.now).site hand.now.by ≡ true }
    requires on { is_connected hand.now.by (view pass).seen ≡ true }
    requires stops { StopsAfter (view pass).seen why }
    requires suits { Suits (ground hand.now.turn.now).site hand.now.by connection.old.chain }
    ensures pass { IsPassOf hand.now.turn.now result.0 }
    ensures onward { Onward (view pass) (view result.0) }
    ensures closed { result.1 ≡ Some why }
    ensures same { IsSameChain connection.old.chain connection.new.chain }
    ensures keeps { Keeps hand.now.by (view pass).seen (view result.0).seen (Some why) }
    ensures stop { has_stop hand.now.by (view result.0).seen ≡ has_stop hand.now.by (view pass).seen }
    ensures talks { (told : Option Line) → TalksAt (site_routing (ground hand.now.turn.now).site) (room_of (ground hand.now.turn.now)) hand.now.by
        (Ends why) connection.old (view pass) told
        → IsClosed (site_routing (ground hand.now.turn.now).site) (room_of (ground hand.now.turn.now)) hand.now.by (view result.0) told }
{
    let pass = holds::close(
        hand.rt, hand.turn, pass, hand.by, hand.clock, connection, why,
    );
    hand.gate.pass(hand.rt, hand.by, GateStage::Posted);
    (pass, Some(why))
}

// Posts a piece that was taken.
fn post<R: Wait, C: Framer, K: Clock, G: Gate>(
    hand: &AtHand<R, K, G>,
    pass: Pass<Hall>,
    connection: &mut Connection<C>,
    piece: &[u8],
) -> (Pass<Hall>, Option<Why>)
    requires pass { IsPassOf hand.now.turn.now pass }
    requires by { has hand.now.by (view pass).makers ≡ true }
    requires line { is_line (ground hand.now.turn.now).site hand.now.by ≡ true }
    requires on { is_connected hand.now.by (view pass).seen ≡ true }
    requires place { connection.old.cursor.place ≤ length (view pass).seen }
    requires suits { Suits (ground hand.now.turn.now).site hand.now.by connection.old.chain }
    ensures pass { IsPassOf hand.now.turn.now result.0 }
    ensures onward { Onward (view pass) (view result.0) }
    ensures same { IsSameChain connection.old.chain connection.new.chain }
    ensures place { IfNone result.1 (connection.new.cursor.place ≤ length (view result.0).seen) }
    ensures keeps { Keeps hand.now.by (view pass).seen (view result.0).seen result.1 }
    ensures stop { has_stop hand.now.by (view result.0).seen ≡ has_stop hand.now.by (view pass).seen }
    ensures no_fault { fails result.1 ≡ false }
    ensures talks { (told : Option Line) (n : ℕ) (buffer : List ℕ) → piece.now ≡ take n buffer
        → TalksAt (site_routing (ground hand.now.turn.now).site) (room_of (ground hand.now.turn.now)) hand.now.by Takes connection.old (view pass) told
        → Went (site_routing (ground hand.now.turn.now).site) (room_of (ground hand.now.turn.now)) hand.now.by connection.new (view result.0)
        (told_after (at_now (after_take (Got n) buffer)) told) result.1 }
{
    hand.gate.pass(hand.rt, hand.by, GateStage::Took);
    let (pass, posting) = holds::post(
        hand.rt, hand.alloc, hand.turn, pass, hand.by, hand.clock, connection, piece,
    );
    comes_by(hand.rt, hand.by, hand.gate, posting);
    (pass, closed_by(posting))
}

/// Looks, puts what is new, takes a piece and posts its packets. Says why the connection was closed in the history, if it was.
pub(crate) fn round<R: Wait, C: Framer, D: Dialer, K: Clock, G: Gate>(
    hand: &AtHand<R, K, G>,
    pass: Pass<Hall>,
    connection: &mut Connection<C>,
    dialer: &mut D,
    buffer: &mut [u8],
) -> (Pass<Hall>, Option<Why>)
    requires pass { IsPassOf hand.now.turn.now pass }
    requires by { has hand.now.by (view pass).makers ≡ true }
    requires line { is_line (ground hand.now.turn.now).site hand.now.by ≡ true }
    requires linked { (D.seen dialer.old).linked ≡ true }
    requires room { 0 < length buffer.old }
    requires on { is_connected hand.now.by (view pass).seen ≡ true }
    requires place { connection.old.cursor.place ≤ length (view pass).seen }
    requires suits { Suits (ground hand.now.turn.now).site hand.now.by connection.old.chain }
    ensures pass { IsPassOf hand.now.turn.now result.0 }
    ensures onward { Onward (view pass) (view result.0) }
    ensures linked { (D.seen dialer.new).linked ≡ true }
    ensures room { length buffer.new ≡ length buffer.old }
    ensures same { IsSameChain connection.old.chain connection.new.chain }
    ensures place { IfNone result.1 (connection.new.cursor.place ≤ length (view result.0).seen) }
    ensures keeps { Keeps hand.now.by (view pass).seen (view result.0).seen result.1 }
    ensures stop { has_stop hand.now.by (view result.0).seen ≡ has_stop hand.now.by (view pass).seen }
    ensures cause { RoseIf (fails result.1) (D.seen dialer.old).faults (D.seen dialer.new).faults }
    ensures dials { (D.seen dialer.new).failed_dials ≡ (D.seen dialer.old).failed_dials }
    ensures finished { (D.seen dialer.new).finished ≡ (D.seen dialer.old).finished }
    ensures retells { Retells (D.seen dialer.old).told (D.seen dialer.new).told }
    ensures talks { (k : ℕ) → TalksAt (site_routing (ground hand.now.turn.now).site) (room_of (ground hand.now.turn.now)) hand.now.by Waits
        connection.old (view pass) (since k (D.seen dialer.old).told)
        → Went (site_routing (ground hand.now.turn.now).site) (room_of (ground hand.now.turn.now)) hand.now.by connection.new (view result.0)
        (since k (D.seen dialer.new).told) result.1 }
    ensures some { SomeLine (λ told. TalksAt (site_routing (ground hand.now.turn.now).site) (room_of (ground hand.now.turn.now)) hand.now.by Waits
        connection.old (view pass) told)
        → SomeLine (λ told. Went (site_routing (ground hand.now.turn.now).site) (room_of (ground hand.now.turn.now)) hand.now.by connection.new
        (view result.0) told result.1) }
{
    let (pass, end) = catch_up(
        hand.rt, hand.alloc, hand.turn, pass, hand.by, connection, dialer,
    );
    if let Some(why) = end {
        return close(hand, pass, connection, why);
    }
    match dialer.take(buffer) {
        Taken::Nothing => (pass, None),
        Taken::End => close(hand, pass, connection, Why::PeerEnded),
        Taken::Failed => close(hand, pass, connection, Why::ReadFault),
        Taken::Got(count) => post(hand, pass, connection, &buffer[..count]),
    }
}

/// A connection from its Opened to its Closed, and why it was closed.
pub(crate) fn talk<R: Wait, C: Framer, D: Dialer, K: Clock, G: Gate>(
    hand: &AtHand<R, K, G>,
    mut pass: Pass<Hall>,
    connection: &mut Connection<C>,
    dialer: &mut D,
    buffer: &mut [u8],
) -> (Pass<Hall>, Why)
    requires pass { IsPassOf hand.now.turn.now pass }
    requires by { has hand.now.by (view pass).makers ≡ true }
    requires line { is_line (ground hand.now.turn.now).site hand.now.by ≡ true }
    requires linked { (D.seen dialer.old).linked ≡ true }
    requires room { 0 < length buffer.old }
    requires on { is_connected hand.now.by (view pass).seen ≡ true }
    requires place { connection.old.cursor.place ≤ length (view pass).seen }
    requires suits { Suits (ground hand.now.turn.now).site hand.now.by connection.old.chain }
    ensures pass { IsPassOf hand.now.turn.now result.0 }
    ensures onward { Onward (view pass) (view result.0) }
    ensures linked { (D.seen dialer.new).linked ≡ true }
    ensures room { length buffer.new ≡ length buffer.old }
    ensures same { IsSameChain connection.old.chain connection.new.chain }
    ensures keeps { Keeps hand.now.by (view pass).seen (view result.0).seen (Some result.1) }
    ensures stop { has_stop hand.now.by (view result.0).seen ≡ has_stop hand.now.by (view pass).seen }
    ensures cause { RoseIf (is_fault result.1) (D.seen dialer.old).faults (D.seen dialer.new).faults }
    ensures dials { (D.seen dialer.new).failed_dials ≡ (D.seen dialer.old).failed_dials }
    ensures finished { (D.seen dialer.new).finished ≡ (D.seen dialer.old).finished }
    ensures retells { Retells (D.seen dialer.old).told (D.seen dialer.new).told }
    ensures closed { (k : ℕ) → TalksAt (site_routing (ground hand.now.turn.now).site) (room_of (ground hand.now.turn.now)) hand.now.by Waits
        connection.old (view pass) (since k (D.seen dialer.old).told)
        → IsClosed (site_routing (ground hand.now.turn.now).site) (room_of (ground hand.now.turn.now)) hand.now.by (view result.0)
        (since k (D.seen dialer.new).told) }
    ensures some { SomeLine (λ told. TalksAt (site_routing (ground hand.now.turn.now).site) (room_of (ground hand.now.turn.now)) hand.now.by Waits
        connection.old (view pass) told)
        → SomeLine (λ told. IsClosed (site_routing (ground hand.now.turn.now).site) (room_of (ground hand.now.turn.now)) hand.now.by
        (view result.0) told) }
{
    'rounds: for _ in hand.rt.forever() {
        let (next, closed) = round(hand, pass, connection, dialer, buffer);
        pass = next;
        if let Some(why) = closed {
            return (pass, why);
        }
    }
    unreachable!()
}
