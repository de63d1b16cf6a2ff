// The worker of a line.
ghost use Rattle.std.specs.Prelude.{◌≡◌, ◌≤◌, ℕ, List, [], Some, length, true, false, IfOk};
ghost use Rattle.cts_chain.specs.Builds.{IsFresh};
ghost use Rattle.cts_def.specs.declared.time.Time.{Time as TimeData};
ghost use Rattle.cts_entry.specs.declared.entry.Entry.{Entry};
ghost use Rattle.cts_entry.specs.Histories.{is_stopped};
ghost use Rattle.cts_framing.specs.Chains.{uses_at};
ghost use Rattle.cts_framing.specs.Packets.{capped};
ghost use Rattle.cts_turn.specs.Lists.{has, StartsWith};
ghost use Rattle.cts_turn.specs.Passes.{IsPassOf, view};
ghost use Rattle.cts_connection.specs.LinePlaces.{is_line};
ghost use Rattle.cts_connection.specs.Routings.{site_routing};
ghost use Rattle.cts_outside.specs.Lines.{hung_up, told_after};
ghost use Rattle.cts_trace.specs.Makers.{LastEnded, faults_of, of_maker};
ghost use Rattle.cts_line.specs.Rows.{ToldInRows};
ghost use Rattle.cts_line.specs.declared.ending.LineWhy.TheVariants.{Cancelled, Full, NoMemory};
ghost use Rattle.cts_worker.specs.Counts.{RoseBy};
ghost use Rattle.cts_worker.specs.Grounds.{ground};
ghost use Rattle.cts_worker.specs.Holds.{EndedHold, Onward};
ghost use Rattle.cts_worker.specs.Lasts.{IsShut, MayEnd, first_moment, last_entries};
ghost use Rattle.cts_line.specs.Ending.{CausesEnd, DialsFor, EndsFor, Heeds, IsUndialed, StopsFor, has_stop};
ghost use Rattle.cts_line.specs.Ending.{opened_in, reconnects, stops_all};
ghost use Rattle.cts_line.specs.Telling.{Has, Retells, SomeLine, made_by, since};
ghost use Rattle.cts_line.specs.Talks.{room_of};

use crate::dials::connect;
use crate::ending::{LineEnd, LineWhy};
use crate::hand::AtHand;
use crate::holds::time_of;
use cts_base::Memory;
use cts_chain::Framer;
use cts_connection::Connection;
use cts_def::Site;
use cts_entry::Stands;
use cts_outside::{Clock, Dialer, Gate, GateStage};
use cts_table::Hall;
use cts_turn::{Pass, Turn};
use cts_worker::{cancel, end};
use std::alloc::Global;
use std::sync::Wait;

/// How many bytes are taken at a time.
const MOST_TAKEN: usize = 65536;

/// The worker of a line, which is an interface or a slot of a router.
#[derive(Clone, Copy, Debug)]
pub struct LineWorker;

impl LineWorker {
    /// Makes one connection after another, and posts what comes from each and puts what the history has for its peer, until a Stop stands, there
    /// will be no connection any more, or the line has to end. What the history says of its connections is what its dialer tells of this call,
    /// and the entries of one piece stand side by side there. Its last entry is Ended. It takes the turn for each change of the history and for
    /// each look at it, and waits for no other reason but in the dialer's calls.
    pub fn run<R: Wait, C: Framer, D: Dialer, K: Clock, G: Gate>(
        rt: &R,
        alloc: Global,
        site: &Site,
        by: u32,
        turn: &Turn<Hall>,
        pass: Pass<Hall>,
        dialer: &mut D,
        chain: C,
        clock: &K,
        gate: &G,
    ) -> LineEnd
        requires pass { IsPassOf turn.now pass }
        requires by { has by (view pass).makers ≡ true }
        requires new { of_maker by (view pass).seen ≡ [] }
        requires site { site.now ≡ (ground turn.now).site }
        requires line { is_line site.now by ≡ true }
        requires chain { IsFresh (uses_at site.now by) (C.shape chain) }
        ensures pass { IsPassOf turn.now result.pass }
        ensures onward { Onward (view pass) (view result.pass) }
        ensures told { ToldInRows (site_routing site.now) (room_of (ground turn.now)) by (view result.pass).found (view result.pass).seen
            (since (made_by (D.seen dialer.old).told) (D.seen dialer.new).told) }
        ensures some { SomeLine (λ told. ToldInRows (site_routing site.now) (room_of (ground turn.now)) by (view result.pass).found (view result.pass).seen
            told) }
        ensures retells { Retells (told_after hung_up (D.seen dialer.old).told) (D.seen dialer.new).told }
        ensures ended { LastEnded by (view result.pass).seen }
        ensures connections { result.connections ≡ opened_in by (view result.pass).seen }
        ensures once { reconnects site.now by ≡ false → result.connections ≤ 1 }
        ensures cause { CausesEnd site.now (ground turn.now).entries by (view result.pass).seen (D.seen dialer.new).told
            (D.seen dialer.old).failed_dials (D.seen dialer.new).failed_dials result.why }
        ensures stops { StopsFor by result.why (view result.pass).seen }
        ensures faults { RoseBy (faults_of by (view result.pass).seen) (D.seen dialer.old).faults (D.seen dialer.new).faults }
        ensures dials { DialsFor site.now by (Some result.why) (D.seen dialer.old) (D.seen dialer.new) }
        ensures closed { EndsFor by result.why (view result.pass).seen }
        ensures idle { (D.seen dialer.new).linked ≡ false }
    {
        gate.pass(rt, by, GateStage::Started);
        dialer.hang_up();
        let hand = AtHand {
            rt,
            alloc,
            site,
            by,
            turn,
            clock,
            gate,
        };
        let mut connections = 0;
        let (pass, why) = equip(&hand, pass, dialer, chain, &mut connections);
        let pass = finish(&hand, pass, why);
        gate.pass(rt, by, GateStage::Posted);
        LineEnd {
            pass,
            connections,
            why,
        }
    }

    /// Ends a line that was not started: appends a Stop, where none stands, and its Ended, both at the first moment.
    pub fn cancel<R: Wait>(rt: &R, by: u32, turn: &Turn<Hall>, pass: Pass<Hall>) -> LineEnd
        requires pass { IsPassOf turn.now pass }
        requires by { has by (view pass).makers ≡ true }
        requires new { of_maker by (view pass).seen ≡ [] }
        requires line { is_line (ground turn.now).site by ≡ true }
        ensures pass { IsPassOf turn.now result.pass }
        ensures onward { Onward (view pass) (view result.pass) }
        ensures own { (stood : List Entry) × StartsWith stood (view pass).seen × StartsWith (view result.pass).seen stood
            × (of_maker by (view result.pass).seen ≡ last_entries true by first_moment stood) }
        ensures stops { is_stopped (view result.pass).seen ≡ true }
        ensures connections { result.connections ≡ 0 }
        ensures why { result.why ≡ Cancelled }
    {
        let pass = cancel(rt, by, turn, pass);
        LineEnd {
            pass,
            connections: 0,
            why: LineWhy::Cancelled,
        }
    }
}

fn stops_all(why: LineWhy) -> bool
    ensures { result ≡ stops_all why }
{
    match why {
        LineWhy::Stopped | LineWhy::Finished | LineWhy::NoReconnect => false,
        LineWhy::DoorFailed | LineWhy::Full | LineWhy::NoMemory | LineWhy::Cancelled => true,
    }
}

// Appends the last entries of a line.
fn finish<R: Wait, K: Clock, G: Gate>(
    hand: &AtHand<R, K, G>,
    pass: Pass<Hall>,
    why: LineWhy,
) -> Pass<Hall>
    requires pass { IsPassOf hand.now.turn.now pass }
    requires by { has hand.now.by (view pass).makers ≡ true }
    requires may { MayEnd (ground hand.now.turn.now).site hand.now.by (view pass).seen }
    ensures pass { IsPassOf hand.now.turn.now result }
    ensures ended { (time : TimeData) × EndedHold hand.now.by time (stops_all why) (view pass) (view result) }
    ensures few { length (view result).seen ≤ 8000065 }
{
    let time = time_of(hand.clock);
    end(hand.rt, hand.turn, pass, hand.by, time, stops_all(why))
}

fn buffer_of(alloc: Global) -> Result<Vec<u8>, Memory>
    ensures { IfOk result (λ b. length b.items ≡ 65536) }
{
    let mut buffer = Vec::new(alloc);
    buffer.resize(MOST_TAKEN, 0)?;
    Ok(buffer)
}

// Makes the connections of a line, if there is memory for what is taken from them.
fn equip<R: Wait, C: Framer, D: Dialer, K: Clock, G: Gate>(
    hand: &AtHand<R, K, G>,
    pass: Pass<Hall>,
    dialer: &mut D,
    chain: C,
    connections: &mut u64,
) -> (Pass<Hall>, LineWhy)
    requires pass { IsPassOf hand.now.turn.now pass }
    requires by { has hand.now.by (view pass).makers ≡ true }
    requires new { of_maker hand.now.by (view pass).seen ≡ [] }
    requires site { hand.now.site.now ≡ (ground hand.now.turn.now).site }
    requires line { is_line hand.now.site.now hand.now.by ≡ true }
    requires chain { IsFresh (uses_at hand.now.site.now hand.now.by) (C.shape chain) }
    requires idle { (D.seen dialer.old).linked ≡ false }
    requires none { connections.old ≡ 0 }
    ensures pass { IsPassOf hand.now.turn.now result.0 }
    ensures onward { Onward (view pass) (view result.0) }
    ensures idle { (D.seen dialer.new).linked ≡ false }
    ensures shut { IsShut hand.now.by (view result.0).seen }
    ensures count { connections.new ≡ capped (opened_in hand.now.by (view result.0).seen) }
    ensures faults { RoseBy (faults_of hand.now.by (view result.0).seen) (D.seen dialer.old).faults (D.seen dialer.new).faults }
    ensures dials { DialsFor hand.now.site.now hand.now.by (Some result.1) (D.seen dialer.old) (D.seen dialer.new) }
    ensures heeds { Heeds hand.now.by (view pass).seen (view result.0).seen (Some result.1) }
    ensures retells { Retells (D.seen dialer.old).told (D.seen dialer.new).told }
    ensures stop { stops_all result.1 ≡ false → has_stop hand.now.by (view result.0).seen ≡ false }
    ensures once { reconnects hand.now.site.now hand.now.by ≡ false → opened_in hand.now.by (view result.0).seen ≤ 1 }
    ensures told { (k : ℕ) → Has k (D.seen dialer.old).told → IsUndialed (since k (D.seen dialer.old).told)
        → ToldInRows (site_routing hand.now.site.now) (room_of (ground hand.now.turn.now)) hand.now.by (view result.0).found (view result.0).seen
        (since k (D.seen dialer.new).told) }
    ensures some { SomeLine (λ told. ToldInRows (site_routing hand.now.site.now) (room_of (ground hand.now.turn.now)) hand.now.by (view result.0).found
        (view result.0).seen told) }
    ensures cause { CausesEnd hand.now.site.now (ground hand.now.turn.now).entries hand.now.by (view result.0).seen (D.seen dialer.new).told
        (D.seen dialer.old).failed_dials (D.seen dialer.new).failed_dials result.1 }
{
    let Ok(mut buffer) = buffer_of(hand.alloc) else {
        return (pass, LineWhy::NoMemory);
    };
    let mut connection = Connection::of(chain);
    connect(
        hand,
        pass,
        &mut connection,
        dialer,
        &mut buffer,
        connections,
    )
}
