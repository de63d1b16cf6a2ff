// One connection of a line after another.
ghost use Rattle.std.specs.Prelude.{◌≡◌, ◌≤◌, ◌<◌, ◌+◌, ℕ, None, Some, length, true, false, IfSome};
ghost use Rattle.cts_chain.specs.Shapes.{IsSameChain};
ghost use Rattle.cts_worker.specs.Grounds.{ground};
ghost use Rattle.cts_turn.specs.Passes.{IsPassOf, view};
ghost use Rattle.cts_connection.specs.Routings.{site_routing};
ghost use Rattle.cts_entry.specs.Workers.{is_interface};
ghost use Rattle.cts_line.specs.Rows.{SettledInRows, ToldInRows};
ghost use Rattle.cts_worker.specs.Holds.{Onward};
ghost use Rattle.cts_line.specs.Ending.{CausesEnd, DialsFor, DialsNone, FaultsRise, IsBetween, Minds, OpensOne, after_closed, after_failed};
ghost use Rattle.cts_line.specs.Ending.{opened_in, reconnects, refused};
ghost use Rattle.cts_line.specs.Telling.{Has, Retells, SomeLine, since};
ghost use Rattle.cts_line.specs.Talks.{Begins, IsReady, ToldSoFar, room_of};

use crate::ending::LineWhy;
use crate::hand::AtHand;
use crate::holds;
use crate::opening::Opening;
use crate::rounds::talk;
use cts_chain::Framer;
use cts_connection::Connection;
use cts_def::Site;
use cts_entry::{Stands, Why};
use cts_outside::{Clock, Dialed, Dialer, Gate, GateStage};
use cts_table::Hall;
use cts_turn::Pass;
use cts_worker::sees_stop;
use std::sync::Wait;

fn is_interface(site: &Site, by: u32) -> bool
    ensures { result ≡ is_interface site.now by }
{
    (by as usize) < site.interfaces.as_slice().len()
}

fn reconnects(site: &Site, by: u32) -> bool
    ensures { result ≡ reconnects site.now by }
{
    match site.interfaces.as_slice().get(by as usize) {
        Some(interface) => interface.reconnect,
        None => true,
    }
}

// Why a line ends whose connection was not opened in the history.
fn refused(opening: Opening) -> Option<LineWhy>
    ensures { result ≡ refused opening }
{
    match opening {
        Opening::Opened => None,
        Opening::Stopped => Some(LineWhy::Stopped),
        Opening::Full => Some(LineWhy::Full),
        Opening::NoMemory => Some(LineWhy::NoMemory),
    }
}

// Why a line ends once its connection was closed, if it ends. One that connects again sees a Stop before it dials.
fn after_closed(site: &Site, by: u32, why: Why) -> Option<LineWhy>
    ensures { result ≡ after_closed site.now by why }
{
    match why {
        Why::Full => Some(LineWhy::Full),
        Why::NoMemory => Some(LineWhy::NoMemory),
        _ if reconnects(site, by) => None,
        _ => Some(LineWhy::NoReconnect),
    }
}

// Why a line ends since a dial failed, if it ends.
fn after_failed(site: &Site, by: u32) -> Option<LineWhy>
    ensures { result ≡ after_failed site.now by }
{
    if !is_interface(site, by) {
        return Some(LineWhy::DoorFailed);
    }
    if reconnects(site, by) {
        return None;
    }
    Some(LineWhy::NoReconnect)
}

// Serves the connection that stands, and hangs up. Says why the line has to end then, if it has to.
fn attend<R: Wait, C: Framer, D: Dialer, K: Clock, G: Gate>(
    hand: &AtHand<R, K, G>,
    pass: Pass<Hall>,
    connection: &mut Connection<C>,
    dialer: &mut D,
    buffer: &mut [u8],
    connections: &mut u64,
) -> (Pass<Hall>, Option<LineWhy>)
    requires pass { IsPassOf hand.now.turn.now pass }
    requires ready { IsReady hand.now.site.now (ground hand.now.turn.now) hand.now.by connection.old.chain connections.old (view pass) }
    requires room { 0 < length buffer.old }
    requires linked { (D.seen dialer.old).linked ≡ true }
    ensures pass { IsPassOf hand.now.turn.now result.0 }
    ensures onward { Onward (view pass) (view result.0) }
    ensures idle { (D.seen dialer.new).linked ≡ false }
    ensures room { length buffer.new ≡ length buffer.old }
    ensures same { IsSameChain connection.old.chain connection.new.chain }
    ensures between { IsBetween hand.now.by connections.new (view result.0).seen }
    ensures faults { FaultsRise hand.now.by (view pass).seen (view result.0).seen (D.seen dialer.old).faults (D.seen dialer.new).faults }
    ensures retells { Retells (D.seen dialer.old).told (D.seen dialer.new).told }
    ensures dials { DialsNone result.1 (D.seen dialer.old) (D.seen dialer.new) }
    ensures minds { Minds hand.now.by (view pass).seen (view result.0).seen result.1 }
    ensures again { result.1 ≡ None → reconnects hand.now.site.now hand.now.by ≡ true }
    ensures few { opened_in hand.now.by (view result.0).seen ≤ opened_in hand.now.by (view pass).seen + 1 }
    ensures told { (k : ℕ) → Has k (D.seen dialer.old).told → Begins (site_routing (ground hand.now.turn.now).site)
        (room_of (ground hand.now.turn.now)) hand.now.by (view pass).found (view pass).seen (since k (D.seen dialer.old).told)
        → ToldSoFar (site_routing (ground hand.now.turn.now).site) (room_of (ground hand.now.turn.now)) hand.now.by (view result.0).found
        (view result.0).seen (since k (D.seen dialer.new).told) result.1 }
    ensures some { SomeLine (λ told. Begins (site_routing (ground hand.now.turn.now).site) (room_of (ground hand.now.turn.now)) hand.now.by
        (view pass).found (view pass).seen told)
        → SomeLine (λ told. ToldSoFar (site_routing (ground hand.now.turn.now).site) (room_of (ground hand.now.turn.now)) hand.now.by
        (view result.0).found (view result.0).seen told result.1) }
    ensures cause { IfSome result.1 (λ why. CausesEnd (ground hand.now.turn.now).site (ground hand.now.turn.now).entries hand.now.by
        (view result.0).seen (D.seen dialer.new).told (D.seen dialer.old).failed_dials (D.seen dialer.new).failed_dials why) }
{
    let (pass, opening) = holds::open(hand.rt, hand.turn, pass, hand.by, hand.clock, connection);
    if let Some(why) = refused(opening) {
        dialer.hang_up();
        return (pass, Some(why));
    }
    *connections = connections.saturating_add(1);
    hand.gate.pass(hand.rt, hand.by, GateStage::Posted);
    let (pass, why) = talk(hand, pass, connection, dialer, buffer);
    dialer.hang_up();
    (pass, after_closed(hand.site, hand.by, why))
}

// Dials, and serves the connection that is made. Says why the line has to end then, if it has to.
fn attempt<R: Wait, C: Framer, D: Dialer, K: Clock, G: Gate>(
    hand: &AtHand<R, K, G>,
    pass: Pass<Hall>,
    connection: &mut Connection<C>,
    dialer: &mut D,
    buffer: &mut [u8],
    connections: &mut u64,
) -> (Pass<Hall>, Option<LineWhy>)
    requires pass { IsPassOf hand.now.turn.now pass }
    requires ready { IsReady hand.now.site.now (ground hand.now.turn.now) hand.now.by connection.old.chain connections.old (view pass) }
    requires room { 0 < length buffer.old }
    requires idle { (D.seen dialer.old).linked ≡ false }
    ensures pass { IsPassOf hand.now.turn.now result.0 }
    ensures onward { Onward (view pass) (view result.0) }
    ensures idle { (D.seen dialer.new).linked ≡ false }
    ensures room { length buffer.new ≡ length buffer.old }
    ensures same { IsSameChain connection.old.chain connection.new.chain }
    ensures between { IsBetween hand.now.by connections.new (view result.0).seen }
    ensures faults { FaultsRise hand.now.by (view pass).seen (view result.0).seen (D.seen dialer.old).faults (D.seen dialer.new).faults }
    ensures retells { Retells (D.seen dialer.old).told (D.seen dialer.new).told }
    ensures dials { DialsFor hand.now.site.now hand.now.by result.1 (D.seen dialer.old) (D.seen dialer.new) }
    ensures minds { Minds hand.now.by (view pass).seen (view result.0).seen result.1 }
    ensures opens { OpensOne hand.now.site.now hand.now.by (view pass).seen (view result.0).seen result.1 }
    ensures told { (k : ℕ) → Has k (D.seen dialer.old).told → SettledInRows (site_routing (ground hand.now.turn.now).site)
        (room_of (ground hand.now.turn.now)) hand.now.by (view pass).found (view pass).seen (since k (D.seen dialer.old).told)
        → ToldSoFar (site_routing (ground hand.now.turn.now).site) (room_of (ground hand.now.turn.now)) hand.now.by (view result.0).found
        (view result.0).seen (since k (D.seen dialer.new).told) result.1 }
    ensures some { SomeLine (λ told. SettledInRows (site_routing (ground hand.now.turn.now).site) (room_of (ground hand.now.turn.now)) hand.now.by
        (view pass).found (view pass).seen told)
        → SomeLine (λ told. ToldSoFar (site_routing (ground hand.now.turn.now).site) (room_of (ground hand.now.turn.now)) hand.now.by
        (view result.0).found (view result.0).seen told result.1) }
    ensures cause { IfSome result.1 (λ why. CausesEnd (ground hand.now.turn.now).site (ground hand.now.turn.now).entries hand.now.by
        (view result.0).seen (D.seen dialer.new).told (D.seen dialer.old).failed_dials (D.seen dialer.new).failed_dials why) }
{
    match dialer.dial() {
        Dialed::Linked => attend(hand, pass, connection, dialer, buffer, connections),
        Dialed::Later => (pass, None),
        Dialed::Finished => (pass, Some(LineWhy::Finished)),
        Dialed::Failed => (pass, after_failed(hand.site, hand.by)),
    }
}

/// Makes one connection after another, until the line ends, and says why.
pub(crate) fn connect<R: Wait, C: Framer, D: Dialer, K: Clock, G: Gate>(
    hand: &AtHand<R, K, G>,
    mut pass: Pass<Hall>,
    connection: &mut Connection<C>,
    dialer: &mut D,
    buffer: &mut [u8],
    connections: &mut u64,
) -> (Pass<Hall>, LineWhy)
    requires pass { IsPassOf hand.now.turn.now pass }
    requires ready { IsReady hand.now.site.now (ground hand.now.turn.now) hand.now.by connection.old.chain connections.old (view pass) }
    requires room { 0 < length buffer.old }
    requires idle { (D.seen dialer.old).linked ≡ false }
    ensures pass { IsPassOf hand.now.turn.now result.0 }
    ensures onward { Onward (view pass) (view result.0) }
    ensures idle { (D.seen dialer.new).linked ≡ false }
    ensures room { length buffer.new ≡ length buffer.old }
    ensures same { IsSameChain connection.old.chain connection.new.chain }
    ensures between { IsBetween hand.now.by connections.new (view result.0).seen }
    ensures faults { FaultsRise hand.now.by (view pass).seen (view result.0).seen (D.seen dialer.old).faults (D.seen dialer.new).faults }
    ensures retells { Retells (D.seen dialer.old).told (D.seen dialer.new).told }
    ensures dials { DialsFor hand.now.site.now hand.now.by (Some result.1) (D.seen dialer.old) (D.seen dialer.new) }
    ensures minds { Minds hand.now.by (view pass).seen (view result.0).seen (Some result.1) }
    ensures once { reconnects hand.now.site.now hand.now.by ≡ false
        → opened_in hand.now.by (view result.0).seen ≤ opened_in hand.now.by (view pass).seen + 1 }
    ensures told { (k : ℕ) → Has k (D.seen dialer.old).told → SettledInRows (site_routing (ground hand.now.turn.now).site)
        (room_of (ground hand.now.turn.now)) hand.now.by (view pass).found (view pass).seen (since k (D.seen dialer.old).told)
        → ToldInRows (site_routing (ground hand.now.turn.now).site) (room_of (ground hand.now.turn.now)) hand.now.by (view result.0).found
        (view result.0).seen (since k (D.seen dialer.new).told) }
    ensures some { SomeLine (λ told. SettledInRows (site_routing (ground hand.now.turn.now).site) (room_of (ground hand.now.turn.now)) hand.now.by
        (view pass).found (view pass).seen told)
        → SomeLine (λ told. ToldInRows (site_routing (ground hand.now.turn.now).site) (room_of (ground hand.now.turn.now)) hand.now.by
        (view result.0).found (view result.0).seen told) }
    ensures cause { CausesEnd (ground hand.now.turn.now).site (ground hand.now.turn.now).entries hand.now.by (view result.0).seen
        (D.seen dialer.new).told (D.seen dialer.old).failed_dials (D.seen dialer.new).failed_dials result.1 }
{
    'dials: for _ in hand.rt.forever() {
        let (next, stop) = sees_stop(hand.rt, hand.turn, pass, hand.by);
        pass = next;
        if stop {
            return (pass, LineWhy::Stopped);
        }
        let (next, end) = attempt(hand, pass, connection, dialer, buffer, connections);
        pass = next;
        if let Some(why) = end {
            return (pass, why);
        }
    }
    unreachable!()
}
