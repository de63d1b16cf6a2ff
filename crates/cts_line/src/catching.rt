// A look, and the puts of what it saw.
ghost use Rattle.std.specs.Prelude.{◌≡◌, ◌≤◌, ℕ, length, true, IfSome, None};
ghost use Rattle.cts_entry.specs.Legal.{StopsAfter};
ghost use Rattle.cts_turn.specs.Lists.{has};
ghost use Rattle.cts_worker.specs.Grounds.{ground};
ghost use Rattle.cts_turn.specs.Passes.{IsPassOf, view};
ghost use Rattle.cts_connection.specs.Routings.{site_routing};
ghost use Rattle.cts_worker.specs.Counts.{RoseIf};
ghost use Rattle.cts_worker.specs.Holds.{Onward};
ghost use Rattle.cts_line.specs.Ending.{Keeps, fails, has_stop};
ghost use Rattle.cts_line.specs.Telling.{Retells, SomeLine, since};
ghost use Rattle.cts_line.specs.Talks.{Suits, TalksAt, Takes, Waits, after, room_of, stopped_by};

use crate::holds::look;
use crate::puts::put_all;
use cts_chain::Framer;
use cts_connection::Connection;
use cts_entry::{Stands, Why};
use cts_outside::Dialer;
use cts_table::Hall;
use cts_turn::{Pass, Turn};
use std::alloc::Global;
use std::sync::Wait;

// Stopped, where nothing else ends the connection.
fn stopped(end: Option<Why>, stop: bool) -> Option<Why>
    ensures { result ≡ stopped_by end stop }
{
    match end {
        None if stop => Some(Why::Stopped),
        _ => end,
    }
}

/// Looks at the history, and puts what was new there. Says why the connection has to be closed then, if it has to be.
pub(crate) fn catch_up<R: Wait, C: Framer, D: Dialer>(
    rt: &R,
    alloc: Global,
    turn: &Turn<Hall>,
    pass: Pass<Hall>,
    by: u32,
    connection: &mut Connection<C>,
    dialer: &mut D,
) -> (Pass<Hall>, Option<Why>)
    requires pass { IsPassOf turn.now pass }
    requires by { has by (view pass).makers ≡ true }
    requires linked { (D.seen dialer.old).linked ≡ true }
    requires place { connection.old.cursor.place ≤ length (view pass).seen }
    requires suits { Suits (ground turn.now).site by connection.old.chain }
    ensures pass { IsPassOf turn.now result.0 }
    ensures onward { Onward (view pass) (view result.0) }
    ensures keeps { Keeps by (view pass).seen (view result.0).seen None }
    ensures linked { (D.seen dialer.new).linked ≡ true }
    ensures place { connection.new.cursor.place ≤ length (view result.0).seen }
    ensures chain { connection.new.chain ≡ connection.old.chain }
    ensures stops { IfSome result.1 (λ why. StopsAfter (view result.0).seen why) }
    ensures cause { RoseIf (fails result.1) (D.seen dialer.old).faults (D.seen dialer.new).faults }
    ensures dials { (D.seen dialer.new).failed_dials ≡ (D.seen dialer.old).failed_dials }
    ensures finished { (D.seen dialer.new).finished ≡ (D.seen dialer.old).finished }
    ensures stop { has_stop by (view result.0).seen ≡ has_stop by (view pass).seen }
    ensures retells { Retells (D.seen dialer.old).told (D.seen dialer.new).told }
    ensures talks { (k : ℕ) → TalksAt (site_routing (ground turn.now).site) (room_of (ground turn.now)) by Waits connection.old (view pass)
        (since k (D.seen dialer.old).told)
        → TalksAt (site_routing (ground turn.now).site) (room_of (ground turn.now)) by (after Takes result.1) connection.new (view result.0)
        (since k (D.seen dialer.new).told) }
    ensures some { SomeLine (λ told. TalksAt (site_routing (ground turn.now).site) (room_of (ground turn.now)) by Waits connection.old (view pass) told)
        → SomeLine (λ told. TalksAt (site_routing (ground turn.now).site) (room_of (ground turn.now)) by (after Takes result.1) connection.new
        (view result.0) told) }
{
    let (pass, sight) = look(rt, alloc, turn, pass, by, connection);
    match sight {
        Ok(sight) => {
            let (unsent, end) = put_all(dialer, &sight.spellings);
            connection.is_kept();
            connection.pass(sight.place, unsent);
            (pass, stopped(end, sight.stop))
        }
        Err(_) => (pass, Some(Why::NoMemory)),
    }
}
