// Holds of the turn, each for one thing that a line does.
ghost use Rattle.std.specs.Prelude.{◌≡◌, ◌≤◌, false, length, map, true, IfOk};
ghost use Rattle.cts_chain.specs.Shapes.{writers};
ghost use Rattle.cts_def.specs.declared.time.Time.{Time as TimeData};
ghost use Rattle.cts_entry.specs.Histories.{is_connected, is_stopped};
ghost use Rattle.cts_entry.specs.Legal.{StopsAfter};
ghost use Rattle.cts_trace.specs.Routing.{queue};
ghost use Rattle.cts_turn.specs.Lists.{has};
ghost use Rattle.cts_worker.specs.Grounds.{ground};
ghost use Rattle.cts_turn.specs.Passes.{IsPassOf, view};
ghost use Rattle.cts_connection.specs.Connections.{entries_ahead};
ghost use Rattle.cts_connection.specs.LinePlaces.{is_line};
ghost use Rattle.cts_connection.specs.Postings.{Closes};
ghost use Rattle.cts_connection.specs.Routings.{site_routing};
ghost use Rattle.cts_connection.specs.Writings.{spell_by};
ghost use Rattle.cts_worker.specs.Holds.{InHold};
ghost use Rattle.cts_worker.specs.Lasts.{IsShut};
ghost use Rattle.cts_line.specs.Doing.{OpensIn, PostsIn};

use crate::board;
use crate::opening::Opening;
use crate::posting::Posting;
use crate::sight::Sight;
use cts_base::Memory;
use cts_chain::Framer;
use cts_connection::Connection;
use cts_def::Time;
use cts_entry::{Stands, Why};
use cts_outside::Clock;
use cts_table::Hall;
use cts_turn::{Pass, Turn};
use std::alloc::Global;
use std::sync::Wait;

/// What a clock shows.
pub(crate) fn time_of<K: Clock>(clock: &K) -> Time {
    let (seconds, micros) = clock.now();
    Time { seconds, micros }
}

/// Opens a connection in the history, unless a Stop stands.
pub(crate) fn open<R: Wait, C: Framer, K: Clock>(
    rt: &R,
    turn: &Turn<Hall>,
    pass: Pass<Hall>,
    by: u32,
    clock: &K,
    connection: &mut Connection<C>,
) -> (Pass<Hall>, Opening)
    requires pass { IsPassOf turn.now pass }
    requires by { has by (view pass).makers ≡ true }
    requires line { is_line (ground turn.now).site by ≡ true }
    requires shut { IsShut by (view pass).seen }
    ensures pass { IsPassOf turn.now result.0 }
    ensures hold { (time : TimeData) × InHold (ground turn.now) by (view pass) (view result.0)
        (λ s t. OpensIn by time s connection.old result.1 t connection.new) }
{
    let mut held = turn.enter(rt, pass);
    let opening = board::open(held.state_mut(), by, time_of(clock), connection);
    (turn.leave(held), opening)
}

/// Looks at the history.
pub(crate) fn look<R: Wait, C: Framer>(
    rt: &R,
    alloc: Global,
    turn: &Turn<Hall>,
    pass: Pass<Hall>,
    by: u32,
    connection: &Connection<C>,
) -> (Pass<Hall>, Result<Sight, Memory>)
    requires pass { IsPassOf turn.now pass }
    requires by { has by (view pass).makers ≡ true }
    ensures pass { IsPassOf turn.now result.0 }
    ensures hold { InHold (ground turn.now) by (view pass) (view result.0) (λ s t. t ≡ s) }
    ensures spellings { IfOk result.1 (λ s. s.spellings.items ≡ map (spell_by (ground turn.now).site (writers connection.now.chain))
        (queue (site_routing (ground turn.now).site) by (entries_ahead connection.now (view result.0).seen))) }
    ensures place { IfOk result.1 (λ s. s.place ≡ length (view result.0).seen) }
    ensures stop { IfOk result.1 (λ s. s.stop ≡ is_stopped (view result.0).seen) }
{
    let held = turn.enter(rt, pass);
    let sight = board::see(alloc, held.state(), by, connection);
    (turn.leave(held), sight)
}

/// Feeds a piece, and posts its packets or closes the connection.
pub(crate) fn post<R: Wait, C: Framer, K: Clock>(
    rt: &R,
    alloc: Global,
    turn: &Turn<Hall>,
    pass: Pass<Hall>,
    by: u32,
    clock: &K,
    connection: &mut Connection<C>,
    piece: &[u8],
) -> (Pass<Hall>, Posting)
    requires pass { IsPassOf turn.now pass }
    requires by { has by (view pass).makers ≡ true }
    requires line { is_line (ground turn.now).site by ≡ true }
    requires on { is_connected by (view pass).seen ≡ true }
    ensures pass { IsPassOf turn.now result.0 }
    ensures hold { (time : TimeData) × InHold (ground turn.now) by (view pass) (view result.0)
        (λ s t. PostsIn by time s connection.old piece.now result.1 t connection.new) }
{
    let mut held = turn.enter(rt, pass);
    let posting = board::post(
        alloc,
        held.state_mut(),
        by,
        time_of(clock),
        connection,
        piece,
    );
    (turn.leave(held), posting)
}

/// Closes a connection of which all packets are posted.
pub(crate) fn close<R: Wait, C: Framer, K: Clock>(
    rt: &R,
    turn: &Turn<Hall>,
    pass: Pass<Hall>,
    by: u32,
    clock: &K,
    connection: &mut Connection<C>,
    why: Why,
) -> Pass<Hall>
    requires pass { IsPassOf turn.now pass }
    requires by { has by (view pass).makers ≡ true }
    requires line { is_line (ground turn.now).site by ≡ true }
    requires on { is_connected by (view pass).seen ≡ true }
    requires stops { StopsAfter (view pass).seen why }
    ensures pass { IsPassOf turn.now result }
    ensures hold { (time : TimeData) × InHold (ground turn.now) by (view pass) (view result) (λ s t. Closes by time s connection.old why 0 t connection.new) }
{
    let mut held = turn.enter(rt, pass);
    board::close(held.state_mut(), by, time_of(clock), connection, why);
    turn.leave(held)
}
