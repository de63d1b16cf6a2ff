// Two lines over one history: an interface, and a slot of its router.
ghost use Rattle.std.specs.Prelude.{◌≡◌, [], true};
ghost use Rattle.cts_chain.specs.Builds.{IsFresh};
ghost use Rattle.cts_connection.specs.LinePlaces.{is_line};
ghost use Rattle.cts_framing.specs.Chains.{uses_at};
ghost use Rattle.cts_trace.specs.Makers.{of_maker};
ghost use Rattle.cts_turn.specs.Lists.{has, makers_from};
ghost use Rattle.cts_turn.specs.Passes.{IsPassOf, basis_of, view};

use crate::chains::chain_of;
use crate::jobs::{LineJob, LineOver};
use crate::order::Order;
use crate::read::{dialer_of, hall_of, parts};
use cts_chain::Framer;
use cts_connection::is_line;
use cts_def::Site;
use cts_entry::Stands;
use cts_outside::{Crew, Gate, Job, ThreadCrew, TurnCrew};
use cts_rows::{field, numbers, same};
use cts_samples::site_of;
use cts_table::Hall;
use cts_turn::{Pass, Turn};
use std::alloc::Global;
use std::sync::{Arc, Wait};
use std::test::Fail;
use std::thread::Threads;
use std::time::Clock;

/// A packet and a command that begin with how many bytes they have.
const DEFINITIONS: &str = "\
TELEMETRY T A BIG_ENDIAN;APPEND_ITEM L 8 UINT;APPEND_ID_ITEM K 8 UINT 1;\
COMMAND T C BIG_ENDIAN;APPEND_PARAMETER L 8 UINT 0 9 3;APPEND_ID_PARAMETER K 8 UINT 0 9 2;APPEND_PARAMETER N 8 UINT 0 9 1";

/// An interface, and a router of its packets, with a protocol for each `$`.
const SITE: &str = "\
INTERFACE I tcpip_client_interface.rb h 1 1 nil nil $;TARGET T;\
ROUTER R tcpip_server_interface.rb 3 3 nil nil $;ROUTE I";

/// The site with this protocol.
fn site_with(alloc: Global, protocol: &str) -> Result<Site, Fail> {
    let text = SITE.replace(alloc, '$', protocol)?;
    site_of(alloc, DEFINITIONS, &text)
}

/// The number of the first slot of the router.
const SLOT: u32 = 16;

/// What the lines of a row leave: the interface, and the slot, which has the pass of all other makers. A row has what it shows, the dialer of each, who
/// waits at which stage for whom, how many entries and bytes the history may have, and the protocol.
fn told<R: Threads + Wait + Clock + Sync, W: Crew>(
    rt: &R,
    alloc: Global,
    row: &str,
    crew: &mut W,
) -> Result<String, Fail> {
    let site = Arc::new(alloc, site_with(alloc, field(row, 5))?)?;
    if !is_line(&site, 0) || !is_line(&site, SLOT) {
        return Err(Fail::new("no line"));
    }
    let gate = Order::of(rt, alloc, field(row, 3))?;
    let chains = (chain_of(alloc, &site, 0)?, chain_of(alloc, &site, SLOT)?);
    let dialers = (
        dialer_of(alloc, field(row, 1))?,
        dialer_of(alloc, field(row, 2))?,
    );
    let hall = hall_of(alloc, site.clone()?, field(row, 4))?;
    let (turn, mut rest) = Turn::new(alloc, hall)?;
    let pass = split_first(&turn, &mut rest);
    let interface = LineJob {
        rt,
        alloc,
        site: &site,
        by: 0,
        turn: &turn,
        pass,
        dialer: dialers.0,
        chain: chains.0,
        gate: &gate,
    };
    let slot = LineJob {
        rt,
        alloc,
        site: &site,
        by: SLOT,
        turn: &turn,
        pass: rest,
        dialer: dialers.1,
        chain: chains.1,
        gate: &gate,
    };
    let ends = ends_of_lines(rt, alloc, crew, interface, slot)?;
    told_of_ends(alloc, ends)
}

/// The pass of the first interface, which leaves the one of all other makers.
fn split_first(turn: &Turn<Hall>, rest: &mut Pass<Hall>) -> Pass<Hall>
    requires pass { IsPassOf turn.now rest.old }
    requires makers { (view rest.old).makers ≡ makers_from 0 }
    ensures pass { IsPassOf turn.now rest.new × IsPassOf turn.now result }
    ensures interface { has 0 (view result).makers ≡ true }
    ensures slot { has 16 (view rest.new).makers ≡ true }
    ensures seen { ((view rest.new).seen ≡ (view rest.old).seen) × ((view result).seen ≡ (view rest.old).seen) }
{
    turn.split(rest)
}

/// What two lines leave. That they may go to threads is shown for any chain and gate that may, beside all else that a line has.
fn ends_of_lines<'a, R: Threads + Wait + Sync, C: Framer + Send, G: Gate + Sync, W: Crew>(
    rt: &R,
    alloc: Global,
    crew: &mut W,
    first: LineJob<'a, R, C, G>,
    second: LineJob<'a, R, C, G>,
) -> Result<Vec<LineOver>, Fail>
    requires first { IsPassOf first.turn.now first.pass × (has first.by (view first.pass).makers ≡ true) × (of_maker first.by (view first.pass).seen ≡ []) × (first.site.now ≡ (basis_of ⟦<Hall as Stands>⟧.basis first.turn.now).site) × (is_line first.site.now first.by ≡ true) × IsFresh (uses_at first.site.now first.by) (C.shape first.chain) }
    requires second { IsPassOf second.turn.now second.pass × (has second.by (view second.pass).makers ≡ true) × (of_maker second.by (view second.pass).seen ≡ []) × (second.site.now ≡ (basis_of ⟦<Hall as Stands>⟧.basis second.turn.now).site) × (is_line second.site.now second.by ≡ true) × IsFresh (uses_at second.site.now second.by) (C.shape second.chain) }
{
    ends_of(rt, alloc, crew, first, second)
}

/// What two jobs leave.
fn ends_of<R: Threads + Wait + Sync, J: Job, W: Crew>(
    rt: &R,
    alloc: Global,
    crew: &mut W,
    first: J,
    second: J,
) -> Result<Vec<J::End>, Fail>
    requires first { J.is_ready first }
    requires second { J.is_ready second }
{
    let mut jobs = Vec::with_capacity(alloc, 2)?;
    jobs.push_reserved(first);
    jobs.push_reserved(second);
    match crew.all(rt, jobs) {
        Ok(ends) => Ok(ends),
        Err(_) => Err(Fail::new("no memory for jobs")),
    }
}

/// What is told of each line, with `;` after it.
fn told_of_ends(alloc: Global, ends: Vec<LineOver>) -> Result<String, Fail> {
    let mut text = String::new(alloc);
    for end in ends {
        tell(&mut text, end)?;
    }
    Ok(text)
}

fn tell(text: &mut String, end: LineOver) -> Result<(), Fail> {
    text.push_str(&end.told?)?;
    Ok(text.push(';')?)
}

fn row_holds<R: Threads + Wait + Clock + Sync, W: Crew>(
    rt: &R,
    alloc: Global,
    form: &str,
    row: &str,
    crew: &mut W,
) -> Result<(), Fail> {
    let (asked, wanted) = parts(alloc, form, row)?;
    same(&told(rt, alloc, &asked, crew)?, wanted, &asked)
}

/// Each row is answered by what stands after its last bar, in a crew of threads; `$` of the form stands for what is before it.
fn rows_hold<R: Threads + Wait + Clock + Sync>(
    rt: &R,
    alloc: Global,
    form: &str,
    rows: &str,
) -> Result<(), Fail> {
    for row in rows.split('\n') {
        row_holds(rt, alloc, form, row, &mut ThreadCrew::new())?;
    }
    Ok(())
}

/// What the row shows, and of each line the numbers of the dialer's calls that fail and its connections. Then of either line its entries, why it ended and how
/// many connections it had, and what was put to each. The interface takes a piece once the slot has opened, and another one before the slot posts what it took; it
/// posts that one after the slot has posted, which looks again after that.
const SENT: &str = "\
a command|;0 030107 030108|;0 030205|O P3 P3 CPeerEnded:0:0:0 E (Finished, 1) 030205;O K0:0:030205 CPeerEnded:0:0:0 E (Finished, 1) 030107030108;
what is no command|;0 030107 030108|;0 030905|O P3 P3 CPeerEnded:0:0:0 E (Finished, 1) -;O UUnknown:030905 CPeerEnded:0:0:0 E (Finished, 1) 030107030108;
a packet that is unknown|;0 030907 030108|;0 030205|O P3 P3 CPeerEnded:0:0:0 E (Finished, 1) 030205;O K0:0:030205 CPeerEnded:0:0:0 E (Finished, 1) 030907030108;
two commands|;0 030107 030108|;0 030205030206|O P3 P3 CPeerEnded:0:0:0 E (Finished, 1) 030205030206;O K0:0:030205 K0:0:030206 CPeerEnded:0:0:0 E (Finished, 1) 030107030108;
two packets in one piece|;0 030107 030108030109|;0 030205|O P3 P3 P3 CPeerEnded:0:0:0 E (Finished, 1) 030205;O K0:0:030205 CPeerEnded:0:0:0 E (Finished, 1) 030107030108030109;
put 1 of the interface fails|3;0 030107 030108|;0 030205030206|O P3 P3 CWriteFault:0:0:2 E (Finished, 1) -;O K0:0:030205 K0:0:030206 CPeerEnded:0:0:0 E (Finished, 1) 030107030108;
put 2 of the interface fails|4;0 030107 030108|;0 030205030206|O P3 P3 CWriteFault:0:0:1 E (Finished, 1) 030205;O K0:0:030205 K0:0:030206 CPeerEnded:0:0:0 E (Finished, 1) 030107030108;
its take after the puts fails|5;0 030107 030108|;0 030205030206|O P3 P3 CReadFault:0:0:0 E (Finished, 1) 030205030206;O K0:0:030205 K0:0:030206 CPeerEnded:0:0:0 E (Finished, 1) 030107030108;
put 1 of the slot fails|;0 030107 030108|2;0 030205|O P3 P3 CPeerEnded:0:0:0 E (Finished, 1) 030205;O K0:0:030205 CWriteFault:0:0:2 E (Finished, 1) -;
put 2 of the slot fails|;0 030107 030108|3;0 030205|O P3 P3 CPeerEnded:0:0:0 E (Finished, 1) 030205;O K0:0:030205 CWriteFault:0:0:1 E (Finished, 1) 030107;
its take after the puts fails|;0 030107 030108|4;0 030205|O P3 P3 CPeerEnded:0:0:0 E (Finished, 1) 030205;O K0:0:030205 CReadFault:0:0:0 E (Finished, 1) 030107030108;";

#[test]
fn two_lines_put_what_the_other_one_posted(rt: HostRuntime) -> Result<(), Fail> {
    let form = "$|0T1<16T1 16T1<0T2 0T2<16P2 16P2<0P3|9 100|LENGTH 0 8 0 1";
    rows_hold(&rt, rt.alloc(), form, SENT)
}

/// The same over a protocol whose frames end with `0d` where they are taken and with `0a` where they are put. What has `0a` in it is refused, passed over and
/// counted.
const REFUSED: &str = "\
a packet|;0 03010a0d 0301080d|;0 0302050d|O P3 P3 CPeerEnded:0:0:0 E (Finished, 1) 0302050a;O K0:0:030205 CPeerEnded:0:0:1 E (Finished, 1) 0301080a;
a command|;0 0301070d 0301080d|;0 03020a0d|O P3 P3 CPeerEnded:0:0:1 E (Finished, 1) -;O K0:0:03020a CPeerEnded:0:0:0 E (Finished, 1) 0301070a0301080a;
one of two commands|;0 0301070d 0301080d|;0 03020a0d0302050d|O P3 P3 CPeerEnded:0:0:1 E (Finished, 1) 0302050a;O K0:0:03020a K0:0:030205 CPeerEnded:0:0:0 E (Finished, 1) 0301070a0301080a;
a packet before a put that fails|;0 03010a0d 0301080d|2;0 0302050d|O P3 P3 CPeerEnded:0:0:0 E (Finished, 1) 0302050a;O K0:0:030205 CWriteFault:0:0:2 E (Finished, 1) -;";

#[test]
fn what_is_refused_is_passed_over_and_counted(rt: HostRuntime) -> Result<(), Fail> {
    let form = "$|0T1<16T1 16T1<0T2 0T2<16P2 16P2<0P3|9 100|TERMINATED 0x0A 0x0D";
    rows_hold(&rt, rt.alloc(), form, REFUSED)
}

/// The same where a line stops the server while the other one has a piece at hand, or has yet to put or to begin.
const STOPPED: &str = "\
a piece is at hand|;0 030107 030108|0;|16S1<0T1 0T1<16P1|9 100|O P3 CStopped:0:0:0 E (Stopped, 1) -;S E (DoorFailed, 0);
a part of a frame is at hand|;0 0301|0;|16S1<0T1 0T1<16P1|9 100|O CStopped:2:0:0 E (Stopped, 1) -;S E (DoorFailed, 0);
a bad frame is at hand|;0 00|0;|16S1<0T1 0T1<16P1|9 100|O CBadFrame { stage: 1, cause: Short(0) }:1:0:0 E (Stopped, 1) -;S E (DoorFailed, 0);
before the first dial|;0|0;|0S1<16P1|9 100|E (Stopped, 0);S E (DoorFailed, 0);
no entry for a command|;0 030107 030108|;0 030205|0T1<16T1 16T1<0P4|3 100|O P3 CFull:0:1:0 S E (Full, 1) -;O CFull:0:1:1 E (Full, 1) -;
a packet is yet to be put|;0 030107 030108|;0 030205|0T1<16T1 16T1<0T2 0T2<16P2 16P2<0P4|4 100|O P3 CFull:0:1:1 S E (Full, 1) -;O K0:0:030205 CStopped:0:0:0 E (Stopped, 1) 030107;
the last put fails|;0 030107 030108|2;0 030205|0T1<16T1 16T1<0T2 0T2<16P2 16P2<0P4|4 100|O P3 CFull:0:1:1 S E (Full, 1) -;O K0:0:030205 CWriteFault:0:0:1 E (Stopped, 1) -;";

#[test]
fn a_stop_ends_the_other_line_once_it_has_put(rt: HostRuntime) -> Result<(), Fail> {
    rows_hold(&rt, rt.alloc(), "$|LENGTH 0 8 0 1", STOPPED)
}

/// The numbers of the lines that a crew cancels, which runs them one after the other. What comes from the slot finds no interface that is connected.
const IN_TURN: &str = "\
|O P3 CPeerEnded:0:0:0 E (Finished, 1) -;O UNotConnected:030205 CPeerEnded:0:0:0 E (Finished, 1) -;
1|O P3 CPeerEnded:0:0:0 E (Finished, 1) -;S E (Cancelled, 0);
0|S E (Cancelled, 0);E (Stopped, 0);
0 1|S E (Cancelled, 0);E (Cancelled, 0);";

fn turn_row_holds<R: Threads + Wait + Clock + Sync>(
    rt: &R,
    alloc: Global,
    row: &str,
) -> Result<(), Fail> {
    let mut crew = TurnCrew::new(numbers(alloc, field(row, 0))?);
    let form = "$|;0 030107|;0 030205||9 100|LENGTH 0 8 0 1";
    row_holds(rt, alloc, form, row, &mut crew)
}

#[test]
fn lines_run_in_turn_or_are_cancelled(rt: HostRuntime) -> Result<(), Fail> {
    for row in IN_TURN.split('\n') {
        turn_row_holds(&rt, rt.alloc(), row)?;
    }
    Ok(())
}
