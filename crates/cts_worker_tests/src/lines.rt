// One line alone, over a dialer in memory.
use crate::chains::chain_of;
use crate::jobs::LineJob;
use crate::read::{dialer_of, hall_of, parts};
use cts_connection::is_line;
use cts_outside::{Job, OpenGate};
use cts_rows::{field, number, same};
use cts_samples::site_of;
use cts_turn::Turn;
use std::alloc::Global;
use std::sync::{Arc, Wait};
use std::test::Fail;

/// What is told of the line of a row: what the row shows, the dialer, how many entries and bytes the history may have, the maker, and the site.
fn told<R: Wait + Sync>(rt: &R, alloc: Global, row: &str) -> Result<String, Fail> {
    let site = Arc::new(alloc, site_of(alloc, "", field(row, 4))?)?;
    let by: u32 = number(field(row, 3), 0)?;
    if by >= 31 || !is_line(&site, by) {
        return Err(Fail::new("no line"));
    }
    let chain = chain_of(alloc, &site, by)?;
    let dialer = dialer_of(alloc, field(row, 1))?;
    let hall = hall_of(alloc, site.clone()?, field(row, 2))?;
    let (turn, pass) = Turn::new(alloc, hall)?;
    let gate = OpenGate::new();
    let job = LineJob {
        rt,
        alloc,
        site: &site,
        by,
        turn: &turn,
        pass,
        dialer,
        chain,
        gate: &gate,
    };
    Ok(job.work().told?)
}

fn row_holds<R: Wait + Sync>(rt: &R, alloc: Global, form: &str, row: &str) -> Result<(), Fail> {
    let (asked, wanted) = parts(alloc, form, row)?;
    same(&told(rt, alloc, &asked)?, wanted, &asked)
}

/// Each row is answered by what stands after its last bar; `$` of the form stands for what is before it.
fn rows_hold<R: Wait + Sync>(rt: &R, alloc: Global, form: &str, rows: &str) -> Result<(), Fail> {
    for row in rows.split('\n') {
        row_holds(rt, alloc, form, row)?;
    }
    Ok(())
}

/// An interface with frames of a length, and room for nine entries.
const INTERFACE: &str =
    "$|9 1000000|0|INTERFACE I tcpip_client_interface.rb h 1 1 nil nil LENGTH 0 16 0 1";

/// What the row shows; the numbers of the dialer's calls that fail, and its connections, each with how many dials answer Later and its pieces. Of
/// the line its entries, why it ended and how many connections it had, and what was put to each.
const PIECES: &str = "\
a packet in one piece|;0 000601800001|O P6 CPeerEnded:0:0:0 E (Finished, 1) -
a packet in pieces of one byte|;0 00 06 01 80 00 01|O P6 CPeerEnded:0:0:0 E (Finished, 1) -
a piece with a part of a packet|;0 - 0006018000|O CPeerEnded:5:0:0 E (Finished, 1) -
a piece with two packets|;0 000601800001000401ff|O P6 P4 CPeerEnded:0:0:0 E (Finished, 1) -
a packet and a part of the next one|;0 00060180 0001000401|O P6 CPeerEnded:3:0:0 E (Finished, 1) -
two connections|;2 000601800001,0 000401ff|O P6 CPeerEnded:0:0:0 O P4 CPeerEnded:0:0:0 E (Finished, 2) - -
a part of a packet is lost with its connection|;0 000601,0 800001|O CPeerEnded:3:0:0 O CPeerEnded:3:0:0 E (Finished, 2) - -
a bad frame|;0 0001ff|O CBadFrame { stage: 1, cause: Short(1) }:3:0:0 E (Finished, 1) -
a bad frame after a packet, and a piece that is not taken|;0 000401ff0001ff 00|O P4 CBadFrame { stage: 1, cause: Short(1) }:3:0:0 E (Finished, 1) -
a connection after a bad frame|;0 0001ff,0 000401ff|O CBadFrame { stage: 1, cause: Short(1) }:3:0:0 O P4 CPeerEnded:0:0:0 E (Finished, 2) - -
a peer that closes at once|;0|O CPeerEnded:0:0:0 E (Finished, 1) -
three of them|;0,0,0|O CPeerEnded:0:0:0 O CPeerEnded:0:0:0 O CPeerEnded:0:0:0 E (Finished, 3) - - -
no connection|;|E (Finished, 0)";

#[test]
fn a_line_posts_the_packets_of_each_piece(rt: HostRuntime) -> Result<(), Fail> {
    rows_hold(&rt, rt.alloc(), INTERFACE, PIECES)
}

/// The same where the dialer's call of this number fails. The bytes that were taken before count as held, unless a packet has them.
const FAILING: &str = "\
the dial|0;0 00 06 01 80 00 01|O P6 CPeerEnded:0:0:0 E (Finished, 1) -
take 1|1;0 00 06 01 80 00 01|O CReadFault:0:0:0 E (Finished, 1) -
take 2|2;0 00 06 01 80 00 01|O CReadFault:1:0:0 E (Finished, 1) -
take 3|3;0 00 06 01 80 00 01|O CReadFault:2:0:0 E (Finished, 1) -
take 4|4;0 00 06 01 80 00 01|O CReadFault:3:0:0 E (Finished, 1) -
take 5|5;0 00 06 01 80 00 01|O CReadFault:4:0:0 E (Finished, 1) -
take 6|6;0 00 06 01 80 00 01|O CReadFault:5:0:0 E (Finished, 1) -
take 7|7;0 00 06 01 80 00 01|O P6 CReadFault:0:0:0 E (Finished, 1) -
the second dial|8;0 00 06 01 80 00 01|O P6 CPeerEnded:0:0:0 E (Finished, 1) -
a take, and then another connection|2;0 00,0 000401ff|O CReadFault:1:0:0 O P4 CPeerEnded:0:0:0 E (Finished, 2) - -
all dials but one|0 1 3 4;1 00|O CPeerEnded:1:0:0 E (Finished, 1) -";

#[test]
fn a_line_closes_where_a_take_fails_and_dials_again(rt: HostRuntime) -> Result<(), Fail> {
    rows_hold(&rt, rt.alloc(), INTERFACE, FAILING)
}

/// The same of an interface that does not connect again.
const ONCE: &str = "\
its dial fails|0;0 000601800001|E (NoReconnect, 0)
a dial before it is ready fails|1;2 000601800001|E (NoReconnect, 0)
its take fails|1;0 000601800001|O CReadFault:0:0:0 E (NoReconnect, 1) -
its peer closes|;0,0|O CPeerEnded:0:0:0 E (NoReconnect, 1) -
a bad frame|;0 0001ff,0|O CBadFrame { stage: 1, cause: Short(1) }:3:0:0 E (NoReconnect, 1) -
it is ready later|;3|O CPeerEnded:0:0:0 E (NoReconnect, 1) -
no connection|;|E (Finished, 0)";

#[test]
fn a_line_that_does_not_connect_again_ends(rt: HostRuntime) -> Result<(), Fail> {
    let form = format!(in rt.alloc(); "{INTERFACE};DONT_RECONNECT")?;
    rows_hold(&rt, rt.alloc(), &form, ONCE)
}

/// The same, with how many entries and bytes the history may have.
const FULL: &str = "\
no entry for a packet|;0 000601800001|1 100|O CFull:0:1:0 S E (Full, 1) -
no entry for two packets|;0 000601800001000401ff|1 100|O CFull:0:2:0 S E (Full, 1) -
no entry for the packet of a second piece|;0 000601800001 000401ff|2 100|O P6 CFull:0:1:0 S E (Full, 1) -
an entry for one of two packets|;0 000601800001000401ff,0|2 100|O CFull:0:2:0 S E (Full, 1) -
an entry for each|;0 000601800001000401ff|3 100|O P6 P4 CPeerEnded:0:0:0 E (Finished, 1) -
a byte too few|;0 000601800001|9 5|O CFull:0:1:0 S E (Full, 1) -
as many bytes|;0 000601800001|9 6|O P6 CPeerEnded:0:0:0 E (Finished, 1) -
bytes for one of two packets|;0 000401ff00 0401ff|9 7|O P4 CFull:0:1:0 S E (Full, 1) -
no entry for a second Opened|;0,0|1 100|O CPeerEnded:0:0:0 S E (Full, 1) -
a bad frame needs no entry|;0 0001ff|1 100|O CBadFrame { stage: 1, cause: Short(1) }:3:0:0 E (Finished, 1) -
no entry for the packet before a bad frame|;0 000401ff0001ff|1 100|O CFull:3:1:0 S E (Full, 1) -
no entry for an Opened|;0 000601800001|0 100|S E (Full, 0)
eight entries, of which the last one is a packet|;0 000401ff000401ff000401ff000401ff000401ff000401ff000401ff|8 1000|O P4 P4 P4 P4 P4 P4 P4 CPeerEnded:0:0:0 E (Finished, 1) -
eight entries, and one more packet|;0 000401ff000401ff000401ff000401ff000401ff000401ff 000401ff 000401ff|8 1000|O P4 P4 P4 P4 P4 P4 P4 CFull:0:1:0 S E (Full, 1) -
eight entries, and a piece of one packet more|;0 000401ff000401ff000401ff000401ff000401ff000401ff000401ff000401ff,0|8 1000|O CFull:0:8:0 S E (Full, 1) -
eight entries, of which the last one is an Opened|;0 000401ff000401ff000401ff,0 000401ff000401ff,0 000401ff|8 1000|O P4 P4 P4 CPeerEnded:0:0:0 O P4 P4 CPeerEnded:0:0:0 O CFull:0:1:0 S E (Full, 3) - - -
eight entries, and another connection|;0 000401ff000401ff000401ff,0 000401ff000401ff000401ff,0 000401ff|8 1000|O P4 P4 P4 CPeerEnded:0:0:0 O P4 P4 P4 CPeerEnded:0:0:0 S E (Full, 2) - -";

#[test]
fn a_line_stops_the_server_where_the_history_is_full(rt: HostRuntime) -> Result<(), Fail> {
    let form = "$|0|INTERFACE I tcpip_client_interface.rb h 1 1 nil nil LENGTH 0 16 0 1";
    rows_hold(&rt, rt.alloc(), form, FULL)
}

/// The same of an interface without frames, whose pieces are packets.
const LARGE: &str = "\
pieces of one byte|;0 01 02 x1|O P1 P1 P1 CPeerEnded:0:0:0 E (Finished, 1) -
as many bytes as are taken at once|;0 x65536|O P65536 CPeerEnded:0:0:0 E (Finished, 1) -
one more, and one less|;0 x65537 x65535|O P65536 P1 P65535 CPeerEnded:0:0:0 E (Finished, 1) -
after a take that fails|1;0 x65537,0 x65536|O CReadFault:0:0:0 O P65536 CPeerEnded:0:0:0 E (Finished, 2) - -";

#[test]
fn a_line_takes_pieces_of_any_size(rt: HostRuntime) -> Result<(), Fail> {
    let form = "$|9 1000000|0|INTERFACE I tcpip_client_interface.rb h 1 1 nil nil";
    rows_hold(&rt, rt.alloc(), form, LARGE)
}

/// The same of an interface with heads of layout 4, whose packets were stored before they were sent or were not.
const STORED: &str = "\
a stored packet, and one that was not|;0 80000000050000000601540141000000010a0000000005 0000000601540141000000020b0c|O P1* P2 CPeerEnded:0:0:0 E (Finished, 1) -
wrong flags|;0 41|O CBadFrame { stage: 1, cause: Flags(65) }:1:0:0 E (Finished, 1) -";

#[test]
fn a_line_posts_whether_packets_were_stored(rt: HostRuntime) -> Result<(), Fail> {
    let form =
        "$|9 100|0|INTERFACE I tcpip_client_interface.rb h 1 1 nil nil PREIDENTIFIED nil nil 4";
    rows_hold(&rt, rt.alloc(), form, STORED)
}

/// The same of a slot of a router that routes nothing.
const DOOR: &str = "\
its door's dial fails|0;0 030107|S E (DoorFailed, 0)
a dial before it is ready fails|1;1 030107|S E (DoorFailed, 0)
what is no command, and a part of a frame|;2 030107 03|O UUnknown:030107 CPeerEnded:1:0:0 E (Finished, 1) -
a take fails, and then another client|2;0 030107,0|O UUnknown:030107 CReadFault:0:0:0 O CPeerEnded:0:0:0 E (Finished, 2) - -
the dial after a client fails|3;0 030107,0|O UUnknown:030107 CPeerEnded:0:0:0 S E (DoorFailed, 1) -
a bad frame, and then another client|;0 0001ff,0 02|O CBadFrame { stage: 1, cause: Short(0) }:3:0:0 O CPeerEnded:1:0:0 E (Finished, 2) - -
no client|;|E (Finished, 0)";

#[test]
fn a_slot_takes_commands_and_ends_with_its_door(rt: HostRuntime) -> Result<(), Fail> {
    let form = "$|9 100|16|ROUTER R tcpip_server_interface.rb 3 3 nil nil LENGTH 0 8 0 1";
    rows_hold(&rt, rt.alloc(), form, DOOR)
}
