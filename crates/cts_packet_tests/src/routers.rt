// Worlds of sites with routers, event by event: what comes from slots, what is drained to them, and what the logs take.
use crate::shelves::stocked;
use crate::world::{tell_lines, world_of};
use cts_base::Bytes;
use cts_chain::{Chain, Framer};
use cts_connection::Supplier;
use cts_core::{World, WorldFault};
use cts_def::Site;
use cts_entry::{Effect, Event, Why};
use cts_proto::Shelf;
use cts_rows::{Answers, as_text, bytes_of, cut, debug_of, digits_of, number, part, rows_end_so};
use cts_samples::site_of;
use cts_script::effect_line;
use std::alloc::Global;
use std::test::Fail;

/// The event of a row, a word and numbers: a maker opens, a piece of it comes, its peer ends it, its next entries are written or drained,
/// or the logs take the next entries; or desk 0 is asked to send a command.
fn event_of(alloc: Global, text: &str) -> Result<Event, Fail> {
    match part(text, 0) {
        "open" => Ok(Event::Opens(number(text, 1)?)),
        "from" => piece_of(alloc, text),
        "end" => Ok(Event::Finish(number(text, 1)?, Why::PeerEnded)),
        "write" => Ok(Event::Write(number(text, 1)?, number(text, 2)?)),
        "drain" => Ok(Event::DrainSlot(number(text, 1)?, number(text, 2)?)),
        "log" => Ok(Event::DrainLog(number(text, 1)?)),
        _ => sending(alloc, text),
    }
}

fn piece_of(alloc: Global, text: &str) -> Result<Event, Fail> {
    let bytes = Bytes::of(bytes_of(alloc, part(text, 2))?);
    Ok(Event::Piece(number(text, 1)?, bytes))
}

fn sending(alloc: Global, text: &str) -> Result<Event, Fail> {
    let body = format!(in alloc;
        "{{\"jsonrpc\":\"2.0\",\"method\":\"cmd\",\"params\":[\"{text}\"]}}"
    )?;
    Ok(Event::Call(0, Bytes::copy(alloc, body.as_bytes())?))
}

/// What a world answers: the line of the effect, and of logs their bytes; nothing of an event that only posts.
fn shown(alloc: Global, site: &Site, answer: &Result<Effect, WorldFault>) -> Result<String, Fail> {
    match answer {
        Ok(Effect::Logged { tlm, cmd }) => { logs_of(alloc, tlm.as_slice(), cmd.as_slice()) }
        Ok(effect) => line_of(alloc, site, effect),
        Err(fault) => debug_of(alloc, fault),
    }
}

fn logs_of(alloc: Global, tlm: &[u8], cmd: &[u8]) -> Result<String, Fail> {
    let tlm = digits_of(alloc, tlm)?;
    let cmd = digits_of(alloc, cmd)?;
    Ok(format!(in alloc; "TLM {tlm} CMD {cmd}")?)
}

fn line_of(alloc: Global, site: &Site, effect: &Effect) -> Result<String, Fail> {
    let line = effect_line(alloc, site, effect)?;
    Ok(as_text(line.as_slice())?.trim_end().to_string(alloc)?)
}

/// Appends the answer to an event, with `;` after it.
fn tell<C: Framer>(
    alloc: Global,
    world: &mut World<C>,
    text: &str,
    out: &mut String,
) -> Result<(), Fail> {
    let answer = answer_to(alloc, world, text)?;
    out.push_str(answer.as_str())?;
    Ok(out.push(';')?)
}

fn answer_to<C: Framer>(alloc: Global, world: &mut World<C>, text: &str) -> Result<String, Fail> {
    let event = event_of(alloc, text)?;
    let answer = world.step(&event);
    shown(alloc, world.hall().site(), &answer)
}

/// The answers to these events, and the lines of the history after them.
fn told<C: Framer>(alloc: Global, world: &mut World<C>, events: &str) -> Result<String, Fail> {
    let mut out = String::new(alloc);
    for text in events.split(';') {
        tell(alloc, world, text, &mut out)?;
    }
    out.push(' ')?;
    tell_lines(alloc, world, &mut out)?;
    Ok(out)
}

fn told_of<C: Framer, B: Supplier<C>>(
    alloc: Global,
    site: &str,
    events: &str,
    shelf: &mut B,
) -> Result<String, Fail> {
    let site = site_of(alloc, DEFINITIONS, site)?;
    let mut world = world_of::<C, B>(alloc, site, shelf)?;
    told(alloc, &mut world, events)
}

/// A packet and a command that begin with how many bytes they have.
const DEFINITIONS: &str = "\
TELEMETRY T A BIG_ENDIAN;APPEND_ITEM L 8 UINT;APPEND_ID_ITEM K 8 UINT 1;\
COMMAND T C BIG_ENDIAN;APPEND_PARAMETER L 8 UINT 0 9 3;APPEND_ID_PARAMETER K 8 UINT 0 9 2;APPEND_PARAMETER N 8 UINT 0 9 1";

/// An interface with the target, one that is not logged, a router of the first one, and a router without routes.
const SITE: &str = "\
INTERFACE I tcpip_client_interface.rb h 1 1 nil nil LENGTH 0 8 0 1;TARGET T;\
INTERFACE J tcpip_client_interface.rb h 2 2 nil nil LENGTH 0 8 0 1;DONT_LOG;\
ROUTER R tcpip_server_interface.rb 3 3 nil nil LENGTH 0 8 0 1;ROUTE I;\
ROUTER Q tcpip_server_interface.rb 4 4 nil nil LENGTH 0 8 0 1";

/// What comes from a slot is a command where its interface is connected. Packets of the interface that is routed are drained to both slots
/// of its router, each entry once; a slot that is opened again begins anew. What is no line opens nothing, and an interface is not
/// drained. A router without routes is sent nothing and sends nothing on.
const SLOTS: &str = "\
open 0;open 16;from 16 030205;from 16 0309;from 16 01;write 0 2;write 0 1;end 0;from 16 030207|\
;;;;;NotEnabled;WRITTEN I 030205;;; \
0 0.000000 I OPENED;1 0.000000 R/0 OPENED;2 0.000000 R/0 COMMAND T C 030205;3 0.000000 R/0 UNROUTED UNKNOWN 030901;4 0.000000 I CLOSED PEER held 0 0 0 0 skipped 0 empty 0 unposted 0 unsent 0;5 0.000000 R/0 UNROUTED NOTCONNECTED 030207;
open 0;open 16;from 0 030107;open 17;from 0 030108;drain 16 4;drain 16 3;drain 16 1;drain 17 1;drain 17 0;end 16;from 0 030109;drain 17 2|\
;;;;;NotEnabled;ROUTED R/0 030107030108;NotEnabled;ROUTED R/1 030108;ROUTED R/1 -;;;ROUTED R/1 030109; \
0 0.000000 I OPENED;1 0.000000 R/0 OPENED;2 0.000000 I PACKET T A 030107;3 0.000000 R/1 OPENED;4 0.000000 I PACKET T A 030108;5 0.000000 R/0 CLOSED PEER held 0 0 0 0 skipped 0 empty 0 unposted 0 unsent 0;6 0.000000 I PACKET T A 030109;
open 0;open 16;from 0 030107;from 16 03;end 16;open 16;drain 16 1;from 0 030108;drain 16 1|\
;;;;;;NotEnabled;;ROUTED R/0 030108; \
0 0.000000 I OPENED;1 0.000000 R/0 OPENED;2 0.000000 I PACKET T A 030107;3 0.000000 R/0 CLOSED PEER held 1 0 0 0 skipped 0 empty 0 unposted 0 unsent 1;4 0.000000 R/0 OPENED;5 0.000000 I PACKET T A 030108;
open 20;open 15;drain 0 0;open 16;write 16 0;drain 17 0;from 17 03;end 17;drain 24 0;open 18;drain 18 1|NotEnabled;NotEnabled;NotEnabled;;NotEnabled;NotEnabled;NotEnabled;NotEnabled;NotEnabled;;NotEnabled; 0 0.000000 R/0 OPENED;1 0.000000 Q/0 OPENED;
open 0;open 1;open 16;open 19;from 0 030107;from 1 030109;from 19 030201;drain 19 2;drain 16 3|\
;;;;;;;ROUTED Q/1 -;ROUTED R/0 030107; \
0 0.000000 I OPENED;1 0.000000 J OPENED;2 0.000000 R/0 OPENED;3 0.000000 Q/1 OPENED;4 0.000000 I PACKET T A 030107;5 0.000000 J PACKET UNKNOWN UNKNOWN 030109;6 0.000000 Q/1 UNROUTED UNKNOWN 030201;";

struct Slots;

impl Answers for Slots {
    fn answer(alloc: Global, asked: &str) -> Result<String, Fail> {
        told_of::<Chain, Shelf>(alloc, SITE, asked, &mut stocked(alloc, 6)?)
    }
}

#[test]
fn slots_send_commands_and_are_routed_packets(rt: HostRuntime) -> Result<(), Fail> {
    rows_end_so::<Slots>(rt.alloc(), SLOTS)
}

/// The logs take each entry once, no more than there are, and nothing of an interface that is not logged: packets of the interface that
/// made them, and commands of the interface that they are for, whoever sent them.
const LOGS: &str = "\
open 0;open 1;from 0 030107;from 1 030109;T C with N 4;log 6;log 4;log 1;log 1;log 0|\
;;;;REPLY DESK/0 4 -;NotEnabled;TLM 00000000000000000154014100000003030107 CMD ;TLM  CMD 00000000000000000154014300000003030204;NotEnabled;TLM  CMD ; \
0 0.000000 I OPENED;1 0.000000 J OPENED;2 0.000000 I PACKET T A 030107;3 0.000000 J PACKET UNKNOWN UNKNOWN 030109;4 0.000000 DESK/0 COMMAND T C 030204;
open 0;open 16;from 16 030205;log 3;drain 16 1;write 0 1|;;;TLM  CMD 00000000000000000154014300000003030205;ROUTED R/0 -;WRITTEN I 030205; 0 0.000000 I OPENED;1 0.000000 R/0 OPENED;2 0.000000 R/0 COMMAND T C 030205;";

struct Logs;

impl Answers for Logs {
    fn answer(alloc: Global, asked: &str) -> Result<String, Fail> {
        told_of::<Chain, Shelf>(alloc, SITE, asked, &mut stocked(alloc, 6)?)
    }
}

#[test]
fn logs_take_each_entry_once(rt: HostRuntime) -> Result<(), Fail> {
    rows_end_so::<Logs>(rt.alloc(), LOGS)
}

/// What comes and goes in heads of layout 4 is logged in that layout: with the flag of a packet that was stored, which a slot is put too,
/// and with none of a command. A log of layout 2, and a slot with heads of it, leave the flags out.
const STORED: &str = "\
LOG_LAYOUT 4|4|open 0;open 16;from 0 8000000005000000060154014100000003030107;from 0 0000000005000000060154014100000003030108;T C with N 4;log 5;drain 16 3|\
;;;;REPLY DESK/0 4 -;\
TLM 80000000050000000601540141000000030301070000000005000000060154014100000003030108 CMD 0000000000000000000154014300000003030204;\
ROUTED R/0 80000000050000000601540141000000030301070000000005000000060154014100000003030108; \
0 0.000000 I OPENED;1 0.000000 R/0 OPENED;2 5.000006 I STORED T A 030107;3 5.000006 I PACKET T A 030108;4 0.000000 DESK/0 COMMAND T C 030204;
LOG_LAYOUT 2|2|open 0;open 16;from 0 8000000005000000060154014100000003030107;log 3;drain 16 1|\
;;;TLM 00000005000000060154014100000003030107 CMD ;ROUTED R/0 00000005000000060154014100000003030107; \
0 0.000000 I OPENED;1 0.000000 R/0 OPENED;2 5.000006 I STORED T A 030107;";

struct Stored;

impl Answers for Stored {
    fn answer(alloc: Global, asked: &str) -> Result<String, Fail> {
        let (logs, rest) = cut(asked, '|')?;
        let (layout, events) = cut(rest, '|')?;
        let site = format!(in alloc;
            "{logs};INTERFACE I tcpip_client_interface.rb h 1 1 nil nil PREIDENTIFIED nil nil 4;TARGET T;ROUTER R tcpip_server_interface.rb 3 3 nil nil PREIDENTIFIED nil nil {layout};ROUTE I"
        )?;
        told_of::<Chain, Shelf>(alloc, site.as_str(), events, &mut stocked(alloc, 3)?)
    }
}

#[test]
fn stored_packets_are_logged_and_routed_with_their_flag(rt: HostRuntime) -> Result<(), Fail> {
    rows_end_so::<Stored>(rt.alloc(), STORED)
}

/// A packet whose spelling a slot's chain refuses, since it has the mark that ends a frame, is passed over and counts as unsent.
const REFUSED: &str = "\
open 0;open 16;from 0 03010a;from 0 030107;drain 16 1;drain 16 2;drain 16 1;end 16|\
;;;;ROUTED R/0 -;NotEnabled;ROUTED R/0 0301070a;; \
0 0.000000 I OPENED;1 0.000000 R/0 OPENED;2 0.000000 I PACKET T A 03010a;3 0.000000 I PACKET T A 030107;4 0.000000 R/0 CLOSED PEER held 0 0 0 0 skipped 0 empty 0 unposted 0 unsent 1;";

struct Refused;

impl Answers for Refused {
    fn answer(alloc: Global, asked: &str) -> Result<String, Fail> {
        let site =
            "INTERFACE I tcpip_client_interface.rb h 1 1 nil nil LENGTH 0 8 0 1;TARGET T;ROUTER R tcpip_server_interface.rb 3 3 nil nil TERMINATED 0x0a 0x0a;ROUTE I";
        told_of::<Chain, Shelf>(alloc, site, asked, &mut stocked(alloc, 2)?)
    }
}

#[test]
fn a_packet_that_a_slot_refuses_is_unsent(rt: HostRuntime) -> Result<(), Fail> {
    rows_end_so::<Refused>(rt.alloc(), REFUSED)
}
