// A world of one interface, event by event: a history with small limits that is full, which no script can ask for, and chains of protocols.
use crate::shelves::stocked;
use cts_base::Bytes;
use cts_chain::{Chain, Framer};
use cts_connection::Supplier;
use cts_core::World;
use cts_def::{Site, Time};
use cts_entry::{Effect, Entry, Event, Why};
use cts_proto::Shelf;
use cts_rows::{Answers, as_text, bytes_of, cut, debug_of, readable_of, rows_end_so};
use cts_samples::site_of;
use cts_script::entry_lines;
use cts_trace::lend;
use std::alloc::Global;
use std::sync::Arc;
use std::test::Fail;

/// The site of the tests that need one.
const SITE: &str = "INTERFACE I tcpip_client_interface.rb h 8080 8080 10.0 nil LENGTH 0 16 0 1";

const TIME: Time = Time {
    seconds: 5,
    micros: 7,
};

const NO_TIME: Time = Time {
    seconds: 0,
    micros: 1_000_000,
};

/// The event of a row: the clock is set to second 5 or to no time of a clock, the interface opens, a piece comes, the interface
/// ends by a stop, one that there is not by its peer, the server is stopped, or desk 0 is asked, perhaps to send a command
/// (`tell`: with no id).
fn event_of(alloc: Global, text: &str) -> Result<Event, Fail> {
    match text {
        "time" => Ok(Event::SetTime(TIME)),
        "no time" => Ok(Event::SetTime(NO_TIME)),
        "opens" => Ok(Event::Opens(0)),
        "ends" => Ok(Event::Finish(0, Why::Stopped)),
        "other ends" => Ok(Event::Finish(5, Why::PeerEnded)),
        "stop" => Ok(Event::Stop),
        _ => long_event_of(alloc, text),
    }
}

fn long_event_of(alloc: Global, text: &str) -> Result<Event, Fail> {
    let (word, rest) = cut(text, ' ')?;
    match word {
        "piece" => Ok(Event::Piece(0, Bytes::of(bytes_of(alloc, rest)?))),
        "call" => Ok(Event::Call(0, Bytes::copy(alloc, rest.as_bytes())?)),
        "ask" => asking(alloc, rest),
        "send" => sending(alloc, rest, ",\"id\":1"),
        "tell" => sending(alloc, rest, ""),
        _ => Err(Fail::new("no event")),
    }
}

/// A request of a method and its params, with a blank between.
fn asking(alloc: Global, text: &str) -> Result<Event, Fail> {
    let (method, params) = cut(text, ' ')?;
    let body = format!(in alloc;
        "{{\"jsonrpc\":\"2.0\",\"method\":\"{method}\",\"params\":{params},\"id\":1}}"
    )?;
    Ok(Event::Call(0, Bytes::copy(alloc, body.as_bytes())?))
}

/// A request that sends a command of this text, with what stands after its params.
fn sending(alloc: Global, text: &str, id: &str) -> Result<Event, Fail> {
    let body = format!(in alloc;
        "{{\"jsonrpc\":\"2.0\",\"method\":\"cmd\",\"params\":[\"{text}\"]{id}}}"
    )?;
    Ok(Event::Call(0, Bytes::copy(alloc, body.as_bytes())?))
}

/// What the world answers to an event, in words; of a reply its front, and its text or `-`.
fn answer<C: Framer>(alloc: Global, world: &mut World<C>, event: &Event) -> Result<String, Fail> {
    match world.step(event) {
        Ok(Effect::Reply { front, text, .. }) => reply(alloc, front, text.as_ref()),
        answer => readable_of(alloc, &answer),
    }
}

fn reply(alloc: Global, front: u64, text: Option<&Bytes>) -> Result<String, Fail> {
    let text = match text {
        Some(text) => as_text(text.as_slice())?,
        None => "-",
    };
    Ok(format!(in alloc; "{front} {text}")?)
}

/// Appends the answer to an event, with `;` after it.
fn tell<C: Framer>(
    alloc: Global,
    world: &mut World<C>,
    text: &str,
    out: &mut String,
) -> Result<(), Fail> {
    let answer = answer_to(alloc, world, text)?;
    out.push_str(answer.as_str())?;
    Ok(out.push(';')?)
}

fn answer_to<C: Framer>(alloc: Global, world: &mut World<C>, text: &str) -> Result<String, Fail> {
    let event = event_of(alloc, text)?;
    answer(alloc, world, &event)
}

/// The answers to these events, and the lines of the history after them.
fn told<C: Framer>(alloc: Global, world: &mut World<C>, events: &str) -> Result<String, Fail> {
    let mut out = String::new(alloc);
    for text in events.split(';') {
        tell(alloc, world, text, &mut out)?;
    }
    out.push(' ')?;
    tell_lines(alloc, world, &mut out)?;
    Ok(out)
}

/// Appends the lines of a world's history, each with `;` in the place of its line end.
pub fn tell_lines<C: Framer>(
    alloc: Global,
    world: &World<C>,
    out: &mut String,
) -> Result<(), Fail> {
    let hall = world.hall();
    for n in 0..hall.count() {
        tell_line(alloc, hall.site(), n, lend(hall, n), out)?;
    }
    Ok(())
}

fn tell_line(
    alloc: Global,
    site: &Site,
    n: u64,
    entry: &Entry,
    out: &mut String,
) -> Result<(), Fail> {
    let line = entry_lines(alloc, site, n, entry, &[])?;
    out.push_str(as_text(line.as_slice())?.trim_end())?;
    Ok(out.push(';')?)
}

/// The events of a world of the one interface, the answers to them, and the lines of its history: the clock is set, and nothing
/// opens after a stop; a connection ends by a stop only after one.
const EVENTS: &str = "\
time;no time;stop;stop;opens|Ok(Posted);Err(NotEnabled);Ok(Posted);Err(NotEnabled);Err(NotEnabled); 0 5.000007 SERVER STOP;
opens;ends;stop;ends;ends|Ok(Posted);Err(NotEnabled);Ok(Posted);Ok(Posted);Err(NotEnabled); 0 0.000000 I OPENED;1 0.000000 SERVER STOP;2 0.000000 I CLOSED STOP held 0 0 0 0 skipped 0 empty 0 unposted 0 unsent 0;";

struct Events;

impl Answers for Events {
    fn answer(alloc: Global, asked: &str) -> Result<String, Fail> {
        told_of::<Chain, Shelf>(alloc, ("", SITE), asked, &mut stocked(alloc, 1)?)
    }
}

/// The answers of a world of the site of these definitions and site file.
fn told_of<C: Framer, B: Supplier<C>>(
    alloc: Global,
    texts: (&str, &str),
    events: &str,
    shelf: &mut B,
) -> Result<String, Fail> {
    let site = site_of(alloc, texts.0, texts.1)?;
    let mut world = world_of::<C, B>(alloc, site, shelf)?;
    told(alloc, &mut world, events)
}

/// A world of this site with the limits of a server.
pub fn world_of<C: Framer, B: Supplier<C>>(
    alloc: Global,
    site: Site,
    shelf: &mut B,
) -> Result<World<C>, Fail> {
    Ok(World::new(alloc, Arc::new(alloc, site)?, shelf)?)
}

#[test]
fn events_are_answered_where_they_may_come(rt: HostRuntime) -> Result<(), Fail> {
    rows_end_so::<Events>(rt.alloc(), EVENTS)
}

/// The same of a world whose history takes one entry and ten bytes: where it was full it says so for good, but a reply of a full
/// history only says so, after all checks, and the server may be stopped.
const FULL: &str =
    r#"opens;piece 00;piece 0307;stop;other ends|Ok(Posted);Ok(Posted);Err(Full { entries: 1, bytes: 0 });Err(Full { entries: 1, bytes: 0 });Err(Full { entries: 1, bytes: 0 }); 0 0.000000 I OPENED;
opens;ask set_limits_set ["DEFAULT"]|Ok(Posted);1 {"error":{"code":-32003,"message":"History full"},"id":1,"jsonrpc":"2.0"}; 0 0.000000 I OPENED;
opens;ask set_limits_set ["NIGHT"]|Ok(Posted);1 {"error":{"code":-32001,"message":"Unknown limits set"},"id":1,"jsonrpc":"2.0"}; 0 0.000000 I OPENED;
opens;ask tlm_raw ["T A V"];stop|Ok(Posted);1 {"error":{"code":-32001,"message":"Unknown target"},"id":1,"jsonrpc":"2.0"};Ok(Posted); 0 0.000000 I OPENED;1 0.000000 SERVER STOP;
opens;call {"jsonrpc":"2.0","method":"set_limits_set","params":["DEFAULT"]}|Ok(Posted);1 -; 0 0.000000 I OPENED;
opens;call {"jsonrpc":"2.0","method":"stop_server"};ask stop_server []|Ok(Posted);1 -;2 {"id":1,"jsonrpc":"2.0","result":null}; 0 0.000000 I OPENED;1 0.000000 DESK/0 STOP;"#;

struct Full;

impl Answers for Full {
    fn answer(alloc: Global, asked: &str) -> Result<String, Fail> {
        let site = site_of(alloc, "", SITE)?;
        told_within::<Chain, Shelf>(alloc, site, (1, 10), asked, &mut stocked(alloc, 1)?)
    }
}

/// The answers of a world of this site whose history takes so many entries and bytes.
fn told_within<C: Framer, B: Supplier<C>>(
    alloc: Global,
    site: Site,
    limits: (u8, u8),
    events: &str,
    shelf: &mut B,
) -> Result<String, Fail> {
    let mut world = limited::<C, B>(alloc, site, limits, shelf)?;
    told(alloc, &mut world, events)
}

fn limited<C: Framer, B: Supplier<C>>(
    alloc: Global,
    site: Site,
    limits: (u8, u8),
    shelf: &mut B,
) -> Result<World<C>, Fail> {
    let (entries, bytes) = (u64::from(limits.0), u64::from(limits.1));
    let site = Arc::new(alloc, site)?;
    Ok(World::with_limits(alloc, site, shelf, entries, bytes)?)
}

#[test]
fn a_world_with_a_full_history_says_so(rt: HostRuntime) -> Result<(), Fail> {
    rows_end_so::<Full>(rt.alloc(), FULL)
}

/// The same of a world whose history takes three entries and eight bytes, one of the entries the Opened, with a command of three bytes
/// and one to the end: a command fits up to the last byte, and one without bytes up to the last entry.
const SENT: &str =
    r#"opens;send T C;send T E with L 'abcdef'|Ok(Posted);1 {"id":1,"jsonrpc":"2.0","result":["T","C",{}]};2 {"error":{"code":-32003,"message":"History full"},"id":1,"jsonrpc":"2.0"}; 0 0.000000 I OPENED;1 0.000000 DESK/0 COMMAND T C 000001;
opens;send T C;send T X|Ok(Posted);1 {"id":1,"jsonrpc":"2.0","result":["T","C",{}]};2 {"error":{"code":-32002,"message":"Unknown command"},"id":1,"jsonrpc":"2.0"}; 0 0.000000 I OPENED;1 0.000000 DESK/0 COMMAND T C 000001;
opens;send T C;send T E with L 'abcde'|Ok(Posted);1 {"id":1,"jsonrpc":"2.0","result":["T","C",{}]};2 {"id":1,"jsonrpc":"2.0","result":["T","E",{"L":"abcde"}]}; 0 0.000000 I OPENED;1 0.000000 DESK/0 COMMAND T C 000001;2 0.000000 DESK/0 COMMAND T E 6162636465;
opens;tell T C;tell T C;send T E|Ok(Posted);1 -;2 -;3 {"error":{"code":-32003,"message":"History full"},"id":1,"jsonrpc":"2.0"}; 0 0.000000 I OPENED;1 0.000000 DESK/0 COMMAND T C 000001;2 0.000000 DESK/0 COMMAND T C 000001;
opens;tell T C;tell T C;send T E with|Ok(Posted);1 -;2 -;3 {"error":{"code":-32602,"message":"Invalid params"},"id":1,"jsonrpc":"2.0"}; 0 0.000000 I OPENED;1 0.000000 DESK/0 COMMAND T C 000001;2 0.000000 DESK/0 COMMAND T C 000001;"#;

/// A command of one number, and one of a text to the end.
const COMMANDS: &str =
    "COMMAND T C BIG_ENDIAN;APPEND_PARAMETER N 24 UINT 0 9 1;COMMAND T E BIG_ENDIAN;APPEND_PARAMETER L 0 STRING ''";

struct Sent;

impl Answers for Sent {
    fn answer(alloc: Global, asked: &str) -> Result<String, Fail> {
        let site = "INTERFACE I tcpip_client_interface.rb h 1 1 10.0 nil LENGTH 0 16 0 1;TARGET T";
        let site = site_of(alloc, COMMANDS, site)?;
        told_within::<Chain, Shelf>(alloc, site, (3, 8), asked, &mut stocked(alloc, 1)?)
    }
}

#[test]
fn commands_are_sent_up_to_the_last_place_of_the_history(rt: HostRuntime) -> Result<(), Fail> {
    rows_end_so::<Sent>(rt.alloc(), SENT)
}

/// The same of a world whose interface has a target, after protocols: packets bring their own time and names, and whether they were
/// stored, and chains end with all losses.
const CHAINS: &str = "\
BURST|opens;piece 0105060708|Ok(Posted);Ok(Posted); 0 0.000000 I OPENED;1 0.000000 I PACKET T A 0105060708;
PREIDENTIFIED 0xab|opens;piece ab000000050000000601540141000000030205;piece 06|Ok(Posted);Ok(Posted);Ok(Posted); 0 0.000000 I OPENED;1 5.000006 I PACKET T A 020506;
PREIDENTIFIED 0xab nil 4|opens;piece ab80000000050000000601540141000000030205;piece 06;piece ab000000000700000008015401420000000101|Ok(Posted);Ok(Posted);Ok(Posted);Ok(Posted); 0 0.000000 I OPENED;1 5.000006 I STORED T A 020506;2 7.000008 I PACKET UNKNOWN UNKNOWN 01;
PREIDENTIFIED 0xab nil 4|opens;piece ab80000000050000000601540141000000010aab41|Ok(Posted);Ok(Posted); 0 0.000000 I OPENED;1 5.000006 I STORED T A 0a;2 0.000000 I CLOSED BAD 1 FLAGS 65 held 2 0 0 0 skipped 0 empty 0 unposted 0 unsent 0;
TERMINATED 0x0a 0x0a;PROTOCOL READ LENGTH 0 8 0 1|opens;piece 03110a00;piece 0a01|Ok(Posted);Ok(Posted);Ok(Posted); 0 0.000000 I OPENED;1 0.000000 I PACKET UNKNOWN UNKNOWN 031100;
TERMINATED 0x0a 0x0a;PROTOCOL READ LENGTH 0 8 0 1|opens;piece 000a020a01|Ok(Posted);Ok(Posted); 0 0.000000 I OPENED;1 0.000000 I CLOSED BAD 2 SHORT 0 held 1 2 0 0 skipped 0 empty 0 unposted 0 unsent 0;";

struct Chains;

impl Answers for Chains {
    fn answer(alloc: Global, asked: &str) -> Result<String, Fail> {
        let (protocols, events) = cut(asked, '|')?;
        let site = format!(in alloc;
            "INTERFACE I tcpip_client_interface.rb h 1 1 10.0 nil {protocols};TARGET T"
        )?;
        let definitions = "TELEMETRY T A BIG_ENDIAN;APPEND_ID_ITEM K 8 UINT 1";
        let texts = (definitions, site.as_str());
        told_of::<Chain, Shelf>(alloc, texts, events, &mut stocked(alloc, 1)?)
    }
}

#[test]
fn packets_bring_their_own_time_and_names_and_chains_end_with_all_losses(
    rt: HostRuntime,
) -> Result<(), Fail> {
    rows_end_so::<Chains>(rt.alloc(), CHAINS)
}

/// What all chains of a site need, one for each interface and two for each router, where the shelf has a box of each kind: the first kind
/// that is short, if one is.
const SHORT: &str = "\
INTERFACE I tcpip_client_interface.rb h 1 1 10.0 nil TERMINATED 0x0a 0x0a;INTERFACE J tcpip_client_interface.rb h 2 2 10.0 nil TERMINATED 0x0a 0x0a|Some(ShelfEmpty { kind: Terminated, needed: 2, stocked: 1 })
ROUTER R tcpip_server_interface.rb 3 3 nil nil TERMINATED 0x0a 0x0a|Some(ShelfEmpty { kind: Terminated, needed: 2, stocked: 1 })
INTERFACE I tcpip_client_interface.rb h 1 1 10.0 nil BURST;ROUTER R tcpip_server_interface.rb 3 3 nil nil LENGTH 0 8 0 1;ROUTER Q tcpip_server_interface.rb 4 4 nil nil BURST|Some(ShelfEmpty { kind: Burst, needed: 3, stocked: 1 })
INTERFACE I tcpip_client_interface.rb h 1 1 10.0 nil BURST|None";

struct Short;

impl Answers for Short {
    fn answer(alloc: Global, asked: &str) -> Result<String, Fail> {
        short_of::<Chain, Shelf>(alloc, asked, &mut stocked(alloc, 1)?)
    }
}

/// The first kind that is short over all lines of a site, if one is.
fn short_of<C: Framer, B: Supplier<C>>(
    alloc: Global,
    text: &str,
    shelf: &mut B,
) -> Result<String, Fail> {
    let site = site_of(alloc, "", text)?;
    let fault = World::new(alloc, Arc::new(alloc, site)?, shelf).err();
    debug_of(alloc, &fault)
}

#[test]
fn a_kind_of_which_all_lines_need_more_boxes_is_told(rt: HostRuntime) -> Result<(), Fail> {
    rows_end_so::<Short>(rt.alloc(), SHORT)
}
