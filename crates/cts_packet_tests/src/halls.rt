// A hall over a site that was read: what is appended to it, looked up in it, and when it is full.
ghost use Rattle.std.specs.Prelude.{◌≡◌, ◌<◌, []};

use cts_base::Bytes;
use cts_conv::{Value, ValueKind};
use cts_def::{Ident, Loss, SERVER, Time};
use cts_entry::Why;
use cts_rows::{Answers, bytes_of, debug_of, field, number, rows_end_so, same};
use cts_samples::site_of;
use cts_table::{Hall, HallFault, Lookup, Steps};
use std::alloc::Global;
use std::marker::Brand;
use std::sync::Arc;
use std::sync::ledger::{Blank, Ledger};
use std::test::Fail;

const DEFINITIONS: &str = "\
TELEMETRY T A BIG_ENDIAN;APPEND_ID_ITEM K 8 UINT 1;APPEND_ITEM V 16 UINT;\
TELEMETRY T B BIG_ENDIAN;APPEND_ID_ITEM K 8 UINT 1";

const SITE: &str = "INTERFACE I tcpip_server_interface.rb 1 1 nil nil;TARGET T";

pub const NOW: Time = Time {
    seconds: 0,
    micros: 0,
};

pub const LOSS: Loss = Loss {
    held: [0; 4],
    skipped: 0,
    empty: 0,
};

/// Names of a target, a packet and an item, and what is answered for them after packets A of two and of four bytes.
const LOOKUPS: &str = "\
T|A|V|Ok(Whole(1286))
t|a|v|Ok(Whole(1286))
T|A|K|Ok(Whole(1))
T|A|received_count|Ok(Whole(2))
T|B|RECEIVED_COUNT|Ok(Whole(0))
T|B|K|Err(NeverReceived)
X|B|K|Err(UnknownTarget)
T|X|K|Err(UnknownPacket)
T|A|X|Err(UnknownItem)
T|B|X|Err(UnknownItem)";

/// A hall of these limits in which the one interface is connected.
fn connected(alloc: Global, entries: u64, bytes: u64) -> Result<Hall, Fail> {
    hall_of(alloc, DEFINITIONS, entries, bytes)
}

/// The same, over these definitions.
pub fn hall_of(alloc: Global, definitions: &str, entries: u64, bytes: u64) -> Result<Hall, Fail> {
    if entries > 4_000_000 || bytes > 1_073_741_824 {
        return Err(Fail::new("no such limits"));
    }
    let site = Arc::new(alloc, site_of(alloc, definitions, SITE)?)?;
    let mut hall = Hall::with_limits(alloc, site, entries, bytes)?;
    opens(&mut hall)?;
    Ok(hall)
}

/// The interface is connected.
fn opens(hall: &mut Hall) -> Result<(), Fail>
    requires { hall.old.entries ≡ [] }
{
    if hall.site().interfaces.as_slice().is_empty() || hall.room(1, 0).is_err() {
        return Err(Fail::new("no interface or no room"));
    }
    hall.opened(0, NOW);
    Ok(())
}

/// The interface receives a packet, which was stored before or not, where it is connected and there is room.
fn receive(hall: &mut Hall, ident: Ident, stored: bool, bytes: Bytes) -> Result<(), HallFault> {
    let known = match ident {
        Ident::Known(n) => (n as usize) < hall.site().definitions.telemetry.as_slice().len(),
        Ident::Unknown => true,
    };
    if known && !hall.site().interfaces.as_slice().is_empty() && hall.connected(0) {
        hall.room(1, bytes.as_slice().len() as u64)?;
        hall.packet(0, NOW, ident, stored, bytes);
    }
    Ok(())
}

/// The bytes of these digits are received.
pub fn receives(
    alloc: Global,
    hall: &mut Hall,
    ident: Ident,
    stored: bool,
    digits: &str,
) -> Result<(), Fail> {
    let bytes = Bytes::of(bytes_of(alloc, digits)?);
    match receive(hall, ident, stored, bytes) {
        Ok(()) => Ok(()),
        Err(_) => Err(Fail::new("no room")),
    }
}

/// A hall of these limits, in which the one interface received the packets between blanks: each is the number of its definition,
/// or `?`, in front of `:`, and digits after it; a `*` first where it was stored.
fn hall_after(alloc: Global, entries: u64, bytes: u64, packets: &str) -> Result<Hall, Fail> {
    let mut hall = connected(alloc, entries, bytes)?;
    receives_all(alloc, &mut hall, packets)?;
    Ok(hall)
}

fn receives_all(alloc: Global, hall: &mut Hall, packets: &str) -> Result<(), Fail> {
    for packet in packets.split(' ') {
        receives_text(alloc, hall, packet)?;
    }
    Ok(())
}

fn receives_text(alloc: Global, hall: &mut Hall, packet: &str) -> Result<(), Fail> {
    let Some((ident, digits)) = packet.split_once(':') else {
        return Err(Fail::new("no packet"));
    };
    match ident.strip_prefix('*') {
        Some(ident) => receives(alloc, hall, ident_of(ident)?, true, digits),
        None => receives(alloc, hall, ident_of(ident)?, false, digits),
    }
}

fn ident_of(text: &str) -> Result<Ident, Fail> {
    match text {
        "?" => Ok(Ident::Unknown),
        _ => Ok(Ident::Known(text.parse::<u32>()?)),
    }
}

/// Packets A of two and of four bytes, and two that nothing defines.
const RECEIVED: &str = "0:0105 0:01050607 ?:02 ?:";

/// The raw value of an item by the names of a row.
fn looked_up(alloc: Global, hall: &Hall, asked: &str) -> Result<Value, Lookup> {
    let names = (field(asked, 0), field(asked, 1), field(asked, 2));
    raw_value::<Brand>(
        alloc,
        hall,
        names.0.as_bytes(),
        names.1.as_bytes(),
        names.2.as_bytes(),
        Blank::new(1),
    )
}

// The raw value of an item, with a count of looks of its own.
fn raw_value<L: Ledger>(
    alloc: Global,
    hall: &Hall,
    target: &[u8],
    packet: &[u8],
    item: &[u8],
    blank: Blank,
) -> Result<Value, Lookup>
    requires name { blank.name ≡ L.name }
    requires parts { blank.parts ≡ L.parts }
    requires some { 0 < L.parts }
{
    let mut steps: Steps<L> = Steps::begin(blank);
    hall.value(alloc, target, packet, item, ValueKind::Raw, &mut steps)
}

struct Lookups;

impl Answers for Lookups {
    fn answer(alloc: Global, asked: &str) -> Result<String, Fail> {
        let hall = hall_after(alloc, 100, 100, RECEIVED)?;
        debug_of(alloc, &looked_up(alloc, &hall, asked))
    }
}

#[test]
fn values_are_looked_up(rt: HostRuntime) -> Result<(), Fail> {
    rows_end_so::<Lookups>(rt.alloc(), LOOKUPS)
}

/// How many packets A came, by what value they are known, how many were counted, and how many entries stand: a history of one block
/// less one, of one block, of one more, and of some blocks.
const LONG: &str = "\
4094|Ok(Whole(1280)) Ok(Whole(4094)) 4095
4095|Ok(Whole(1280)) Ok(Whole(4095)) 4096
4096|Ok(Whole(1280)) Ok(Whole(4096)) 4097
10000|Ok(Whole(1280)) Ok(Whole(10000)) 10001";

struct Longer;

impl Answers for Longer {
    fn answer(alloc: Global, asked: &str) -> Result<String, Fail> {
        let mut hall = connected(alloc, 20_000, 100_000)?;
        receives_often(alloc, &mut hall, number(asked, 0)?)?;
        told_of_long(alloc, &hall)
    }
}

fn receives_often(alloc: Global, hall: &mut Hall, times: u32) -> Result<(), Fail> {
    for _ in 0..times {
        receives(alloc, hall, Ident::Known(0), false, "010500")?;
    }
    Ok(())
}

fn told_of_long(alloc: Global, hall: &Hall) -> Result<String, Fail> {
    let value = looked_up(alloc, hall, "T|A|V");
    let count = looked_up(alloc, hall, "T|A|RECEIVED_COUNT");
    Ok(format!(in alloc; "{value:?} {count:?} {}", hall.count())?)
}

#[test]
fn a_value_is_found_in_a_long_history(rt: HostRuntime) -> Result<(), Fail> {
    rows_end_so::<Longer>(rt.alloc(), LONG)
}

/// The last packet of each definition that was received.
const CURRENT: &str = "\
0|Some([1, 5, 6, 7])
1|None";

struct Current;

impl Answers for Current {
    fn answer(alloc: Global, asked: &str) -> Result<String, Fail> {
        let hall = hall_after(alloc, 100, 100, RECEIVED)?;
        debug_of(alloc, &hall.current(number(asked, 0)?))
    }
}

#[test]
fn the_last_packet_is_the_current_one(rt: HostRuntime) -> Result<(), Fail> {
    rows_end_so::<Current>(rt.alloc(), CURRENT)
}

/// How many packets A and how many that nothing defines came, were short and were long, and how many commands.
fn counts_of(alloc: Global, hall: &Hall) -> Result<String, Fail> {
    let a = hall.counts(Ident::Known(0));
    let unknown = hall.counts(Ident::Unknown);
    debug_of(alloc, &(a, unknown, hall.command_count(0)))
}

#[test]
fn short_and_long_packets_are_counted(rt: HostRuntime) -> Result<(), Fail> {
    let hall = hall_after(rt.alloc(), 100, 100, "0:0105 0:01050607 0:010506 ?:")?;
    let found = counts_of(rt.alloc(), &hall)?;
    let wanted =
        "(Counts { received: 3, short: 1, long: 1 }, Counts { received: 1, short: 0, long: 0 }, 0)";
    same(found.as_str(), wanted, "the counts")
}

/// Packets of which a `*` marks those that were stored, and what is known after them: a value and the bytes of packet A, the counts,
/// and how many entries stand.
const STORED: &str = "\
*0:010506|Err(NeverReceived) None (Counts { received: 0, short: 0, long: 0 }, Counts { received: 0, short: 0, long: 0 }, 0) 2
*0:0105 0:010506|Ok(Whole(1286)) Some([1, 5, 6]) (Counts { received: 1, short: 0, long: 0 }, Counts { received: 0, short: 0, long: 0 }, 0) 3
0:010500 *0:0105 *?:02 *0:01050607|Ok(Whole(1280)) Some([1, 5, 0]) (Counts { received: 1, short: 0, long: 0 }, Counts { received: 0, short: 0, long: 0 }, 0) 5";

struct Stored;

impl Answers for Stored {
    fn answer(alloc: Global, asked: &str) -> Result<String, Fail> {
        let hall = hall_after(alloc, 100, 100, asked)?;
        told_of_now(alloc, &hall)
    }
}

fn told_of_now(alloc: Global, hall: &Hall) -> Result<String, Fail> {
    let value = looked_up(alloc, hall, "T|A|V");
    let counts = counts_of(alloc, hall)?;
    Ok(format!(in alloc; "{value:?} {:?} {counts} {}", hall.current(0), hall.count())?)
}

#[test]
fn a_stored_packet_is_an_entry_and_says_nothing_of_now(rt: HostRuntime) -> Result<(), Fail> {
    rows_end_so::<Stored>(rt.alloc(), STORED)
}

/// The connection ends after a Stop, where there is none and the interface is connected.
pub fn ends(hall: &mut Hall) {
    if hall.stopped() || hall.site().interfaces.as_slice().is_empty() {
        return;
    }
    hall.stop(SERVER, NOW);
    if hall.connected(0) {
        hall.close(0, NOW, Why::Stopped, LOSS, 0, 0);
    }
}

/// Whether there is room for an entry of no bytes, and what a stop and the end of the connection then leave: how many entries,
/// whether all is stopped and the interface connected, and how many entries its history has.
fn told_of_end(mut hall: Hall) -> (Result<(), HallFault>, u64, bool, bool, u64) {
    let room = hall.room(1, 0);
    ends(&mut hall);
    let (count, stopped, connected) = (hall.count(), hall.stopped(), hall.connected(0));
    (room, count, stopped, connected, hall.into_history().count())
}

#[test]
fn a_full_hall_takes_what_is_owed(rt: HostRuntime) -> Result<(), Fail> {
    let hall = hall_after(rt.alloc(), 8, 100, "?: ?: ?: ?: ?: ?: ?:")?;
    let found = debug_of(rt.alloc(), &told_of_end(hall))?;
    let wanted = "(Err(Full { entries: 8, bytes: 0 }), 10, true, false, 10)";
    same(found.as_str(), wanted, "a full hall")
}

/// Whether a hall of three bytes has room for one byte and for two after a packet of two bytes, also where that one was stored.
const ROOM: &str = "\
0:0105|(Ok(()), Err(Full { entries: 2, bytes: 2 }))
*0:0105|(Ok(()), Err(Full { entries: 2, bytes: 2 }))";

struct Room;

impl Answers for Room {
    fn answer(alloc: Global, asked: &str) -> Result<String, Fail> {
        let mut hall = hall_after(alloc, 8, 3, asked)?;
        debug_of(alloc, &(hall.room(1, 1), hall.room(1, 2)))
    }
}

#[test]
fn bytes_are_counted_against_their_limit(rt: HostRuntime) -> Result<(), Fail> {
    rows_end_so::<Room>(rt.alloc(), ROOM)
}
