// Which routers are tied to which interfaces, and what is handed on.
use crate::files::{DEFINITIONS, SITE};
use crate::playback::told;
use cts_def::Site;
use cts_entry::Event;
use cts_hub::{Hub, HubFault};
use cts_rows::{Answers, as_text, bytes_of, cut, debug_of, number, part, rows_end_so};
use cts_samples::site_of;
use std::alloc::Global;
use std::test::Fail;

/// The definitions with one more state, or with other limits of the same name.
const OTHERS: &str =
    "TELEMETRY INST HS BIG_ENDIAN;APPEND_ID_ITEM PKTID 8 UINT 1;TELEMETRY AUX LINE BIG_ENDIAN;APPEND_ITEM TEXT 0 STRING";

/// The tie of the first router of one site to the first interface of another, where both are there.
fn tie(above: &Site, below: &Site) -> Result<Hub, HubFault> {
    if above.routers.is_empty() || below.interfaces.is_empty() {
        return Err(HubFault::Memory);
    }
    Hub::new(above, 0, below, 0)
}

/// Whether it is tied, or why not.
fn shown(alloc: Global, tied: &Result<Hub, HubFault>) -> Result<String, Fail> {
    match tied {
        Ok(_) => Ok("tied".to_string(alloc)?),
        Err(HubFault::Target { name }) => target(alloc, as_text(name.as_slice())?),
        Err(fault) => debug_of(alloc, fault),
    }
}

fn target(alloc: Global, name: &str) -> Result<String, Fail> {
    Ok(format!(in alloc; "Target {name}")?)
}

fn definitions(word: &str) -> &str {
    if word == "other" { OTHERS } else { DEFINITIONS }
}

/// Ties of the demo's router to an interface of a site below, over the same definitions or over others: both have to be one PREIDENTIFIED
/// with the same sync pattern, greatest count and layout, then the definitions have to be the same, and then the targets there.
const TIES: &str = "\
same PREIDENTIFIED ;TARGET INST|tied
same PREIDENTIFIED nil nil 2;TARGET AUX;TARGET INST|tied
same LENGTH ;TARGET INST|Chain
same PREIDENTIFIED 0x01;TARGET INST|Chain
same PREIDENTIFIED nil 9;TARGET INST|Chain
same PREIDENTIFIED nil nil 4;TARGET INST|Chain
same ;PROTOCOL WRITE PREIDENTIFIED;TARGET INST|Chain
same ;PROTOCOL READ TERMINATED nil 0x0A;PROTOCOL READ PREIDENTIFIED;TARGET INST|Chain
same ;PROTOCOL READ PREIDENTIFIED;PROTOCOL WRITE BURST;TARGET INST|tied
other LENGTH ;TARGET AUX|Chain
other PREIDENTIFIED ;TARGET AUX|Definitions
same PREIDENTIFIED ;TARGET AUX|Target INST
same PREIDENTIFIED|Target INST";

struct Ties;

impl Answers for Ties {
    fn answer(alloc: Global, asked: &str) -> Result<String, Fail> {
        let above = site_of(alloc, DEFINITIONS, SITE)?;
        tie_under(alloc, &above, asked)
    }
}

/// How the router of a site above is tied to the interface of a row.
fn tie_under(alloc: Global, above: &Site, asked: &str) -> Result<String, Fail> {
    let (over, rest) = cut(asked, ' ')?;
    let below = format!(in alloc;
        "INTERFACE P tcpip_client_interface.rb localhost 2950 2950 nil nil {rest}"
    )?;
    let below = site_of(alloc, definitions(over), &below)?;
    shown(alloc, &tie(above, &below))
}

#[test]
fn routers_are_tied_to_interfaces_that_fit(rt: HostRuntime) -> Result<(), Fail> {
    rows_end_so::<Ties>(rt.alloc(), TIES)
}

/// Bytes in pieces of so many.
const EVENTS: &str = "\
2 0102030405|0:0102,0:0304,0:05,
65536 0102|0:0102,
1 |";

/// A site below, with one interface for what the router of the demo puts.
pub const BELOW: &str =
    "INTERFACE P tcpip_client_interface.rb localhost 2950 2950 nil nil PREIDENTIFIED;TARGET INST";

struct HandedOn;

impl Answers for HandedOn {
    fn answer(alloc: Global, asked: &str) -> Result<String, Fail> {
        let bytes = bytes_of(alloc, part(asked, 1))?;
        let events = handed(alloc, &bytes, number(asked, 0)?)?;
        told(alloc, &events)
    }
}

/// What the tie of the demo's router to the interface below hands on of these bytes.
pub fn handed(alloc: Global, bytes: &[u8], cut: u32) -> Result<Vec<Event>, Fail> {
    let above = site_of(alloc, DEFINITIONS, SITE)?;
    handed_under(alloc, &above, bytes, cut)
}

fn handed_under(alloc: Global, above: &Site, bytes: &[u8], cut: u32) -> Result<Vec<Event>, Fail> {
    let below = site_of(alloc, DEFINITIONS, BELOW)?;
    handed_by(alloc, &tie(above, &below), bytes, cut)
}

fn handed_by(
    alloc: Global,
    tied: &Result<Hub, HubFault>,
    bytes: &[u8],
    cut: u32,
) -> Result<Vec<Event>, Fail> {
    match tied {
        Ok(hub) if cut > 0 && cut <= 65_536 => Ok(hub.events(alloc, bytes, cut)?),
        _ => Err(Fail::new("not tied, or no cut")),
    }
}

#[test]
fn what_a_router_put_is_handed_on_in_pieces(rt: HostRuntime) -> Result<(), Fail> {
    rows_end_so::<HandedOn>(rt.alloc(), EVENTS)
}
