// What sites have of their lines, and how the packets of their targets begin.
use cts_def::{Interface, ProtoSpec, ProtoUse, Router, Site, Start};
use cts_rows::{Answers, as_text, rows_end_so};
use cts_samples::site_of;
use std::alloc::Global;
use std::test::Fail;

const DEFINITIONS: &str = "\
TELEMETRY INST HS BIG_ENDIAN;ID_ITEM PKTID 8 8 UINT 1;ITEM REST 16 8 UINT;\
TELEMETRY INST WIDE LITTLE_ENDIAN;ID_ITEM PKTID 8 16 INT -2;ITEM LAST 31 1 UINT;\
TELEMETRY AUX LINE BIG_ENDIAN;ID_ITEM PKTID 0 8 UINT 1;APPEND_ITEM TEXT 0 STRING;\
TELEMETRY BARE ONE BIG_ENDIAN;ITEM X 0 8 UINT;\
COMMAND INST GO BIG_ENDIAN;APPEND_ID_PARAMETER CODE 32 UINT 7 7 7;\
COMMAND TOOL CUT BIG_ENDIAN;APPEND_PARAMETER TEXT 0 STRING 'a'";

/// Interfaces with their ports, the number of their targets, and how the packets begin that a FIXED knows: the length, and the one
/// id field with its number. Then routers so, with the interfaces that they route; and how many packets and commands there are.
const WHOLE: &str = "TITLE 'Demo';\
INTERFACE A tcpip_client_interface.rb localhost 8080 8080 10.0 nil LENGTH 0 16 0 1 BIG_ENDIAN 2 nil nil true;  TARGET INST;  TARGET BARE;\
INTERFACE b tcpip_client_interface.rb localhost 8081 8081 10.0 nil TERMINATED 0x0A 0x0A;  TARGET AUX;\
ROUTER R tcpip_server_interface.rb 2950 2950 10.0 nil PREIDENTIFIED;  ROUTE B;  ROUTE A|A 8080 2;B 8081 1;R 2950 [1, 0];4 2";

const FIXED: &str =
    "INTERFACE I tcpip_client_interface.rb h 1 1 nil nil FIXED 3;TARGET INST;ROUTER R tcpip_server_interface.rb 2 2 nil nil FIXED 4 0 nil false;ROUTE I|I 1 1 (3 8 8 Big 1 false) (4 8 16 Little -2 true);R 2 [0] (4 0 32 Big 7 false);4 2";

/// What the site of a row's lines has.
struct Sites;

impl Answers for Sites {
    fn answer(alloc: Global, asked: &str) -> Result<String, Fail> {
        let site = site_of(alloc, DEFINITIONS, asked)?;
        site_text(alloc, &site)
    }
}

#[test]
fn a_whole_site_has_its_lines(rt: HostRuntime) -> Result<(), Fail> {
    rows_end_so::<Sites>(rt.alloc(), WHOLE)
}

#[test]
fn fixed_knows_how_its_packets_begin(rt: HostRuntime) -> Result<(), Fail> {
    rows_end_so::<Sites>(rt.alloc(), FIXED)
}

fn site_text(alloc: Global, site: &Site) -> Result<String, Fail> {
    let mut out = String::new(alloc);
    for interface in site.interfaces.as_slice() {
        show_interface(alloc, &mut out, interface)?;
    }
    for router in site.routers.as_slice() {
        show_router(alloc, &mut out, router)?;
    }
    let definitions = &site.definitions;
    let (telemetry, commands) = (definitions.telemetry.len(), definitions.commands.len());
    Ok(format!(in alloc; "{out}{telemetry} {commands}")?)
}

fn show_interface(alloc: Global, out: &mut String, interface: &Interface) -> Result<(), Fail> {
    let name = as_text(interface.name.as_slice())?;
    let (port, targets) = (interface.port, interface.targets.len());
    let text = format!(in alloc; "{name} {port} {targets}")?;
    out.push_str(text.as_str())?;
    show_starts(alloc, out, starts_of(interface.chain.as_slice()))
}

fn show_router(alloc: Global, out: &mut String, router: &Router) -> Result<(), Fail> {
    let name = as_text(router.name.as_slice())?;
    let (port, routes) = (router.port, router.routes.as_slice());
    let text = format!(in alloc; "{name} {port} {routes:?}")?;
    out.push_str(text.as_str())?;
    show_starts(alloc, out, starts_of(router.chain.as_slice()))
}

/// The starts of the first protocol, where it is FIXED.
fn starts_of(chain: &[ProtoUse]) -> &[Start] {
    match chain.first() {
        Some(used) => starts_in(&used.spec),
        None => &[],
    }
}

fn starts_in(spec: &ProtoSpec) -> &[Start] {
    match spec {
        ProtoSpec::Fixed { starts, .. } => starts.as_slice(),
        _ => &[],
    }
}

fn show_starts(alloc: Global, out: &mut String, starts: &[Start]) -> Result<(), Fail> {
    for start in starts {
        show_start(alloc, out, start)?;
    }
    Ok(out.push(';')?)
}

/// How a packet begins: its length, and its one id field with its number.
fn show_start(alloc: Global, out: &mut String, start: &Start) -> Result<(), Fail> {
    let [(place, id, signed)] = start.ids.as_slice() else {
        return Err(Fail::new("not one id field"));
    };
    let (offset, bits, order) = (place.offset(), place.bits(), place.order());
    let text = format!(in alloc;
        " ({} {offset} {bits} {order:?} {id} {signed})",
        start.length
    )?;
    Ok(out.push_str(text.as_str())?)
}
