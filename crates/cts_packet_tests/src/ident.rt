// Identification over a site that was read: the first match in order of definition, by id fields and by names.
ghost use Rattle.std.specs.Prelude.{◌≡◌};
ghost use Rattle.cts_ident.specs.Identification.{is_worker};

use cts_def::{FIRST_SLOT, Ident, Site};
use cts_ident::{identify, identify_command, named};
use cts_rows::{Answers, bytes_of, cut, debug_of, number, rows_end_so};
use cts_samples::site_of;
use std::alloc::Global;
use std::test::Fail;

const DEFINITIONS: &str = "\
TELEMETRY T A BIG_ENDIAN;APPEND_ID_ITEM K 8 UINT 1;APPEND_ITEM V 16 UINT;\
TELEMETRY T B BIG_ENDIAN;APPEND_ID_ITEM K 8 UINT 1;\
TELEMETRY U C BIG_ENDIAN;ID_ITEM N 8 8 INT -1;\
TELEMETRY U D LITTLE_ENDIAN;ID_ITEM W 0 16 UINT 0x0201;\
TELEMETRY V E BIG_ENDIAN;\
COMMAND T X BIG_ENDIAN;APPEND_ID_PARAMETER O 8 UINT 7 7 7;\
COMMAND U Y BIG_ENDIAN;APPEND_ID_PARAMETER O 8 UINT 7 7 7;\
COMMAND U Z BIG_ENDIAN;APPEND_ID_PARAMETER O 8 UINT 9 9 9";

/// Interface 0 has T, 1 has U and 2 has V; router 0 routes U and router 1 T and U.
const SITE: &str = "\
INTERFACE I tcpip_client_interface.rb h 1 1 nil nil;TARGET T;\
INTERFACE J tcpip_client_interface.rb h 2 2 nil nil;TARGET U;\
INTERFACE K tcpip_client_interface.rb h 3 3 nil nil;TARGET V;\
ROUTER R tcpip_server_interface.rb 4 4 nil nil;ROUTE J;\
ROUTER Q tcpip_server_interface.rb 5 5 nil nil;ROUTE J;ROUTE I";

/// An interface, the bytes of a packet, and which it is.
const PACKETS: &str = "\
0 0105|Some(Known(0))
0 01050607|Some(Known(0))
0 01|Some(Known(0))
0 02|Some(Unknown)
0 0201|Some(Unknown)
0 |Some(Unknown)
1 00ff|Some(Known(2))
1 ffff00|Some(Known(2))
1 0102|Some(Known(3))
1 01ff|Some(Known(2))
1 0105|Some(Unknown)
1 01|Some(Unknown)
1 00|Some(Unknown)
1 |Some(Unknown)
2 |Some(Known(4))
2 0105|Some(Known(4))";

/// A router, the bytes of a command, and which it is.
const COMMANDS: &str = "\
0 07|Some(Known(1))
0 09|Some(Known(2))
0 0900|Some(Known(2))
1 07|Some(Known(0))
1 09|Some(Known(2))
1 08|Some(Unknown)
1 |Some(Unknown)";

/// A worker, a target and a name, and which packet or command it is.
const NAMES: &str = "\
0 t b|Some(Known(1))
0 T A|Some(Known(0))
0 T AA|Some(Unknown)
0 T |Some(Unknown)
0 U C|Some(Unknown)
1 U c|Some(Known(2))
1 u D|Some(Known(3))
2 V E|Some(Known(4))
0 T X|Some(Unknown)
16 u Y|Some(Known(1))
17 U z|Some(Known(2))
16 T X|Some(Unknown)
18 t x|Some(Known(0))
19 T X|Some(Known(0))
19 T A|Some(Unknown)";

fn identified(site: &Site, interface: u32, bytes: &[u8]) -> Option<Ident> {
    if (interface as usize) < site.interfaces.as_slice().len() {
        Some(identify(site, interface, bytes))
    } else {
        None
    }
}

fn identified_command(site: &Site, router: u32, bytes: &[u8]) -> Option<Ident> {
    if (router as usize) < site.routers.as_slice().len() {
        Some(identify_command(site, router, bytes))
    } else {
        None
    }
}

fn is_worker(site: &Site, by: u32) -> bool
    ensures { result ≡ is_worker site.now by }
{
    if by < FIRST_SLOT {
        (by as usize) < site.interfaces.as_slice().len()
    } else {
        ((by - FIRST_SLOT) / 2) < site.routers.as_slice().len() as u32
    }
}

fn named_of(site: &Site, by: u32, target: &str, packet: &str) -> Option<Ident> {
    if is_worker(site, by) {
        Some(named(site, by, target.as_bytes(), packet.as_bytes()))
    } else {
        None
    }
}

/// The number and the text after it of a row.
fn parts(row: &str) -> Result<(u32, &str), Fail> {
    let (front, rest) = cut(row, ' ')?;
    Ok((number(front, 0)?, rest))
}

struct Packets;

impl Answers for Packets {
    fn answer(alloc: Global, asked: &str) -> Result<String, Fail> {
        let (interface, digits) = parts(asked)?;
        let bytes = bytes_of(alloc, digits)?;
        packet_text(alloc, interface, &bytes)
    }
}

fn packet_text(alloc: Global, interface: u32, bytes: &[u8]) -> Result<String, Fail> {
    let site = site_of(alloc, DEFINITIONS, SITE)?;
    debug_of(alloc, &identified(&site, interface, bytes))
}

#[test]
fn a_packet_is_the_first_whose_ids_it_has(rt: HostRuntime) -> Result<(), Fail> {
    rows_end_so::<Packets>(rt.alloc(), PACKETS)
}

struct Commands;

impl Answers for Commands {
    fn answer(alloc: Global, asked: &str) -> Result<String, Fail> {
        let (router, digits) = parts(asked)?;
        let bytes = bytes_of(alloc, digits)?;
        command_text(alloc, router, &bytes)
    }
}

fn command_text(alloc: Global, router: u32, bytes: &[u8]) -> Result<String, Fail> {
    let site = site_of(alloc, DEFINITIONS, SITE)?;
    debug_of(alloc, &identified_command(&site, router, bytes))
}

#[test]
fn a_command_is_of_the_targets_that_a_router_reaches(rt: HostRuntime) -> Result<(), Fail> {
    rows_end_so::<Commands>(rt.alloc(), COMMANDS)
}

struct Names;

impl Answers for Names {
    fn answer(alloc: Global, asked: &str) -> Result<String, Fail> {
        let (by, names) = parts(asked)?;
        let (target, packet) = cut(names, ' ')?;
        let site = site_of(alloc, DEFINITIONS, SITE)?;
        debug_of(alloc, &named_of(&site, by, target, packet))
    }
}

#[test]
fn names_are_those_of_a_worker_in_any_case(rt: HostRuntime) -> Result<(), Fail> {
    rows_end_so::<Names>(rt.alloc(), NAMES)
}
