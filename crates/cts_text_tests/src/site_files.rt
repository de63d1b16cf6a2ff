// What no clause says: which site files are refused and why, what is read where a word is left out, and that reading
// succeeds where there is memory.
use crate::texts::{crowd, joined, site_text};
use cts_base::List;
use cts_def::{Interface, ProtoUse, Site};
use cts_plan::{SiteCause, SiteFault};
use cts_rows::{Answers, debug_of, display_of, number, rows_end_so, same};
use cts_samples::site_of;
use std::alloc::Global;
use std::test::Fail;

/// What reading a site file comes to.
struct Files;

impl Answers for Files {
    fn answer(alloc: Global, asked: &str) -> Result<String, Fail> {
        site_text(alloc, asked)
    }
}

/// Each row has a site file whose lines end with `;`, a bar, and what is wanted.
const CAUSES: &str = "\
|read
;ITEM X|line 2: UnknownKeyword
LOG_LAYOUTS 2|line 1: UnknownKeyword
'' X|line 1: UnknownKeyword
TARGET INST|line 1: OutsideInterface
PROTOCOL READ BURST|line 1: OutsideInterface
LOG DEFAULT|line 1: OutsideInterface
DONT_LOG|line 1: OutsideInterface
RECONNECT_DELAY 1|line 1: OutsideInterface
ROUTE I|line 1: OutsideInterface
INTERFACE I tcpip_client_interface.rb h 1 1 nil nil;ROUTE I|line 2: OutsideInterface
ROUTER R tcpip_server_interface.rb 1 1 nil nil;TARGET T|line 2: OutsideInterface
ROUTER R tcpip_server_interface.rb 1 1 nil nil;DONT_RECONNECT|line 2: OutsideInterface
ROUTER R tcpip_server_interface.rb 1 1 nil nil;LOG DEFAULT|line 2: OutsideInterface
TITLE|line 1: WrongCount
TITLE a b|line 1: WrongCount
PORT X 1|line 1: WrongCount
PORT cts_api 1|line 1: WrongCount
INTERFACE|line 1: WrongCount
INTERFACE I|line 1: WrongCount
INTERFACE I tcpip_client_interface.rb h 1 1 nil|line 1: WrongCount
INTERFACE I tcpip_client_interface.rb h 1 1 nil nil FIXED|line 1: WrongCount
INTERFACE I tcpip_client_interface.rb h 1 1 nil nil BURST 0 nil maybe|line 1: WrongCount
INTERFACE I tcpip_client_interface.rb h 1 1 nil nil BURST 0 nil true 1|line 1: WrongCount
INTERFACE I tcpip_client_interface.rb h 1 1 nil nil LENGTH 0 16 0 1 BIG|line 1: WrongCount
INTERFACE I tcpip_server_interface.rb 1 1 nil nil LENGTH 0 16 0 1 big_endian|line 1: WrongCount
INTERFACE I tcpip_server_interface.rb 1 1 nil nil LENGTH 0 16 0 1 BIG_ENDIAN 0 nil nil true x|line 1: WrongCount
INTERFACE I tcpip_server_interface.rb 1 1 nil nil TERMINATED 0x0A|line 1: WrongCount
INTERFACE I tcpip_server_interface.rb 1 1 nil nil;LOG default|line 2: WrongCount
INTERFACE I tcpip_server_interface.rb 1 1 nil nil;DONT_LOG x|line 2: WrongCount
INTERFACE I tcpip_server_interface.rb 1 1 nil nil;DONT_RECONNECT x|line 2: WrongCount
INTERFACE I tcpip_server_interface.rb 1 1 nil nil;RECONNECT_DELAY|line 2: WrongCount
INTERFACE I tcpip_server_interface.rb 1 1 nil nil;PROTOCOL READ|line 2: WrongCount
LOG_LAYOUT|line 1: WrongCount
LOG_LAYOUT 2 4|line 1: WrongCount
LOG_LAYOUT 3|line 1: WrongCount
LOG_LAYOUT 04|line 1: WrongCount
LOG_LAYOUT 0x4|line 1: WrongCount
LOG_LAYOUT nil|line 1: WrongCount
LOG_CYCLE|line 1: WrongCount
LOG_CYCLE 4096 4096|line 1: WrongCount
INTERFACE I x.rb|line 1: UnknownInterface
INTERFACE I TCPIP_SERVER_INTERFACE.RB 1 1 nil nil|line 1: UnknownInterface
INTERFACE I x.rb 1 2 3 4 5 6 7 8 9|line 1: UnknownInterface
ROUTER R tcpip_client_interface.rb|line 1: UnknownInterface
ROUTER R tcpip_server_interface.rb 1 1 nil nil;ROUTE I|line 2: UnknownInterface
ROUTER R tcpip_server_interface.rb 1 1 nil nil;ROUTE a-b|line 2: UnknownInterface
INTERFACE I-1 tcpip_server_interface.rb 1 1 nil nil|line 1: BadName
ROUTER R-1 tcpip_server_interface.rb 1 1 nil nil|line 1: BadName
INTERFACE I tcpip_server_interface.rb 1 1 nil nil;TARGET a-b|line 2: BadName
PORT CTS_API 0|line 1: NotNumber
PORT CTS_API 65536|line 1: NotNumber
DESKS 5|line 1: NotNumber
DESKS 0|line 1: NotNumber
LOG_CYCLE 4095|line 1: NotNumber
LOG_CYCLE 1073741825|line 1: NotNumber
LOG_CYCLE -4096|line 1: NotNumber
LOG_CYCLE nil|line 1: NotNumber
INTERFACE I tcpip_client_interface.rb h 1 x nil nil|line 1: NotNumber
INTERFACE I tcpip_client_interface.rb h 1 nil nil x|line 1: NotNumber
INTERFACE I tcpip_server_interface.rb 1 1 nil nil;RECONNECT_DELAY -1|line 2: NotNumber
INTERFACE I tcpip_server_interface.rb 1 1 nil nil;RECONNECT_DELAY x|line 2: NotNumber
INTERFACE I tcpip_server_interface.rb 1 1 nil nil;RECONNECT_DELAY nil|line 2: NotNumber
ROUTER R tcpip_server_interface.rb 1 1 nil nil;ROUTER r tcpip_server_interface.rb 2 2 nil nil|line 2: DoubleName
LOG_LAYOUT 2;LOG_LAYOUT 2|line 2: DoubleName
LOG_LAYOUT 4;TITLE a;LOG_LAYOUT 2|line 3: DoubleName
LOG_CYCLE 4096;LOG_LAYOUT 2;LOG_CYCLE 5000|line 3: DoubleName
INTERFACE I tcpip_client_interface.rb h 1 2 nil nil|line 1: TwoPorts
INTERFACE I tcpip_client_interface.rb h nil nil nil nil|line 1: TwoPorts
INTERFACE I tcpip_server_interface.rb 1 nil nil nil|line 1: TwoPorts
INTERFACE I tcpip_server_interface.rb nil 1 nil nil|line 1: TwoPorts
ROUTER R tcpip_server_interface.rb 1 2 nil nil|line 1: TwoPorts
INTERFACE I tcpip_server_interface.rb 1 1 nil nil;TARGET T|line 2: UnknownTarget
INTERFACE I tcpip_server_interface.rb 1 1 nil nil CRC|line 1: ProtocolKind
INTERFACE I tcpip_server_interface.rb 1 1 nil nil BURST 0 0x|line 1: EmptySync
INTERFACE I tcpip_server_interface.rb 1 1 nil nil TERMINATED nil nil|line 1: EmptySync
INTERFACE I tcpip_server_interface.rb 1 1 nil nil TERMINATED nil 0x|line 1: EmptySync
INTERFACE I tcpip_server_interface.rb 1 1 nil nil FIXED 1 0 0x|line 1: EmptySync
INTERFACE I tcpip_server_interface.rb 1 1 nil nil LENGTH 0 16 0 1 BIG_ENDIAN 0 0x|line 1: EmptySync
INTERFACE I tcpip_server_interface.rb 1 1 nil nil PREIDENTIFIED 0x|line 1: EmptySync
INTERFACE I tcpip_server_interface.rb 1 1 nil nil TERMINATED 0x 0x00|read
INTERFACE I tcpip_server_interface.rb 1 1 nil nil FIXED 0|line 1: MinIdSize";

#[test]
fn each_cause_has_its_line(rt: HostRuntime) -> Result<(), Fail> {
    rows_end_so::<Files>(rt.alloc(), CAUSES)
}

/// Two causes at one statement, and two statements with causes.
const ORDER: &str = "\
TARGET|line 1: OutsideInterface
ROUTER R tcpip_server_interface.rb 1 1 nil nil;ROUTE I J|line 2: WrongCount
INTERFACE I tcpip_server_interface.rb 1 1 nil nil;TARGET a-b c|line 2: WrongCount
DESKS 9 9|line 1: WrongCount
INTERFACE I-1 x.rb|line 1: UnknownInterface
INTERFACE I-1 tcpip_server_interface.rb x 1 nil nil|line 1: BadName
INTERFACE I tcpip_server_interface.rb 1 1 nil nil;INTERFACE i tcpip_server_interface.rb x 1 nil nil|line 2: NotNumber
INTERFACE I tcpip_server_interface.rb 1 1 nil nil;INTERFACE i tcpip_server_interface.rb 1 2 nil nil|line 2: DoubleName
INTERFACE I tcpip_server_interface.rb 1 2 nil nil CRC|line 1: TwoPorts
INTERFACE I tcpip_server_interface.rb 1 2 nil nil BURST 0 0x|line 1: TwoPorts
INTERFACE I tcpip_server_interface.rb 1 1 nil nil TERMINATED 0x 0x0|line 1: NotNumber
INTERFACE I tcpip_server_interface.rb 1 1 nil nil LENGTH 0 99 0 1 BIG_ENDIAN 0 0x|line 1: NotNumber
INTERFACE I tcpip_server_interface.rb 1 1 nil nil BURST;PROTOCOL READ BURST;PROTOCOL READ BURST;PROTOCOL READ BURST;PROTOCOL READ CRC|line 5: ProtocolKind
INTERFACE I tcpip_server_interface.rb 1 1 nil nil BURST;PROTOCOL READ BURST;PROTOCOL READ BURST;PROTOCOL READ BURST;PROTOCOL READ BURST 0 0x|line 5: EmptySync
INTERFACE I tcpip_server_interface.rb 1 1 nil nil BURST;PROTOCOL READ BURST;PROTOCOL READ BURST;PROTOCOL READ PREIDENTIFIED;PROTOCOL READ BURST|line 5: ChainTooLong
INTERFACE I tcpip_server_interface.rb 1 1 nil nil PREIDENTIFIED;PROTOCOL READ BURST|line 2: NotLast
INTERFACE I tcpip_server_interface.rb 1 1 nil nil FIXED 0;PROTOCOL READ BURST|line 2: NotLast
INTERFACE I tcpip_server_interface.rb 1 1 nil nil;PROTOCOL READ FixedProtocol 1;PROTOCOL READ LengthProtocol|line 3: NotLast
INTERFACE I tcpip_server_interface.rb 1 1 nil nil;PROTOCOL READ FixedProtocol 1;PROTOCOL WRITE LengthProtocol|read
INTERFACE I tcpip_server_interface.rb 1 1 nil nil;ROUTER I tcpip_server_interface.rb 1 1 nil nil;ROUTE i;ROUTE I|line 4: DoubleName
DESKS 9;INTERFACE|line 1: NotNumber
LOG_LAYOUT 2;LOG_LAYOUT 3|line 2: WrongCount
LOG_CYCLE 4096;LOG_CYCLE 4096 x|line 2: WrongCount
LOG_CYCLE 4096;LOG_CYCLE x|line 2: NotNumber";

#[test]
fn the_first_cause_and_the_first_statement_count(rt: HostRuntime) -> Result<(), Fail> {
    rows_end_so::<Files>(rt.alloc(), ORDER)
}

/// Causes of an interface or router that is complete.
const LATE: &str = "\
INTERFACE I tcpip_server_interface.rb 1 1 nil nil FIXED 0;INTERFACE|line 1: MinIdSize
INTERFACE I tcpip_server_interface.rb 1 1 nil nil FIXED 0;ROUTER R x.rb|line 1: MinIdSize
INTERFACE I tcpip_server_interface.rb 1 1 nil nil;PROTOCOL WRITE BURST;PROTOCOL WRITE BURST;PROTOCOL WRITE BURST;PROTOCOL WRITE BURST;INTERFACE|line 1: ChainTooLong
INTERFACE I tcpip_server_interface.rb 1 1 nil nil FIXED 0;DESKS 9;ROUTER R x.rb|line 2: NotNumber
INTERFACE I tcpip_server_interface.rb 1 1 nil nil FIXED 0;LOG_LAYOUT 3;ROUTER R x.rb|line 2: WrongCount
INTERFACE I tcpip_server_interface.rb 1 1 nil nil FIXED 0;LOG_CYCLE 9;ROUTER R x.rb|line 2: NotNumber
INTERFACE I tcpip_server_interface.rb 1 1 nil nil;LOG_LAYOUT 4;DONT_LOG;LOG_CYCLE 4096;DONT_RECONNECT|read
INTERFACE I tcpip_server_interface.rb 1 1 nil nil FIXED 0;TARGET T;INTERFACE|line 2: UnknownTarget
INTERFACE I tcpip_server_interface.rb 1 1 nil nil FIXED 0;ITEM|line 2: UnknownKeyword
INTERFACE I tcpip_server_interface.rb 1 1 nil nil;PROTOCOL READ FIXED 0;;ROUTER|line 2: MinIdSize
INTERFACE I tcpip_server_interface.rb 1 1 nil nil FIXED 1;PROTOCOL WRITE FIXED 1;PROTOCOL WRITE FIXED 0|line 3: MinIdSize
INTERFACE I tcpip_server_interface.rb 1 1 nil nil FIXED 1 0 0x0102|line 1: MinIdSize
INTERFACE I tcpip_server_interface.rb 1 1 nil nil FIXED 1 1 0x0102|read
;ROUTER R tcpip_server_interface.rb 1 1 nil nil;PROTOCOL WRITE BURST;PROTOCOL WRITE BURST;PROTOCOL WRITE BURST;PROTOCOL WRITE FIXED 0;DESKS 2|line 2: ChainTooLong
ROUTER R tcpip_server_interface.rb 1 1 nil nil;PROTOCOL WRITE BURST;PROTOCOL WRITE BURST;PROTOCOL WRITE BURST;PROTOCOL READ BURST|read
ROUTER R tcpip_server_interface.rb 1 1 nil nil;PROTOCOL WRITE BURST;PROTOCOL WRITE BURST;PROTOCOL WRITE BURST|read
ROUTER R tcpip_server_interface.rb 1 1 nil nil;ROUTE I;INTERFACE I tcpip_server_interface.rb 1 1 nil nil|line 2: UnknownInterface";

#[test]
fn a_connection_is_judged_when_it_is_complete(rt: HostRuntime) -> Result<(), Fail> {
    rows_end_so::<Files>(rt.alloc(), LATE)
}

/// What an interface with a protocol comes to.
struct Protocols;

impl Answers for Protocols {
    fn answer(alloc: Global, asked: &str) -> Result<String, Fail> {
        let text = joined(
            alloc,
            "INTERFACE I tcpip_server_interface.rb 1 1 nil nil;PROTOCOL ",
            asked,
        )?;
        site_text(alloc, text.as_str())
    }
}

/// Protocols after `PROTOCOL` on line 2.
const NUMBERS: &str = "\
READ BURST 1048576|read
READ BURST 1048577|line 2: NotNumber
READ BURST -1|line 2: NotNumber
READ BURST 0x10|read
READ BURST 0 0X01|line 2: NotNumber
READ BURST 0 0x1|line 2: NotNumber
READ BURST 0 0xaF|read
READ BURST 0 1f|line 2: NotNumber
READ BURST 0 NIL|line 2: NotNumber
READ BURST 0 nil TRUE|read
READ LENGTH 0|read
READ LENGTH 0 0|line 2: NotNumber
READ LENGTH 0 64|read
READ LENGTH 0 65|line 2: NotNumber
READ LENGTH 8388592|read
READ LENGTH 8388593|line 2: NotNumber
READ LENGTH 8388592 17|line 2: NotNumber
READ LENGTH -8 16|line 2: NotNumber
READ LENGTH 0 12 0 1 BIG_ENDIAN|read
READ LENGTH 0 12 0 1 LITTLE_ENDIAN|line 2: NotNumber
READ LENGTH 8 12 0 1 LITTLE_ENDIAN|read
READ LENGTH 0 16 2147483647|read
READ LENGTH 0 16 2147483648|line 2: NotNumber
READ LENGTH 0 16 -2147483648|read
READ LENGTH 0 16 -2147483649|line 2: NotNumber
READ LENGTH 0 16 0 0|line 2: NotNumber
READ LENGTH 0 16 0 65535|read
READ LENGTH 0 16 0 65536|line 2: NotNumber
READ LENGTH 0 16 0 1 BIG_ENDIAN 0 nil 0|read
READ LENGTH 0 16 0 1 BIG_ENDIAN 0 nil -1|line 2: NotNumber
READ LENGTH 0 16 0 1 BIG_ENDIAN 0 nil 18446744073709551615|read
READ LENGTH 0 16 0 1 BIG_ENDIAN 0 nil 18446744073709551616|line 2: NotNumber
READ TERMINATED 0x0A 0x0a0b|read
READ TERMINATED 0x0A 0x0|line 2: NotNumber
READ PREIDENTIFIED nil 5|read
READ PREIDENTIFIED nil five|line 2: NotNumber
READ PREIDENTIFIED nil nil 2|read
READ PREIDENTIFIED nil nil 4|read
READ PREIDENTIFIED nil nil +0004|read
READ PREIDENTIFIED nil nil 3|line 2: NotNumber
READ PREIDENTIFIED nil nil -4|line 2: NotNumber
READ PREIDENTIFIED nil nil 18446744073709551620|line 2: NotNumber
READ PREIDENTIFIED nil nil nil|line 2: NotNumber
READ PREIDENTIFIED nil nil 4 4|line 2: WrongCount
READ FIXED 1048577|line 2: NotNumber
READ FIXED one|line 2: NotNumber
read_write BURST|line 2: WrongCount
WRITE burst_PROTOCOL.RB|read";

#[test]
fn numbers_and_patterns_have_bounds(rt: HostRuntime) -> Result<(), Fail> {
    rows_end_so::<Protocols>(rt.alloc(), NUMBERS)
}

/// Patterns of 64 bytes and of one more.
const PATTERNS: &str = "\
ROUTER R tcpip_server_interface.rb 1 1 nil nil BURST 0 0x5A5A5A5A5A5A5A5A5A5A5A5A5A5A5A5A5A5A5A5A5A5A5A5A5A5A5A5A5A5A5A5A5A5A5A5A5A5A5A5A5A5A5A5A5A5A5A5A5A5A5A5A5A5A5A5A5A5A5A5A5A5A5A5A|read
ROUTER R tcpip_server_interface.rb 1 1 nil nil BURST 0 0x5A5A5A5A5A5A5A5A5A5A5A5A5A5A5A5A5A5A5A5A5A5A5A5A5A5A5A5A5A5A5A5A5A5A5A5A5A5A5A5A5A5A5A5A5A5A5A5A5A5A5A5A5A5A5A5A5A5A5A5A5A5A5A5A5A|line 1: NotNumber";

#[test]
fn a_pattern_has_at_most_64_bytes(rt: HostRuntime) -> Result<(), Fail> {
    rows_end_so::<Files>(rt.alloc(), PATTERNS)
}

/// What a text of many lines comes to.
struct Crowds;

impl Answers for Crowds {
    fn answer(alloc: Global, asked: &str) -> Result<String, Fail> {
        let text = crowd(alloc, asked)?;
        site_text(alloc, text.as_str())
    }
}

/// As many interfaces as there may be, and one more, with further words of its statement.
const INTERFACES: &str = "\
|INTERFACE N| tcpip_client_interface.rb h 1 1 nil nil|16||read
|INTERFACE N| tcpip_client_interface.rb h 1 1 nil nil|16|INTERFACE M tcpip_client_interface.rb h 1 1 nil nil|line 17: TooMany
|INTERFACE N| tcpip_client_interface.rb h 1 1 nil nil|16|INTERFACE M tcpip_client_interface.rb h 1 1 nil nil BURST 0 nil|line 17: TooMany
|INTERFACE N| tcpip_client_interface.rb h 1 1 nil nil|16|INTERFACE M tcpip_client_interface.rb h 1 1 nil nil BURST 0 0x|line 17: EmptySync
|INTERFACE N| tcpip_client_interface.rb h 1 1 nil nil|16|INTERFACE M tcpip_client_interface.rb h 1 1 nil nil CRC|line 17: ProtocolKind
|INTERFACE N| tcpip_client_interface.rb h 1 1 nil nil|16|INTERFACE M tcpip_client_interface.rb h 1 1 nil nil FIXED x|line 17: NotNumber";

#[test]
fn interfaces_are_few(rt: HostRuntime) -> Result<(), Fail> {
    rows_end_so::<Crowds>(rt.alloc(), INTERFACES)
}

/// The same of routers.
const ROUTERS: &str = "\
|ROUTER N| tcpip_server_interface.rb 1 1 nil nil|4||read
|ROUTER N| tcpip_server_interface.rb 1 1 nil nil|4|ROUTER M tcpip_server_interface.rb 1 1 nil nil|line 5: TooMany
|ROUTER N| tcpip_server_interface.rb 1 1 nil nil|4|ROUTER M tcpip_server_interface.rb 1 1 nil nil BURST 0 nil|line 5: TooMany
|ROUTER N| tcpip_server_interface.rb 1 1 nil nil|4|ROUTER M tcpip_server_interface.rb 1 1 nil nil BURST 0 0x|line 5: EmptySync
|ROUTER N| tcpip_server_interface.rb 1 1 nil nil|4|ROUTER M tcpip_server_interface.rb 1 1 nil nil CRC|line 5: ProtocolKind
|ROUTER N| tcpip_server_interface.rb 1 1 nil nil|4|ROUTER M tcpip_server_interface.rb 1 1 nil nil FIXED x|line 5: NotNumber";

#[test]
fn routers_are_few(rt: HostRuntime) -> Result<(), Fail> {
    rows_end_so::<Crowds>(rt.alloc(), ROUTERS)
}

/// The chain of the only interface, where there is one.
fn chain_of(site: &Site) -> Option<&List<ProtoUse>> {
    match site.interfaces.as_slice() {
        [interface] => Some(&interface.chain),
        _ => None,
    }
}

/// The chain that is read of further words of an interface.
struct Chains;

impl Answers for Chains {
    fn answer(alloc: Global, asked: &str) -> Result<String, Fail> {
        let text = joined(
            alloc,
            "INTERFACE I tcpip_server_interface.rb 1 1 nil nil",
            asked,
        )?;
        let site = site_of(alloc, "", text.as_str())?;
        debug_of(alloc, &chain_of(&site))
    }
}

/// The words after an interface that say a chain, and the chain that is read, with all parameters.
const DEFAULTS: &str = "\
|Some(List { items: [ProtoUse { spec: Burst { discard: 0, sync: Bytes { held: [] }, fill: false }, reads: true, writes: false }] })
 BURST|Some(List { items: [ProtoUse { spec: Burst { discard: 0, sync: Bytes { held: [] }, fill: false }, reads: true, writes: true }] })
 burstprotocol 3 0x0aF0 True|Some(List { items: [ProtoUse { spec: Burst { discard: 3, sync: Bytes { held: [10, 240] }, fill: true }, reads: true, writes: true }] })
 FIXED 2|Some(List { items: [ProtoUse { spec: Fixed { min_id: 2, discard: 0, sync: Bytes { held: [] }, telemetry: true, fill: false, raise: false, starts: List { items: [] } }, reads: true, writes: true }] })
 FixedProtocol 2 1 0xFF false true TRUE|Some(List { items: [ProtoUse { spec: Fixed { min_id: 2, discard: 1, sync: Bytes { held: [255] }, telemetry: false, fill: true, raise: true, starts: List { items: [] } }, reads: true, writes: true }] })
 FIXED 1 0 nil false true false|Some(List { items: [ProtoUse { spec: Fixed { min_id: 1, discard: 0, sync: Bytes { held: [] }, telemetry: false, fill: true, raise: false, starts: List { items: [] } }, reads: true, writes: true }] })
 FIXED 1 0 nil true false true|Some(List { items: [ProtoUse { spec: Fixed { min_id: 1, discard: 0, sync: Bytes { held: [] }, telemetry: true, fill: false, raise: true, starts: List { items: [] } }, reads: true, writes: true }] })
 LENGTH|Some(List { items: [ProtoUse { spec: Length { place: Place { offset: 0, bits: 16, order: Big }, value_offset: 0, per_count: 1, discard: 0, sync: Bytes { held: [] }, max: None, fill: false }, reads: true, writes: true }] })
 length_protocol.rb 8 12 -3 2 LITTLE_ENDIAN 4 0x01 99 true|Some(List { items: [ProtoUse { spec: Length { place: Place { offset: 8, bits: 12, order: Little }, value_offset: -3, per_count: 2, discard: 4, sync: Bytes { held: [1] }, max: Some(99), fill: true }, reads: true, writes: true }] })
 LENGTH 0 32 0 1|Some(List { items: [ProtoUse { spec: Length { place: Place { offset: 0, bits: 32, order: Big }, value_offset: 0, per_count: 1, discard: 0, sync: Bytes { held: [] }, max: None, fill: false }, reads: true, writes: true }] })
 LENGTH 16 16 0 1 BIG_ENDIAN 0 0x1ACF|Some(List { items: [ProtoUse { spec: Length { place: Place { offset: 16, bits: 16, order: Big }, value_offset: 0, per_count: 1, discard: 0, sync: Bytes { held: [26, 207] }, max: None, fill: false }, reads: true, writes: true }] })
 LENGTH 0 8 0 1 BIG_ENDIAN 1 nil nil true|Some(List { items: [ProtoUse { spec: Length { place: Place { offset: 0, bits: 8, order: Big }, value_offset: 0, per_count: 1, discard: 1, sync: Bytes { held: [] }, max: None, fill: true }, reads: true, writes: true }] })
 TERMINATED 0x0D 0x0A|Some(List { items: [ProtoUse { spec: Terminated { write: Bytes { held: [13] }, read: Bytes { held: [10] }, strip: true, discard: 0, sync: Bytes { held: [] }, fill: false }, reads: true, writes: true }] })
 TERMINATED nil 0x0A false 7 0x02 true|Some(List { items: [ProtoUse { spec: Terminated { write: Bytes { held: [] }, read: Bytes { held: [10] }, strip: false, discard: 7, sync: Bytes { held: [2] }, fill: true }, reads: true, writes: true }] })
 TERMINATED 0x0D0A 0x0D0A|Some(List { items: [ProtoUse { spec: Terminated { write: Bytes { held: [13, 10] }, read: Bytes { held: [13, 10] }, strip: true, discard: 0, sync: Bytes { held: [] }, fill: false }, reads: true, writes: true }] })
 PREIDENTIFIED|Some(List { items: [ProtoUse { spec: Preidentified { sync: Bytes { held: [] }, max: None, layout: 2 }, reads: true, writes: true }] })
 PREIDENTIFIED 0xDEAD 0|Some(List { items: [ProtoUse { spec: Preidentified { sync: Bytes { held: [222, 173] }, max: Some(0), layout: 2 }, reads: true, writes: true }] })
 PREIDENTIFIED nil 7 0x4|Some(List { items: [ProtoUse { spec: Preidentified { sync: Bytes { held: [] }, max: Some(7), layout: 4 }, reads: true, writes: true }] })
;PROTOCOL READ BURST 1|Some(List { items: [ProtoUse { spec: Burst { discard: 1, sync: Bytes { held: [] }, fill: false }, reads: true, writes: false }] })
;PROTOCOL READ_WRITE BURST 0x0C|Some(List { items: [ProtoUse { spec: Burst { discard: 12, sync: Bytes { held: [] }, fill: false }, reads: true, writes: true }] })
;PROTOCOL WRITE BURST 1|Some(List { items: [ProtoUse { spec: Burst { discard: 1, sync: Bytes { held: [] }, fill: false }, reads: false, writes: true }, ProtoUse { spec: Burst { discard: 0, sync: Bytes { held: [] }, fill: false }, reads: true, writes: false }] })
 LENGTH;PROTOCOL WRITE BURST 2\
|Some(List { items: [\
ProtoUse { spec: Length { place: Place { offset: 0, bits: 16, order: Big }, value_offset: 0, per_count: 1, discard: 0, sync: Bytes { held: [] }, max: None, fill: false }, reads: true, writes: true }, \
ProtoUse { spec: Burst { discard: 2, sync: Bytes { held: [] }, fill: false }, reads: false, writes: true }] })
;PROTOCOL READ TerminatedProtocol 0x0A 0x0A;PROTOCOL READ LengthProtocol 0 8 0 1\
|Some(List { items: [\
ProtoUse { spec: Terminated { write: Bytes { held: [10] }, read: Bytes { held: [10] }, strip: true, discard: 0, sync: Bytes { held: [] }, fill: false }, reads: true, writes: false }, \
ProtoUse { spec: Length { place: Place { offset: 0, bits: 8, order: Big }, value_offset: 0, per_count: 1, discard: 0, sync: Bytes { held: [] }, max: None, fill: false }, reads: true, writes: false }] })";

#[test]
fn parameters_that_are_left_out_have_defaults(rt: HostRuntime) -> Result<(), Fail> {
    rows_end_so::<Chains>(rt.alloc(), DEFAULTS)
}

/// What a file says: its port, its desks, and how many interfaces and routers; the last of a setting counts, and an empty file is a site.
const COUNTS: &str = "\
title A;TITLE B;PORT CTS_API 1;DESKS 1;PORT CTS_API 65535;DESKS 3;\
INTERFACE A tcpip_client_interface.rb here 2 2 10.0 nil;RECONNECT_DELAY 1.5;DONT_RECONNECT;RECONNECT_DELAY 0.25;DONT_LOG;LOG DEFAULT;\
INTERFACE B tcpip_server_interface.rb 3 0x3 -1 nil;LOG DEFAULT;DONT_LOG;PORT CTS_API 80;\
INTERFACE C tcpip_client_interface.rb '' 4 4 nil nil|(80, 3, 3, 0)
|(7777, 4, 0, 0)";

struct Counts;

impl Answers for Counts {
    fn answer(alloc: Global, asked: &str) -> Result<String, Fail> {
        let site = site_of(alloc, "", asked)?;
        debug_of(alloc, &counted(&site))
    }
}

fn counted(site: &Site) -> (u16, u32, usize, usize) {
    (
        site.api_port,
        site.desks,
        site.interfaces.len(),
        site.routers.len(),
    )
}

#[test]
fn the_last_of_a_setting_counts_and_an_empty_file_is_a_site(rt: HostRuntime) -> Result<(), Fail> {
    rows_end_so::<Counts>(rt.alloc(), COUNTS)
}

/// The layout and the cycle of logs that a file gives, at any place of it.
const LOGS: &str = "\
|(2, None)
LOG_LAYOUT 2|(2, None)
log_layout '4'|(4, None)
LOG_CYCLE 0x1000;LOG_LAYOUT 4|(4, Some(4096))
INTERFACE I tcpip_server_interface.rb 1 1 nil nil;LOG DEFAULT;LOG_CYCLE 1073741824;DONT_LOG|(2, Some(1073741824))
ROUTER R tcpip_server_interface.rb 1 1 nil nil;LOG_LAYOUT 4;INTERFACE I tcpip_server_interface.rb 1 1 nil nil|(4, None)";

struct Logs;

impl Answers for Logs {
    fn answer(alloc: Global, asked: &str) -> Result<String, Fail> {
        let site = site_of(alloc, "", asked)?;
        debug_of(alloc, &(site.log_layout, site.log_cycle))
    }
}

#[test]
fn a_file_gives_the_layout_and_the_cycle_of_logs(rt: HostRuntime) -> Result<(), Fail> {
    rows_end_so::<Logs>(rt.alloc(), LOGS)
}

/// A file of three interfaces with settings.
const SETTINGS: &str = "title A;TITLE B;PORT CTS_API 1;DESKS 1;PORT CTS_API 65535;DESKS 3;\
INTERFACE A tcpip_client_interface.rb here 2 2 10.0 nil;RECONNECT_DELAY 1.5;DONT_RECONNECT;RECONNECT_DELAY 0.25;DONT_LOG;LOG DEFAULT;\
INTERFACE B tcpip_server_interface.rb 3 0x3 -1 nil;LOG DEFAULT;DONT_LOG;PORT CTS_API 80;\
INTERFACE C tcpip_client_interface.rb '' 4 4 nil nil";

/// Whom each of them connects to, its port, whether it serves, its delay, whether it reconnects, and whether it is logged.
const INTERFACE_SETTINGS: &str = "\
0|([104, 101, 114, 101], 2, false, 250000000000, false, true)
1|([], 3, true, 5000000000000, true, false)
2|([], 4, false, 5000000000000, true, true)
3|none";

struct Settings;

impl Answers for Settings {
    fn answer(alloc: Global, asked: &str) -> Result<String, Fail> {
        let n = number::<u8>(asked, 0)?;
        let site = site_of(alloc, "", SETTINGS)?;
        settings_text(alloc, site.interfaces.as_slice().get(n as usize))
    }
}

fn settings_text(alloc: Global, interface: Option<&Interface>) -> Result<String, Fail> {
    match interface {
        Some(interface) => debug_of(alloc, &told(interface)),
        None => Ok("none".to_string(alloc)?),
    }
}

fn told(interface: &Interface) -> (&[u8], u16, bool, i128, bool, bool) {
    (
        interface.aim_host.as_slice(),
        interface.port,
        interface.serves,
        interface.delay.parts,
        interface.reconnect,
        interface.logged,
    )
}

#[test]
fn the_last_setting_of_an_interface_counts(rt: HostRuntime) -> Result<(), Fail> {
    rows_end_so::<Settings>(rt.alloc(), INTERFACE_SETTINGS)
}

#[test]
fn faults_are_printed(rt: HostRuntime) -> Result<(), Fail> {
    let fault = SiteFault::Refused {
        line: 12,
        cause: SiteCause::TwoPorts,
    };
    let text = display_of(rt.alloc(), &fault)?;
    same(text.as_str(), "line 12: TwoPorts", "a fault")?;
    same(
        SiteCause::UnknownKeyword.name(),
        "UnknownKeyword",
        "a cause",
    )
}
