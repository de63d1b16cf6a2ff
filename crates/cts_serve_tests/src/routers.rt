// Routers: what their slots are given, and what comes from them.
use crate::instrument::INSTRUMENT_DEFINITIONS;
use crate::table::replays_go_so;
use std::test::Fail;

/// The interfaces of the instrument, and a router for the packets of the first.
pub const ROUTED_SITE: &str = "\
TITLE \"Demo\";\
INTERFACE INST_INT tcpip_client_interface.rb localhost 8080 8080 10.0 nil LENGTH 0 16 0 1 BIG_ENDIAN 2 nil nil true;\
  TARGET INST;\
INTERFACE AUX_INT tcpip_client_interface.rb localhost 8081 8081 10.0 nil TERMINATED 0x0A 0x0A;\
  TARGET AUX;\
ROUTER OUT tcpip_server_interface.rb 2950 2950 10.0 nil PREIDENTIFIED;\
  ROUTE INST_INT";

// Packets of both interfaces, limits, look-ups, a command, and what the router's client is given.
pub const DEMO: &str = r#"
@ the demo
TIME 100 250000
OPEN INST_INT
OPEN AUX_INT
OPEN OUT/0
BYTES INST_INT 000601
BYTES AUX_INT 48490A
BYTES INST_INT 80000100
CALL 0 '{"jsonrpc":"2.0","method":"set_limits_set","params":["TVAC"],"id":1}'
BYTES INST_INT 0601900001
CALL 0 '{"jsonrpc":"2.0","method":"get_limits_set","id":2}'
CALL 0 '{"jsonrpc":"2.0","method":"tlm_with_units","params":["INST HS TEMP1"],"id":3}'
CALL 0 '{"jsonrpc":"2.0","method":"cmd","params":["INST COLLECT with DURATION 10"],"id":4}'
WRITE INST_INT 1
DRAIN OUT/0 5
CLOSE INST_INT PEER
> Ok
0 100.250000 INST_INT OPENED
1 100.250000 AUX_INT OPENED
2 100.250000 OUT/0 OPENED
3 100.250000 AUX_INT PACKET AUX LINE 4849
4 100.250000 INST_INT PACKET INST HS 01800001
EVENT INST HS TEMP1 STALE GREEN
5 100.250000 DESK/0 LIMITSSET TVAC
REPLY DESK/0 5 {"id":1,"jsonrpc":"2.0","result":null}
6 100.250000 INST_INT PACKET INST HS 01900001
EVENT INST HS TEMP1 GREEN YELLOW_HIGH
REPLY DESK/0 7 {"id":2,"jsonrpc":"2.0","result":"TVAC"}
REPLY DESK/0 7 {"id":3,"jsonrpc":"2.0","result":"12.435 C"}
7 100.250000 DESK/0 COMMAND INST COLLECT 07000a
REPLY DESK/0 7 {"id":4,"jsonrpc":"2.0","result":["INST","COLLECT",{"DURATION":10}]}
WRITTEN INST_INT 000507000a
ROUTED OUT/0 000000640003d09004494e53540248530000000401800001000000640003d09004494e53540248530000000401900001
8 100.250000 INST_INT CLOSED PEER held 0 0 0 0 skipped 0 empty 0 unposted 0 unsent 0
END 9
"#;

#[test]
fn the_demo_has_its_transcript(rt: HostRuntime) -> Result<(), Fail> {
    replays_go_so(rt.alloc(), INSTRUMENT_DEFINITIONS, ROUTED_SITE, DEMO)
}

const SLOTS: &str = "
@ more than there is
OPEN OUT/0
OPEN INST_INT
DRAIN OUT/0 2
> ScriptRefused
0 0.000000 OUT/0 OPENED
1 0.000000 INST_INT OPENED
refused: c line 3: NotEnabled
@ an entry is given once
OPEN OUT/1
OPEN INST_INT
BYTES INST_INT 000601800001
DRAIN OUT/1 2
DRAIN OUT/1 0
DRAIN OUT/1 1
> ScriptRefused
0 0.000000 OUT/1 OPENED
1 0.000000 INST_INT OPENED
2 0.000000 INST_INT PACKET INST HS 01800001
EVENT INST HS TEMP1 STALE GREEN
ROUTED OUT/1 000000000000000004494e53540248530000000401800001
ROUTED OUT/1 -
refused: c line 6: NotEnabled
@ a slot that is closed
OPEN INST_INT
BYTES INST_INT 000601800001
OPEN OUT/0
DRAIN OUT/0 0
CLOSE OUT/0 PEER
DRAIN OUT/0 0
> ScriptRefused
0 0.000000 INST_INT OPENED
1 0.000000 INST_INT PACKET INST HS 01800001
EVENT INST HS TEMP1 STALE GREEN
2 0.000000 OUT/0 OPENED
ROUTED OUT/0 -
3 0.000000 OUT/0 CLOSED PEER held 0 0 0 0 skipped 0 empty 0 unposted 0 unsent 0
refused: c line 6: NotEnabled
@ commands of a client
OPEN OUT/0
BYTES OUT/0 000000000000000004494e535407434f4c4c4543540000000307000a
OPEN INST_INT
BYTES OUT/0 000000000000000004494e535407434f4c4c45435400000003070009
BYTES OUT/0 0000000000000000015401410000000100
WRITE INST_INT 1
> Ok
0 0.000000 OUT/0 OPENED
1 0.000000 OUT/0 UNROUTED NOTCONNECTED 07000a
2 0.000000 INST_INT OPENED
3 0.000000 OUT/0 COMMAND INST COLLECT 070009
4 0.000000 OUT/0 UNROUTED UNKNOWN 00
WRITTEN INST_INT 0005070009
END 5
";

#[test]
fn slots_are_given_what_comes_after_them(rt: HostRuntime) -> Result<(), Fail> {
    replays_go_so(rt.alloc(), INSTRUMENT_DEFINITIONS, ROUTED_SITE, SLOTS)
}

// A packet and a command, each of two bytes, of which the first is the length and the second the number.
const SMALL: &str = "\
TELEMETRY T A BIG_ENDIAN;APPEND_ITEM L 8 UINT;APPEND_ID_ITEM K 8 UINT 1;\
COMMAND T C BIG_ENDIAN;APPEND_PARAMETER L 8 UINT 0 9 2;APPEND_ID_PARAMETER K 8 UINT 1 1 1";

/// As many routers as a site may have; the last one has no route.
const FOUR_ROUTERS: &str = "\
INTERFACE I tcpip_client_interface.rb h 1 1 nil nil LENGTH 0 8 0 1;TARGET T;\
ROUTER R tcpip_server_interface.rb 2 2 nil nil LENGTH 0 8 0 1;ROUTE I;\
ROUTER S tcpip_server_interface.rb 3 3 nil nil TERMINATED 0x0A 0x0A;ROUTE I;\
ROUTER U tcpip_server_interface.rb 4 4 nil nil BURST;ROUTE I;\
ROUTER V tcpip_server_interface.rb 5 5 nil nil PREIDENTIFIED";

const ALL_OPEN: &str = "
@ all slots of four routers
OPEN R/0
OPEN R/1
OPEN S/0
OPEN S/1
OPEN U/0
OPEN U/1
OPEN V/0
OPEN V/1
OPEN I
BYTES I 0201
DRAIN R/0 9
DRAIN S/1 6
DRAIN V/1 2
BYTES U/0 0201
BYTES S/0 02010A02000A
BYTES V/0 000000000000000001540141000000020202
WRITE I 2
CLOSE V/1 PEER
> Ok
0 0.000000 R/0 OPENED
1 0.000000 R/1 OPENED
2 0.000000 S/0 OPENED
3 0.000000 S/1 OPENED
4 0.000000 U/0 OPENED
5 0.000000 U/1 OPENED
6 0.000000 V/0 OPENED
7 0.000000 V/1 OPENED
8 0.000000 I OPENED
9 0.000000 I PACKET T A 0201
ROUTED R/0 0201
ROUTED S/1 02010a
ROUTED V/1 -
10 0.000000 U/0 COMMAND T C 0201
11 0.000000 S/0 COMMAND T C 0201
12 0.000000 S/0 UNROUTED UNKNOWN 0200
13 0.000000 V/0 UNROUTED UNKNOWN 0202
WRITTEN I 02010201
14 0.000000 V/1 CLOSED PEER held 0 0 0 0 skipped 0 empty 0 unposted 0 unsent 0
END 15
@ a slot whose frame is bad
OPEN I
OPEN R/1
BYTES R/1 020100
OPEN R/1
> Ok
0 0.000000 I OPENED
1 0.000000 R/1 OPENED
2 0.000000 R/1 COMMAND T C 0201
3 0.000000 R/1 CLOSED BAD 1 SHORT 0 held 1 0 0 0 skipped 0 empty 0 unposted 0 unsent 0
4 0.000000 R/1 OPENED
END 5
";

#[test]
fn all_slots_may_be_open(rt: HostRuntime) -> Result<(), Fail> {
    replays_go_so(rt.alloc(), SMALL, FOUR_ROUTERS, ALL_OPEN)
}

/// An interface that reads what a slot of that router was given.
const READING_SITE: &str =
    "INTERFACE P tcpip_client_interface.rb h 1 1 nil nil PREIDENTIFIED;TARGET INST";

const READ_BACK: &str = "
@ both packets, with their own time and names
OPEN P
BYTES P 000000640003d09004494e53540248530000000401800001000000640003d09004494e53540248530000000401900001
> Ok
0 0.000000 P OPENED
1 100.250000 P PACKET INST HS 01800001
EVENT INST HS TEMP1 STALE GREEN
2 100.250000 P PACKET INST HS 01900001
END 3
";

#[test]
fn what_a_slot_was_given_is_read_back(rt: HostRuntime) -> Result<(), Fail> {
    replays_go_so(rt.alloc(), INSTRUMENT_DEFINITIONS, READING_SITE, READ_BACK)
}
