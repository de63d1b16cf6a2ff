// Calls of desks: values that are looked up, limits sets that are chosen, and what a request has to be.
use crate::commands::DEMO_SITE;
use crate::instrument::INSTRUMENT_DEFINITIONS;
use crate::table::{replays_end_so, replays_go_so};
use std::test::Fail;

// A packet with one value, and an interface that brings it.
const VALUE: &str = "TELEMETRY T A BIG_ENDIAN;APPEND_ITEM LEN 16 UINT;APPEND_ITEM V 16 UINT";

const VALUE_SITE: &str =
    "INTERFACE I tcpip_client_interface.rb localhost 8080 8080 10.0 nil LENGTH 0 16 0 1;TARGET T";

const LOOKED_UP: &str = r#"
@ a value before its packet and after it
OPEN I
CALL 0 '{"jsonrpc":"2.0","method":"tlm_raw","params":["T A V"],"id":1}'
BYTES I 00040500
CALL 0 '{"jsonrpc":"2.0","method":"tlm_raw","params":["T A V"],"id":2}'
> Ok
0 0.000000 I OPENED
REPLY DESK/0 1 {"error":{"code":-32001,"message":"Never received"},"id":1,"jsonrpc":"2.0"}
1 0.000000 I PACKET T A 00040500
REPLY DESK/0 2 {"id":2,"jsonrpc":"2.0","result":1280}
END 2
"#;

#[test]
fn a_value_is_looked_up_before_and_after_its_packet(rt: HostRuntime) -> Result<(), Fail> {
    replays_go_so(rt.alloc(), VALUE, VALUE_SITE, LOOKED_UP)
}

// The same value with limits in two sets.
const LIMITED: &str = "\
TELEMETRY T A BIG_ENDIAN;APPEND_ITEM LEN 16 UINT;APPEND_ITEM V 16 UINT;\
LIMITS DEFAULT 1 ENABLED 0 10 100 200;LIMITS NIGHT 1 ENABLED 0 10 2000 3000";

const OF_SETS: &str = r#"
@ limits of the set that is chosen
OPEN I
BYTES I 00040500
CALL 0 '{"jsonrpc":"2.0","method":"set_limits_set","params":["night"],"id":1}'
BYTES I 00040500
CALL 0 '{"jsonrpc":"2.0","method":"get_limits_events","id":2}'
> Ok
0 0.000000 I OPENED
1 0.000000 I PACKET T A 00040500
EVENT T A V STALE RED_HIGH
2 0.000000 DESK/0 LIMITSSET NIGHT
REPLY DESK/0 2 {"id":1,"jsonrpc":"2.0","result":null}
3 0.000000 I PACKET T A 00040500
EVENT T A V RED_HIGH GREEN
REPLY DESK/0 4 {"id":2,"jsonrpc":"2.0","result":[[1,"T","A","V","STALE","RED_HIGH"],[3,"T","A","V","RED_HIGH","GREEN"]]}
END 4
"#;

// And with colours of its states.
const COLOURED: &str = "\
TELEMETRY T A BIG_ENDIAN;APPEND_ITEM LEN 16 UINT;APPEND_ITEM V 16 UINT;STATE LOW 1280 GREEN;STATE HIGH 1281 RED";

const OF_COLOURS: &str = "
@ colours of states
OPEN I
BYTES I 0004050000040501
BYTES I 00040501
> Ok
0 0.000000 I OPENED
1 0.000000 I PACKET T A 00040500
EVENT T A V STALE GREEN
2 0.000000 I PACKET T A 00040501
EVENT T A V GREEN RED
3 0.000000 I PACKET T A 00040501
END 4
";

#[test]
fn limits_events_stand_after_their_entries(rt: HostRuntime) -> Result<(), Fail> {
    replays_go_so(rt.alloc(), LIMITED, VALUE_SITE, OF_SETS)?;
    replays_go_so(rt.alloc(), COLOURED, VALUE_SITE, OF_COLOURS)
}

// A packet of ten bytes with an item of each sort, and one that is never received.
const DEFINITIONS: &str = "\
TELEMETRY INST HS BIG_ENDIAN 'Health and status';\
APPEND_ITEM LENGTH 16 UINT;\
APPEND_ITEM TEMP 16 UINT 'Temperature';\
POLY_READ_CONVERSION -100.0 0.00305;\
UNITS CELSIUS C;\
FORMAT_STRING '%0.3f';\
APPEND_ITEM MODE 8 UINT;\
STATE OFF 0;\
STATE ON 1;\
APPEND_ITEM LABEL 24 STRING;\
APPEND_ITEM CODE 16 BLOCK;\
UNITS WORDS W;\
TELEMETRY AUX LINE BIG_ENDIAN;\
APPEND_ITEM TEXT 0 STRING";

const SITE: &str =
    "INTERFACE I tcpip_client_interface.rb h 1 1 nil nil LENGTH 0 16 0 1;TARGET INST";

const RESULT: &str =
    r#"OPEN I;BYTES I 000affff01414243beef;CALL 0 '{"jsonrpc":"2.0","method":"$","params":$,"id":1}'|Ok 0 0.000000 I OPENED;1 0.000000 I PACKET INST HS 000affff01414243beef;REPLY DESK/0 2 {"id":1,"jsonrpc":"2.0","result":$};END 2;"#;

// Each row has a method and its params after a packet with 65535, 1, `ABC` and the bytes beef in its items, and the result:
// 65535 times 0.00305 is 199.88175.
const RESULTS: &str = r#"raw|tlm_raw|["INST HS TEMP"]|65535
converted|tlm|["INST HS TEMP"]|"99.88175"
formatted|tlm_formatted|["INST HS TEMP"]|"99.882"
with units|tlm_with_units|["INST HS TEMP"]|"99.882 C"
the three parts in a list|tlm_raw|["INST","HS","MODE"]|1
a state|tlm|["INST HS MODE"]|"ON"
a state, formatted|tlm_formatted|["INST HS MODE"]|"ON"
a state, with units|tlm_with_units|["INST HS MODE"]|"ON"
a text|tlm_raw|["INST HS LABEL"]|"ABC"
a number, formatted|tlm_formatted|["INST HS LENGTH"]|"10"
bytes with units|tlm_with_units|["INST HS CODE"]|"0xbeef W"
any case|tlm|["inst","Hs","temp"]|"99.88175"
the count of a packet|tlm_raw|["INST HS RECEIVED_COUNT"]|1
the count with units|tlm_with_units|["inst hs received_count"]|"1"
the count of a packet that never came|tlm_formatted|["AUX LINE RECEIVED_COUNT"]|"0"
the count by its method|get_tlm_cnt|["inst","HS"]|1
a whole packet|get_tlm_packet|["INST","HS","RAW"]|[["LENGTH",10,null],["TEMP",65535,null],["MODE",1,null],["LABEL","ABC",null],["CODE","0xbeef",null]]
the current set|get_limits_set|[]|"DEFAULT"
no item is out of limits|get_out_of_limits|[]|[]
names of interfaces|get_interface_names|[]|["I"]
a state of an interface|interface_state|["i"]|"CONNECTED""#;

#[test]
fn each_call_has_its_result(rt: HostRuntime) -> Result<(), Fail> {
    replays_end_so(rt.alloc(), DEFINITIONS, SITE, RESULT, RESULTS)
}

const REFUSAL: &str =
    r#"CALL 0 '{"jsonrpc":"2.0","method":"$","params":$,"id":1}'|Ok REPLY DESK/0 0 {"error":{"code":$},"id":1,"jsonrpc":"2.0"};END 0;"#;

// Each row has a method and its params, and the code and the message of the refusal.
const REFUSALS: &str = r#"another target|tlm_raw|["PUMP HS TEMP"]|-32001,"message":"Unknown target"
an empty target|tlm_raw|["","HS","TEMP"]|-32001,"message":"Unknown target"
two words as a target|tlm_raw|["INST HS","TEMP","RAW"]|-32001,"message":"Unknown target"
another packet|tlm_raw|["INST LINE TEMP"]|-32001,"message":"Unknown packet"
another item|tlm_raw|["INST HS TEXT"]|-32001,"message":"Unknown item"
an item of another packet|tlm_raw|["AUX LINE TEMP"]|-32001,"message":"Unknown item"
a packet that never came|tlm_raw|["AUX LINE TEXT"]|-32001,"message":"Never received"
another set|set_limits_set|["NIGHT"]|-32001,"message":"Unknown limits set"
an empty set|set_limits_set|[""]|-32001,"message":"Unknown limits set"
a set with a blank|set_limits_set|["DEFAULT "]|-32001,"message":"Unknown limits set"
UNKNOWN is no set|set_limits_set|["UNKNOWN"]|-32001,"message":"Unknown limits set"
an item without limits|get_limits|["INST","HS","TEMP"]|-32001,"message":"No limits"
another interface|interface_state|["J"]|-32001,"message":"Unknown interface"
an injected value of another type|inject_tlm|["INST","HS",{"LABEL":1}]|-32002,"message":"Wrong type: LABEL"
no item|tlm_raw|["INST HS"]|-32602,"message":"Invalid params"
params by name|tlm_raw|{"item":"INST HS TEMP"}|-32602,"message":"Invalid params"
a value too many|tlm_raw|["INST HS TEMP",1.0]|-32602,"message":"Invalid params"
params before the method|nothing|[1e0]|-32602,"message":"Invalid params"
no method|nothing|[]|-32601,"message":"Method not found"
a method in capital letters|TLM_RAW|["INST HS TEMP"]|-32601,"message":"Method not found""#;

#[test]
fn each_refusal_has_its_code_and_message(rt: HostRuntime) -> Result<(), Fail> {
    replays_end_so(rt.alloc(), DEFINITIONS, SITE, REFUSAL, REFUSALS)
}

const ORDERS: &str = r#"
@ a call before anything happened
CALL 0 '{"jsonrpc":"2.0","method":"tlm_raw","params":["INST HS MODE"],"id":1}'
> Ok
REPLY DESK/0 0 {"error":{"code":-32001,"message":"Never received"},"id":1,"jsonrpc":"2.0"}
END 0
@ the count of a packet that never came
call 1 '{"jsonrpc":"2.0","method":"tlm_raw","params":["INST HS RECEIVED_COUNT"],"id":1}'
CALL 0 '{"jsonrpc":"2.0","method":"tlm_raw","params":["A B C"],"id":1}'
> Ok
REPLY DESK/1 0 {"id":1,"jsonrpc":"2.0","result":0}
REPLY DESK/0 0 {"error":{"code":-32001,"message":"Unknown target"},"id":1,"jsonrpc":"2.0"}
END 0
@ the second packet counts
OPEN I
BYTES I 000affff01414243beef000a000000444546cafe
CALL 0 '{"jsonrpc":"2.0","method":"tlm","params":["INST HS MODE"],"id":1}'
CALL 0 '{"jsonrpc":"2.0","method":"tlm_with_units","params":["INST HS TEMP"],"id":2}'
CALL 0 '{"jsonrpc":"2.0","method":"tlm","params":["INST HS RECEIVED_COUNT"],"id":3}'
> Ok
0 0.000000 I OPENED
1 0.000000 I PACKET INST HS 000affff01414243beef
2 0.000000 I PACKET INST HS 000a000000444546cafe
REPLY DESK/0 3 {"id":1,"jsonrpc":"2.0","result":"OFF"}
REPLY DESK/0 3 {"id":2,"jsonrpc":"2.0","result":"-100.000 C"}
REPLY DESK/0 3 {"id":3,"jsonrpc":"2.0","result":2}
END 3
@ a set that is current already
CALL 0 '{"jsonrpc":"2.0","method":"set_limits_set","params":["DEFAULT"],"id":1}'
> Ok
0 0.000000 DESK/0 LIMITSSET DEFAULT
REPLY DESK/0 0 {"id":1,"jsonrpc":"2.0","result":null}
END 1
@ a set by two desks, at its time
OPEN I
TIME 5 7
CALL 0 '{"jsonrpc":"2.0","method":"set_limits_set","params":["default"],"id":1}'
CALL 3 '{"jsonrpc":"2.0","method":"set_limits_set","params":["DEFAULT"],"id":2}'
CALL 0 '{"jsonrpc":"2.0","method":"tlm_raw","params":["INST HS MODE"],"id":3}'
> Ok
0 0.000000 I OPENED
1 5.000007 DESK/0 LIMITSSET DEFAULT
REPLY DESK/0 1 {"id":1,"jsonrpc":"2.0","result":null}
2 5.000007 DESK/3 LIMITSSET DEFAULT
REPLY DESK/3 2 {"id":2,"jsonrpc":"2.0","result":null}
REPLY DESK/0 3 {"error":{"code":-32001,"message":"Never received"},"id":3,"jsonrpc":"2.0"}
END 3
@ a call without an id, and a line that is not enabled
CALL 0 '{"jsonrpc":"2.0","method":"set_limits_set","params":["DEFAULT"]}'
CALL 0 '{"jsonrpc":"2.0","method":"set_limits_set","params":["NIGHT"],"id":2}'
CLOSE I PEER
> ScriptRefused
0 0.000000 DESK/0 LIMITSSET DEFAULT
REPLY DESK/0 0 -
REPLY DESK/0 1 {"error":{"code":-32001,"message":"Unknown limits set"},"id":2,"jsonrpc":"2.0"}
refused: c line 3: NotEnabled
@ a desk that the site does not have
CALL 4 '{}'
> ScriptRefused
refused: c line 1: NotEnabled
"#;

#[test]
fn replies_stand_between_the_entries(rt: HostRuntime) -> Result<(), Fail> {
    replays_go_so(rt.alloc(), DEFINITIONS, SITE, ORDERS)
}

const REQUESTS: &str = r#"
@ no JSON
CALL 0 '{'
> Ok
REPLY DESK/0 0 {"error":{"code":-32700,"message":"Parse error"},"id":null,"jsonrpc":"2.0"}
END 0
@ no text
CALL 0 ''
> Ok
REPLY DESK/0 0 {"error":{"code":-32700,"message":"Parse error"},"id":null,"jsonrpc":"2.0"}
END 0
@ a list
CALL 0 '[]'
> Ok
REPLY DESK/0 0 {"error":{"code":-32600,"message":"Invalid Request"},"id":null,"jsonrpc":"2.0"}
END 0
@ another version
CALL 0 '{"jsonrpc":"1.0","method":"get_limits_set","id":1}'
> Ok
REPLY DESK/0 0 {"error":{"code":-32600,"message":"Invalid Request"},"id":null,"jsonrpc":"2.0"}
END 0
@ params that are a number
CALL 0 '{"jsonrpc":"2.0","method":"get_limits_set","params":1,"id":1}'
> Ok
REPLY DESK/0 0 {"error":{"code":-32600,"message":"Invalid Request"},"id":null,"jsonrpc":"2.0"}
END 0
@ an id with a point
CALL 0 '{"jsonrpc":"2.0","method":"get_limits_set","id":1.5}'
> Ok
REPLY DESK/0 0 {"error":{"code":-32600,"message":"Invalid Request"},"id":null,"jsonrpc":"2.0"}
END 0
@ an id that is null
CALL 0 '{"jsonrpc":"2.0","method":"get_limits_set","id":null}'
> Ok
REPLY DESK/0 0 {"id":null,"jsonrpc":"2.0","result":"DEFAULT"}
END 0
@ an id with an escape
CALL 0 '{"jsonrpc": "2.0", "method": "get_limits_set", "id": "\u0061 b"}'
> Ok
REPLY DESK/0 0 {"id":"a b","jsonrpc":"2.0","result":"DEFAULT"}
END 0
@ a request without blanks and quotes
CALL 0 {"jsonrpc":"2.0","method":"get_limits_set","id":-1}
> Ok
REPLY DESK/0 0 {"id":-1,"jsonrpc":"2.0","result":"DEFAULT"}
END 0
@ no id
CALL 0 '{"jsonrpc":"2.0","method":"get_limits_set"}'
> Ok
REPLY DESK/0 0 -
END 0
@ no id, and no method
CALL 0 '{"jsonrpc":"2.0","method":"nothing"}'
> Ok
REPLY DESK/0 0 -
END 0
@ an id of a refusal
CALL 0 '{"jsonrpc":"2.0","method":"nothing","params":{},"id":7}'
> Ok
REPLY DESK/0 0 {"error":{"code":-32602,"message":"Invalid params"},"id":7,"jsonrpc":"2.0"}
END 0
"#;

#[test]
fn requests_are_answered_by_their_ids(rt: HostRuntime) -> Result<(), Fail> {
    replays_go_so(rt.alloc(), DEFINITIONS, SITE, REQUESTS)
}

const CHANGES: &str = r#"
@ a packet is injected, limits are set, the server is stopped
CALL 0 '{"jsonrpc":"2.0","method":"inject_tlm","params":["INST","HS",{"TEMP1":36864}],"id":1}'
CALL 0 '{"jsonrpc":"2.0","method":"set_limits","params":["INST","HS","TEMP1",-80,-70,"0.5",80],"id":2}'
CALL 0 '{"jsonrpc":"2.0","method":"stop_server"}'
STOP
> ScriptRefused
0 0.000000 DESK/0 INJECTED INST HS 00900000
EVENT INST HS TEMP1 STALE GREEN
REPLY DESK/0 0 {"id":1,"jsonrpc":"2.0","result":null}
1 0.000000 DESK/0 LIMITS INST HS TEMP1 CUSTOM 1 ENABLED -80.0 -70.0 0.5 80.0
REPLY DESK/0 1 {"id":2,"jsonrpc":"2.0","result":null}
2 0.000000 DESK/0 STOP
REPLY DESK/0 2 -
refused: c line 4: NotEnabled
@ the server is stopped twice
CALL 0 '{"jsonrpc":"2.0","method":"stop_server","id":1}'
CALL 1 '{"jsonrpc":"2.0","method":"stop_server","id":2}'
OPEN INST_INT
> ScriptRefused
0 0.000000 DESK/0 STOP
REPLY DESK/0 0 {"id":1,"jsonrpc":"2.0","result":null}
REPLY DESK/1 1 {"id":2,"jsonrpc":"2.0","result":null}
refused: c line 3: NotEnabled
@ limits are turned off and on
CALL 0 '{"jsonrpc":"2.0","method":"disable_limits","params":["INST","HS","TEMP1"],"id":1}'
CALL 0 '{"jsonrpc":"2.0","method":"inject_tlm","params":["INST","HS",{"TEMP1":0}],"id":2}'
CALL 0 '{"jsonrpc":"2.0","method":"enable_limits","params":["INST","HS","TEMP1"],"id":3}'
CALL 0 '{"jsonrpc":"2.0","method":"inject_tlm","params":["INST","HS",{"MODE":1}],"id":4}'
CALL 0 '{"jsonrpc":"2.0","method":"get_out_of_limits","id":5}'
> Ok
0 0.000000 DESK/0 DISABLE INST HS TEMP1
REPLY DESK/0 0 {"id":1,"jsonrpc":"2.0","result":null}
1 0.000000 DESK/0 INJECTED INST HS 00000000
REPLY DESK/0 1 {"id":2,"jsonrpc":"2.0","result":null}
2 0.000000 DESK/0 ENABLE INST HS TEMP1
REPLY DESK/0 2 {"id":3,"jsonrpc":"2.0","result":null}
3 0.000000 DESK/0 INJECTED INST HS 00000001
EVENT INST HS TEMP1 STALE RED_LOW
REPLY DESK/0 3 {"id":4,"jsonrpc":"2.0","result":null}
REPLY DESK/0 4 {"id":5,"jsonrpc":"2.0","result":[["INST","HS","TEMP1","RED_LOW"]]}
END 4
"#;

#[test]
fn calls_change_what_stands(rt: HostRuntime) -> Result<(), Fail> {
    replays_go_so(rt.alloc(), INSTRUMENT_DEFINITIONS, DEMO_SITE, CHANGES)
}

const DAY: &str = r#"
@ a day of the instrument
TIME 100 250000
OPEN INST_INT
OPEN AUX_INT
BYTES INST_INT 000601
BYTES AUX_INT 48490A
BYTES INST_INT 80000100
CALL 0 '{"jsonrpc":"2.0","method":"set_limits_set","params":["TVAC"],"id":1}'
BYTES INST_INT 0601900001
CALL 0 '{"jsonrpc":"2.0","method":"get_limits_set","id":2}'
CALL 0 '{"jsonrpc":"2.0","method":"tlm_with_units","params":["INST HS TEMP1"],"id":3}'
CALL 0 '{"jsonrpc":"2.0","method":"cmd","params":["INST COLLECT with DURATION 10"],"id":4}'
WRITE INST_INT 1
CLOSE INST_INT PEER
> Ok
0 100.250000 INST_INT OPENED
1 100.250000 AUX_INT OPENED
2 100.250000 AUX_INT PACKET AUX LINE 4849
3 100.250000 INST_INT PACKET INST HS 01800001
EVENT INST HS TEMP1 STALE GREEN
4 100.250000 DESK/0 LIMITSSET TVAC
REPLY DESK/0 4 {"id":1,"jsonrpc":"2.0","result":null}
5 100.250000 INST_INT PACKET INST HS 01900001
EVENT INST HS TEMP1 GREEN YELLOW_HIGH
REPLY DESK/0 6 {"id":2,"jsonrpc":"2.0","result":"TVAC"}
REPLY DESK/0 6 {"id":3,"jsonrpc":"2.0","result":"12.435 C"}
6 100.250000 DESK/0 COMMAND INST COLLECT 07000a
REPLY DESK/0 6 {"id":4,"jsonrpc":"2.0","result":["INST","COLLECT",{"DURATION":10}]}
WRITTEN INST_INT 000507000a
7 100.250000 INST_INT CLOSED PEER held 0 0 0 0 skipped 0 empty 0 unposted 0 unsent 0
END 8
"#;

#[test]
fn calls_go_on_between_what_devices_say(rt: HostRuntime) -> Result<(), Fail> {
    replays_go_so(rt.alloc(), INSTRUMENT_DEFINITIONS, DEMO_SITE, DAY)
}
