// Calls that send commands, and what interfaces write of them.
use crate::instrument::INSTRUMENT_DEFINITIONS;
use crate::table::{replays_end_so, replays_go_so};
use std::test::Fail;

/// The interfaces of its demo, of which the first gives commands their length.
pub(crate) const DEMO_SITE: &str = "\
TITLE \"Demo\";\
INTERFACE INST_INT tcpip_client_interface.rb localhost 8080 8080 10.0 nil LENGTH 0 16 0 1 BIG_ENDIAN 2 nil nil true;\
  TARGET INST;\
INTERFACE AUX_INT tcpip_client_interface.rb localhost 8081 8081 10.0 nil TERMINATED 0x0A 0x0A;\
  TARGET AUX";

const WRITES: &str = r#"
@ a command is written, and one is left at the end
OPEN INST_INT
CALL 0 '{"jsonrpc":"2.0","method":"cmd","params":["INST COLLECT with DURATION 10"],"id":1}'
WRITE INST_INT 1
CALL 2 '{"jsonrpc":"2.0","method":"cmd","params":["INST COLLECT with DURATION 9"],"id":2}'
CLOSE INST_INT PEER
> Ok
0 0.000000 INST_INT OPENED
1 0.000000 DESK/0 COMMAND INST COLLECT 07000a
REPLY DESK/0 1 {"id":1,"jsonrpc":"2.0","result":["INST","COLLECT",{"DURATION":10}]}
WRITTEN INST_INT 000507000a
2 0.000000 DESK/2 COMMAND INST COLLECT 070009
REPLY DESK/2 2 {"id":2,"jsonrpc":"2.0","result":["INST","COLLECT",{"DURATION":9}]}
3 0.000000 INST_INT CLOSED PEER held 0 0 0 0 skipped 0 empty 0 unposted 0 unsent 1
END 4
@ the one command is written twice
OPEN INST_INT
CALL 0 '{"jsonrpc":"2.0","method":"cmd","params":["INST COLLECT with DURATION 10"]}'
WRITE INST_INT 1
WRITE INST_INT 1
> ScriptRefused
0 0.000000 INST_INT OPENED
1 0.000000 DESK/0 COMMAND INST COLLECT 07000a
REPLY DESK/0 1 -
WRITTEN INST_INT 000507000a
refused: c line 4: NotEnabled
@ commands before a connection and of an earlier one
CALL 0 '{"jsonrpc":"2.0","method":"cmd","params":["INST COLLECT"],"id":1}'
OPEN AUX_INT
TIME 3 4
OPEN INST_INT
call 0 '{"jsonrpc":"2.0","method":"cmd","params":["inst Collect WITH duration 0x0A "],"id":2}'
CLOSE INST_INT PEER
OPEN INST_INT
WRITE INST_INT 1
> ScriptRefused
REPLY DESK/0 0 {"error":{"code":-32002,"message":"Not connected: INST_INT"},"id":1,"jsonrpc":"2.0"}
0 0.000000 AUX_INT OPENED
1 3.000004 INST_INT OPENED
2 3.000004 DESK/0 COMMAND INST COLLECT 07000a
REPLY DESK/0 2 {"id":2,"jsonrpc":"2.0","result":["INST","COLLECT",{"DURATION":10}]}
3 3.000004 INST_INT CLOSED PEER held 0 0 0 0 skipped 0 empty 0 unposted 0 unsent 1
4 3.000004 INST_INT OPENED
refused: c line 8: NotEnabled
"#;

#[test]
fn commands_are_sent_and_written(rt: HostRuntime) -> Result<(), Fail> {
    replays_go_so(rt.alloc(), INSTRUMENT_DEFINITIONS, DEMO_SITE, WRITES)
}

const CHECKS: &str = r#"
@ values in range and out of it, by methods with and without checks
OPEN INST_INT
CALL 0 '{"jsonrpc":"2.0","method":"cmd","params":["INST COLLECT with DURATION 10"],"id":1}'
CALL 0 '{"jsonrpc":"2.0","method":"cmd","params":["INST COLLECT with DURATION 11"],"id":2}'
CALL 0 '{"jsonrpc":"2.0","method":"cmd_no_range_check","params":["INST COLLECT with DURATION 11"],"id":3}'
CALL 0 '{"jsonrpc":"2.0","method":"cmd_no_range_check","params":["INST COLLECT with DURATION 70000"],"id":4}'
CALL 0 '{"jsonrpc":"2.0","method":"cmd","params":["INST COLLECT with DURATION 1, DURATION 2"],"id":5}'
CALL 0 '{"jsonrpc":"2.0","method":"cmd","params":["INST COLLECT with DURATION"],"id":6}'
CALL 0 '{"jsonrpc":"2.0","method":"get_cmd_cnt","params":["INST","COLLECT"],"id":7}'
CLOSE INST_INT PEER
CALL 0 '{"jsonrpc":"2.0","method":"cmd","params":["INST COLLECT with DURATION 10"],"id":8}'
> Ok
0 0.000000 INST_INT OPENED
1 0.000000 DESK/0 COMMAND INST COLLECT 07000a
REPLY DESK/0 1 {"id":1,"jsonrpc":"2.0","result":["INST","COLLECT",{"DURATION":10}]}
REPLY DESK/0 2 {"error":{"code":-32002,"message":"Out of range: DURATION 11 not in 0..10"},"id":2,"jsonrpc":"2.0"}
2 0.000000 DESK/0 COMMAND INST COLLECT 07000b
REPLY DESK/0 2 {"id":3,"jsonrpc":"2.0","result":["INST","COLLECT",{"DURATION":11}]}
REPLY DESK/0 3 {"error":{"code":-32002,"message":"Overflow: DURATION"},"id":4,"jsonrpc":"2.0"}
REPLY DESK/0 3 {"error":{"code":-32002,"message":"Given twice: DURATION"},"id":5,"jsonrpc":"2.0"}
REPLY DESK/0 3 {"error":{"code":-32602,"message":"Invalid params"},"id":6,"jsonrpc":"2.0"}
REPLY DESK/0 3 {"id":7,"jsonrpc":"2.0","result":2}
3 0.000000 INST_INT CLOSED PEER held 0 0 0 0 skipped 0 empty 0 unposted 0 unsent 2
REPLY DESK/0 4 {"error":{"code":-32002,"message":"Not connected: INST_INT"},"id":8,"jsonrpc":"2.0"}
END 4
"#;

#[test]
fn methods_leave_checks_out(rt: HostRuntime) -> Result<(), Fail> {
    replays_go_so(rt.alloc(), INSTRUMENT_DEFINITIONS, DEMO_SITE, CHECKS)
}

const DEFINITIONS: &str = "\
COMMAND INST COLLECT BIG_ENDIAN;\
APPEND_ID_PARAMETER OPCODE 8 UINT 7 7 7;\
APPEND_PARAMETER DURATION 16 UINT 0 10 5;\
APPEND_PARAMETER LABEL 16 STRING 'AB';\
COMMAND INST ARM BIG_ENDIAN;\
APPEND_PARAMETER KEY 8 UINT 0 9 1;\
REQUIRED;\
APPEND_PARAMETER MODE 8 UINT 0 1 0;\
STATE OFF 0;\
STATE ON 1 HAZARDOUS 'It may move';\
COMMAND PUMP GO BIG_ENDIAN;\
APPEND_PARAMETER SPEED 8 UINT 0 255 1";

const SITE: &str =
    "INTERFACE I tcpip_client_interface.rb h 1 1 nil nil LENGTH 0 16 0 1;TARGET INST";

const REFUSAL: &str =
    r#"CALL 0 '{"jsonrpc":"2.0","method":"cmd","params":["$"],"id":1}'|Ok REPLY DESK/0 0 {"error":{"code":$},"id":1,"jsonrpc":"2.0"};END 0;"#;

// Command texts, and the code and the message of each. A text is asked for its form first, then for each check in its order, and
// then for its route.
const REFUSALS: &str = r#"an empty text||-32602,"message":"Invalid params"
no command|INST|-32602,"message":"Invalid params"
no with|INST COLLECT DURATION 1|-32602,"message":"Invalid params"
nothing after with|INST COLLECT with|-32602,"message":"Invalid params"
no value|INST COLLECT with DURATION|-32602,"message":"Invalid params"
an open quote|INST COLLECT with LABEL \"AB|-32602,"message":"Invalid params"
another target, and nothing after with|MOTOR GO with|-32602,"message":"Invalid params"
another target|MOTOR GO|-32002,"message":"Unknown target"
another command|INST GO with DURATION 11|-32002,"message":"Unknown command"
an unknown parameter before all else|INST COLLECT with speed 1, DURATION 1, DURATION 2|-32002,"message":"Unknown parameter: speed"
a parameter twice|INST ARM with mode 0, MODE 1|-32002,"message":"Given twice: MODE"
a required parameter|INST ARM with MODE ten|-32002,"message":"Missing: KEY"
a value of another type|INST COLLECT with DURATION ten, LABEL 5|-32002,"message":"Wrong type: DURATION"
an unknown state, before a range|INST ARM with MODE IDLE, KEY 10|-32002,"message":"Unknown state: MODE"
a range, before a text that is too long|INST COLLECT with DURATION -1, LABEL ABC|-32002,"message":"Out of range: DURATION -1 not in 0..10"
a number out of range|INST COLLECT with DURATION 11|-32002,"message":"Out of range: DURATION 11 not in 0..10"
a text that is too long|INST COLLECT with LABEL ABC|-32002,"message":"Overflow: LABEL"
a hazardous state|INST ARM with KEY 1, MODE ON|-32002,"message":"Hazardous"
a hazardous number|INST ARM with KEY 1, MODE 1|-32002,"message":"Hazardous"
a byte that is too great|PUMP GO with SPEED 256|-32002,"message":"Out of range: SPEED 256 not in 0..255"
a target without interface|PUMP GO|-32002,"message":"No interface"
an interface that is not connected|INST ARM with KEY 1|-32002,"message":"Not connected: I""#;

#[test]
fn each_refusal_of_a_command_has_its_message(rt: HostRuntime) -> Result<(), Fail> {
    replays_end_so(rt.alloc(), DEFINITIONS, SITE, REFUSAL, REFUSALS)
}

const SENT: &str =
    r#"OPEN I;CALL 0 '{"jsonrpc":"2.0","method":"$","params":$,"id":1}'|Ok 0 0.000000 I OPENED;1 0.000000 DESK/0 COMMAND $;REPLY DESK/0 1 {"id":1,"jsonrpc":"2.0","result":$};END 2;"#;

// What is not given is the default, and what is given by a state its value; a shorter text is filled up. The same may be given in
// an object, and hazards are taken by the methods that do not ask for them. Each row has a method, params, the bytes and the result.
const BYTES: &str = r#"defaults|cmd|["INST COLLECT"]|INST COLLECT 0700054142|["INST","COLLECT",{}]
any case, and a short text|cmd|["inst collect with duration 10, label x"]|INST COLLECT 07000a7800|["INST","COLLECT",{"DURATION":10,"LABEL":"x"}]
a text with a blank|cmd|["INST COLLECT with LABEL \"a \", DURATION 0"]|INST COLLECT 0700006120|["INST","COLLECT",{"DURATION":0,"LABEL":"a "}]
a state by its name|cmd|["INST ARM with KEY 9, MODE off"]|INST ARM 0900|["INST","ARM",{"KEY":9,"MODE":"off"}]
the three parts in a list|cmd|["inst","arm",{"mode":"OFF","key":8}]|INST ARM 0800|["INST","ARM",{"KEY":8,"MODE":"OFF"}]
a hazard that is not checked|cmd_no_hazardous_check|["INST ARM with MODE ON, KEY 1"]|INST ARM 0101|["INST","ARM",{"KEY":1,"MODE":"ON"}]
nothing is checked|cmd_no_checks|["INST","ARM",{"KEY":10,"MODE":1}]|INST ARM 0a01|["INST","ARM",{"KEY":10,"MODE":1}]"#;

#[test]
fn commands_hold_what_is_given_and_else_the_defaults(rt: HostRuntime) -> Result<(), Fail> {
    replays_end_so(rt.alloc(), DEFINITIONS, SITE, SENT, BYTES)
}
