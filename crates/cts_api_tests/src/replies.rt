// What desks reply to whole bodies, and what they append.
use crate::hall::{hall_of, stored_hall};
use cts_api::{Answer, answer, reply};
use cts_base::Bytes;
use cts_def::{FIRST_DESK, Time};
use cts_entry::has_ended;
use cts_rows::{Answers, as_text, cut, number, readable_of, rows_end_so, same};
use cts_rpc::{Call, read};
use cts_script::entry_lines;
use cts_table::Hall;
use cts_trace::lend;
use serde_json::Value;
use std::alloc::Global;
use std::test::Fail;

const NOW: Time = Time {
    seconds: 5,
    micros: 7,
};

/// What desk 0 replies to a body.
pub fn asked(alloc: Global, hall: &mut Hall, body: &[u8]) -> Result<Answer, Fail> {
    if hall.site().desks == 0 || has_ended(hall, FIRST_DESK) {
        return Err(Fail::new("no desk"));
    }
    match reply(alloc, hall, FIRST_DESK, NOW, body) {
        Ok(answer) => Ok(answer),
        Err(_) => Err(Fail::new("no memory")),
    }
}

/// The response to a body, if it has one, and how many entries the hall has then.
fn told(alloc: Global, hall: &mut Hall, body: &[u8]) -> Result<String, Fail> {
    let answer = asked(alloc, hall, body)?;
    readable_of(alloc, &(answer.text, hall.count()))
}

/// The body of a method and its params, with a bar between.
pub fn call_of(alloc: Global, row: &str) -> Result<String, Fail> {
    let (method, params) = cut(row, '|')?;
    Ok(format!(in alloc;
        "{{\"jsonrpc\":\"2.0\",\"method\":\"{method}\",\"params\":{params},\"id\":1}}"
    )?)
}

/// A method, its params, its response, and how many entries there are then: it appends nothing to the two that there were.
const ANSWERS: &str = r#"tlm|[" t A\tV "]|(Some('{"id":1,"jsonrpc":"2.0","result":1286}'), 2)
tlm_raw|["T","a","w"]|(Some('{"id":1,"jsonrpc":"2.0","result":-1}'), 2)
tlm_raw|["T A X"]|(Some('{"id":1,"jsonrpc":"2.0","result":"0x0a"}'), 2)
tlm_formatted|["T A V"]|(Some('{"id":1,"jsonrpc":"2.0","result":"1286"}'), 2)
tlm_with_units|["T A V"]|(Some('{"id":1,"jsonrpc":"2.0","result":"1286 C"}'), 2)
tlm|["T A RECEIVED_COUNT"]|(Some('{"id":1,"jsonrpc":"2.0","result":1}'), 2)
tlm|["X A V"]|(Some('{"error":{"code":-32001,"message":"Unknown target"},"id":1,"jsonrpc":"2.0"}'), 2)
tlm|["UNKNOWN UNKNOWN V"]|(Some('{"error":{"code":-32001,"message":"Unknown target"},"id":1,"jsonrpc":"2.0"}'), 2)
tlm|["T X V"]|(Some('{"error":{"code":-32001,"message":"Unknown packet"},"id":1,"jsonrpc":"2.0"}'), 2)
tlm|["T A Y"]|(Some('{"error":{"code":-32001,"message":"Unknown item"},"id":1,"jsonrpc":"2.0"}'), 2)
tlm|["T B Y"]|(Some('{"error":{"code":-32001,"message":"Unknown item"},"id":1,"jsonrpc":"2.0"}'), 2)
tlm|["T B K"]|(Some('{"error":{"code":-32001,"message":"Never received"},"id":1,"jsonrpc":"2.0"}'), 2)
tlm|["T A V W"]|(Some('{"error":{"code":-32602,"message":"Invalid params"},"id":1,"jsonrpc":"2.0"}'), 2)
tlm|["T","A"]|(Some('{"error":{"code":-32602,"message":"Invalid params"},"id":1,"jsonrpc":"2.0"}'), 2)
tlm|[1]|(Some('{"error":{"code":-32602,"message":"Invalid params"},"id":1,"jsonrpc":"2.0"}'), 2)
tlm|[1.5]|(Some('{"error":{"code":-32602,"message":"Invalid params"},"id":1,"jsonrpc":"2.0"}'), 2)
TLM|["T A V"]|(Some('{"error":{"code":-32601,"message":"Method not found"},"id":1,"jsonrpc":"2.0"}'), 2)
TLM|[1.5]|(Some('{"error":{"code":-32602,"message":"Invalid params"},"id":1,"jsonrpc":"2.0"}'), 2)
TLM|{}|(Some('{"error":{"code":-32602,"message":"Invalid params"},"id":1,"jsonrpc":"2.0"}'), 2)
get_tlm_packet|["T","A","RAW"]|(Some('{"id":1,"jsonrpc":"2.0","result":[["K",1,null],["V",1286,"RED_HIGH"],["W",-1,null],["X","0x0a",null]]}'), 2)
get_tlm_packet|["T","B"]|(Some('{"error":{"code":-32001,"message":"Never received"},"id":1,"jsonrpc":"2.0"}'), 2)
get_tlm_packet|["UNKNOWN","UNKNOWN"]|(Some('{"error":{"code":-32001,"message":"Never received"},"id":1,"jsonrpc":"2.0"}'), 2)
get_tlm_packet|["T","A","raw"]|(Some('{"error":{"code":-32602,"message":"Invalid params"},"id":1,"jsonrpc":"2.0"}'), 2)
get_tlm_cnt|["T","A"]|(Some('{"id":1,"jsonrpc":"2.0","result":1}'), 2)
get_tlm_cnt|["unknown","UNKNOWN"]|(Some('{"id":1,"jsonrpc":"2.0","result":0}'), 2)
get_tlm_cnt|["UNKNOWN","A"]|(Some('{"error":{"code":-32001,"message":"Unknown packet"},"id":1,"jsonrpc":"2.0"}'), 2)
get_cmd_cnt|["T","GO"]|(Some('{"id":1,"jsonrpc":"2.0","result":0}'), 2)
get_cmd_cnt|["T","A"]|(Some('{"error":{"code":-32001,"message":"Unknown packet"},"id":1,"jsonrpc":"2.0"}'), 2)
get_limits|["T","A","V"]|(Some('{"id":1,"jsonrpc":"2.0","result":["DEFAULT",1,true,"0.0","10.0","100.0","200.0",null,null]}'), 2)
get_limits|["T","A","V","night"]|(Some('{"id":1,"jsonrpc":"2.0","result":["NIGHT",1,true,"0.0","10.0","2000.0","3000.0","20.0","30.0"]}'), 2)
get_limits|["T","A","V","DAWN"]|(Some('{"error":{"code":-32001,"message":"Unknown limits set"},"id":1,"jsonrpc":"2.0"}'), 2)
get_limits|["T","A","K","DAWN"]|(Some('{"error":{"code":-32001,"message":"No limits"},"id":1,"jsonrpc":"2.0"}'), 2)
get_limits|["T A V"]|(Some('{"error":{"code":-32602,"message":"Invalid params"},"id":1,"jsonrpc":"2.0"}'), 2)
get_limits_set|[]|(Some('{"id":1,"jsonrpc":"2.0","result":"DEFAULT"}'), 2)
get_limits_set|[1]|(Some('{"error":{"code":-32602,"message":"Invalid params"},"id":1,"jsonrpc":"2.0"}'), 2)
get_out_of_limits|[]|(Some('{"id":1,"jsonrpc":"2.0","result":[["T","A","V","RED_HIGH"]]}'), 2)
get_limits_events|[]|(Some('{"id":1,"jsonrpc":"2.0","result":[[1,"T","A","V","STALE","RED_HIGH"]]}'), 2)
get_limits_events|[2]|(Some('{"id":1,"jsonrpc":"2.0","result":[]}'), 2)
get_limits_events|[-1]|(Some('{"error":{"code":-32602,"message":"Invalid params"},"id":1,"jsonrpc":"2.0"}'), 2)
get_interface_names|[]|(Some('{"id":1,"jsonrpc":"2.0","result":["I","J"]}'), 2)
interface_state|["i"]|(Some('{"id":1,"jsonrpc":"2.0","result":"CONNECTED"}'), 2)
interface_state|["J"]|(Some('{"id":1,"jsonrpc":"2.0","result":"DISCONNECTED"}'), 2)
interface_state|["K"]|(Some('{"error":{"code":-32001,"message":"Unknown interface"},"id":1,"jsonrpc":"2.0"}'), 2)
set_limits|["X","A","V",-70,-80,60,80]|(Some('{"error":{"code":-32001,"message":"Unknown target"},"id":1,"jsonrpc":"2.0"}'), 2)
set_limits|["T","A","RECEIVED_COUNT",-70,-80,60,80]|(Some('{"error":{"code":-32001,"message":"Unknown item"},"id":1,"jsonrpc":"2.0"}'), 2)
set_limits|["T","A","W",-70,-80,60,80,1,2,"T-VAC"]|(Some('{"error":{"code":-32001,"message":"No limits"},"id":1,"jsonrpc":"2.0"}'), 2)
set_limits|["T","A","V",-70,-80,60,80,1,2,"T-VAC"]|(Some('{"error":{"code":-32001,"message":"Unknown limits set"},"id":1,"jsonrpc":"2.0"}'), 2)
set_limits|["T","A","V",-70,-80,60,80]|(Some('{"error":{"code":-32002,"message":"Limits order"},"id":1,"jsonrpc":"2.0"}'), 2)
set_limits|["T","A","V",-80,-70,60,80,1]|(Some('{"error":{"code":-32602,"message":"Invalid params"},"id":1,"jsonrpc":"2.0"}'), 2)
set_limits|["T","A","V",-80,-70,60,80,null,null]|(Some('{"error":{"code":-32602,"message":"Invalid params"},"id":1,"jsonrpc":"2.0"}'), 2)
set_limits|["T","A","V",-80,-70,60,80,1,2,"TVAC",0]|(Some('{"error":{"code":-32602,"message":"Invalid params"},"id":1,"jsonrpc":"2.0"}'), 2)
set_limits|["T","A","V",-80,-70,60,80,1,2,"TVAC",4294967296]|(Some('{"error":{"code":-32602,"message":"Invalid params"},"id":1,"jsonrpc":"2.0"}'), 2)
set_limits|["T","A","V",-80,-70,60,80,1,2,"TVAC",3,false,1]|(Some('{"error":{"code":-32602,"message":"Invalid params"},"id":1,"jsonrpc":"2.0"}'), 2)
set_limits|["T","A","V","1e3",-70,60,80]|(Some('{"error":{"code":-32602,"message":"Invalid params"},"id":1,"jsonrpc":"2.0"}'), 2)
disable_limits|["T","A","W"]|(Some('{"error":{"code":-32001,"message":"No limits"},"id":1,"jsonrpc":"2.0"}'), 2)
set_limits_set|["DAWN"]|(Some('{"error":{"code":-32001,"message":"Unknown limits set"},"id":1,"jsonrpc":"2.0"}'), 2)
set_limits_set|["T-VAC"]|(Some('{"error":{"code":-32001,"message":"Unknown limits set"},"id":1,"jsonrpc":"2.0"}'), 2)
cmd|["T"]|(Some('{"error":{"code":-32602,"message":"Invalid params"},"id":1,"jsonrpc":"2.0"}'), 2)
cmd|["T GO with"]|(Some('{"error":{"code":-32602,"message":"Invalid params"},"id":1,"jsonrpc":"2.0"}'), 2)
cmd|["T","GO",{"N":null}]|(Some('{"error":{"code":-32602,"message":"Invalid params"},"id":1,"jsonrpc":"2.0"}'), 2)
cmd|["X GO"]|(Some('{"error":{"code":-32002,"message":"Unknown target"},"id":1,"jsonrpc":"2.0"}'), 2)
cmd|["T STAY"]|(Some('{"error":{"code":-32002,"message":"Unknown command"},"id":1,"jsonrpc":"2.0"}'), 2)
cmd|["T GO with M 1, N 10"]|(Some('{"error":{"code":-32002,"message":"Unknown parameter: M"},"id":1,"jsonrpc":"2.0"}'), 2)
cmd|["T GO with N 1, n x"]|(Some('{"error":{"code":-32002,"message":"Given twice: N"},"id":1,"jsonrpc":"2.0"}'), 2)
cmd|["T","GO",{"N":"x"}]|(Some('{"error":{"code":-32002,"message":"Wrong type: N"},"id":1,"jsonrpc":"2.0"}'), 2)
cmd|["T GO with N 10"]|(Some('{"error":{"code":-32002,"message":"Out of range: N 10 not in 0..9"},"id":1,"jsonrpc":"2.0"}'), 2)
cmd_no_checks|["T GO with N 256"]|(Some('{"error":{"code":-32002,"message":"Overflow: N"},"id":1,"jsonrpc":"2.0"}'), 2)
cmd|["V GO"]|(Some('{"error":{"code":-32002,"message":"No interface"},"id":1,"jsonrpc":"2.0"}'), 2)
cmd|["V GO with N 10"]|(Some('{"error":{"code":-32002,"message":"Out of range: N 10 not in 0..9"},"id":1,"jsonrpc":"2.0"}'), 2)
cmd|["u go"]|(Some('{"error":{"code":-32002,"message":"Not connected: J"},"id":1,"jsonrpc":"2.0"}'), 2)
inject_tlm|["X","A",{"Y":"a"}]|(Some('{"error":{"code":-32001,"message":"Unknown target"},"id":1,"jsonrpc":"2.0"}'), 2)
inject_tlm|["UNKNOWN","UNKNOWN",{}]|(Some('{"error":{"code":-32001,"message":"Unknown target"},"id":1,"jsonrpc":"2.0"}'), 2)
inject_tlm|["T","X",{"Y":"a"}]|(Some('{"error":{"code":-32001,"message":"Unknown packet"},"id":1,"jsonrpc":"2.0"}'), 2)
inject_tlm|["T","A",{"K":"a","Y":1}]|(Some('{"error":{"code":-32001,"message":"Unknown item"},"id":1,"jsonrpc":"2.0"}'), 2)
inject_tlm|["T","A",{"RECEIVED_COUNT":1}]|(Some('{"error":{"code":-32001,"message":"Unknown item"},"id":1,"jsonrpc":"2.0"}'), 2)
inject_tlm|["T","A",{"K":256,"X":"a"}]|(Some('{"error":{"code":-32002,"message":"Wrong type: X"},"id":1,"jsonrpc":"2.0"}'), 2)
inject_tlm|["T","A",{"K":256,"V":65536}]|(Some('{"error":{"code":-32002,"message":"Overflow: K"},"id":1,"jsonrpc":"2.0"}'), 2)
inject_tlm|["T","A",{"K":null}]|(Some('{"error":{"code":-32602,"message":"Invalid params"},"id":1,"jsonrpc":"2.0"}'), 2)
inject_tlm|["T","A"]|(Some('{"error":{"code":-32602,"message":"Invalid params"},"id":1,"jsonrpc":"2.0"}'), 2)
stop_server|[1]|(Some('{"error":{"code":-32602,"message":"Invalid params"},"id":1,"jsonrpc":"2.0"}'), 2)"#;

struct Calls;

impl Answers for Calls {
    fn answer(alloc: Global, asked: &str) -> Result<String, Fail> {
        let body = call_of(alloc, asked)?;
        let mut hall = hall_of(alloc, 100)?;
        told(alloc, &mut hall, body.as_bytes())
    }
}

#[test]
fn look_ups_and_refusals_are_replied_and_append_nothing(rt: HostRuntime) -> Result<(), Fail> {
    rows_end_so::<Calls>(rt.alloc(), ANSWERS)
}

/// The same where the one packet was stored: it was never received, is not counted and changes no limits state.
const STORED: &str =
    r#"tlm|["T A V"]|(Some('{"error":{"code":-32001,"message":"Never received"},"id":1,"jsonrpc":"2.0"}'), 2)
get_tlm_packet|["T","A"]|(Some('{"error":{"code":-32001,"message":"Never received"},"id":1,"jsonrpc":"2.0"}'), 2)
get_tlm_cnt|["T","A"]|(Some('{"id":1,"jsonrpc":"2.0","result":0}'), 2)
get_out_of_limits|[]|(Some('{"id":1,"jsonrpc":"2.0","result":[]}'), 2)
get_limits_events|[]|(Some('{"id":1,"jsonrpc":"2.0","result":[]}'), 2)"#;

struct Stored;

impl Answers for Stored {
    fn answer(alloc: Global, asked: &str) -> Result<String, Fail> {
        let body = call_of(alloc, asked)?;
        let mut hall = stored_hall(alloc)?;
        told(alloc, &mut hall, body.as_bytes())
    }
}

#[test]
fn a_stored_packet_is_not_looked_up(rt: HostRuntime) -> Result<(), Fail> {
    rows_end_so::<Stored>(rt.alloc(), STORED)
}

/// The response to a body, how many entries it appends, and the last entry.
fn told_of_change(alloc: Global, body: &[u8]) -> Result<String, Fail> {
    let mut hall = hall_of(alloc, 100)?;
    told_of_change_in(alloc, &mut hall, body)
}

fn told_of_change_in(alloc: Global, hall: &mut Hall, body: &[u8]) -> Result<String, Fail> {
    let answer = asked(alloc, hall, body)?;
    let lines = last_lines(alloc, hall)?;
    let line = as_text(lines.as_slice())?.trim_end();
    readable_of(alloc, &(answer.text, answer.appended, line))
}

/// The lines of the last entry.
fn last_lines(alloc: Global, hall: &Hall) -> Result<Bytes, Fail> {
    let count = hall.count();
    if count == 0 {
        return Err(Fail::new("no entry"));
    }
    let last = lend(hall, count - 1);
    Ok(entry_lines(alloc, hall.site(), count - 1, last, &[])?)
}

/// Calls that append something: the method, its params, its response, how many entries it appends, and the entry.
const CHANGES: &str =
    r#"set_limits|["t","a","v",-80,"-70.5",60,80]|(Some('{"id":1,"jsonrpc":"2.0","result":null}'), 1, "2 5.000007 DESK/0 LIMITS T A V CUSTOM 1 ENABLED -80.0 -70.5 60.0 80.0")
set_limits|["T","A","V",-80,-70,60,80,1,2,"tvac",3,false]|(Some('{"id":1,"jsonrpc":"2.0","result":null}'), 1, "2 5.000007 DESK/0 LIMITS T A V TVAC 3 DISABLED -80.0 -70.0 60.0 80.0 1.0 2.0")
enable_limits|["T","A","V"]|(Some('{"id":1,"jsonrpc":"2.0","result":null}'), 1, "2 5.000007 DESK/0 ENABLE T A V")
disable_limits|["T","A","V"]|(Some('{"id":1,"jsonrpc":"2.0","result":null}'), 1, "2 5.000007 DESK/0 DISABLE T A V")
set_limits_set|["night"]|(Some('{"id":1,"jsonrpc":"2.0","result":null}'), 1, "2 5.000007 DESK/0 LIMITSSET NIGHT")
cmd|["t go with n 3"]|(Some('{"id":1,"jsonrpc":"2.0","result":["T","GO",{"N":3}]}'), 1, "2 5.000007 DESK/0 COMMAND T GO 03")
cmd|["T","GO",{"n":9}]|(Some('{"id":1,"jsonrpc":"2.0","result":["T","GO",{"N":9}]}'), 1, "2 5.000007 DESK/0 COMMAND T GO 09")
cmd|["T","GO"]|(Some('{"id":1,"jsonrpc":"2.0","result":["T","GO",{}]}'), 1, "2 5.000007 DESK/0 COMMAND T GO 01")
cmd_no_range_check|["T GO with N 10"]|(Some('{"id":1,"jsonrpc":"2.0","result":["T","GO",{"N":10}]}'), 1, "2 5.000007 DESK/0 COMMAND T GO 0a")
cmd_no_hazardous_check|["T GO"]|(Some('{"id":1,"jsonrpc":"2.0","result":["T","GO",{}]}'), 1, "2 5.000007 DESK/0 COMMAND T GO 01")
inject_tlm|["t","a",{"v":7}]|(Some('{"id":1,"jsonrpc":"2.0","result":null}'), 1, "2 5.000007 DESK/0 INJECTED T A 010007ff0a")
inject_tlm|["T","A",{"V":7,"W":-2,"v":8}]|(Some('{"id":1,"jsonrpc":"2.0","result":null}'), 1, "2 5.000007 DESK/0 INJECTED T A 010008fe0a")
inject_tlm|["T","B",{}]|(Some('{"id":1,"jsonrpc":"2.0","result":null}'), 1, "2 5.000007 DESK/0 INJECTED T B 00")
stop_server|[]|(Some('{"id":1,"jsonrpc":"2.0","result":null}'), 1, "2 5.000007 DESK/0 STOP")"#;

struct Changes;

impl Answers for Changes {
    fn answer(alloc: Global, asked: &str) -> Result<String, Fail> {
        let body = call_of(alloc, asked)?;
        told_of_change(alloc, body.as_bytes())
    }
}

#[test]
fn changes_have_their_entries(rt: HostRuntime) -> Result<(), Fail> {
    rows_end_so::<Changes>(rt.alloc(), CHANGES)
}

/// A change without an id has no response, and its entry all the same.
const SILENT: &str =
    r#"{"jsonrpc":"2.0","method":"cmd","params":["T GO"]}|(None, 1, "2 5.000007 DESK/0 COMMAND T GO 01")"#;

struct Silent;

impl Answers for Silent {
    fn answer(alloc: Global, asked: &str) -> Result<String, Fail> {
        told_of_change(alloc, asked.as_bytes())
    }
}

#[test]
fn a_change_without_an_id_is_done(rt: HostRuntime) -> Result<(), Fail> {
    rows_end_so::<Silent>(rt.alloc(), SILENT)
}

/// Calls of a history with no room for an entry: checks come first, then Full; what only asks has room.
const FULL: &str =
    r#"set_limits|["T","A","V",-80,-70,60,80]|(Some('{"error":{"code":-32003,"message":"History full"},"id":1,"jsonrpc":"2.0"}'), 2)
set_limits|["T","A","V",-70,-80,60,80]|(Some('{"error":{"code":-32002,"message":"Limits order"},"id":1,"jsonrpc":"2.0"}'), 2)
enable_limits|["T","A","V"]|(Some('{"error":{"code":-32003,"message":"History full"},"id":1,"jsonrpc":"2.0"}'), 2)
disable_limits|["T","A","W"]|(Some('{"error":{"code":-32001,"message":"No limits"},"id":1,"jsonrpc":"2.0"}'), 2)
set_limits_set|["NIGHT"]|(Some('{"error":{"code":-32003,"message":"History full"},"id":1,"jsonrpc":"2.0"}'), 2)
set_limits_set|["DAWN"]|(Some('{"error":{"code":-32001,"message":"Unknown limits set"},"id":1,"jsonrpc":"2.0"}'), 2)
cmd|["T GO"]|(Some('{"error":{"code":-32003,"message":"History full"},"id":1,"jsonrpc":"2.0"}'), 2)
cmd|["U GO"]|(Some('{"error":{"code":-32002,"message":"Not connected: J"},"id":1,"jsonrpc":"2.0"}'), 2)
inject_tlm|["T","A",{}]|(Some('{"error":{"code":-32003,"message":"History full"},"id":1,"jsonrpc":"2.0"}'), 2)
inject_tlm|["T","A",{"V":-1}]|(Some('{"error":{"code":-32002,"message":"Overflow: V"},"id":1,"jsonrpc":"2.0"}'), 2)
tlm|["T A V"]|(Some('{"id":1,"jsonrpc":"2.0","result":1286}'), 2)"#;

struct Full;

impl Answers for Full {
    fn answer(alloc: Global, asked: &str) -> Result<String, Fail> {
        let body = call_of(alloc, asked)?;
        let mut hall = hall_of(alloc, 2)?;
        told(alloc, &mut hall, body.as_bytes())
    }
}

#[test]
fn a_full_history_refuses_after_all_checks(rt: HostRuntime) -> Result<(), Fail> {
    rows_end_so::<Full>(rt.alloc(), FULL)
}

/// A Stop has room in a full history, and a second one does nothing: both responses, and how many entries there are then.
const STOPS: &str =
    r#"stop_server|[]|(Some('{"id":1,"jsonrpc":"2.0","result":null}'), 3); (Some('{"id":1,"jsonrpc":"2.0","result":null}'), 3)"#;

struct Stops;

impl Answers for Stops {
    fn answer(alloc: Global, asked: &str) -> Result<String, Fail> {
        let body = call_of(alloc, asked)?;
        let mut hall = hall_of(alloc, 2)?;
        told_twice(alloc, &mut hall, body.as_bytes())
    }
}

fn told_twice(alloc: Global, hall: &mut Hall, body: &[u8]) -> Result<String, Fail> {
    let first = told(alloc, hall, body)?;
    let second = told(alloc, hall, body)?;
    Ok(format!(in alloc; "{first}; {second}")?)
}

#[test]
fn a_full_history_is_stopped_once(rt: HostRuntime) -> Result<(), Fail> {
    rows_end_so::<Stops>(rt.alloc(), STOPS)
}

/// Bodies, their responses, and how many entries there are then.
const BODIES: &str =
    r#"{|(Some('{"error":{"code":-32700,"message":"Parse error"},"id":null,"jsonrpc":"2.0"}'), 2)
[]|(Some('{"error":{"code":-32600,"message":"Invalid Request"},"id":null,"jsonrpc":"2.0"}'), 2)
[{"jsonrpc":"2.0","method":"get_limits_set","id":1},{"jsonrpc":"2.0","method":"stop_server"}]|(Some('{"error":{"code":-32600,"message":"Invalid Request"},"id":null,"jsonrpc":"2.0"}'), 2)
{"method":"stop_server"}|(Some('{"error":{"code":-32600,"message":"Invalid Request"},"id":null,"jsonrpc":"2.0"}'), 2)
{"jsonrpc":"2.0","method":"stop_server","id":1.5}|(Some('{"error":{"code":-32600,"message":"Invalid Request"},"id":null,"jsonrpc":"2.0"}'), 2)
{"jsonrpc":"2.0","method":"tlm","params":["T A \u0000"],"id":"\u0000\u001f"}|(Some('{"error":{"code":-32001,"message":"Unknown item"},"id":"\u0000\u001f","jsonrpc":"2.0"}'), 2)
{"jsonrpc":"2.0","method":"cmd","params":["T GO with \u0000 1"],"id":1}|(Some('{"error":{"code":-32002,"message":"Unknown parameter: \u0000"},"id":1,"jsonrpc":"2.0"}'), 2)
{"jsonrpc":"2.0","method":"tlm","params":{},"id":"a"}|(Some('{"error":{"code":-32602,"message":"Invalid params"},"id":"a","jsonrpc":"2.0"}'), 2)
{"jsonrpc":"2.0","method":"tlm","params":{}}|(None, 2)
{"jsonrpc":"2.0","method":"none"}|(None, 2)
{"jsonrpc":"2.0","method":"cmd","params":["T GO with N 10"]}|(None, 2)
{"jsonrpc":"2.0","method":"get_limits_set"}|(None, 2)
{"jsonrpc":"2.0","method":"get_limits_set","id":null}|(Some('{"id":null,"jsonrpc":"2.0","result":"DEFAULT"}'), 2)
{"id":18446744073709551615,"method":"get_limits_set","jsonrpc":"2.0","id":-1}|(Some('{"id":-1,"jsonrpc":"2.0","result":"DEFAULT"}'), 2)"#;

struct Bodies;

impl Answers for Bodies {
    fn answer(alloc: Global, asked: &str) -> Result<String, Fail> {
        let mut hall = hall_of(alloc, 100)?;
        told(alloc, &mut hall, asked.as_bytes())
    }
}

#[test]
fn bodies_have_their_responses(rt: HostRuntime) -> Result<(), Fail> {
    rows_end_so::<Bodies>(rt.alloc(), BODIES)
}

/// A call of a method without params whose params are so many arrays in one another.
fn nested(alloc: Global, count: usize) -> Result<Vec<u8>, Fail> {
    let mut body = Vec::from_slice(
        alloc,
        b"{\"jsonrpc\":\"2.0\",\"method\":\"get_limits_set\",\"id\":1,\"params\":",
    )?;
    for _ in 0..count {
        body.push(b'[')?;
    }
    for _ in 0..count {
        body.push(b']')?;
    }
    body.push(b'}')?;
    Ok(body)
}

/// How many arrays stand in one another in the object of the call, and the response: 127 deep the params are read, and are too many;
/// 128 deep there is no JSON.
const DEPTHS: &str =
    r#"126|(Some('{"error":{"code":-32602,"message":"Invalid params"},"id":1,"jsonrpc":"2.0"}'), 2)
127|(Some('{"error":{"code":-32700,"message":"Parse error"},"id":null,"jsonrpc":"2.0"}'), 2)"#;

struct Depths;

impl Answers for Depths {
    fn answer(alloc: Global, asked: &str) -> Result<String, Fail> {
        let body = nested(alloc, number(asked, 0)?)?;
        let mut hall = hall_of(alloc, 100)?;
        told(alloc, &mut hall, &body)
    }
}

#[test]
fn params_nest_at_most_126_deep(rt: HostRuntime) -> Result<(), Fail> {
    rows_end_so::<Depths>(rt.alloc(), DEPTHS)
}

/// Gives an item limits in so many new sets, with the names S0, S1 and so on.
fn with_sets(alloc: Global, hall: &mut Hall, count: u32) -> Result<(), Fail> {
    for set in 0..count {
        let row = format!(in alloc;
            "set_limits|[\"T\",\"A\",\"V\",1,2,3,4,\"2.1\",\"2.2\",\"S{set}\"]"
        )?;
        let body = call_of(alloc, row.as_str())?;
        let answer = asked(alloc, hall, body.as_bytes())?;
        drop(answer);
    }
    Ok(())
}

/// How many sets are named after the two of the definitions, then a call, its response, and how many entries there are then: a 65th
/// set is refused after the order of its limits is checked, and a known one is taken.
const SETS: &str =
    r#"61|set_limits|["T","A","V",1,2,3,4,"2.1","2.2","MORE"]|(Some('{"id":1,"jsonrpc":"2.0","result":null}'), 64)
62|set_limits|["T","A","V",1,2,3,4,"2.1","2.2","MORE"]|(Some('{"error":{"code":-32002,"message":"Too many sets"},"id":1,"jsonrpc":"2.0"}'), 64)
62|set_limits|["T","A","V",1,2,3,4]|(Some('{"error":{"code":-32002,"message":"Too many sets"},"id":1,"jsonrpc":"2.0"}'), 64)
62|set_limits|["T","A","V",2,1,3,4]|(Some('{"error":{"code":-32002,"message":"Limits order"},"id":1,"jsonrpc":"2.0"}'), 64)
62|set_limits|["T","A","V",1,2,3,4,"2.1","2.2","s61"]|(Some('{"id":1,"jsonrpc":"2.0","result":null}'), 65)
62|set_limits_set|["MORE"]|(Some('{"error":{"code":-32001,"message":"Unknown limits set"},"id":1,"jsonrpc":"2.0"}'), 64)"#;

/// The response to a body after an item has limits in so many new sets.
fn told_after(alloc: Global, hall: &mut Hall, count: u32, body: &[u8]) -> Result<String, Fail> {
    with_sets(alloc, hall, count)?;
    told(alloc, hall, body)
}

struct Sets;

impl Answers for Sets {
    fn answer(alloc: Global, asked: &str) -> Result<String, Fail> {
        let (count, call) = cut(asked, '|')?;
        let body = call_of(alloc, call)?;
        let count = number(count, 0)?;
        let mut hall = hall_of(alloc, 100)?;
        told_after(alloc, &mut hall, count, body.as_bytes())
    }
}

#[test]
fn a_65th_set_is_too_many(rt: HostRuntime) -> Result<(), Fail> {
    rows_end_so::<Sets>(rt.alloc(), SETS)
}

/// What desk 0 answers to a call that was read before.
fn answered(alloc: Global, call: &Call) -> Result<String, Fail> {
    let mut hall = hall_of(alloc, 100)?;
    answered_in(alloc, &mut hall, call)
}

fn answered_in(alloc: Global, hall: &mut Hall, call: &Call) -> Result<String, Fail> {
    if hall.site().desks == 0 || has_ended(hall, FIRST_DESK) {
        return Err(Fail::new("no desk"));
    }
    match answer(alloc, hall, FIRST_DESK, NOW, call) {
        Ok(answer) => readable_of(alloc, &answer.text),
        Err(_) => Err(Fail::new("no memory")),
    }
}

/// A call that was read before is answered as its body is replied.
const READ: &str = r#"tlm|["T A V"]|Some('{"id":1,"jsonrpc":"2.0","result":1286}')"#;

/// The same with an id that has a fraction, which no body gives: a response with that id.
const FRACTIONS: &str = r#"tlm|["T A V"]|Some('{"id":1.5,"jsonrpc":"2.0","result":1286}')
tlm|["T A"]|Some('{"error":{"code":-32602,"message":"Invalid params"},"id":1.5,"jsonrpc":"2.0"}')
none|[]|Some('{"error":{"code":-32601,"message":"Method not found"},"id":1.5,"jsonrpc":"2.0"}')
tlm|["X A V"]|Some('{"error":{"code":-32001,"message":"Unknown target"},"id":1.5,"jsonrpc":"2.0"}')"#;

struct ReadCalls;

impl Answers for ReadCalls {
    fn answer(alloc: Global, asked: &str) -> Result<String, Fail> {
        let body = call_of(alloc, asked)?;
        match read(alloc, body.as_bytes()) {
            Ok(call) => answered(alloc, &call),
            Err(_) => Err(Fail::new("no call")),
        }
    }
}

struct WithFractions;

impl Answers for WithFractions {
    fn answer(alloc: Global, asked: &str) -> Result<String, Fail> {
        let body = call_of(alloc, asked)?;
        let Ok(call) = read(alloc, body.as_bytes()) else {
            return Err(Fail::new("no call"));
        };
        let call = Call {
            id: Some(Value::from(1.5)),
            ..call
        };
        answered(alloc, &call)
    }
}

#[test]
fn an_id_with_a_fraction_is_answered_with_it(rt: HostRuntime) -> Result<(), Fail> {
    rows_end_so::<WithFractions>(rt.alloc(), FRACTIONS)
}

#[test]
fn a_call_is_answered_as_its_body_is(rt: HostRuntime) -> Result<(), Fail> {
    rows_end_so::<ReadCalls>(rt.alloc(), READ)
}

/// The longest body that a request may have: a call after white space.
fn longest_body(alloc: Global) -> Result<Vec<u8>, Fail> {
    let call = b"{\"jsonrpc\":\"2.0\",\"method\":\"get_limits_set\",\"id\":1}";
    let mut body = vec![in alloc; b' '; 1_048_576 - call.len()]?;
    body.extend_from_slice(call)?;
    Ok(body)
}

#[test]
fn the_longest_body_is_replied(rt: HostRuntime) -> Result<(), Fail> {
    let body = longest_body(rt.alloc())?;
    let mut hall = hall_of(rt.alloc(), 100)?;
    let found = told(rt.alloc(), &mut hall, &body)?;
    let wanted = r#"(Some('{"id":1,"jsonrpc":"2.0","result":"DEFAULT"}'), 2)"#;
    same(found.as_str(), wanted, "the longest body")
}
