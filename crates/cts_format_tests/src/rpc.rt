// What no clause says: bodies from outside with what they ask, and that texts are made where there is memory.
use crate::parts::bytes_of_parts;
use cts_rows::{
    Answers, bytes_by_number, display_of, field, number, readable_of, rows_end_so, same,
};
use cts_rpc::{Call, RpcFault, error_text, read, result_text};
use serde_json::Value;
use std::alloc::Global;
use std::test::Fail;

/// What a body asks, in one letter: a call with or without an id, or why it is none.
fn letter(asked: &Result<Call, RpcFault>) -> &'static str {
    match asked {
        Ok(Call { id: Some(_), .. }) => "C",
        Ok(Call { id: None, .. }) => "c",
        Err(RpcFault::ParseError) => "p",
        Err(RpcFault::InvalidRequest) => "r",
        Err(RpcFault::InvalidParams { id: Some(_) }) => "A",
        Err(RpcFault::InvalidParams { id: None }) => "a",
        Err(RpcFault::Memory) => "m",
    }
}

fn letter_of(alloc: Global, body: &[u8]) -> &'static str {
    letter(&read(alloc, body))
}

struct Bodies;

impl Answers for Bodies {
    fn answer(alloc: Global, asked: &str) -> Result<String, Fail> {
        let body = bytes_by_number(alloc, asked)?;
        display_of(alloc, &letter_of(alloc, &body))
    }
}

/// A body, and the letter that is wanted.
const BODIES: &str = r#"{"jsonrpc":"2.0","method":"get_limits_set","id":1}|C
{"jsonrpc":"2.0","method":"cmd","params":["INST COLLECT with DURATION 10"]}|c
{"jsonrpc":"2.0","method":"m","params":[[{"a":-9223372036854775808}]],"id":"x"}|C
{"jsonrpc":"2.0","method":"m","id":18446744073709551615,"more":1.5}|C
{"jsonrpc":"1.0","jsonrpc":"2.0","method":7,"method":"m"}|c
{"jsonrpc":"2.0","method":"m","params":[{"a":1.5,"a":2}]}|c
{"jsonrpc":"2.0","method":"\u0000","params":["\u0000\ud83d\ude00"],"id":"\u0000"}|C
{"jsonrpc": "2.0", "method": "subtract", "params": [42, 23], "id": 1}|C
{"jsonrpc": "2.0", "method": "update", "params": [1,2,3,4,5]}|c
{"jsonrpc": "2.0", "method": "foobar", "id": "1"}|C
{|p
|p
{"jsonrpc": "2.0", "method": "foobar, "params": "bar", "baz]|p
{"jsonrpc":"2.0","method":"m"}x|p
{"jsonrpc":"2.0","method":"\ud800"}|p
{"jsonrpc":"2.0","method":"m","params":[1e400]}|p
{"jsonrpc":"2.0","method":"m","params":[01]}|p
{"jsonrpc":"2.0","method":"\udc00"}|p
{"jsonrpc":"2.0","method":"\udc00\ud800"}|p
{"jsonrpc":"2.0","method":"m","params":[NaN]}|p
{"jsonrpc":"2.0","method":"m","params":[Infinity]}|p
{"jsonrpc":"2.0","method":"m","params":[1,]}|p
{"jsonrpc":"2.0","method":"m",}|p
{"jsonrpc":"2.0","method":"m","params":[+1]}|p
{"jsonrpc":"2.0","method":"m","params":[.5]}|p
{"jsonrpc":"2.0","method":"m","params":[5.]}|p
{'jsonrpc':'2.0','method':'m'}|p
{"jsonrpc":"2.0","method":"m","params":[1.5],"params":[1]}|c
{"jsonrpc":"2.0","method":"m","params":[1],"params":{}}|a
{"json\u0072pc":"2.0","metho\u0064":"m","\u0069d":1}|C
1|r
null|r
[]|r
[1]|r
{"jsonrpc": "2.0", "method": 1, "params": "bar"}|r
[{"jsonrpc":"2.0","method":"m"}]|r
[{"jsonrpc":"2.0","method":"m","id":1},{"jsonrpc":"2.0","method":"m","id":2}]|r
{}|r
{"method":"m"}|r
{"jsonrpc":2.0,"method":"m"}|r
{"jsonrpc":"2","method":"m","id":1}|r
{"jsonrpc":"2.0"}|r
{"a":[1.5]}|r
{"jsonrpc":"2.0","method":null}|r
{"jsonrpc":"2.0","method":"m","params":null,"id":1}|r
{"jsonrpc":"2.0","method":"m","params":"a"}|r
{"jsonrpc":"2.0","method":"m","id":1.0}|r
{"jsonrpc":"2.0","method":"m","id":-0}|r
{"jsonrpc":"2.0","method":"m","id":true}|r
{"jsonrpc":"2.0","method":"m","id":[]}|r
{"jsonrpc":"2.0","method":"m","params":{},"id":{}}|r
{"jsonrpc":"2.0","method":"m","params":{},"id":1}|A
{"jsonrpc":"2.0","method":"no such","params":{"a":1}}|a
{"jsonrpc": "2.0", "method": "subtract", "params": {"subtrahend": 23, "minuend": 42}, "id": 3}|A
{"jsonrpc":"2.0","method":"m","params":[1.5],"id":null}|A
{"jsonrpc":"2.0","method":"m","params":[[],{"a":[1e2]}],"id":1}|A
{"jsonrpc":"2.0","method":"m","params":[-0]}|a
{"jsonrpc":"2.0","method":"m","params":[1.0]}|a
{"jsonrpc":"2.0","method":"m","params":[-9223372036854775809]}|a
{"jsonrpc":"2.0","method":"m","params":[18446744073709551616]}|a"#;

#[test]
fn bodies_are_calls_or_say_why_not(rt: HostRuntime) -> Result<(), Fail> {
    rows_end_so::<Bodies>(rt.alloc(), BODIES)
}

/// The same of bodies whose bytes are the numbers of characters: blanks and a tab around a call, a method with a byte ff, with the
/// control bytes 00, 09 and 1f, which stand in a text as `\u` and digits alone, with 7f, which may stand as it is, and a call after a
/// byte order mark.
const BYTES: &str = "\x20{\"id\":null,\"method\":\"\",\"jsonrpc\":\"2.0\",\"params\":[]} \t|C
{\"jsonrpc\":\"2.0\",\"method\":\"\u{ff}\"}|p
{\"jsonrpc\":\"2.0\",\"method\":\"\u{c0}\u{af}\"}|p
{\"jsonrpc\":\"2.0\",\"method\":\"\u{ed}\u{a0}\u{80}\"}|p
{\"jsonrpc\":\"2.0\",\"method\":\"\u{f4}\u{90}\u{80}\u{80}\"}|p
{\"jsonrpc\":\"2.0\",\"method\":\"\u{c3}\"}|p
{\"jsonrpc\":\"2.0\",\"method\":\"a\0\"}|p
{\"jsonrpc\":\"2.0\",\"method\":\"a\t\"}|p
{\"jsonrpc\":\"2.0\",\"method\":\"m\",\"params\":[\"\u{1f}\"]}|p
{\"jsonrpc\":\"2.0\",\"method\":\"\u{7f}\"}|c
\u{ef}\u{bb}\u{bf}{\"jsonrpc\":\"2.0\",\"method\":\"m\"}|p";

#[test]
fn a_body_is_text(rt: HostRuntime) -> Result<(), Fail> {
    rows_end_so::<Bodies>(rt.alloc(), BYTES)
}

/// Numbers of many digits: an integer that no 64 bits hold, and a fraction that is none when it is rounded.
const DIGITS: &str = r#"1*{"jsonrpc":"2.0","method":"m","params":[|100000*9|1*]}|p
1*{"jsonrpc":"2.0","method":"m","params":[0.|100000*0|1*1]}|a
1*{"jsonrpc":"2.0","method":"m","params":[1|100000*0|1*e-100000]}|a"#;

#[test]
fn numbers_may_have_many_digits(rt: HostRuntime) -> Result<(), Fail> {
    rows_end_so::<Depths>(rt.alloc(), DIGITS)
}

/// Bodies whose params are 126 arrays in one another, and 127; 125 objects in one array, and 126; 126 objects, and 127; and a member
/// without a meaning that nests as deep.
const DEPTHS: &str = r#"1*{"jsonrpc":"2.0","method":"m","params":|126*[|126*]|1*}|c
1*{"jsonrpc":"2.0","method":"m","params":|127*[|127*]|1*}|p
1*{"jsonrpc":"2.0","method":"m","params":[|125*{"a":|1*1|125*}|1*]}|c
1*{"jsonrpc":"2.0","method":"m","params":[|126*{"a":|1*1|126*}|1*]}|p
1*{"jsonrpc":"2.0","method":"m","params":|126*{"a":|1*1|126*}|1*}|a
1*{"jsonrpc":"2.0","method":"m","params":|127*{"a":|1*1|127*}|1*}|p
1*{"jsonrpc":"2.0","method":"m","id":1,"more":|63*[{"a":|1*1|63*}]|1*}|C
1*{"jsonrpc":"2.0","method":"m","id":1,"more":|64*[{"a":|1*1|64*}]|1*}|p"#;

/// What a body of repeated parts asks.
struct Depths;

impl Answers for Depths {
    fn answer(alloc: Global, asked: &str) -> Result<String, Fail> {
        let body = bytes_of_parts(alloc, asked)?;
        display_of(alloc, &letter_of(alloc, &body))
    }
}

#[test]
fn arrays_and_objects_nest_at_most_127_deep(rt: HostRuntime) -> Result<(), Fail> {
    rows_end_so::<Depths>(rt.alloc(), DEPTHS)
}

const TLM: &[u8] =
    b"{\"jsonrpc\":\"2.0\",\"method\":\"tlm\",\"params\":[\"a\",1,{\"x\":-2}],\"id\":\"7\"}";

/// A call's method, how many params it has, and the response that gives them back.
fn told_of_call(alloc: Global, asked: Result<Call, RpcFault>) -> Result<String, Fail> {
    let Ok(call) = asked else {
        return Err(Fail::new("no call"));
    };
    let Call { method, params, id } = call;
    let count = params.len();
    let params = Value::Array(params.into_vec());
    let text = result_text(alloc, &id.unwrap_or(Value::Null), params);
    readable_of(alloc, &(method, count, text))
}

#[test]
fn a_call_has_its_parts(rt: HostRuntime) -> Result<(), Fail> {
    let found = told_of_call(rt.alloc(), read(rt.alloc(), TLM))?;
    let wanted = r#"('tlm', 3, Ok('{"id":"7","jsonrpc":"2.0","result":["a",1,{"x":-2}]}'))"#;
    same(found.as_str(), wanted, "a call")
}

/// The id of a response, its result, and its text; also of those with a fraction, which no body of a request hands on.
const RESULTS: &str =
    r#"1.5|result|[-0,{"a":1e300}]|Ok('{"id":1.5,"jsonrpc":"2.0","result":[-0.0,{"a":1e+300}]}')
1|result|"DEFAULT"|Ok('{"id":1,"jsonrpc":"2.0","result":"DEFAULT"}')
null|result|["INST","COLLECT",{"DURATION":10}]|Ok('{"id":null,"jsonrpc":"2.0","result":["INST","COLLECT",{"DURATION":10}]}')"#;

/// The id of a response, the code and the message of its error, and its text. In both texts each character is the byte of its
/// number, and in the message `;` is a line feed.
const ERRORS: &str = "\
null|-32700|Parse error|Ok('{\"error\":{\"code\":-32700,\"message\":\"Parse error\"},\"id\":null,\"jsonrpc\":\"2.0\"}')
1|-32002|Unknown parameter: \"\x01\x7f\u{c3}\u{a9}\\;|Ok('{\"error\":{\"code\":-32002,\"message\":\"Unknown parameter: \\\"\\u0001\x7f\u{c3}\u{a9}\\\\\\n\"},\"id\":1,\"jsonrpc\":\"2.0\"}')
1|-9223372036854775808||Ok('{\"error\":{\"code\":-9223372036854775808,\"message\":\"\"},\"id\":1,\"jsonrpc\":\"2.0\"}')";

/// The response to an id.
struct Replies;

impl Answers for Replies {
    fn answer(alloc: Global, asked: &str) -> Result<String, Fail> {
        let id = json_of(alloc, field(asked, 0))?;
        reply_of(alloc, &id, field(asked, 1), field(asked, 2))
    }
}

/// The response with this result, or with an error of this code and message.
fn reply_of(alloc: Global, id: &Value, code: &str, text: &str) -> Result<String, Fail> {
    if code == "result" {
        return result_of(alloc, id, text);
    }
    error_of(alloc, id, number(code, 0)?, text)
}

fn result_of(alloc: Global, id: &Value, value: &str) -> Result<String, Fail> {
    let value = json_of(alloc, value)?;
    readable_of(alloc, &result_text(alloc, id, value))
}

fn error_of(alloc: Global, id: &Value, code: i64, message: &str) -> Result<String, Fail> {
    let message = bytes_by_number(alloc, message)?;
    readable_of(alloc, &error_text(alloc, id, code, &message))
}

fn json_of(alloc: Global, text: &str) -> Result<Value, Fail> {
    match Value::from_str(alloc, text) {
        Ok(value) => Ok(value),
        Err(_) => Err(Fail::new("no JSON")),
    }
}

#[test]
fn texts_of_responses(rt: HostRuntime) -> Result<(), Fail> {
    rows_end_so::<Replies>(rt.alloc(), RESULTS)?;
    rows_end_so::<Replies>(rt.alloc(), ERRORS)
}
