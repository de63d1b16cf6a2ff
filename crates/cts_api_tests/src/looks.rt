// What looks give for whole bodies.
use crate::hall::hall_of;
use crate::replies::call_of;
use cts_api::{Look, look};
use cts_rows::{Answers, readable_of, rows_end_so};
use cts_table::Hall;
use std::alloc::Global;
use std::test::Fail;

/// A method, its params, and what a look gives for the call: the response, or `appends` where the method may append.
const LOOKS: &str = r#"tlm|["T A V"]|Some('{"id":1,"jsonrpc":"2.0","result":1286}')
tlm|["X A V"]|Some('{"error":{"code":-32001,"message":"Unknown target"},"id":1,"jsonrpc":"2.0"}')
tlm|["T"]|Some('{"error":{"code":-32602,"message":"Invalid params"},"id":1,"jsonrpc":"2.0"}')
none|[]|Some('{"error":{"code":-32601,"message":"Method not found"},"id":1,"jsonrpc":"2.0"}')
get_limits_set|[]|Some('{"id":1,"jsonrpc":"2.0","result":"DEFAULT"}')
cmd|["T GO"]|appends
cmd|["T"]|appends
cmd|[1.5]|Some('{"error":{"code":-32602,"message":"Invalid params"},"id":1,"jsonrpc":"2.0"}')
cmd_no_checks|["T GO"]|appends
set_limits|["T","A","V",-80,-70,60,80]|appends
disable_limits|["T","A","V"]|appends
set_limits_set|["DAWN"]|appends
inject_tlm|["T","B",{}]|appends
stop_server|[]|appends"#;

struct Looks;

impl Answers for Looks {
    fn answer(alloc: Global, asked: &str) -> Result<String, Fail> {
        let body = call_of(alloc, asked)?;
        let hall = hall_of(alloc, 100)?;
        told_of_look(alloc, &hall, body.as_bytes())
    }
}

fn told_of_look(alloc: Global, hall: &Hall, body: &[u8]) -> Result<String, Fail> {
    match look(alloc, hall, body) {
        Ok(Look::Text(text)) => readable_of(alloc, &text),
        Ok(Look::Appends) => Ok("appends".to_string(alloc)?),
        Err(_) => Err(Fail::new("no memory")),
    }
}

#[test]
fn a_look_answers_what_appends_nothing(rt: HostRuntime) -> Result<(), Fail> {
    rows_end_so::<Looks>(rt.alloc(), LOOKS)
}
