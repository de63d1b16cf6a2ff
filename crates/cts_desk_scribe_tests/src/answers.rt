// What clients of a desk are answered: whole and cut, refused, where the door fails, and where the server is stopped.
use crate::clients::{
    Asked, answered, answered_after_a_dial, answered_silently, entries_left, in_short,
};
use cts_rows::{asked_and_wanted, cut, number, same};
use std::alloc::Global;
use std::sync::Wait;
use std::test::Fail;

/// The request that stands for `$` in a row.
const CALL: &str =
    "POST / HTTP/1.1;Content-Length: 50;;{\"jsonrpc\":\"2.0\",\"method\":\"get_limits_set\",\"id\":1}";

/// The one without an id that stands for `@`.
const NOTED: &str =
    "POST / HTTP/1.1;Content-Length: 43;;{\"jsonrpc\":\"2.0\",\"method\":\"get_limits_set\"}";

/// The one that stops the server, for `!`.
const STOP: &str =
    "POST / HTTP/1.1;Content-Length: 47;;{\"jsonrpc\":\"2.0\",\"method\":\"stop_server\",\"id\":2}";

/// More than the bytes of any row.
const ALL: usize = 2_000_000;

// A row in which the requests stand, and what is wanted.
fn parts(alloc: Global, row: &str) -> Result<(String, &str), Fail> {
    let (asked, wanted) = asked_and_wanted(row)?;
    let asked = asked.replace(alloc, '$', CALL)?;
    let asked = asked.replace(alloc, '@', NOTED)?;
    Ok((asked.replace(alloc, '!', STOP)?, wanted))
}

/// What clients ask, and after the bar what is put to each, why the desk ends, the fronts of its requests and how many entries stand then.
const CLIENTS: &str =
    r#"$|HTTP/1.1 200 OK;Content-Type: application/json-rpc;Content-Length: 43;X-Cts-Front: 0;;{"id":1,"jsonrpc":"2.0","result":"DEFAULT"}&(Finished, [0], 1)
POST / HT^TP/1.1;Content-Length: 50;;{"jsonrpc":"2.0","method":"get_limits_set","id":1}|HTTP/1.1 200 OK;Content-Type: application/json-rpc;Content-Length: 43;X-Cts-Front: 0;;{"id":1,"jsonrpc":"2.0","result":"DEFAULT"}&(Finished, [0], 1)
POST / HTTP/1.1;Content-Length: 50;;{"jsonrpc":"2.0","method^":"get_limits_set","id":1}|HTTP/1.1 200 OK;Content-Type: application/json-rpc;Content-Length: 43;X-Cts-Front: 0;;{"id":1,"jsonrpc":"2.0","result":"DEFAULT"}&(Finished, [0], 1)
$$|HTTP/1.1 200 OK;Content-Type: application/json-rpc;Content-Length: 43;X-Cts-Front: 0;;{"id":1,"jsonrpc":"2.0","result":"DEFAULT"}HTTP/1.1 200 OK;Content-Type: application/json-rpc;Content-Length: 43;X-Cts-Front: 0;;{"id":1,"jsonrpc":"2.0","result":"DEFAULT"}&(Finished, [0, 0], 1)
$^$|HTTP/1.1 200 OK;Content-Type: application/json-rpc;Content-Length: 43;X-Cts-Front: 0;;{"id":1,"jsonrpc":"2.0","result":"DEFAULT"}HTTP/1.1 200 OK;Content-Type: application/json-rpc;Content-Length: 43;X-Cts-Front: 0;;{"id":1,"jsonrpc":"2.0","result":"DEFAULT"}&(Finished, [0, 0], 1)
$&$|HTTP/1.1 200 OK;Content-Type: application/json-rpc;Content-Length: 43;X-Cts-Front: 0;;{"id":1,"jsonrpc":"2.0","result":"DEFAULT"}&HTTP/1.1 200 OK;Content-Type: application/json-rpc;Content-Length: 43;X-Cts-Front: 0;;{"id":1,"jsonrpc":"2.0","result":"DEFAULT"}&(Finished, [0, 0], 1)
POST / HTTP/1.1;Content-Length: 1;;{|HTTP/1.1 200 OK;Content-Type: application/json-rpc;Content-Length: 75;X-Cts-Front: 0;;{"error":{"code":-32700,"message":"Parse error"},"id":null,"jsonrpc":"2.0"}&(Finished, [0], 1)
POST / HTTP/1.1;Content-Length: 43;;{"jsonrpc":"2.0","method":"get_limits_set"}|HTTP/1.1 204 No Content;X-Cts-Front: 0;;&(Finished, [0], 1)
POST / HTTP/1.1;Transfer-Encoding: chunked;;$|HTTP/1.1 501 Not Implemented;Content-Length: 0;Connection: close;;&(Finished, [], 1)
GET / HTTP/1.1;;|HTTP/1.1 405 Method Not Allowed;Allow: POST;Content-Length: 0;Connection: close;;&(Finished, [], 1)
POST / HTTP/1.1;;|HTTP/1.1 411 Length Required;Content-Length: 0;Connection: close;;&(Finished, [], 1)"#;

fn client_holds<W: Wait>(rt: &W, alloc: Global, row: &str, at_once: usize) -> Result<(), Fail> {
    let (texts, wanted) = parts(alloc, row)?;
    let asked = Asked {
        texts: &texts,
        at_once,
        failing: "",
    };
    same(&answered(rt, alloc, asked)?, wanted, row)
}

#[test]
fn clients_are_answered_however_their_bytes_are_cut(rt: HostRuntime) -> Result<(), Fail> {
    for row in CLIENTS.split('\n') {
        client_holds(&rt, rt.alloc(), row, ALL)?;
        client_holds(&rt, rt.alloc(), row, 1)?;
    }
    Ok(())
}

/// What clients ask, and after the bar the status of each response and what the desk leaves. What follows a request that is refused, or the
/// last one of a connection, has none.
const REQUESTS: &str = "\
$$GET / HTTP/1.1;;$|200 200 405 &(Finished, [0, 0], 1)
$@$|200 204 200 &(Finished, [0, 0, 0], 1)
$GET / HTTP/1.1;;$&$|200 405 &200 &(Finished, [0, 0], 1)
POST / HTTP/1.1;Content-Length: 50;;{\"js|&(Finished, [], 1)
$POST / HTT&$|200 &200 &(Finished, [0, 0], 1)
&$|&200 &(Finished, [0], 1)
POST / HTTP/1.1\r;Content-Length: 0\r;Transfer-Encoding: chunked\r;\r;$|501 &(Finished, [], 1)
POST / HTTP/1.1\r;Transfer-Encoding: chunked\r;Content-Length: 2\r;\r;{}$|501 &(Finished, [], 1)
POST / HTTP/1.1\r;Transfer-Encoding: identity\r;Content-Length: 2\r;\r;{}$|501 &(Finished, [], 1)
POST / HTTP/1.1\r;Content-Length: x\r;Transfer-Encoding: chunked\r;\r;$|400 &(Finished, [], 1)
POST / HTTP/1.1\r;Content-Length: 0\r;Content-Length: 1\r;\r;$|400 &(Finished, [], 1)
POST / HTTP/1.1\r;Content-Length: 2, 2\r;\r;{}$|400 &(Finished, [], 1)
POST / HTTP/1.1\r;Content-Length: 2\r;Content-Length: 2\r;\r;{}$|200 200 &(Finished, [0, 0], 1)
POST / HTTP/1.1\r;Content-Length: +2\r;\r;{}$|400 &(Finished, [], 1)
POST / HTTP/1.1\r;Content-Length: -2\r;\r;{}$|400 &(Finished, [], 1)
POST / HTTP/1.1\r;Content-Length: 0x2\r;\r;{}$|400 &(Finished, [], 1)
POST / HTTP/1.1\r;Content-Length:\r;\r;$|400 &(Finished, [], 1)
POST / HTTP/1.1\r;Content-Length: 002 \r;\r;{}$|200 200 &(Finished, [0, 0], 1)
POST / HTTP/1.1\r;Content-Length : 2\r;\r;{}$|400 &(Finished, [], 1)
POST / HTTP/1.1\r;X: a\r; b\r;Content-Length: 2\r;\r;{}$|400 &(Finished, [], 1)
POST / HTTP/1.1\r;X: a\rb\r;Content-Length: 2\r;\r;{}$|400 &(Finished, [], 1)
POST / HTTP/1.1\r;X: a\0b\r;Content-Length: 2\r;\r;{}$|400 &(Finished, [], 1)
POST /\u{ff} HTTP/1.1\r;Content-Length: 2\r;\r;{}$|400 &(Finished, [], 1)
POST / HTTP/2.0\r;Content-Length: 2\r;\r;{}$|400 &(Finished, [], 1)
post / HTTP/1.1\r;Content-Length: 2\r;\r;{}$|405 &(Finished, [], 1)
POST / HTTP/1.1\r;\r;$|411 &(Finished, [], 1)
POST / HTTP/1.1\r;Content-Length: 999999999999999999999999999999\r;\r;$|413 &(Finished, [], 1)
POST / HTTP/1.1\r;Content-Length: 1048577\r;\r;$|413 &(Finished, [], 1)
\r;\r;$\r;$|200 200 &(Finished, [0, 0], 1)
POST http://host:80/a?b HTTP/1.1\r;Expect: 100-continue\r;Content-Length: 2\r;\r;{}$|200 200 &(Finished, [0, 0], 1)
POST / HTTP/1.0\r;Connection: keep-alive\r;Content-Length: 2\r;\r;{}$|200 &(Finished, [0], 1)
POST / HTTP/1.1\r;Connection: keep-alive,\tCLOSE\r;Content-Length: 2\r;\r;{}$|200 &(Finished, [0], 1)
POST / HTTP/1.1\r;Connection: closed\r;Content-Length: 2\r;\r;{}$|200 200 &(Finished, [0, 0], 1)
POST / HTTP/1.1\r;Content-Length: 2\r;\r;{}{}$|200 400 &(Finished, [0], 1)
POST / HTTP/1.1\r;Content-Length: 3\r;\r;{}$|200 405 &(Finished, [0], 1)
POST / HTTP/1.1\r;Content-Length: 86\r;\r;$$|200 200 &(Finished, [0, 0], 1)";

fn request_holds<W: Wait>(rt: &W, alloc: Global, row: &str, at_once: usize) -> Result<(), Fail> {
    let (texts, wanted) = parts(alloc, row)?;
    let asked = Asked {
        texts: &texts,
        at_once,
        failing: "",
    };
    let found = answered(rt, alloc, asked)?;
    same(&in_short(alloc, &found)?, wanted, row)
}

#[test]
fn each_request_has_its_response_or_the_connection_ends(rt: HostRuntime) -> Result<(), Fail> {
    for row in REQUESTS.split('\n') {
        request_holds(&rt, rt.alloc(), row, ALL)?;
        request_holds(&rt, rt.alloc(), row, 1)?;
    }
    Ok(())
}

/// The requests that stand in the bytes are answered, and then the desk sees the Stop.
const STOPS: &str = "\
!$^$&$|200 200 &&(Stopped, [0, 1], 2)
!POST / HTT^P/1.1;Content-Length: 2;;{}|200 &(Stopped, [0], 2)
!POST / HTTP/1.1;Content-Length: 50;;{\"js^on|200 &(Stopped, [0], 2)
!GET / HTTP/1.1;;&$|200 405 &&(Stopped, [0], 2)
!GET / HTTP/1.1;;|200 405 &(Finished, [0], 2)
!!|200 200 &(Stopped, [0, 1], 2)";

#[test]
fn a_desk_ends_for_a_stop(rt: HostRuntime) -> Result<(), Fail> {
    for row in STOPS.split('\n') {
        request_holds(&rt, rt.alloc(), row, ALL)?;
    }
    Ok(())
}

/// The number of the door's call that fails, what clients ask, and what is put. The dials of a client are the calls 0 and 1, the first take is 2, and
/// the response to what it brought, which is short, is one put. A client that reads nothing is one to which a put fails.
const FAULTS: &str = r#"0>$|&(DoorFailed, [], 2)
1>$|&(DoorFailed, [], 2)
2>$|&(Finished, [], 1)
3>$|&(Finished, [0], 1)
4>$|HTTP/1.1 200 OK;Content-Type: application/json-rpc;Content-Length: 43;X-Cts-Front: 0;;{"id":1,"jsonrpc":"2.0","result":"DEFAULT"}&(Finished, [0], 1)
5>$|HTTP/1.1 200 OK;Content-Type: application/json-rpc;Content-Length: 43;X-Cts-Front: 0;;{"id":1,"jsonrpc":"2.0","result":"DEFAULT"}&(Finished, [0], 1)
6>$|HTTP/1.1 200 OK;Content-Type: application/json-rpc;Content-Length: 43;X-Cts-Front: 0;;{"id":1,"jsonrpc":"2.0","result":"DEFAULT"}&(DoorFailed, [0], 2)
3>$$$|&(Finished, [0], 1)
4>$$$|HTTP/1.1 200 OK;Content-Type: application/json-rpc;Content-Length: 43;X-Cts-Front: 0;;{"id":1,"jsonrpc":"2.0","result":"DEFAULT"}&(Finished, [0, 0], 1)
5>$$$|HTTP/1.1 200 OK;Content-Type: application/json-rpc;Content-Length: 43;X-Cts-Front: 0;;{"id":1,"jsonrpc":"2.0","result":"DEFAULT"}HTTP/1.1 200 OK;Content-Type: application/json-rpc;Content-Length: 43;X-Cts-Front: 0;;{"id":1,"jsonrpc":"2.0","result":"DEFAULT"}&(Finished, [0, 0, 0], 1)
3>GET / HTTP/1.1;;|&(Finished, [], 1)
3>@|&(Finished, [0], 1)
3>$&$|&HTTP/1.1 200 OK;Content-Type: application/json-rpc;Content-Length: 43;X-Cts-Front: 0;;{"id":1,"jsonrpc":"2.0","result":"DEFAULT"}&(Finished, [0, 0], 1)
4>$&$|HTTP/1.1 200 OK;Content-Type: application/json-rpc;Content-Length: 43;X-Cts-Front: 0;;{"id":1,"jsonrpc":"2.0","result":"DEFAULT"}&HTTP/1.1 200 OK;Content-Type: application/json-rpc;Content-Length: 43;X-Cts-Front: 0;;{"id":1,"jsonrpc":"2.0","result":"DEFAULT"}&(Finished, [0, 0], 1)
6>$&$|HTTP/1.1 200 OK;Content-Type: application/json-rpc;Content-Length: 43;X-Cts-Front: 0;;{"id":1,"jsonrpc":"2.0","result":"DEFAULT"}&&(DoorFailed, [0], 2)"#;

fn fault_holds<W: Wait>(rt: &W, alloc: Global, row: &str) -> Result<(), Fail> {
    let (failing, rest) = cut(row, '>')?;
    let (texts, wanted) = parts(alloc, rest)?;
    let asked = Asked {
        texts: &texts,
        at_once: ALL,
        failing,
    };
    same(&answered(rt, alloc, asked)?, wanted, row)
}

#[test]
fn a_fault_ends_its_connection_or_the_desk(rt: HostRuntime) -> Result<(), Fail> {
    for row in FAULTS.split('\n') {
        fault_holds(&rt, rt.alloc(), row)?;
    }
    Ok(())
}

/// The length that is said of a body, and how many blanks the body has.
const LARGE: &str = "\
1048576 1048576|200 &(Finished, [0], 1)
1048576 1048575|&(Finished, [], 1)
1048577 1048577|413 &(Finished, [], 1)";

fn large_holds<W: Wait>(rt: &W, alloc: Global, row: &str) -> Result<(), Fail> {
    let (sizes, wanted) = cut(row, '|')?;
    let length: u64 = number(sizes, 0)?;
    let blanks = " ".repeat(alloc, number(sizes, 1)?)?;
    let texts = format!(in alloc; "POST / HTTP/1.1;Content-Length: {length};;{blanks}")?;
    let asked = Asked {
        texts: &texts,
        at_once: 4096,
        failing: "",
    };
    let found = answered(rt, alloc, asked)?;
    same(&in_short(alloc, &found)?, wanted, row)
}

#[test]
fn a_body_is_bounded(rt: HostRuntime) -> Result<(), Fail> {
    for row in LARGE.split('\n') {
        large_holds(&rt, rt.alloc(), row)?;
    }
    Ok(())
}

/// The first of two clients is linked before the desk begins.
const STOOD: &str =
    r#"$&$|&HTTP/1.1 200 OK;Content-Type: application/json-rpc;Content-Length: 43;X-Cts-Front: 0;;{"id":1,"jsonrpc":"2.0","result":"DEFAULT"}&(Finished, [0], 1)"#;

#[test]
fn a_connection_that_stood_is_hung_up_first(rt: HostRuntime) -> Result<(), Fail> {
    let (texts, wanted) = parts(rt.alloc(), STOOD)?;
    let asked = Asked {
        texts: &texts,
        at_once: ALL,
        failing: "",
    };
    same(
        &answered_after_a_dial(&rt, rt.alloc(), asked)?,
        wanted,
        STOOD,
    )
}

/// Two clients that choose a set of limits, the first of them twice, where the clock goes on each time that it is asked: each entry, the last one of the
/// desk too, has a time of its own.
const CHOICES: &str =
    "POST / HTTP/1.1;Content-Length: 64;;{\"jsonrpc\":\"2.0\",\"method\":\"set_limits_set\",\"params\":[\"DEFAULT\"]}";

#[test]
fn each_entry_has_the_time_of_its_request(rt: HostRuntime) -> Result<(), Fail> {
    let texts = format!(in rt.alloc(); "{CHOICES}{CHOICES}&{CHOICES}")?;
    let left = entries_left(&rt, rt.alloc(), &texts)?;
    same(&left, "(Finished, 4, 3)", "three choices")
}

/// Three requests of two clients, to a source whose replies have no text.
const SILENCE: &str =
    "$$&$|HTTP/1.1 204 No Content;X-Cts-Front: 7;;HTTP/1.1 204 No Content;X-Cts-Front: 8;;&HTTP/1.1 204 No Content;X-Cts-Front: 9;;&(Finished, [7, 8, 9])";

#[test]
fn a_desk_answers_from_any_source(rt: HostRuntime) -> Result<(), Fail> {
    let (texts, wanted) = parts(rt.alloc(), SILENCE)?;
    same(
        &answered_silently(&rt, rt.alloc(), &texts)?,
        wanted,
        SILENCE,
    )
}
