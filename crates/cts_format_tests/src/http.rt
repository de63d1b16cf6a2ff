// What no clause says: requests from outside however they are cut, heads with their answers, whole texts, and that a reader
// takes what there is memory for.
ghost use Rattle.std.specs.Prelude.{IsTrue, OnOk, false, ◌≡◌};
ghost use Rattle.cts_http.specs.Texts.{is_refusal};

use crate::parts::bytes_of_parts;
use cts_http::{HttpStep, Reader, refusal, requests, response};
use cts_rows::{Answers, as_text, bytes_by_number, debug_of, rows_end_so, same};
use std::alloc::Global;
use std::test::Fail;

/// What is answered next: `again`, or `last` where the connection ends, and the body of a request; else the step.
fn told(alloc: Global, reader: &mut Reader) -> Result<String, Fail>
    requires { reader.old.closed ≡ false }
{
    match reader.next() {
        HttpStep::Request { last } => request_text(alloc, last, reader.body()),
        step => debug_of(alloc, &step),
    }
}

fn request_text(alloc: Global, last: bool, body: &[u8]) -> Result<String, Fail> {
    let word = if last { "last" } else { "again" };
    let body = as_text(body)?;
    Ok(format!(in alloc; "{word}:{body}")?)
}

/// What is answered to two pieces, where the first one is asked of too.
fn told_of_two(
    alloc: Global,
    reader: &mut Reader,
    first: &[u8],
    second: &[u8],
) -> Result<String, Fail>
    requires { reader.old.closed ≡ false }
{
    reader.feed(first)?;
    match reader.next() {
        HttpStep::More => {
            reader.feed(second)?;
            told(alloc, reader)
        }
        step => debug_of(alloc, &step),
    }
}

/// The bytes have this answer where they are cut here.
fn cut_holds(alloc: Global, bytes: &[u8], at: usize, wanted: &str) -> Result<(), Fail> {
    let (first, second) = bytes.split_at(at.min(bytes.len()));
    let piece = as_text(first)?;
    let found = told_of_cut(alloc, first, second)?;
    same(found.as_str(), wanted, piece)
}

fn told_of_cut(alloc: Global, first: &[u8], second: &[u8]) -> Result<String, Fail> {
    let mut reader = Reader::new(alloc);
    told_of_two(alloc, &mut reader, first, second)
}

fn cuts_hold(alloc: Global, bytes: &[u8], wanted: &str) -> Result<(), Fail> {
    for at in 0..bytes.len() {
        cut_holds(alloc, bytes, at, wanted)?;
    }
    Ok(())
}

fn told_of_whole(alloc: Global, bytes: &[u8]) -> Result<String, Fail> {
    let mut reader = Reader::new(alloc);
    told_of_piece(alloc, &mut reader, bytes)
}

fn told_of_piece(alloc: Global, reader: &mut Reader, bytes: &[u8]) -> Result<String, Fail>
    requires { reader.old.closed ≡ false }
{
    reader.feed(bytes)?;
    told(alloc, reader)
}

fn told_of_cuts(alloc: Global, bytes: &[u8]) -> Result<String, Fail> {
    let told = told_of_whole(alloc, bytes)?;
    cuts_hold(alloc, bytes, told.as_str())?;
    Ok(told)
}

/// What is answered to a text, which is the same wherever it is cut in two.
struct Cuts;

impl Answers for Cuts {
    fn answer(alloc: Global, asked: &str) -> Result<String, Fail> {
        let bytes = bytes_by_number(alloc, asked)?;
        told_of_cuts(alloc, &bytes)
    }
}

/// A request, and what is answered to it.
const FOUND: &str =
    "POST / HTTP/1.1\r;Content-Length: 50\r;\r;{\"jsonrpc\":\"2.0\",\"method\":\"get_limits_set\",\"id\":1}|again:{\"jsonrpc\":\"2.0\",\"method\":\"get_limits_set\",\"id\":1}";

#[test]
fn requests_are_found_however_they_are_cut(rt: HostRuntime) -> Result<(), Fail> {
    rows_end_so::<Cuts>(rt.alloc(), FOUND)
}

const CALL: &[u8] =
    b"POST / HTTP/1.1\r\nContent-Length: 50\r\n\r\n{\"jsonrpc\":\"2.0\",\"method\":\"get_limits_set\",\"id\":1}";

const LAST: &[u8] = b"POST / HTTP/1.1\r\nContent-Length: 1\r\nConnection: a, CLOSE\r\n\r\n{";

/// How many bytes the body of the first request has, how many are held then, and the body of the second one, which is the last.
fn told_of_both(alloc: Global, reader: &mut Reader) -> Result<String, Fail>
    requires { reader.old.closed ≡ false }
{
    reader.feed(CALL)?;
    reader.feed(LAST)?;
    let HttpStep::Request { last: false } = reader.next() else {
        return Err(Fail::new("the first request is another step"));
    };
    let (body, held) = (reader.body().len(), reader.held());
    let HttpStep::Request { last: true } = reader.next() else {
        return Err(Fail::new("the second request is another step"));
    };
    debug_of(alloc, &(body, held, reader.body()))
}

#[test]
fn several_requests_come_on_one_connection(rt: HostRuntime) -> Result<(), Fail> {
    let mut reader = Reader::new(rt.alloc());
    let found = told_of_both(rt.alloc(), &mut reader)?;
    same(found.as_str(), "(50, 150, [123])", "two requests")
}

/// A bad piece is refused, and a call after it too.
fn refuses_for_good(reader: &mut Reader) -> Result<(), Fail>
    requires { reader.old.closed ≡ false }
{
    let HttpStep::More = reader.next() else {
        return Err(Fail::new("an answer to nothing"));
    };
    reader.feed(b"POST / HTTP/2.0")?;
    let HttpStep::Refuse(400) = reader.next() else {
        return Err(Fail::new("a bad piece is not refused"));
    };
    reader.feed(CALL)?;
    match reader.next() {
        HttpStep::Refuse(400) => Ok(()),
        _ => Err(Fail::new("a call after it is not refused")),
    }
}

#[test]
fn a_refusal_stays(rt: HostRuntime) -> Result<(), Fail> {
    let mut reader = Reader::new(rt.alloc());
    refuses_for_good(&mut reader)
}

/// Answers to requests, whose line feeds are `;`.
const HEADS: &str = "\
POST / HTTP/1.1\r;Transfer-Encoding: chunked\r;\r;|Refuse(501)
GET / HTTP/1.1\r;\r;|Refuse(405)
POST / HTTP/1.1\r;\r;|Refuse(411)
POST / HTTP/1.1\r;Content-Length: x\r;\r;|Refuse(400)
POST / HTTP/1.1\r;Content-Length:\r;\r;|Refuse(400)
GET / HTTP/1.1\r;Content-Length: -1\r;\r;|Refuse(400)
POST / HTTP/1.1\r;Content-Length: +1\r;\r;|Refuse(400)
POST / HTTP/1.1\r;X: a\0b\r;Content-Length: 0\r;\r;|Refuse(400)
POST / HTTP/1.1;Content-Length: 2;;{}|again:{}
POST / HTTP/1.1;Content-Length: 2;;{|More
POST / HTTP/1.1\r;Content-Length: 999999999999999999999999999999\r;\r;|Refuse(413)
POST / HTTP/1.1\r;Content-Length: 1048577\r;\r;|Refuse(413)
POST / HTTP/1.1\r;Content-Length: 1048576\r;\r;|More
POST / HTTP/1.1\r;Content-Length: 0\r;|More
POST / HTTP/1.1\r;Content-Length: 0\r;content-length:  00 \r;\r;|again:
\r;\r;POST any HTTP/1.1\r;Content-Length: 0\r;\r;|again:
POST / HTTP/1.1\r;Content-Length: 0\r;Content-Length: 1\r;\r;|Refuse(400)
POST / HTTP/2.0|Refuse(400)
POST / HTTP/1.0\r;Content-Length: 0\r;\r;|last:
POST / HTTP/1.1\r;Connection: keep-alive,\tclose\r;Content-Length: 0\r;\r;|last:
POST / HTTP/1.1\r;Connection: closed\r;Content-Length: 0\r;\r;|again:
post / HTTP/1.1\r;Content-Length: 0\r;\r;|Refuse(405)
POST / HTTP/1.1\r;Content-Length: 0\r;Transfer-Encoding: chunked\r;\r;|Refuse(501)
POST / HTTP/1.1\r;Content-Length: x\r;Transfer-Encoding: chunked\r;\r;|Refuse(400)
POST / HTTP/1.1\r;X: a\r; b\r;Content-Length: 0\r;\r;|Refuse(400)
POST / HTTP/1.1\r;X : a\r;Content-Length: 0\r;\r;|Refuse(400)
POST / HTTP/1.1\r;: a\r;Content-Length: 0\r;\r;|Refuse(400)
POST / HTTP/1.1\r;X: a\rb\r;Content-Length: 0\r;\r;|Refuse(400)
POST / HTTP/1.1\r;Content-Length: 5, 5\r;\r;|Refuse(400)
POST / HTTP/1.1\r;Content-Length: 2\r;Content-Length: 2\r;\r;{}|again:{}
POST / HTTP/1.0\r;Connection: keep-alive\r;Content-Length: 0\r;\r;|last:
POST http://host:80/a?b HTTP/1.1\r;Content-Length: 0\r;\r;|again:
POST * HTTP/1.1\r;Content-Length: 0\r;\r;|again:
POST / HTTP/1.1\r;Expect: 100-continue\r;Content-Length: 2\r;\r;{}|again:{}
POST / HTTP/1.1\r;Expect: 100-continue\r;Content-Length: 2\r;\r;|More";

#[test]
fn each_request_has_its_answer_however_it_is_cut(rt: HostRuntime) -> Result<(), Fail> {
    rows_end_so::<Cuts>(rt.alloc(), HEADS)
}

/// Answers to requests that a grammar may take apart in more than one way: what stands around the fields and in their values, fields
/// that come twice, methods of other uses, and control bytes. A tab is `\t`.
const DOUBTFUL: &str = "\
POST / HTTP/1.1\r; Content-Length: 0\r;\r;|Refuse(400)
POST / HTTP/1.1\r;\tX: a\r;Content-Length: 0\r;\r;|Refuse(400)
POST / HTTP/1.1\r;transfer-encoding: Chunked\r;\r;|Refuse(501)
POST / HTTP/1.1\r;TRANSFER-ENCODING: identity\r;\r;|Refuse(501)
POST / HTTP/1.1\r;Transfer-Encoding: gzip\r;Transfer-Encoding: chunked\r;\r;|Refuse(501)
POST / HTTP/1.1\r;Transfer-Encoding:\r;Content-Length: 0\r;\r;|Refuse(501)
POST / HTTP/1.0\r;Transfer-Encoding: chunked\r;\r;|Refuse(501)
POST / HTTP/1.1\r;Content-Length: 1 0\r;\r;|Refuse(400)
POST / HTTP/1.1\r;Content-Length: 1\t0\r;\r;|Refuse(400)
POST / HTTP/1.1\r;Content-Length: 2,\r;\r;|Refuse(400)
POST / HTTP/1.1\r;Content-Length: 0x2\r;\r;|Refuse(400)
POST / HTTP/1.1\r;Content-Length: 1\r; 0\r;\r;|Refuse(400)
POST / HTTP/1.1\r;Content-Length: 2\r;\t\r;\r;|Refuse(400)
POST / HTTP/1.1\r;Content-Length : 2\r;\r;|Refuse(400)
POST / HTTP/1.1\r;Content-Length:2\r;\r;{}|again:{}
POST / HTTP/1.1\r;Content-Length: \t 2 \t\r;\r;{}|again:{}
POST / HTTP/1.1\r;Connection: keep-alive\r;Connection: close\r;Content-Length: 0\r;\r;|last:
POST / HTTP/1.1\r;Connection: close\r;Connection: keep-alive\r;Content-Length: 0\r;\r;|last:
POST / HTTP/1.1\r;Connection: ,, close ,\r;Content-Length: 0\r;\r;|last:
POST / HTTP/1.1\r;Host: a\r;Host: b\r;Content-Length: 0\r;\r;|again:
POST / HTTP/1.1 \r;Content-Length: 0\r;\r;|Refuse(400)
POST  / HTTP/1.1\r;Content-Length: 0\r;\r;|Refuse(400)
POST /a b HTTP/1.1\r;Content-Length: 0\r;\r;|Refuse(400)
POST\t/ HTTP/1.1\r;Content-Length: 0\r;\r;|Refuse(400)
 POST / HTTP/1.1\r;Content-Length: 0\r;\r;|Refuse(400)
POST HTTP/1.1\r;Content-Length: 0\r;\r;|Refuse(400)
POST /\r;Content-Length: 0\r;\r;|Refuse(400)
POST / http/1.1\r;Content-Length: 0\r;\r;|Refuse(400)
POST / HTTP/1.1.1\r;Content-Length: 0\r;\r;|Refuse(400)
POST / HTTP/1.2\r;Content-Length: 0\r;\r;|Refuse(400)
POST / HTTP/0.9\r;\r;|Refuse(400)
CONNECT a:1 HTTP/1.1\r;\r;|Refuse(405)
HEAD / HTTP/1.1\r;\r;|Refuse(405)
OPTIONS * HTTP/1.1\r;\r;|Refuse(405)
PRI * HTTP/2.0\r;\r;|Refuse(400)
(POST) / HTTP/1.1\r;Content-Length: 0\r;\r;|Refuse(400)
POST / HTTP/1.1\r;X: a\x01b\r;Content-Length: 0\r;\r;|Refuse(400)
POST / HTTP/1.1\r;X: a\x7fb\r;Content-Length: 0\r;\r;|Refuse(400)
POST / HTTP/1.1\r;X\x01: a\r;Content-Length: 0\r;\r;|Refuse(400)
POST /\x01 HTTP/1.1\r;Content-Length: 0\r;\r;|Refuse(400)
\x16\x03\x01\x02|Refuse(400)";

#[test]
fn doubtful_requests_have_one_answer(rt: HostRuntime) -> Result<(), Fail> {
    rows_end_so::<Cuts>(rt.alloc(), DOUBTFUL)
}

/// A target with a byte ff.
const TARGET: &str = "1*POST /\u{ff} HTTP/1.1\r;Content-Length: 0\r;\r;|Refuse(400)";

/// What is answered to a text of repeated parts at once.
struct Whole;

impl Answers for Whole {
    fn answer(alloc: Global, asked: &str) -> Result<String, Fail> {
        let bytes = bytes_of_parts(alloc, asked)?;
        told_of_whole(alloc, &bytes)
    }
}

#[test]
fn a_target_is_text(rt: HostRuntime) -> Result<(), Fail> {
    rows_end_so::<Whole>(rt.alloc(), TARGET)
}

/// Answers to heads of 16,384 bytes and of 16,385, with their end and without it, and to heads of 64 fields and of 65.
const BOUNDS: &str = "\
1*POST / HTTP/1.1\r;Content-Length: 0\r;X: |16341*a|1*\r;\r;|again:
1*POST / HTTP/1.1\r;Content-Length: 0\r;X: |16342*a|1*\r;\r;|Refuse(431)
1*POST / HTTP/1.1\r;Content-Length: 0\r;X: |16345*a|More
1*POST / HTTP/1.1\r;Content-Length: 0\r;X: |16346*a|Refuse(431)
1*POST / HTTP/1.1\r;Content-Length: 0\r;|63*A: b\r;|1*\r;|again:
1*POST / HTTP/1.1\r;Content-Length: 0\r;|64*A: b\r;|1*\r;|Refuse(431)
8192*\r;|More
8192*\r;|1*\r|Refuse(431)
20000*\r;|Refuse(431)
1*POST / HTTP/1.0\r;Content-Length: 1\r;\r;{POST / HTTP/2.0\0|last:{";

#[test]
fn heads_are_bounded(rt: HostRuntime) -> Result<(), Fail> {
    rows_end_so::<Whole>(rt.alloc(), BOUNDS)
}

/// How many requests the bytes of a text of repeated parts have, and how they end.
struct Counted;

impl Answers for Counted {
    fn answer(alloc: Global, asked: &str) -> Result<String, Fail> {
        let bytes = bytes_of_parts(alloc, asked)?;
        debug_of(alloc, &requests(&bytes))
    }
}

const ENDINGS: &str = "\
0*|(0, More)
1*POST / HTTP/1.1|(0, More)
100*POST / HTTP/1.1\r;Content-Length: 2\r;\r;{}|(100, More)
2*POST / HTTP/1.1\r;Content-Length: 2\r;\r;{}|1*POST / HTTP/1.1\r;Content-Length: 2\r;\r;{|(2, More)
2*POST / HTTP/1.1\r;Content-Length: 2\r;\r;{}|1*GET / HTTP/1.1\r;\r;|(2, Refuse(405))
1*POST / HTTP/1.0\r;Content-Length: 2\r;\r;{}|(1, Request { last: true })
2*POST / HTTP/1.1\r;Content-Length: 2\r;\r;{}|2*POST / HTTP/1.0\r;Content-Length: 2\r;\r;{}|(3, Request { last: true })
16385*\r;|(0, Refuse(431))";

#[test]
fn every_list_of_bytes_has_its_requests(rt: HostRuntime) -> Result<(), Fail> {
    rows_end_so::<Counted>(rt.alloc(), ENDINGS)
}

/// How many bytes are more to come before the last of the bytes of a text of repeated parts, which come one by one, and what
/// is answered to that one.
struct Bytewise;

impl Answers for Bytewise {
    fn answer(alloc: Global, asked: &str) -> Result<String, Fail> {
        let bytes = bytes_of_parts(alloc, asked)?;
        let mut reader = Reader::new(alloc);
        told_bytewise(alloc, &mut reader, &bytes)
    }
}

fn told_bytewise(alloc: Global, reader: &mut Reader, bytes: &[u8]) -> Result<String, Fail>
    requires { reader.old.closed ≡ false }
{
    let (first, last) = bytes.split_at(bytes.len() - bytes.len().min(1));
    come_one_by_one(reader, first)?;
    reader.feed(last)?;
    let held = reader.held();
    match reader.next() {
        HttpStep::Request { last } => debug_of(alloc, &(held, last, reader.body().len())),
        step => debug_of(alloc, &(held, step)),
    }
}

/// Each of the bytes is asked of, and more are wanted.
fn come_one_by_one(reader: &mut Reader, bytes: &[u8]) -> Result<(), Fail>
    requires { reader.old.closed ≡ false }
    ensures { OnOk result (reader.new.closed ≡ false) }
{
    for byte in bytes {
        comes(reader, *byte)?;
    }
    Ok(())
}

fn comes(reader: &mut Reader, byte: u8) -> Result<(), Fail>
    requires { reader.old.closed ≡ false }
    ensures { OnOk result (reader.new.closed ≡ false) }
{
    reader.feed(&[byte])?;
    match reader.next() {
        HttpStep::More => Ok(()),
        _ => Err(Fail::new("no more bytes are wanted")),
    }
}

/// A longest head and a body of 100,000 bytes.
const ONE_BY_ONE: &str =
    "1*POST / HTTP/1.1\r;Content-Length: 100000\r;X: |16336*a|1*\r;\r;|100000*b|(116384, false, 100000)";

#[test]
fn a_body_comes_byte_by_byte(rt: HostRuntime) -> Result<(), Fail> {
    rows_end_so::<Bytewise>(rt.alloc(), ONE_BY_ONE)
}

/// A response is written over what stood there.
fn response_is(front: u64, length: Option<u64>, wanted: &str) -> Result<(), Fail> {
    let mut out = [b'-'; 160];
    let count = response(front, length, &mut out);
    same(as_text(&out[..count])?, wanted, "a response")
}

fn refusal_is(status: u16, wanted: &str) -> Result<(), Fail>
    requires { IsTrue (is_refusal status) }
{
    let mut out = [b'-'; 160];
    let count = refusal(status, &mut out);
    same(as_text(&out[..count])?, wanted, "a refusal")
}

const OK: &str =
    "HTTP/1.1 200 OK\r\nContent-Type: application/json-rpc\r\nContent-Length: 43\r\nX-Cts-Front: 0\r\n\r\n";

const NO_CONTENT: &str = "HTTP/1.1 204 No Content\r\nX-Cts-Front: 18446744073709551615\r\n\r\n";

const NOT_ALLOWED: &str =
    "HTTP/1.1 405 Method Not Allowed\r\nAllow: POST\r\nContent-Length: 0\r\nConnection: close\r\n\r\n";

const TOO_LARGE: &str =
    "HTTP/1.1 431 Request Header Fields Too Large\r\nContent-Length: 0\r\nConnection: close\r\n\r\n";

#[test]
fn heads_and_refusals_have_their_bytes(rt: HostRuntime) -> Result<(), Fail> {
    response_is(0, Some(43), OK)?;
    response_is(u64::MAX, None, NO_CONTENT)?;
    refusal_is(405, NOT_ALLOWED)?;
    refusal_is(431, TOO_LARGE)
}
