// A request over HTTP, and its whole response.
use crate::hall::new_hall;
use crate::replies::asked;
use cts_http::{HttpStep, Reader, response};
use cts_rows::{as_text, cut, same};
use cts_table::Hall;
use std::alloc::Global;
use std::test::Fail;

const REQUEST: &[u8] =
    b"POST / HTTP/1.1\r\nContent-Length: 50\r\n\r\n{\"jsonrpc\":\"2.0\",\"method\":\"get_limits_set\",\"id\":1}";

const RESPONSE: &str =
    "HTTP/1.1 200 OK\r\nContent-Type: application/json-rpc\r\nContent-Length: 43\r\nX-Cts-Front: 0\r\n\r\n{\"id\":1,\"jsonrpc\":\"2.0\",\"result\":\"DEFAULT\"}";

/// The response of a desk to a body, as it is put to the client.
fn put(alloc: Global, hall: &mut Hall, body: &[u8]) -> Result<Vec<u8>, Fail> {
    let front = hall.count();
    let text = asked(alloc, hall, body)?.text;
    let length = text.as_ref().map(|text| text.as_slice().len() as u64);
    let mut head = [0; 160];
    let count = response(front, length, &mut head);
    let mut bytes = Vec::from_slice(alloc, &head[..count])?;
    if let Some(text) = text {
        bytes.extend_from_slice(text.as_slice())?;
    }
    Ok(bytes)
}

#[test]
fn a_request_over_http_has_its_response(rt: HostRuntime) -> Result<(), Fail> {
    let mut hall = new_hall(rt.alloc())?;
    let mut reader = Reader::new(rt.alloc());
    reader.feed(REQUEST)?;
    let HttpStep::Request { last: false } = reader.next() else {
        return Err(Fail::new("another step"));
    };
    let bytes = put(rt.alloc(), &mut hall, reader.body())?;
    same(as_text(&bytes)?, RESPONSE, "a request")
}

#[test]
fn a_request_without_an_id_has_no_body(rt: HostRuntime) -> Result<(), Fail> {
    let mut hall = new_hall(rt.alloc())?;
    let body = b"{\"jsonrpc\":\"2.0\",\"method\":\"get_limits_set\"}";
    let bytes = put(rt.alloc(), &mut hall, body)?;
    let (status, _) = cut(as_text(&bytes)?, '\r')?;
    same(status, "HTTP/1.1 204 No Content", "a request without an id")
}
