//! All requests of some bytes at once.

ghost use Rattle.std.specs.Prelude.{◌≤◌, ℕ, List, length};
ghost use Rattle.cts_http.specs.Readings.{Counts};

use crate::HttpStep;
use crate::judge::{Judged, ROOM, judge};
use httparse::spans::{EMPTY_HEADER_SPAN, HeaderSpan};

/// How many requests the bytes of a connection have, and how they end: every list of bytes has its list of requests. The
/// ending is what a [`crate::Reader`] that is fed them answers last: [`HttpStep::Request`] where the last request ends the
/// connection, [`HttpStep::More`] where the rest is neither accepted nor refused, and [`HttpStep::Refuse`]. It takes no memory.
pub fn requests(bytes: &[u8]) -> (usize, HttpStep)
    ensures { Counts bytes.now result }
{
    let mut room = [EMPTY_HEADER_SPAN; ROOM];
    requests_with(bytes, &mut room)
}

fn requests_with(bytes: &[u8], room: &mut [HeaderSpan]) -> (usize, HttpStep)
    requires room { ROOM ≤ length room.old }
    ensures { Counts bytes.now result }
{
    let mut left = bytes;
    let mut count = 0;
    loop {
        let head = match judge(left, room) {
            Judged::Head(head) => head,
            Judged::More => return (count, HttpStep::More),
            Judged::Refuse(status) => return (count, HttpStep::Refuse(status)),
        };
        let body = &left[head.start..];
        if body.len() < head.length {
            return (count, HttpStep::More);
        }
        count += 1;
        if head.last {
            return (count, HttpStep::Request { last: true });
        }
        left = &body[head.length..];
    }
}
