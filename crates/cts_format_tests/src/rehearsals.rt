// What no clause says: whole rehearsals, of which each row was made by another program from the rule alone, and that they are made
// where there is memory.
use cts_base::Bytes;
use cts_entry::Event;
use cts_rehearsal::{Tally, generated, rehearsals_walk, summary};
use cts_rows::{Answers, debug_of, digits_of, in_one_line, number, part, readable_of, rows_end_so};
use md5::{Digest, Md5};
use std::alloc::Global;
use std::test::Fail;

/// The events of the rehearsal of a number.
fn events_of(alloc: Global, asked: &str) -> Result<Vec<Event>, Fail> {
    match generated(alloc, number(asked, 0)?) {
        Ok(events) => Ok(events),
        Err(_) => Err(Fail::new("no memory")),
    }
}

struct Readable;

impl Answers for Readable {
    fn answer(alloc: Global, asked: &str) -> Result<String, Fail> {
        readable_of(alloc, &events_of(alloc, asked)?)
    }
}

/// Each row has the number of a rehearsal, a bar, and all its events: none but the opening; a command that is written; look-ups between
/// frames, and a connection that ends and opens again.
const READABLE: &str = "\
0|[Opens(0), Opens(1), Opens(16)]
1|[Opens(0), Opens(1), Opens(16), Call(0, '{\"jsonrpc\":\"2.0\",\"method\":\"cmd\",\"params\":[\"INST COLLECT with DURATION 10\"],\"id\":1}'), Write(0, 1)]
5|[Opens(0), Opens(1), Opens(16), Piece(0, '\0\u{6}\u{1}\u{f4}\u{6}'), Piece(0, '\u{1}'), \
Call(0, '{\"jsonrpc\":\"2.0\",\"method\":\"tlm\",\"params\":[\"INST HS TEMP1\"],\"id\":1}'), Piece(0, '\0'), Piece(0, '\u{6}\u{1}\u{c8}w\0'), Call(0, '{\"jsonrpc\":\"2.0\",\"method\":\"tlm\",\"params\":[\"INST HS TEMP1\"],\"id\":1}'), Finish(0, PeerEnded), Opens(0)]";

#[test]
fn small_rehearsals_are_as_the_rule_says(rt: HostRuntime) -> Result<(), Fail> {
    rehearsals_walk();
    rows_end_so::<Readable>(rt.alloc(), READABLE)
}

struct ByNumber;

impl Answers for ByNumber {
    fn answer(alloc: Global, asked: &str) -> Result<String, Fail> {
        debug_of(alloc, &events_of(alloc, asked)?)
    }
}

/// The same with the numbers of all bytes: a line and a frame.
const BY_NUMBER: &str = "\
2|[Opens(0), Opens(1), Opens(16), Piece(1, Bytes { held: [65, 65, 65, 65, 65, 65, 65, 65, 65, 65, 65, 65, 65, 65, 65, 65, 65, 65, 65, 65, 65, 65, 65, 65, 65, 65, 65, 65, 65, 65, 65, 65, 65, 65, 65, 65, 65, 65, 10] }), Piece(0, Bytes { held: [0, 6, 1, 129] }), Piece(0, Bytes { held: [245, 0] })]";

#[test]
fn a_line_and_a_frame_have_their_bytes(rt: HostRuntime) -> Result<(), Fail> {
    rows_end_so::<ByNumber>(rt.alloc(), BY_NUMBER)
}

struct InShort;

impl Answers for InShort {
    fn answer(alloc: Global, asked: &str) -> Result<String, Fail> {
        let events = events_of(alloc, asked)?;
        in_short(alloc, &events)
    }
}

fn in_short(alloc: Global, events: &[Event]) -> Result<String, Fail> {
    let shown = debug_of(alloc, &events)?;
    let digits = digits_of(alloc, &Md5::digest(shown.as_bytes()))?;
    Ok(format!(in alloc; "{} events, {digits}", events.len())?)
}

/// The number of the events, and the MD5 digest of all of them as they are shown.
const IN_SHORT: &str = "\
1000|1732 events, d65e70daa8f725a2403b00168537d2c2";

#[test]
fn a_long_rehearsal_is_as_the_rule_says(rt: HostRuntime) -> Result<(), Fail> {
    rows_end_so::<InShort>(rt.alloc(), IN_SHORT)
}

/// The numbers of entries, limits events, packets, commands and refused replies, with the letters of a log; and the lines of its
/// summary, with a semicolon after each.
const SUMMARIES: &str = "\
0 0 0 0 0 -|entries 0;packets 0;commands 0;refused 0;events 0;log bytes 1;log md5 336d5ebc5436534e61d16e63ddfca327;END 0;
968 271 621 108 12 abc|entries 968;packets 621;commands 108;refused 12;events 271;log bytes 3;log md5 900150983cd24fb0d6963f7d28e17f72;END 968;";

struct Summaries;

impl Answers for Summaries {
    fn answer(alloc: Global, asked: &str) -> Result<String, Fail> {
        let tally = Tally {
            packets: number(asked, 2)?,
            commands: number(asked, 3)?,
            refused: number(asked, 4)?,
            log: Bytes::copy(alloc, part(asked, 5).as_bytes())?,
        };
        summary_of(alloc, asked, &tally)
    }
}

fn summary_of(alloc: Global, asked: &str, tally: &Tally) -> Result<String, Fail> {
    let text = summary(alloc, number(asked, 0)?, number(asked, 1)?, tally)?;
    in_one_line(alloc, text.as_slice())
}

#[test]
fn a_summary_has_eight_lines(rt: HostRuntime) -> Result<(), Fail> {
    rows_end_so::<Summaries>(rt.alloc(), SUMMARIES)
}
