// What no clause says: worked scripts with their events, which lines are refused and why, and that reading succeeds where
// there is memory.
use crate::effects::SITE;
use cts_entry::Event;
use cts_rows::{Answers, debug_of, lines, number, refusal_of, rows_end_so, same};
use cts_samples::{site_of, statements_of};
use cts_scriptread::{ScriptFault, read_events, read_script};
use cts_words::Statement;
use std::alloc::Global;
use std::test::Fail;

type Events = Result<Vec<(u32, Event)>, ScriptFault>;

/// The events of a text over the site.
fn events_of(alloc: Global, text: &[u8]) -> Result<Events, Fail> {
    if text.len() > 1_000_000 {
        return Err(Fail::new("too large"));
    }
    let site = site_of(alloc, "", SITE)?;
    Ok(read_script(alloc, text, &site))
}

/// Each row has a script whose lines end with `;`, a bar, and the events with their lines.
const EVENTS: &str = "\
|Ok([])
;;# nothing|Ok([])
TIME 5 6|Ok([(1, SetTime(Time { seconds: 5, micros: 6 }))])
time 0x10 +007|Ok([(1, SetTime(Time { seconds: 16, micros: 7 }))])
TIME 4294967295 4294967295|Ok([(1, SetTime(Time { seconds: 4294967295, micros: 4294967295 }))])
;OPEN I;;Open inst_int|Ok([(2, Opens(0)), (4, Opens(1))])
OPEN OUT/0;OPEN out/1|Ok([(1, Opens(16)), (2, Opens(17))])
OPEN Back/0;OPEN BACK/1|Ok([(1, Opens(18)), (2, Opens(19))])
BYTES I 00fF|Ok([(1, Piece(0, Bytes { held: [0, 255] }))])
BYTES & ;BACK/1 & ;10|Ok([(1, Piece(19, Bytes { held: [16] }))])
CLOSE I PEER|Ok([(1, Finish(0, PeerEnded))])
CLOSE I READ|Ok([(1, Finish(0, ReadFault))])
CLOSE OUT/0 WRITE|Ok([(1, Finish(16, WriteFault))])
close INST_INT STOP|Ok([(1, Finish(1, Stopped))])
WRITE INST_INT 0;WRITE I 18446744073709551615|Ok([(1, Write(1, 0)), (2, Write(0, 18446744073709551615))])
CALL 3 'a b';CALL 4294967295 ''|Ok([(1, Call(3, Bytes { held: [97, 32, 98] })), (2, Call(4294967295, Bytes { held: [] }))])
CALL 0 '{\"a\": \"#\"}'|Ok([(1, Call(0, Bytes { held: [123, 34, 97, 34, 58, 32, 34, 35, 34, 125] }))])
call 0 {\"a\":1};Call +0x1 \"it's\"|Ok([(1, Call(0, Bytes { held: [123, 34, 97, 34, 58, 49, 125] })), (2, Call(1, Bytes { held: [105, 116, 39, 115] }))])
CALL &;0 & # joined;a&|Ok([(1, Call(0, Bytes { held: [97, 38] }))])
DRAIN LOG 3;DRAIN OUT/1 0|Ok([(1, DrainLog(3)), (2, DrainSlot(17, 0))])
STOP;;stop # now|Ok([(1, Stop), (3, Stop)])";

struct Read;

impl Answers for Read {
    fn answer(alloc: Global, asked: &str) -> Result<String, Fail> {
        let text = lines(alloc, asked)?;
        debug_of(alloc, &events_of(alloc, &text)?)
    }
}

#[test]
fn each_line_says_its_event(rt: HostRuntime) -> Result<(), Fail> {
    rows_end_so::<Read>(rt.alloc(), EVENTS)
}

/// What a script is refused for.
struct Refusals;

impl Answers for Refusals {
    fn answer(alloc: Global, asked: &str) -> Result<String, Fail> {
        let text = lines(alloc, asked)?;
        refusal_of(alloc, events_of(alloc, &text)?)
    }
}

/// Each row has a script whose lines end with `;`, a bar, and a line with its cause.
const CAUSES: &str = "\
CONNECT I|line 1: UnknownKeyword
'' I|line 1: UnknownKeyword
STOP;'STOP ' x|line 2: UnknownKeyword
TRY|line 1: UnknownKeyword
STOP;TRY TLM RAW T P I|line 2: UnknownKeyword
TIME 5|line 1: WrongCount
TIME 5 6 7|line 1: WrongCount
OPEN|line 1: WrongCount
BYTES I|line 1: WrongCount
BYTES I 00 11|line 1: WrongCount
CLOSE I|line 1: WrongCount
WRITE I|line 1: WrongCount
CALL|line 1: WrongCount
CALL 0|line 1: WrongCount
CALL 0 a b|line 1: WrongCount
CALL 0 {\"a\": 1}|line 1: WrongCount
CALL 0 '{}''{}'|line 1: WrongCount
DRAIN LOG|line 1: WrongCount
STOP now|line 1: WrongCount
OPEN X|line 1: UnknownMaker
OPEN OUT|line 1: UnknownMaker
OPEN OUT/2|line 1: UnknownMaker
OPEN I/0|line 1: UnknownMaker
OPEN /0|line 1: UnknownMaker
OPEN ''|line 1: UnknownMaker
OPEN DESK/0|line 1: UnknownMaker
WRITE OUT/0 1|line 1: UnknownMaker
DRAIN I 1|line 1: UnknownMaker
DRAIN log 1|line 1: UnknownMaker
CLOSE LOG PEER|line 1: UnknownMaker
TIME x 0|line 1: NotNumber
TIME 0 -1|line 1: NotNumber
TIME 4294967296 0|line 1: NotNumber
TIME 0 4294967296|line 1: NotNumber
WRITE I 18446744073709551616|line 1: NotNumber
WRITE I ''|line 1: NotNumber
CALL 4294967296 x|line 1: NotNumber
CALL -1 x|line 1: NotNumber
CALL DESK/0 x|line 1: NotNumber
DRAIN LOG -1|line 1: NotNumber
DRAIN OUT/0 1.0|line 1: NotNumber
BYTES I 0|line 1: BadHex
BYTES I 0g|line 1: BadHex
BYTES I 0x00|line 1: BadHex
BYTES I ''|line 1: PieceSize
CLOSE I peer|line 1: UnknownWhy
CLOSE I FULL|line 1: UnknownWhy";

#[test]
fn each_cause_has_its_line(rt: HostRuntime) -> Result<(), Fail> {
    rows_end_so::<Refusals>(rt.alloc(), CAUSES)
}

/// Two causes on one line, and two lines with causes.
const ORDER: &str = "\
CONNECT|line 1: UnknownKeyword
OPEN X Y|line 1: WrongCount
WRITE X x x|line 1: WrongCount
CALL x|line 1: WrongCount
WRITE X x|line 1: UnknownMaker
DRAIN X x|line 1: UnknownMaker
BYTES X 0|line 1: UnknownMaker
BYTES X ''|line 1: UnknownMaker
CLOSE X x|line 1: UnknownMaker
BYTES I z|line 1: BadHex
OPEN I;OPEN X;CONNECT|line 2: UnknownMaker
CALL 0 x;CALL x x;TRY|line 2: NotNumber
OPEN I;BYTES I 00;CLOSE I x;CLOSE X x|line 3: UnknownWhy
STOP 'now|line 1: WrongCount
OPEN X 'now|line 1: WrongCount
CONNECT;STOP 'now|line 2: WrongCount
CONNECT;STOP &|line 2: WrongCount";

#[test]
fn the_first_cause_and_the_first_line_count(rt: HostRuntime) -> Result<(), Fail> {
    rows_end_so::<Refusals>(rt.alloc(), ORDER)
}

#[test]
fn what_is_no_text_is_refused_at_line_0(rt: HostRuntime) -> Result<(), Fail> {
    let found = refusal_of(rt.alloc(), events_of(rt.alloc(), b"CONNECT\n\xff")?)?;
    same(found.as_str(), "line 0: WrongCount", "no text")
}

/// The events of statements over the site.
fn events_of_statements(alloc: Global, text: &str) -> Result<Events, Fail> {
    let found = statements_of(alloc, text)?;
    events_in(alloc, &found)
}

fn events_in(alloc: Global, found: &[Statement]) -> Result<Events, Fail> {
    let site = site_of(alloc, "", SITE)?;
    Ok(read_events(alloc, found, &site))
}

#[test]
fn statements_are_read_as_their_text(rt: HostRuntime) -> Result<(), Fail> {
    let found = events_of_statements(rt.alloc(), "OPEN I;STOP;")?;
    let found = debug_of(rt.alloc(), &found)?;
    same(
        found.as_str(),
        "Ok([(1, Opens(0)), (2, Stop)])",
        "two statements",
    )
}

/// What a piece of so many digits for the first interface comes to.
const PIECES: &str = "\
131072|read
131073|line 1: BadHex
131074|line 1: PieceSize
131075|line 1: BadHex";

struct Pieces;

impl Answers for Pieces {
    fn answer(alloc: Global, asked: &str) -> Result<String, Fail> {
        let text = piece(alloc, number(asked, 0)?)?;
        refusal_of(alloc, events_of(alloc, &text)?)
    }
}

fn piece(alloc: Global, digits: u32) -> Result<Vec<u8>, Fail> {
    let mut text = b"BYTES I ".to_vec(alloc)?;
    for _ in 0..digits {
        text.push(b'5')?;
    }
    Ok(text)
}

#[test]
fn a_piece_has_at_most_65536_bytes(rt: HostRuntime) -> Result<(), Fail> {
    rows_end_so::<Pieces>(rt.alloc(), PIECES)
}
