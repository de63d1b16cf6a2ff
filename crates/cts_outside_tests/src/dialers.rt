// A dialer in memory.
use crate::driven::Driven;
use crate::shared::tell;
use cts_base::Bytes;
use cts_outside::{MemConnection, MemDialer, MemPiece};
use cts_rows::{Answers, debug_of, field, number, numbers, rows_end_so};
use std::alloc::Global;
use std::test::Fail;

/// The numbers of the calls that fail; the connections, each with how many Later it answers and its pieces, `-` for Nothing; and
/// calls (`Driven`). Of each call what it answers; then the bytes that were put to the first two connections, once they are hung up, how many takes and puts have
/// failed, how many dials, and the port of the last aim.
const CALLS: &str = "\
||d a7 a8 d|Finished;();();Finished;((None, None), 0, 0, 8);
|0 abc - d;1|d t2 t2 t2 t8 t1 pxy p pz h d d t1 h d h|Linked;(Got(2), [97, 98]);(Got(1), [99, 45]);(Nothing, [45, 45]);(Got(1), [100, 45, 45, 45, 45, 45, 45, 45]);(End, [45]);Ok(());Ok(());Ok(());();Later;Linked;(End, [45]);();Finished;();((Some([120, 121, 122]), Some([])), 0, 0, 0);
0 2 4|0 ab|d d t1 t1 pxy py t1|Failed;Linked;(Failed, [45]);(Got(1), [97]);Err(PutFailed);Ok(());(Got(1), [98]);((None, None), 2, 1, 0);
1|2;0 a|d d d d t1 h d t1|Later;Failed;Later;Linked;(End, [45]);();Linked;(Got(1), [97]);((Some([]), None), 0, 1, 0);";

struct Calls;

impl Answers for Calls {
    fn answer(alloc: Global, asked: &str) -> Result<String, Fail> {
        let failing = numbers(alloc, field(asked, 0))?;
        let connections = connections(alloc, field(asked, 1))?;
        let mut driven = Driven::new(MemDialer::new(alloc, connections, failing));
        told_of_calls(alloc, &mut driven, field(asked, 2))
    }
}

#[test]
fn a_dialer_answers_by_its_script_and_the_listed_calls_fail(rt: HostRuntime) -> Result<(), Fail> {
    rows_end_so::<Calls>(rt.alloc(), CALLS)
}

fn connections(alloc: Global, text: &str) -> Result<Vec<MemConnection>, Fail> {
    let mut connections = Vec::new(alloc);
    for words in text.split(';') {
        if !words.is_empty() {
            connections.push(connection(alloc, words)?)?;
        }
    }
    Ok(connections)
}

fn connection(alloc: Global, words: &str) -> Result<MemConnection, Fail> {
    let mut pieces = Vec::new(alloc);
    for word in words.split(' ').skip(1) {
        pieces.push(piece(alloc, word)?)?;
    }
    Ok(MemConnection {
        later: number(words, 0)?,
        pieces,
    })
}

fn piece(alloc: Global, word: &str) -> Result<MemPiece, Fail> {
    if word == "-" {
        return Ok(MemPiece::Nothing);
    }
    Ok(MemPiece::Bytes(Bytes::copy(alloc, word.as_bytes())?))
}

fn told_of_calls(
    alloc: Global,
    driven: &mut Driven<MemDialer>,
    calls: &str,
) -> Result<String, Fail> {
    let mut out = String::new(alloc);
    for call in calls.split(' ') {
        tell(&mut out, driven.answer(alloc, call)?.as_str())?;
    }
    tell(&mut out, end_text(alloc, &driven.dialer)?.as_str())?;
    Ok(out)
}

/// What was put to the first two connections that were hung up, both counts, and the port of the last aim.
fn end_text(alloc: Global, dialer: &MemDialer) -> Result<String, Fail> {
    let port = match dialer.last_aim() {
        Some(aim) => aim.port,
        None => 0,
    };
    let put = (dialer.put_to(0), dialer.put_to(1));
    debug_of(alloc, &(put, dialer.faults(), dialer.failed_dials(), port))
}
