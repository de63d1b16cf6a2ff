// A sink in memory.
use crate::shared::tell;
use cts_outside::{MemSink, PutFailed, Sink};
use cts_rows::{Answers, cut, debug_of, numbers, rows_end_so};
use std::alloc::Global;
use std::test::Fail;

/// The numbers of the puts that fail, pieces, and of each what its put answers, what the sink then holds, and how many puts have
/// failed.
const PUTS: &str = "\
|ab;;cde|(Ok(()), [97, 98], 0);(Ok(()), [97, 98], 0);(Ok(()), [97, 98, 99, 100, 101], 0);
0 2|a;b;c;d|(Err(PutFailed), [], 1);(Ok(()), [98], 1);(Err(PutFailed), [98], 2);(Ok(()), [98, 100], 2);";

struct Puts;

impl Answers for Puts {
    fn answer(alloc: Global, asked: &str) -> Result<String, Fail> {
        let (failing, pieces) = cut(asked, '|')?;
        let mut sink = empty_sink(alloc, failing)?;
        told_of_puts(alloc, &mut sink, pieces)
    }
}

#[test]
fn a_sink_keeps_what_is_put_and_the_listed_puts_put_nothing(rt: HostRuntime) -> Result<(), Fail> {
    rows_end_so::<Puts>(rt.alloc(), PUTS)
}

fn empty_sink(alloc: Global, failing: &str) -> Result<MemSink, Fail> {
    let sink = MemSink::new(alloc, numbers(alloc, failing)?);
    if !sink.bytes().is_empty() {
        return Err(Fail::new("a sink that holds bytes from the start"));
    }
    Ok(sink)
}

/// A put, which says whether it went well.
fn put<S: Sink>(sink: &mut S, bytes: &[u8]) -> Result<(), PutFailed> {
    sink.put(bytes)
}

fn put_text(alloc: Global, sink: &mut MemSink, piece: &str) -> Result<String, Fail> {
    let answer = put(sink, piece.as_bytes());
    debug_of(alloc, &(answer, sink.bytes(), sink.faults()))
}

fn told_of_puts(alloc: Global, sink: &mut MemSink, pieces: &str) -> Result<String, Fail> {
    let mut out = String::new(alloc);
    for piece in pieces.split(';') {
        tell(&mut out, put_text(alloc, sink, piece)?.as_str())?;
    }
    Ok(out)
}
