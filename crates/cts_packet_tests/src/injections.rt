// Raw values that are written over the bytes of a packet that was read.
use cts_base::Bytes;
use cts_cmd::{Given, Refused, inject, parse};
use cts_def::Packet;
use cts_rows::{Answers, bytes_of, cut, digits_of, readable_of, rows_end_so};
use cts_samples::{definitions_of, only_packet};
use std::alloc::Global;
use std::test::Fail;

/// A packet of five bytes: numbers, a text, a number and a block that are counted from the end, and a block that goes to it.
const PACKET: &str = "\
TELEMETRY T P BIG_ENDIAN;\
APPEND_ITEM N 4 UINT;\
APPEND_ITEM S 4 INT;OVERFLOW SATURATE;\
APPEND_ITEM C 8 UINT;OVERFLOW TRUNCATE;STATE OFF 0;STATE ON 1;\
APPEND_ITEM NAME 24 STRING;OVERFLOW TRUNCATE;\
ITEM LAST -16 16 UINT;\
ITEM TAIL -8 8 BLOCK;\
ITEM REST 40 0 BLOCK";

/// The bytes that stand or `-` for none, the members as a command text, and the bytes afterwards or the refusal.
const ROWS: &str = "\
-|T P with N 5|5000000000
-|T P with c 7|0007000000
0f01|T P with C 1|0f01000000
0f01|T P with N 5|5f01000000
0f01020304050607|T P with N 5|5f01020304050607
-|T P with LAST 258|0000000102
0001020304050607|T P with LAST 258|0001020304050102
0001020304|T P with NAME 'a'|0001610000
-|T P with NAME 'abcd'|0000616263
0001020304|T P with TAIL '0xff'|00010203ff
0001020304050607|T P with TAIL ''|0001020304050600
-|T P with N 5, N 6|6000000000
-|T P with TAIL '0xff', LAST 258|0000000102
-|T P with LAST 258, TAIL '0xff'|00000001ff
-|T P with S 100|0700000000
ffffffffff|T P with S -100, N 0|08ffffffff
-|T P with C 257|0001000000
-|T P with C -1|00ff000000
-|T P with NAME 5, N 16, x 1, y 2|UnknownParameter('x')
-|T P with N 16, name 5, C ON|WrongType('NAME')
-|T P with C ON|WrongType('C')
-|T P with N '5'|WrongType('N')
-|T P with NAME '€'|WrongType('NAME')
-|T P with REST '0x01'|WrongType('REST')
-|T P with LAST 65535, n 16, TAIL '0x0102'|Overflow('N')
-|T P with N -1|Overflow('N')
-|T P with TAIL '0x0102'|Overflow('TAIL')";

fn told(alloc: Global, answer: &Result<Bytes, Refused>) -> Result<String, Fail> {
    match answer {
        Ok(bytes) => digits_of(alloc, bytes.as_slice()),
        Err(refused) => readable_of(alloc, refused),
    }
}

/// What is answered where these bytes stand, or none.
fn injected(
    alloc: Global,
    packet: &Packet,
    digits: &str,
    members: &[(Bytes, Given)],
) -> Result<String, Fail> {
    if digits == "-" {
        return told(alloc, &inject(alloc, packet, None, members));
    }
    let bytes = bytes_of(alloc, digits)?;
    told(alloc, &inject(alloc, packet, Some(&bytes), members))
}

/// The same of the members that a command text gives.
fn told_of(alloc: Global, packet: &Packet, digits: &str, text: &str) -> Result<String, Fail> {
    let request = parse(alloc, text.as_bytes())?;
    injected(alloc, packet, digits, request.params.as_slice())
}

struct Injections;

impl Answers for Injections {
    fn answer(alloc: Global, asked: &str) -> Result<String, Fail> {
        let (digits, text) = cut(asked, '|')?;
        let definitions = definitions_of(alloc, PACKET)?;
        told_of(alloc, only_packet(&definitions)?, digits, text)
    }
}

#[test]
fn raw_values_are_written_over_packets(rt: HostRuntime) -> Result<(), Fail> {
    rows_end_so::<Injections>(rt.alloc(), ROWS)
}
