// Commands built from texts, over definitions that were read.
use crate::values::{packet_with, shown_of_only};
use cts_base::Bytes;
use cts_cmd::{Built, Checks, Refused, build, parse};
use cts_conv::ValueKind;
use cts_def::Definitions;
use cts_rows::{Answers, cut, debug_of, readable_of, rows_end_so};
use cts_samples::definitions_of;
use std::alloc::Global;
use std::test::Fail;

/// The command of the demo.
const COLLECT: &str = "\
COMMAND INST COLLECT BIG_ENDIAN;\
APPEND_ID_PARAMETER OPCODE 8 UINT 7 7 7;\
APPEND_PARAMETER DURATION 16 UINT 0 10 5";

/// Numbers that overflow, states, texts and blocks; and a hazardous command.
const FIELDS: &str = "\
COMMAND T A BIG_ENDIAN;\
APPEND_PARAMETER N 4 UINT 0 15 1;OVERFLOW TRUNCATE;\
APPEND_PARAMETER S 4 INT -8 7 -1;OVERFLOW SATURATE;\
APPEND_PARAMETER M 8 UINT 0 255 0;STATE OFF 0;STATE ARM 1 HAZARDOUS;REQUIRED;\
APPEND_PARAMETER NAME 24 STRING 'ab';OVERFLOW TRUNCATE;\
APPEND_PARAMETER RAW 16 BLOCK 0x0102;\
APPEND_PARAMETER REST 0 BLOCK '';\
COMMAND T B LITTLE_ENDIAN;HAZARDOUS;\
APPEND_PARAMETER W 16 UINT 0 65535 258;\
COMMAND T C BIG_ENDIAN;\
PARAMETER N 8 8 UINT 0 255 1;\
PARAMETER REST 0 0 BLOCK ''";

/// `all` or `none` of the checks, the text, and what is answered.
const COLLECTS: &str = "\
all|INST COLLECT with DURATION 10|Built { command: 0, bytes: Bytes { held: [7, 0, 10] } }
all|inst collect WITH duration 0x0A|Built { command: 0, bytes: Bytes { held: [7, 0, 10] } }
all|INST COLLECT|Built { command: 0, bytes: Bytes { held: [7, 0, 5] } }
none|INST COLLECT with OPCODE 9, DURATION 1|Built { command: 0, bytes: Bytes { held: [9, 0, 1] } }
all|INST COLLECT with DURATION 11|OutOfRange { name: 'DURATION', value: 11, min: 0, max: 10 }
none|INST COLLECT with DURATION 11|Built { command: 0, bytes: Bytes { held: [7, 0, 11] } }
none|INST COLLECT with DURATION 70000|Overflow('DURATION')
none|INST COLLECT with DURATION -1|Overflow('DURATION')
all|INST COLLECT with DURATION 70000|OutOfRange { name: 'DURATION', value: 70000, min: 0, max: 10 }
all|INST COLLECT with DURATION 1, DURATION 2|Twice('DURATION')
all|INST COLLECT with DURATION x|WrongType('DURATION')
all|INST COLLECT with DURATION '5'|WrongType('DURATION')
all|INST COLLECT with DURATION 1, x 2, y 3, DURATION 4|UnknownParameter('x')
all|INST OTHER with x 2|UnknownCommand
all|AUX COLLECT|UnknownTarget
all|INST COLLECT with DURATION|Refused { place: 26, cause: NoValue }";

const FIELD_ROWS: &str = "\
all|T A with M OFF|Built { command: 0, bytes: Bytes { held: [31, 0, 97, 98, 0, 1, 2] } }
none|T A with M off, N 18, S 100|Built { command: 0, bytes: Bytes { held: [39, 0, 97, 98, 0, 1, 2] } }
none|T A with M 0, N -1, S -100|Built { command: 0, bytes: Bytes { held: [248, 0, 97, 98, 0, 1, 2] } }
none|T A with M ARM|Built { command: 0, bytes: Bytes { held: [31, 1, 97, 98, 0, 1, 2] } }
all|T A with M ARM|Hazardous
all|T A with M 1|Hazardous
all|T A with M 2|Built { command: 0, bytes: Bytes { held: [31, 2, 97, 98, 0, 1, 2] } }
all|T A with M ON|UnknownState('M')
all|T A with M ON, S x|WrongType('S')
all|T A with N 1|Missing('M')
all|T A with M 0, NAME abcd|Built { command: 0, bytes: Bytes { held: [31, 0, 97, 98, 99, 1, 2] } }
all|T A with M 0, NAME ''|Built { command: 0, bytes: Bytes { held: [31, 0, 0, 0, 0, 1, 2] } }
all|T A with M 0, NAME 5|WrongType('NAME')
all|T A with M 0, RAW '0xff'|Built { command: 0, bytes: Bytes { held: [31, 0, 97, 98, 0, 255, 0] } }
all|T A with M 0, RAW 0xff|WrongType('RAW')
all|T A with M 0, RAW '0xfff'|Overflow('RAW')
all|T A with M 0, RAW 'x'|Built { command: 0, bytes: Bytes { held: [31, 0, 97, 98, 0, 120, 0] } }
all|T A with M 0, REST '0x0a0b0c'|Built { command: 0, bytes: Bytes { held: [31, 0, 97, 98, 0, 1, 2, 10, 11, 12] } }
all|T B|Hazardous
none|T B|Built { command: 1, bytes: Bytes { held: [2, 1] } }
none|T B with W 1|Built { command: 1, bytes: Bytes { held: [1, 0] } }
all|T C|Built { command: 2, bytes: Bytes { held: [0, 1] } }
all|T C with REST '0x0a0b', N 9|Built { command: 2, bytes: Bytes { held: [0, 9, 10, 11] } }";

/// A telemetry item, a command text of A, and what the item reads in the command's bytes at the place of one of its parameters.
const READ_BACK: &str = "\
ITEM I 0 4 UINT|T A with M 0, N 15|15
ITEM I 4 4 INT|T A with M 0, S -2|-2
ITEM I 8 8 UINT|T A with M 1|1
ITEM I 16 24 STRING|T A with M 0|ab
ITEM I 16 24 STRING|T A with M 0, NAME a|a
ITEM I 16 24 STRING|T A with M 0, NAME abcd|abc
ITEM I 40 16 BLOCK|T A with M 0|0x0102
ITEM I 40 16 BLOCK|T A with M 0, RAW '0xff'|0xff00
ITEM I 40 16 BLOCK|T A with M 0, RAW xy|0x7879
ITEM I 56 0 BLOCK|T A with M 0|0x
ITEM I 56 0 BLOCK|T A with M 0, REST '0x0a0b0c'|0x0a0b0c";

/// The number and the bytes of the command that is built, or why it is not.
fn told(alloc: Global, answer: &Result<Built, Refused>) -> Result<String, Fail> {
    match answer {
        Ok(built) => debug_of(alloc, built),
        Err(refused) => readable_of(alloc, refused),
    }
}

/// What is answered to a text over these definitions, with all checks or none.
fn answer(alloc: Global, definitions: &Definitions, text: &str, all: bool) -> Result<String, Fail> {
    let checks = Checks {
        range: all,
        hazardous: all,
    };
    match parse(alloc, text.as_bytes()) {
        Ok(request) => told(alloc, &build(alloc, definitions, &request, checks)),
        Err(fault) => debug_of(alloc, &fault),
    }
}

/// The same, where `all` or `none` of the checks stands in front of the text.
fn answer_of(alloc: Global, definitions: &str, asked: &str) -> Result<String, Fail> {
    let (checks, text) = cut(asked, '|')?;
    let definitions = definitions_of(alloc, definitions)?;
    answer(alloc, &definitions, text, checks == "all")
}

struct Collects;

impl Answers for Collects {
    fn answer(alloc: Global, asked: &str) -> Result<String, Fail> {
        answer_of(alloc, COLLECT, asked)
    }
}

#[test]
fn commands_of_the_demo_are_built(rt: HostRuntime) -> Result<(), Fail> {
    rows_end_so::<Collects>(rt.alloc(), COLLECTS)
}

struct Fields;

impl Answers for Fields {
    fn answer(alloc: Global, asked: &str) -> Result<String, Fail> {
        answer_of(alloc, FIELDS, asked)
    }
}

#[test]
fn fields_hold_what_is_given_for_them(rt: HostRuntime) -> Result<(), Fail> {
    rows_end_so::<Fields>(rt.alloc(), FIELD_ROWS)
}

/// The bytes of the command that is built of a text, without checks.
fn built_of(alloc: Global, text: &str) -> Result<Bytes, Fail> {
    let definitions = definitions_of(alloc, FIELDS)?;
    built_over(alloc, &definitions, text)
}

fn built_over(alloc: Global, definitions: &Definitions, text: &str) -> Result<Bytes, Fail> {
    let request = parse(alloc, text.as_bytes())?;
    let checks = Checks {
        range: false,
        hazardous: false,
    };
    match build(alloc, definitions, &request, checks) {
        Ok(built) => Ok(built.bytes),
        Err(_) => Err(Fail::new("refused")),
    }
}

struct ReadBack;

impl Answers for ReadBack {
    fn answer(alloc: Global, asked: &str) -> Result<String, Fail> {
        let (line, text) = cut(asked, '|')?;
        let bytes = built_of(alloc, text)?;
        read_back(alloc, line, bytes.as_slice())
    }
}

/// What the one item of this line reads in the bytes.
fn read_back(alloc: Global, line: &str, bytes: &[u8]) -> Result<String, Fail> {
    let definitions = packet_with(alloc, line)?;
    shown_of_only(alloc, &definitions, ValueKind::Raw, bytes)
}

#[test]
fn fields_are_read_back(rt: HostRuntime) -> Result<(), Fail> {
    rows_end_so::<ReadBack>(rt.alloc(), READ_BACK)
}
