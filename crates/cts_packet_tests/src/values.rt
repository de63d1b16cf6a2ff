// The values of items of definitions that were read: raw, converted, formatted and with units.
use cts_base::{Bytes, Decimal};
use cts_conv::{Value, ValueKind, plain, value_of};
use cts_def::{Definitions, Packet};
use cts_rows::{Answers, as_text, bytes_of, field, part, rows_end_so};
use cts_samples::{definitions_of, only_packet};
use std::alloc::Global;
use std::test::Fail;

/// The lines of the one item of a packet, the kind of value, the packet's bytes, and the text of the value.
const ROWS: &str = "\
ITEM I 12 12 UINT '' LITTLE_ENDIAN|raw|1234|1042
ITEM I 16 24 UINT '' LITTLE_ENDIAN|raw|010203|197121
ITEM I 4 12 UINT|raw|1234|564
ITEM I 0 3 INT|raw|80|-4
ITEM I 0 64 UINT '' LITTLE_ENDIAN|raw|ffffffffffffffff|18446744073709551615
ITEM I 8 16 UINT|raw|0105|1280
ITEM I 8 16 UINT|raw||0
ITEM I -16 8 UINT|raw|01020304|3
ITEM I -16 16 INT '' LITTLE_ENDIAN|raw|010203feff|-2
ITEM I -16 8 UINT|raw|07|7
ITEM I 8 24 STRING|raw|00410042|A
ITEM I 0 0 STRING|raw|4849|HI
ITEM I 8 24 BLOCK|raw|01ab|0xab0000
ITEM I 8 -8 BLOCK|raw|01020304|0x0203
ITEM I -16 -8 BLOCK|raw|01020304|0x03
ITEM I 16 0 BLOCK|raw|01|0x
ITEM I 0 8 UINT;STATE OFF 0;STATE ON 1|raw|01|1
ITEM I 0 8 UINT;STATE OFF 0;STATE ON 1|converted|01|ON
ITEM I 0 8 UINT;STATE OFF 0;STATE ON 1|converted|02|2
ITEM I 0 16 UINT;POLY_READ_CONVERSION -100.0 0.00305|converted|8000|-0.0576
ITEM I 0 16 UINT;POLY_READ_CONVERSION -100.0 0.00305;FORMAT_STRING '%0.3f'|formatted|8000|-0.058
ITEM I 0 16 UINT;POLY_READ_CONVERSION -100.0 0.00305;FORMAT_STRING '%0.3f';UNITS CELSIUS C|units|8000|-0.058 C
ITEM I 0 8 UINT;SEG_POLY_READ_CONVERSION 10 1 1;SEG_POLY_READ_CONVERSION 0 5|converted|09|5.0
ITEM I 0 8 UINT;SEG_POLY_READ_CONVERSION 10 1 1;SEG_POLY_READ_CONVERSION 0 5|converted|0a|11.0
ITEM I 0 8 INT;SEG_POLY_READ_CONVERSION 10 1 1;SEG_POLY_READ_CONVERSION 0 5|converted|ff|5.0
ITEM I 0 8 UINT;FORMAT_STRING '0x%04X'|formatted|ab|0x00AB
ITEM I 0 8 UINT;FORMAT_STRING '%5d%%'|formatted|07|    7%
ITEM I 0 8 UINT;FORMAT_STRING '%-5d.'|formatted|07|7    .
ITEM I 0 8 INT;FORMAT_STRING '%+04d'|formatted|fb|-005
ITEM I 0 8 UINT;FORMAT_STRING '%b'|formatted|05|101
ITEM I 0 8 UINT;UNITS VOLTS V|units|05|5 V
ITEM I 0 8 UINT;FORMAT_STRING '%u'|formatted|ab|171
ITEM I 0 8 UINT;FORMAT_STRING '%x'|formatted|ab|ab
ITEM I 0 8 UINT;FORMAT_STRING '%X'|formatted|ab|AB
ITEM I 0 8 UINT;FORMAT_STRING '%o'|formatted|ab|253
ITEM I 0 8 UINT;FORMAT_STRING '%b'|formatted|ab|10101011
ITEM I 0 16 INT;FORMAT_STRING '%i'|formatted|ff55|-171
ITEM I 0 16 INT;FORMAT_STRING '%x'|formatted|ff55|-ab
ITEM I 0 16 INT;FORMAT_STRING '%X'|formatted|ff55|-AB
ITEM I 0 16 INT;FORMAT_STRING '%+o'|formatted|ff55|-253
ITEM I 0 16 INT;FORMAT_STRING '%b'|formatted|ff55|-10101011
ITEM I 0 8 UINT;FORMAT_STRING '%+d'|formatted|ab|+171
ITEM I 0 8 UINT;FORMAT_STRING '%+X'|formatted|ab|+AB
ITEM I 0 8 UINT;FORMAT_STRING '%+d'|formatted|00|+0
ITEM I 0 8 UINT;FORMAT_STRING '%x'|formatted|00|0
ITEM I 0 8 UINT;FORMAT_STRING '%o'|formatted|00|0
ITEM I 0 8 UINT;FORMAT_STRING '%b'|formatted|00|0
ITEM I 0 64 UINT;FORMAT_STRING '%x'|formatted|ffffffffffffffff|ffffffffffffffff
ITEM I 0 8 UINT;POLY_READ_CONVERSION 0.5 1;FORMAT_STRING '%.0f'|formatted|02|3
ITEM I 0 8 INT;POLY_READ_CONVERSION -0.5 1;FORMAT_STRING '%.0f'|formatted|fe|-3
ITEM I 0 8 UINT;POLY_READ_CONVERSION -0.4 1;FORMAT_STRING '%+.0f'|formatted|00|+0
ITEM I 0 8 UINT;POLY_READ_CONVERSION 0.5 1;FORMAT_STRING '%f'|formatted|02|2.500000
ITEM I 0 8 UINT;POLY_READ_CONVERSION 0.5 1;FORMAT_STRING '%.12f'|formatted|02|2.500000000000
ITEM I 0 8 UINT;POLY_READ_CONVERSION -0.000000000001 1;FORMAT_STRING '%.12f'|formatted|00|-0.000000000001
ITEM I 0 8 UINT;POLY_READ_CONVERSION -0.000000000001 1;FORMAT_STRING '%.11f'|formatted|00|0.00000000000
ITEM I 0 8 UINT;POLY_READ_CONVERSION 0.05 1;FORMAT_STRING '%08.2f'|formatted|01|00001.05
ITEM I 0 8 UINT;FORMAT_STRING '%.3f'|formatted|07|7.000
ITEM I 0 8 UINT;STATE OFF 0;STATE ON 1;FORMAT_STRING '%4s'|formatted|01|  ON
ITEM I 0 8 UINT;SEG_POLY_READ_CONVERSION 20 2;SEG_POLY_READ_CONVERSION 10 1|converted|05|1.0
ITEM I 0 8 UINT;SEG_POLY_READ_CONVERSION 20 2;SEG_POLY_READ_CONVERSION 10 1|converted|13|1.0
ITEM I 0 8 UINT;SEG_POLY_READ_CONVERSION 20 2;SEG_POLY_READ_CONVERSION 10 1|converted|14|2.0";

fn kind_named(name: &str) -> Result<ValueKind, Fail> {
    match name {
        "raw" => Ok(ValueKind::Raw),
        "converted" => Ok(ValueKind::Converted),
        "formatted" => Ok(ValueKind::Formatted),
        "units" => Ok(ValueKind::WithUnits),
        _ => Err(Fail::new("no kind of value")),
    }
}

/// The text of the value of the one item of the one packet of these definitions, in these bytes.
pub fn shown_of_only(
    alloc: Global,
    definitions: &Definitions,
    kind: ValueKind,
    bytes: &[u8],
) -> Result<String, Fail> {
    shown(alloc, only_packet(definitions)?, kind, bytes)
}

fn shown(alloc: Global, packet: &Packet, kind: ValueKind, bytes: &[u8]) -> Result<String, Fail> {
    match packet.items.as_slice() {
        [item] => plain_text(alloc, &value_of(alloc, packet, item, bytes, kind)?),
        _ => Err(Fail::new("another count of items")),
    }
}

fn plain_text(alloc: Global, value: &Value) -> Result<String, Fail> {
    let text = plain(alloc, value)?;
    Ok(as_text(text.as_slice())?.to_string(alloc)?)
}

/// A packet of an item with these lines.
pub fn packet_with(alloc: Global, lines: &str) -> Result<Definitions, Fail> {
    let text = format!(in alloc; "TELEMETRY T P BIG_ENDIAN;{lines}")?;
    definitions_of(alloc, text.as_str())
}

struct Values;

impl Answers for Values {
    fn answer(alloc: Global, asked: &str) -> Result<String, Fail> {
        let kind = kind_named(field(asked, 1))?;
        let bytes = bytes_of(alloc, field(asked, 2))?;
        let definitions = packet_with(alloc, field(asked, 0))?;
        shown_of_only(alloc, &definitions, kind, &bytes)
    }
}

#[test]
fn items_have_their_values(rt: HostRuntime) -> Result<(), Fail> {
    rows_end_so::<Values>(rt.alloc(), ROWS)
}

/// The plain text of a value: a whole number, one with parts, and a text and a block of these bytes.
const PLAIN: &str = "\
whole|-1280
parts|-0.0576
text 4c4f57|LOW
block 01ab|0x01ab";

struct Plain;

impl Answers for Plain {
    fn answer(alloc: Global, asked: &str) -> Result<String, Fail> {
        let bytes = Bytes::of(bytes_of(alloc, part(asked, 1))?);
        plain_text(alloc, &value_named(part(asked, 0), bytes))
    }
}

fn value_named(word: &str, bytes: Bytes) -> Value {
    match word {
        "whole" => Value::Whole(-1280),
        "parts" => Value::Parts(Decimal {
            parts: -57_600_000_000,
        }),
        "text" => Value::Text(bytes),
        _ => Value::Raw(bytes),
    }
}

#[test]
fn values_have_plain_texts(rt: HostRuntime) -> Result<(), Fail> {
    rows_end_so::<Plain>(rt.alloc(), PLAIN)
}
