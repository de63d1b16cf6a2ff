// What no clause says: examples from outside, and that calls succeed where there is memory.
use cts_base::{Bytes, Decimal, List};
use cts_bits::{Order, Place};
use cts_def::{ItemKind, Limits, ProtoSpec, Span, Start, Time, is_format, is_too_large};
use cts_rows::{Answers, cut, debug_of, number, part, rows_end_so, same};
use std::alloc::Global;
use std::test::Fail;

fn kind_of(word: &str) -> Result<ItemKind, Fail> {
    match word {
        "Uint" => Ok(ItemKind::Uint),
        "Int" => Ok(ItemKind::Int),
        "Str" => Ok(ItemKind::Str),
        "Block" => Ok(ItemKind::Block),
        _ => Err(Fail::new("no kind")),
    }
}

fn order_of(word: &str) -> Order {
    if word == "Little" {
        Order::Little
    } else {
        Order::Big
    }
}

/// A kind, an order, an offset and a size.
fn span_of(row: &str) -> Result<Span, Fail> {
    let kind = kind_of(part(row, 0))?;
    let order = order_of(part(row, 1));
    let offset = number(row, 2)?;
    let size = number(row, 3)?;
    Ok(Span {
        kind,
        order,
        offset,
        size,
    })
}

/// Whether a span is misplaced, its end in bits, and the bytes that it needs.
const SPANS: &str = "\
Uint Big 4 12|(false, 16, 2)
Uint Little 8 16|(false, 24, 3)
Uint Little 10 12|(false, 16, 2)
Str Little 8 24|(false, 32, 4)
Block Big 16 0|(false, 16, 2)
Block Big 16 -16|(false, 16, 4)
Int Big -16 16|(false, 0, 2)";

struct Spans;

impl Answers for Spans {
    fn answer(alloc: Global, asked: &str) -> Result<String, Fail> {
        let span = span_of(asked)?;
        debug_of(
            alloc,
            &(span.is_misplaced(), span.end(), span.bytes_needed()),
        )
    }
}

#[test]
fn spans_have_ends_and_needs(rt: HostRuntime) -> Result<(), Fail> {
    rows_end_so::<Spans>(rt.alloc(), SPANS)
}

/// Whether a span is misplaced.
const MISPLACED: &str = "\
Uint Big 0 0|true
Uint Big 0 65|true
Uint Big 8388601 8|true
Uint Little 0 12|true
Uint Little 8388600 60|true
Uint Big -12 8|true
Uint Big -8 16|true
Uint Little -16 12|true
Str Big 4 8|true
Str Big 0 12|true
Block Big -8 16|true
Block Big -8 -16|true
Block Big 8388608 8|true
Block Big 0 -2147483648|true";

struct Misplaced;

impl Answers for Misplaced {
    fn answer(alloc: Global, asked: &str) -> Result<String, Fail> {
        debug_of(alloc, &span_of(asked)?.is_misplaced())
    }
}

#[test]
fn misplaced_spans_are_told(rt: HostRuntime) -> Result<(), Fail> {
    rows_end_so::<Misplaced>(rt.alloc(), MISPLACED)
}

/// Whether a span is variable, and whether it is bits in little-endian order.
const FORMS: &str = "\
Block Big 8 0|(true, false)
Block Big 8 8|(false, false)
Uint Little 10 12|(false, true)
Uint Little 8 16|(false, false)
Str Little 8 24|(false, false)";

struct Forms;

impl Answers for Forms {
    fn answer(alloc: Global, asked: &str) -> Result<String, Fail> {
        let span = span_of(asked)?;
        debug_of(alloc, &(span.is_variable(), span.is_little_bits()))
    }
}

#[test]
fn spans_of_any_length_and_of_bits_are_told(rt: HostRuntime) -> Result<(), Fail> {
    rows_end_so::<Forms>(rt.alloc(), FORMS)
}

/// Whether a kind is a number, and a signed one.
const KINDS: &str = "\
Uint|(true, false)
Int|(true, true)
Str|(false, false)
Block|(false, false)";

struct Kinds;

impl Answers for Kinds {
    fn answer(alloc: Global, asked: &str) -> Result<String, Fail> {
        let kind = kind_of(asked)?;
        debug_of(alloc, &(kind.is_number(), kind.is_signed()))
    }
}

#[test]
fn kinds_are_told(rt: HostRuntime) -> Result<(), Fail> {
    rows_end_so::<Kinds>(rt.alloc(), KINDS)
}

/// Whether a clock shows so many micros.
const TIMES: &str = "\
999999|true
1000000|false";

struct Times;

impl Answers for Times {
    fn answer(alloc: Global, asked: &str) -> Result<String, Fail> {
        let micros = number(asked, 0)?;
        debug_of(alloc, &Time { seconds: 0, micros }.is_of_clock())
    }
}

#[test]
fn times_of_a_clock_are_told(rt: HostRuntime) -> Result<(), Fail> {
    rows_end_so::<Times>(rt.alloc(), TIMES)
}

/// Whether so many bits of a kind spell a number.
const SPELLINGS: &str = "\
Uint 8 0|Some(true)
Uint 8 255|Some(true)
Uint 8 -1|Some(false)
Uint 8 256|Some(false)
Uint 64 0|Some(true)
Uint 64 18446744073709551615|Some(true)
Uint 64 -1|Some(false)
Uint 64 18446744073709551616|Some(false)
Int 8 -128|Some(true)
Int 8 127|Some(true)
Int 8 -129|Some(false)
Int 8 128|Some(false)
Int 1 -1|Some(true)
Int 1 0|Some(true)
Int 1 -2|Some(false)
Int 1 1|Some(false)";

struct Spellings;

impl Answers for Spellings {
    fn answer(alloc: Global, asked: &str) -> Result<String, Fail> {
        let kind = kind_of(part(asked, 0))?;
        let bits = number(asked, 1)?;
        debug_of(alloc, &spelled(kind, bits, number(asked, 2)?))
    }
}

/// Whether a number has a spelling, where a field may have so many bits.
fn spelled(kind: ItemKind, bits: u32, value: i128) -> Option<bool> {
    if bits <= 64 {
        Some(kind.is_spelled(bits, value))
    } else {
        None
    }
}

#[test]
fn numbers_have_spellings(rt: HostRuntime) -> Result<(), Fail> {
    rows_end_so::<Spellings>(rt.alloc(), SPELLINGS)
}

/// Whether a text is a format.
const FORMATS: &str = "\
%0.3f|true
%d|true
%05d|true
%00d|true
%-+8x|true
100%% %s|true
%.05f|true
%.12f|true
%s%%|true
a %+0-3X b|true
|false
none|false
%d %d|false
%|false
%%|false
%5|false
%--d|false
%1234d|false
%.13f|false
%.f|false
%.2d|false
%e|false
%q|false
% d|false
%d%|false
%%d|false";

struct Formats;

impl Answers for Formats {
    fn answer(alloc: Global, asked: &str) -> Result<String, Fail> {
        debug_of(alloc, &is_format(asked.as_bytes()))
    }
}

#[test]
fn formats_have_one_directive(rt: HostRuntime) -> Result<(), Fail> {
    rows_end_so::<Formats>(rt.alloc(), FORMATS)
}

/// Whether coefficients are too large for so many bits: those of 2^62 and 2^126 and their neighbours.
const WEIGHTS: &str = "\
64 |Some(false)
8 85070591730234615865843651857942052863|Some(false)
8 -85070591730234615865843651857942052864|Some(true)
8 -170141183460469231731687303715884105728|Some(true)
64 0 -4611686018427387904|Some(true)
64 0 4611686018427387903|Some(false)
64 85070591730234615865843651857942052863 0 1|Some(true)
64 85070591730234615865843651857942052863 0 0|Some(false)";

struct Weights;

impl Answers for Weights {
    fn answer(alloc: Global, asked: &str) -> Result<String, Fail> {
        let (bits, rest) = cut(asked, ' ')?;
        let coefficients = decimals_of(alloc, rest)?;
        debug_of(alloc, &weighed(number(bits, 0)?, &coefficients))
    }
}

/// Whether they are too large, where a field may have so many bits.
fn weighed(bits: u32, coefficients: &[Decimal]) -> Option<bool> {
    if bits <= 64 {
        Some(is_too_large(bits, coefficients))
    } else {
        None
    }
}

fn decimals_of(alloc: Global, words: &str) -> Result<Vec<Decimal>, Fail> {
    let mut out = Vec::new(alloc);
    for word in words.split_ascii_whitespace() {
        out.push(decimal_of(word)?)?;
    }
    Ok(out)
}

fn decimal_of(word: &str) -> Result<Decimal, Fail> {
    Ok(Decimal {
        parts: number(word, 0)?,
    })
}

#[test]
fn coefficients_are_weighed(rt: HostRuntime) -> Result<(), Fail> {
    rows_end_so::<Weights>(rt.alloc(), WEIGHTS)
}

/// Whether limits are in order: the yellow ones between -5 and 5, and perhaps green ones.
const LIMITS: &str = "\
-5 5|true
2 2|false
-6 2|false
-2 6|false
-2 2 -1 1|true
-1 2 -1 1|false
-2 1 -1 1|false
-2 2 1 1|false";

struct Orders;

impl Answers for Orders {
    fn answer(alloc: Global, asked: &str) -> Result<String, Fail> {
        debug_of(alloc, &limits_of(asked)?.are_in_order())
    }
}

fn limits_of(row: &str) -> Result<Limits, Fail> {
    let yellow_low = decimal_of(part(row, 0))?;
    let yellow_high = decimal_of(part(row, 1))?;
    Ok(Limits {
        red_low: Decimal { parts: -5 },
        yellow_low,
        yellow_high,
        red_high: Decimal { parts: 5 },
        green: green_of(part(row, 2), part(row, 3))?,
    })
}

fn green_of(low: &str, high: &str) -> Result<Option<(Decimal, Decimal)>, Fail> {
    if low.is_empty() {
        return Ok(None);
    }
    let low = decimal_of(low)?;
    Ok(Some((low, decimal_of(high)?)))
}

#[test]
fn limits_have_an_order(rt: HostRuntime) -> Result<(), Fail> {
    rows_end_so::<Orders>(rt.alloc(), LIMITS)
}

/// A start of three bytes with one id field.
fn start(alloc: Global) -> Result<Start, Fail> {
    let place = Place::new(8, 16, Order::Little)?;
    let mut ids = Vec::new(alloc);
    ids.push((place, 7, true))?;
    Ok(Start {
        ids: List::of(ids),
        length: 3,
    })
}

fn starts(alloc: Global) -> Result<Vec<Start>, Fail> {
    let mut starts = Vec::new(alloc);
    starts.push(start(alloc)?)?;
    Ok(starts)
}

fn fixed(alloc: Global) -> Result<ProtoSpec, Fail> {
    let starts = starts(alloc)?;
    Ok(ProtoSpec::Fixed {
        min_id: 3,
        discard: 0,
        sync: Bytes::copy(alloc, b"\x1a\xcf")?,
        telemetry: true,
        fill: false,
        raise: true,
        starts: List::of(starts),
    })
}

/// The copy of that protocol.
const COPY: &str =
    "Fixed { min_id: 3, discard: 0, sync: Bytes { held: [26, 207] }, telemetry: true, fill: false, raise: true, starts: List { items: [Start { ids: List { items: [(Place { offset: 8, bits: 16, order: Little }, 7, true)] }, length: 3 }] } }";

fn copy_text(alloc: Global, protocol: &ProtoSpec) -> Result<String, Fail> {
    debug_of(alloc, &protocol.copied()?)
}

#[test]
fn protocols_are_copied(rt: HostRuntime) -> Result<(), Fail> {
    let found = copy_text(rt.alloc(), &fixed(rt.alloc())?)?;
    same(found.as_str(), COPY, "a protocol")
}
