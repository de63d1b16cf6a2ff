// Statements of a definitions file word by word: what each says, and why its words are refused.
use cts_base::Bytes;
use cts_defstatement::{DefCause, DefFault, ItemLine, Line, Open, PacketKind, read_line};
use cts_rows::{Answers, cut, debug_of, display_of, readable_of, refusal_of, rows_end_so, same};
use std::alloc::Global;
use std::test::Fail;

/// What is open, by the first word of a row: `-` nothing, `t` a telemetry packet, `ti` with an item, `c` a command, `cp`
/// with a parameter.
fn open(word: &str) -> Open {
    match word {
        "t" => Open::Packet(PacketKind::Telemetry),
        "ti" => Open::Item(PacketKind::Telemetry),
        "c" => Open::Packet(PacketKind::Command),
        "cp" => Open::Item(PacketKind::Command),
        _ => Open::Nothing,
    }
}

/// The words of a text, between single spaces.
fn words(alloc: Global, text: &str) -> Result<Vec<Bytes>, Fail> {
    let mut words = Vec::new(alloc);
    for word in text.split(' ') {
        words.push(Bytes::copy(alloc, word.as_bytes())?)?;
    }
    Ok(words)
}

/// A row is what is open, a space, and the words of a statement.
fn read(alloc: Global, row: &str) -> Result<Result<Line, DefFault>, Fail> {
    let (opened, text) = cut(row, ' ')?;
    let words = words(alloc, text)?;
    Ok(read_line(alloc, 1, open(opened), &words))
}

/// The cause for which the words of a row are refused, or `read`.
struct Causes;

impl Answers for Causes {
    fn answer(alloc: Global, asked: &str) -> Result<String, Fail> {
        refusal_of(alloc, read(alloc, asked)?)
    }
}

/// Each statement with the fewest words and with one less, and with the most words and with one more.
const COUNTS: &str = "\
- COMMAND T C BIG_ENDIAN|read
- COMMAND T C|line 1: WrongCount
- COMMAND T C BIG_ENDIAN d|read
- COMMAND T C BIG_ENDIAN d 1|line 1: WrongCount
ti TELEMETRY T P LITTLE_ENDIAN|read
ti TELEMETRY T P|line 1: WrongCount
ti TELEMETRY T P LITTLE_ENDIAN d|read
ti TELEMETRY T P LITTLE_ENDIAN d 1|line 1: WrongCount
t ITEM A 0 8 UINT|read
t ITEM A 0 8|line 1: WrongCount
t ITEM A 0 8 UINT d BIG_ENDIAN|read
t ITEM A 0 8 UINT d BIG_ENDIAN 1|line 1: WrongCount
t APPEND_ITEM A 8 UINT|read
t APPEND_ITEM A 8|line 1: WrongCount
t APPEND_ITEM A 8 UINT d BIG_ENDIAN|read
t APPEND_ITEM A 8 UINT d BIG_ENDIAN 1|line 1: WrongCount
ti ID_ITEM A 0 8 UINT 1|read
ti ID_ITEM A 0 8 UINT|line 1: WrongCount
ti ID_ITEM A 0 8 UINT 1 d BIG_ENDIAN|read
ti ID_ITEM A 0 8 UINT 1 d BIG_ENDIAN 1|line 1: WrongCount
ti APPEND_ID_ITEM A 8 UINT 1|read
ti APPEND_ID_ITEM A 8 UINT|line 1: WrongCount
ti APPEND_ID_ITEM A 8 UINT 1 d BIG_ENDIAN|read
ti APPEND_ID_ITEM A 8 UINT 1 d BIG_ENDIAN 1|line 1: WrongCount
c PARAMETER A 0 8 UINT 0 9 1|read
c PARAMETER A 0 8 UINT 0 9|line 1: WrongCount
c PARAMETER A 0 8 UINT 0 9 1 d BIG_ENDIAN|read
c PARAMETER A 0 8 UINT 0 9 1 d BIG_ENDIAN 1|line 1: WrongCount
c PARAMETER A 0 8 STRING x|read
c PARAMETER A 0 8 STRING|line 1: WrongCount
c PARAMETER A 0 8 STRING x d BIG_ENDIAN|read
c PARAMETER A 0 8 STRING x d BIG_ENDIAN 1|line 1: WrongCount
cp APPEND_PARAMETER A 8 INT 0 9 1|read
cp APPEND_PARAMETER A 8 INT 0 9|line 1: WrongCount
cp APPEND_PARAMETER A 8 INT 0 9 1 d BIG_ENDIAN|read
cp APPEND_PARAMETER A 8 INT 0 9 1 d BIG_ENDIAN 1|line 1: WrongCount
cp APPEND_PARAMETER A 8 BLOCK x|read
cp APPEND_PARAMETER A 8 BLOCK|line 1: WrongCount
cp APPEND_PARAMETER A 8 BLOCK x d BIG_ENDIAN|read
cp APPEND_PARAMETER A 8 BLOCK x d BIG_ENDIAN 1|line 1: WrongCount
c ID_PARAMETER A 0 8 UINT 0 9 1|read
c ID_PARAMETER A 0 8 UINT 0 9|line 1: WrongCount
c ID_PARAMETER A 0 8 UINT 0 9 1 d BIG_ENDIAN|read
c ID_PARAMETER A 0 8 UINT 0 9 1 d BIG_ENDIAN 1|line 1: WrongCount
c ID_PARAMETER A 0 8 STRING x y 1|read
c ID_PARAMETER A 0 8 STRING x y|line 1: WrongCount
c ID_PARAMETER A 0 8 STRING x y 1 d BIG_ENDIAN|read
c ID_PARAMETER A 0 8 STRING x y 1 d BIG_ENDIAN 1|line 1: WrongCount
c APPEND_ID_PARAMETER A 8 UINT 0 9 1|read
c APPEND_ID_PARAMETER A 8 UINT 0 9|line 1: WrongCount
c APPEND_ID_PARAMETER A 8 UINT 0 9 1 d BIG_ENDIAN|read
c APPEND_ID_PARAMETER A 8 UINT 0 9 1 d BIG_ENDIAN 1|line 1: WrongCount
c APPEND_ID_PARAMETER A 8 BLOCK x y 1|read
c APPEND_ID_PARAMETER A 8 BLOCK x y|line 1: WrongCount
c APPEND_ID_PARAMETER A 8 BLOCK x y 1 d BIG_ENDIAN|read
c APPEND_ID_PARAMETER A 8 BLOCK x y 1 d BIG_ENDIAN 1|line 1: WrongCount
ti STATE ON 1|read
ti STATE ON|line 1: WrongCount
ti STATE ON 1 RED|read
ti STATE ON 1 RED 1|line 1: WrongCount
cp STATE ON 1|read
cp STATE ON|line 1: WrongCount
cp STATE ON 1 HAZARDOUS d|read
cp STATE ON 1 HAZARDOUS d 1|line 1: WrongCount
ti POLY_READ_CONVERSION 1|read
ti POLY_READ_CONVERSION|line 1: WrongCount
ti POLY_READ_CONVERSION 1 2 3 4 5 6 7 8|read
ti POLY_READ_CONVERSION 1 2 3 4 5 6 7 8 1|line 1: WrongCount
ti SEG_POLY_READ_CONVERSION 0 1|read
ti SEG_POLY_READ_CONVERSION 0|line 1: WrongCount
ti SEG_POLY_READ_CONVERSION 0 1 2 3 4 5 6 7 8|read
ti SEG_POLY_READ_CONVERSION 0 1 2 3 4 5 6 7 8 1|line 1: WrongCount
ti UNITS Volts V|read
ti UNITS Volts|line 1: WrongCount
ti UNITS Volts V|read
ti UNITS Volts V 1|line 1: WrongCount
cp UNITS Volts V|read
cp UNITS Volts|line 1: WrongCount
cp UNITS Volts V|read
cp UNITS Volts V 1|line 1: WrongCount
ti FORMAT_STRING %d|read
ti FORMAT_STRING|line 1: WrongCount
ti FORMAT_STRING %d|read
ti FORMAT_STRING %d 1|line 1: WrongCount
cp OVERFLOW ERROR|read
cp OVERFLOW|line 1: WrongCount
cp OVERFLOW ERROR|read
cp OVERFLOW ERROR 1|line 1: WrongCount";

#[test]
fn each_statement_has_its_counts_of_words(rt: HostRuntime) -> Result<(), Fail> {
    rows_end_so::<Causes>(rt.alloc(), COUNTS)
}

/// The same of statements whose keyword may stand alone; one word less is none.
const ALONE: &str = "\
cp REQUIRED|read
cp REQUIRED|read
cp REQUIRED 1|line 1: WrongCount
c HAZARDOUS|read
c HAZARDOUS d|read
c HAZARDOUS d 1|line 1: WrongCount
t ALLOW_SHORT|read
t ALLOW_SHORT|read
t ALLOW_SHORT 1|line 1: WrongCount";

#[test]
fn a_keyword_alone_has_its_count_of_words(rt: HostRuntime) -> Result<(), Fail> {
    rows_end_so::<Causes>(rt.alloc(), ALONE)
}

/// What is open, and the cause for which no words are refused.
const NONE: &str = "\
cp|line 1: UnknownKeyword
c|line 1: UnknownKeyword
t|line 1: UnknownKeyword
-|line 1: UnknownKeyword";

struct NoWords;

impl Answers for NoWords {
    fn answer(alloc: Global, asked: &str) -> Result<String, Fail> {
        refusal_of(alloc, read_line(alloc, 1, open(asked), &[]))
    }
}

#[test]
fn no_words_are_no_keyword(rt: HostRuntime) -> Result<(), Fail> {
    rows_end_so::<NoWords>(rt.alloc(), NONE)
}

const LIMITS: &str = "\
ti LIMITS DEFAULT 1 ENABLED 1 2 3|line 1: WrongCount
ti LIMITS DEFAULT 1 ENABLED 1 2 3 4|read
ti LIMITS DEFAULT 1 ENABLED 1 2 3 4 5|line 1: WrongCount
ti LIMITS DEFAULT 1 ENABLED 1 2 3 4 5 6|read
ti LIMITS DEFAULT 1 ENABLED 1 2 3 4 5 6 7|line 1: WrongCount
ti META|line 1: WrongCount
ti META a|read
ti META a b c d e f g h i j k l|read";

#[test]
fn limits_have_seven_words_or_nine_and_meta_any_from_one_on(rt: HostRuntime) -> Result<(), Fail> {
    rows_end_so::<Causes>(rt.alloc(), LIMITS)
}

const CASES: &str = "\
- command T C BIG_ENDIAN|read
- Telemetry T P BIG_ENDIAN|read
t item A 0 8 UINT|read
t append_item A 8 UINT|read
t id_item A 0 8 UINT 1|read
t append_ID_item A 8 UINT 1|read
c parameter A 0 8 UINT 0 9 1|read
c append_parameter A 8 UINT 0 9 1|read
c id_parameter A 0 8 UINT 0 9 1|read
c append_id_parameter A 8 UINT 0 9 1|read
ti state ON 1|read
ti limits DEFAULT 1 ENABLED 1 2 3 4|read
ti poly_read_conversion 1|read
ti seg_poly_read_conversion 0 1|read
ti units Volts V|read
ti format_string %d|read
ti oVERFLOW ERROR|read
cp required|read
c hazardous|read
c meta a|read
c allow_short|read";

#[test]
fn keywords_are_read_in_any_case(rt: HostRuntime) -> Result<(), Fail> {
    rows_end_so::<Causes>(rt.alloc(), CASES)
}

const FIXED: &str = "\
t ITEM A 0 8 INT|read
t ITEM A 0 8 STRING|read
t ITEM A 0 8 BLOCK|read
t ITEM A 0 8 FLOAT|line 1: FloatItem
t ITEM A 0 8 DERIVED|line 1: DerivedItem
t ITEM A 0 8 ARRAY|line 1: ArrayItem
t ITEM A 0 8 uint|line 1: WrongCount
t ITEM A 0 8 UINT8|line 1: WrongCount
t ITEM A 0 8 UINT d big_endian|line 1: WrongCount
t ITEM A 0 8 UINT LITTLE_ENDIAN d|line 1: WrongCount
- COMMAND T C BIG|line 1: WrongCount
ti STATE ON 1 GREEN|read
ti STATE ON 1 YELLOW|read
ti STATE ON 1 red|line 1: WrongCount
ti STATE ON 1 HAZARDOUS|line 1: WrongCount
cp STATE ON 1 GREEN|line 1: WrongCount
ti LIMITS DEFAULT 1 DISABLED 1 2 3 4|read
ti LIMITS DEFAULT 1 enabled 1 2 3 4|line 1: WrongCount
cp OVERFLOW TRUNCATE|read
ti OVERFLOW SATURATE|read
ti OVERFLOW error|line 1: WrongCount
ti OVERFLOW ERROR_ALLOW_HEX|line 1: WrongCount";

#[test]
fn fixed_words_are_read_as_they_stand(rt: HostRuntime) -> Result<(), Fail> {
    rows_end_so::<Causes>(rt.alloc(), FIXED)
}

const ORDER: &str = "\
t ITEMS A 0 8 UINT|line 1: UnknownKeyword
t |line 1: UnknownKeyword
c LIMITS|line 1: UnknownKeyword
- ITEM A 0 8 UINT|line 1: OutsidePacket
- ITEM a-b|line 1: OutsidePacket
t STATE ON 1|line 1: OutsidePacket
- META a|line 1: OutsidePacket
t ITEM a-b 0 8|line 1: WrongCount
t ITEM a-b 0 8 UNIT|line 1: WrongCount
t ITEM a-b 0 8 UINT|line 1: BadName
t ITEM a-b 0 8 FLOAT|line 1: BadName
- TELEMETRY T. P BIG_ENDIAN|line 1: BadName
- TELEMETRY T P. BIG_ENDIAN|line 1: BadName
ti LIMITS a.b 0 ENABLED 1 2 3 4|line 1: BadName
t ITEM A x 8 FLOAT|line 1: FloatItem
c PARAMETER A 0 x DERIVED 0 9 1|line 1: DerivedItem
t APPEND_ITEM A x ARRAY|line 1: ArrayItem
t ITEM A x 8 UINT|line 1: NotNumber
t ITEM A 0 8.0 UINT|line 1: NotNumber
t APPEND_ID_ITEM A 8 STRING x|line 1: NotNumber
t ID_ITEM A 0 8 STRING MIN|line 1: NotNumber
t APPEND_ID_ITEM A 8 BLOCK MAX|line 1: NotNumber
t ID_ITEM A 0 8 STRING MAX_UINT8|read
c ID_PARAMETER A 0 8 STRING x y MIN|line 1: NotNumber
c PARAMETER A 0 8 UINT 0 x 1|line 1: NotNumber
c PARAMETER A 0 8 UINT MIN MAX min|line 1: NotNumber
ti STATE ON 1.5|line 1: NotNumber
ti LIMITS DEFAULT 0 ENABLED 1 2 3 4|line 1: NotNumber
ti LIMITS DEFAULT 4294967296 ENABLED 1 2 3 4|line 1: NotNumber
ti LIMITS DEFAULT 1 ENABLED 1 2 3 4 5 .6|line 1: NotNumber
ti POLY_READ_CONVERSION 1 0x2|line 1: NotNumber
ti SEG_POLY_READ_CONVERSION x 1|line 1: NotNumber";

#[test]
fn of_two_causes_the_first_is_named(rt: HostRuntime) -> Result<(), Fail> {
    rows_end_so::<Causes>(rt.alloc(), ORDER)
}

const ARRAYS: &str = "\
- APPEND_ARRAY_ITEM|line 1: ArrayItem
c array_item A|line 1: ArrayItem
t Append_Array_Parameter a-b|line 1: ArrayItem
- MY_ARRAY_ITEMS|line 1: ArrayItem
t ARRAY_ITE|line 1: UnknownKeyword
t ARRAYITEM|line 1: UnknownKeyword";

#[test]
fn a_keyword_for_arrays_is_refused_as_such_everywhere(rt: HostRuntime) -> Result<(), Fail> {
    rows_end_so::<Causes>(rt.alloc(), ARRAYS)
}

const OTHERS: &str = "\
cp ITEM A 0 8 UINT|line 1: UnknownKeyword
- ITEM A 0 8 UINT|line 1: OutsidePacket
cp LIMITS DEFAULT 1 ENABLED 1 2 3 4|line 1: UnknownKeyword
- LIMITS DEFAULT 1 ENABLED 1 2 3 4|line 1: OutsidePacket
cp POLY_READ_CONVERSION 1|line 1: UnknownKeyword
- POLY_READ_CONVERSION 1|line 1: OutsidePacket
cp SEG_POLY_READ_CONVERSION 0 1|line 1: UnknownKeyword
- SEG_POLY_READ_CONVERSION 0 1|line 1: OutsidePacket
ti PARAMETER A 0 8 UINT 0 9 1|line 1: UnknownKeyword
- PARAMETER A 0 8 UINT 0 9 1|line 1: OutsidePacket
ti REQUIRED|line 1: UnknownKeyword
- REQUIRED|line 1: OutsidePacket
ti HAZARDOUS|line 1: UnknownKeyword
- HAZARDOUS|line 1: OutsidePacket";

#[test]
fn a_keyword_of_the_other_kind_is_unknown_once_a_definition_is_open(
    rt: HostRuntime,
) -> Result<(), Fail> {
    rows_end_so::<Causes>(rt.alloc(), OTHERS)
}

fn item(alloc: Global, row: &str) -> Result<ItemLine, Fail> {
    match read(alloc, row)? {
        Ok(Line::Item(item)) => Ok(item),
        _ => Err(Fail::new("no item")),
    }
}

/// The id of an item.
const BOUNDS: &str = "\
t APPEND_ID_ITEM A 8 UINT MIN|Some(0)
t APPEND_ID_ITEM A 8 UINT MAX|Some(255)
t APPEND_ID_ITEM A 8 INT MIN|Some(-128)
t APPEND_ID_ITEM A 8 INT MAX|Some(127)
t APPEND_ID_ITEM A 1 UINT MAX|Some(1)
t APPEND_ID_ITEM A 1 INT MIN|Some(-1)
t APPEND_ID_ITEM A 1 INT MAX|Some(0)
t APPEND_ID_ITEM A 64 UINT MAX|Some(18446744073709551615)
t APPEND_ID_ITEM A 64 INT MIN|Some(-9223372036854775808)
t APPEND_ID_ITEM A 64 INT MAX|Some(9223372036854775807)
t APPEND_ID_ITEM A 65 UINT MAX|Some(0)
t APPEND_ID_ITEM A 0 INT MIN|Some(0)
t APPEND_ID_ITEM A -8 INT MAX|Some(0)
t APPEND_ID_ITEM A 8 UINT MIN_UINT8|Some(0)
t APPEND_ID_ITEM A 8 UINT MAX_UINT8|Some(255)
t APPEND_ID_ITEM A 8 UINT MIN_UINT16|Some(0)
t APPEND_ID_ITEM A 8 UINT MAX_UINT16|Some(65535)
t APPEND_ID_ITEM A 8 UINT MIN_UINT32|Some(0)
t APPEND_ID_ITEM A 8 UINT MAX_UINT32|Some(4294967295)
t APPEND_ID_ITEM A 8 UINT MIN_UINT64|Some(0)
t APPEND_ID_ITEM A 8 UINT MAX_UINT64|Some(18446744073709551615)
t APPEND_ID_ITEM A 8 UINT MIN_INT8|Some(-128)
t APPEND_ID_ITEM A 8 UINT MAX_INT8|Some(127)
t APPEND_ID_ITEM A 8 UINT MIN_INT16|Some(-32768)
t APPEND_ID_ITEM A 8 UINT MAX_INT16|Some(32767)
t APPEND_ID_ITEM A 8 UINT MIN_INT32|Some(-2147483648)
t APPEND_ID_ITEM A 8 UINT MAX_INT32|Some(2147483647)
t APPEND_ID_ITEM A 8 UINT MIN_INT64|Some(-9223372036854775808)
t APPEND_ID_ITEM A 8 UINT MAX_INT64|Some(9223372036854775807)
t APPEND_ID_ITEM A 8 UINT 0xfF|Some(255)
t APPEND_ID_ITEM A 8 UINT -007|Some(-7)";

struct Ids;

impl Answers for Ids {
    fn answer(alloc: Global, asked: &str) -> Result<String, Fail> {
        debug_of(alloc, &item(alloc, asked)?.id)
    }
}

#[test]
fn bounds_are_named_by_their_type_or_are_those_of_the_item(rt: HostRuntime) -> Result<(), Fail> {
    rows_end_so::<Ids>(rt.alloc(), BOUNDS)
}

/// The default of a parameter, and none where it has no bytes.
const DEFAULTS: &str = "\
c APPEND_PARAMETER A 8 BLOCK 0x0aFF|Some(Raw(Bytes { held: [10, 255] }))
c APPEND_PARAMETER A 8 BLOCK 0x|Some(Raw(Bytes { held: [] }))
c APPEND_PARAMETER A 8 BLOCK 0x0|Some(Raw(Bytes { held: [48, 120, 48] }))
c APPEND_PARAMETER A 8 BLOCK 0x0g|Some(Raw(Bytes { held: [48, 120, 48, 103] }))
c APPEND_PARAMETER A 8 BLOCK 0X0a|Some(Raw(Bytes { held: [48, 88, 48, 97] }))
c APPEND_PARAMETER A 8 BLOCK é|Some(Raw(Bytes { held: [233] }))
c APPEND_PARAMETER A 8 STRING 0x0a|Some(Raw(Bytes { held: [48, 120, 48, 97] }))
c APPEND_PARAMETER A 8 STRING aéÿ|Some(Raw(Bytes { held: [97, 233, 255] }))
c APPEND_PARAMETER A 8 STRING \u{7f}\u{80}|Some(Raw(Bytes { held: [127, 128] }))
c APPEND_PARAMETER A 8 STRING \u{bf}\u{c0}b|Some(Raw(Bytes { held: [191, 192, 98] }))
c APPEND_PARAMETER A 8 STRING |Some(Raw(Bytes { held: [] }))
c APPEND_PARAMETER A 8 STRING €|None
c APPEND_PARAMETER A 8 STRING é\u{100}|None
c APPEND_PARAMETER A 8 BLOCK 0x0a€|None";

struct Defaults;

impl Answers for Defaults {
    fn answer(alloc: Global, asked: &str) -> Result<String, Fail> {
        debug_of(alloc, &item(alloc, asked)?.preset)
    }
}

#[test]
fn defaults_of_texts_and_blocks_are_bytes(rt: HostRuntime) -> Result<(), Fail> {
    rows_end_so::<Defaults>(rt.alloc(), DEFAULTS)
}

/// All that a statement says, and its refusal where it has one.
struct Said;

impl Answers for Said {
    fn answer(alloc: Global, asked: &str) -> Result<String, Fail> {
        readable_of(alloc, &read(alloc, asked)?)
    }
}

const ITEMS: &str = "\
t ITEM temp1 -16 8 INT LITTLE_ENDIAN|Ok(Item(ItemLine { name: Name { text: 'TEMP1' }, offset: Some(-16), size: 8, kind: Int, order: None, id: None, range: None, preset: Some(Whole(0)) }))
ti APPEND_ID_ITEM B 0x10 UINT 5 text LITTLE_ENDIAN|Ok(Item(ItemLine { name: Name { text: 'B' }, offset: None, size: 16, kind: Uint, order: Some(Little), id: Some(5), range: None, preset: Some(Whole(0)) }))
c ID_PARAMETER C 8 16 INT MIN 10 7 text BIG_ENDIAN|Ok(Item(ItemLine { name: Name { text: 'C' }, offset: Some(8), size: 16, kind: Int, order: Some(Big), id: Some(7), range: Some((-32768, 10)), preset: Some(Whole(7)) }))
c PARAMETER D 0 0 STRING x text LITTLE_ENDIAN|Ok(Item(ItemLine { name: Name { text: 'D' }, offset: Some(0), size: 0, kind: Str, order: Some(Little), id: None, range: None, preset: Some(Raw('x')) }))";

#[test]
fn an_item_says_its_place_kind_order_and_values(rt: HostRuntime) -> Result<(), Fail> {
    rows_end_so::<Said>(rt.alloc(), ITEMS)
}

const DETAILS: &str = "\
ti LIMITS tvac 3 ENABLED -80.0 -70.0 60.0 80.0 -20.0 20.5\
|Ok(Detail(Limits(LimitsLine { set: Name { text: 'TVAC' }, persistence: 3, enabled: true, limits: Limits { red_low: Decimal { parts: -80000000000000 }, yellow_low: Decimal { parts: -70000000000000 }, \
yellow_high: Decimal { parts: 60000000000000 }, red_high: Decimal { parts: 80000000000000 }, green: Some((Decimal { parts: -20000000000000 }, Decimal { parts: 20500000000000 })) } })))
ti STATE été 0x10 YELLOW|Ok(Detail(State(StateDef { name: 'Ã©TÃ©', value: 16, color: Some(StateYellow), hazardous: false })))
ti SEG_POLY_READ_CONVERSION -1.5 2 3|Ok(Detail(Segment(Segment { bound: Decimal { parts: -1500000000000 }, coefficients: List { items: [Decimal { parts: 2000000000000 }, Decimal { parts: 3000000000000 }] } })))";

#[test]
fn details_are_read_from_their_words(rt: HostRuntime) -> Result<(), Fail> {
    rows_end_so::<Said>(rt.alloc(), DETAILS)
}

#[test]
fn a_cause_is_printed_by_its_name(rt: HostRuntime) -> Result<(), Fail> {
    let text = display_of(rt.alloc(), &DefCause::IdNotWhole)?;
    same(text.as_str(), "IdNotWhole", "a cause")?;
    same(DefCause::IdNotWhole.name(), "IdNotWhole", "its name")
}

#[test]
fn a_parameter_is_of_a_command(rt: HostRuntime) -> Result<(), Fail> {
    let kind = debug_of(rt.alloc(), &open("cp").kind())?;
    same(kind.as_str(), "Some(Command)", "what is open")
}
