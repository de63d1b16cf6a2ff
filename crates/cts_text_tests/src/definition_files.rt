// What no clause says: which definitions are refused and why, and what texts define, in rows of text whose lines end with `;`.
use crate::texts::{crowd, definitions_text, joined};
use cts_defread::read_definitions;
use cts_rows::{Answers, readable_of, rows_end_so};
use cts_samples::statements_of;
use std::alloc::Global;
use std::test::Fail;

// ---- what texts are refused for

/// What is answered to the lines of a file.
struct Files;

impl Answers for Files {
    fn answer(alloc: Global, asked: &str) -> Result<String, Fail> {
        definitions_text(alloc, asked)
    }
}

/// The same of lines after an opened telemetry packet, so that the first is line 2.
struct Telemetry;

impl Answers for Telemetry {
    fn answer(alloc: Global, asked: &str) -> Result<String, Fail> {
        let text = joined(alloc, "TELEMETRY T P BIG_ENDIAN;", asked)?;
        definitions_text(alloc, text.as_str())
    }
}

/// The same after an opened command.
struct Commands;

impl Answers for Commands {
    fn answer(alloc: Global, asked: &str) -> Result<String, Fail> {
        let text = joined(alloc, "COMMAND T C BIG_ENDIAN;", asked)?;
        definitions_text(alloc, text.as_str())
    }
}

const WORDS: &str = "\
FOO|line 2: UnknownKeyword
PARAMETER A 0 8 UINT 0 1 0|line 2: UnknownKeyword
REQUIRED|line 2: UnknownKeyword
STATE A 1|line 2: OutsidePacket
UNITS a|line 2: OutsidePacket
ITEM A 0 8|line 2: WrongCount
TELEMETRY A-B P MIDDLE_ENDIAN|line 2: WrongCount
ITEM A-B 0 32 FLOAT|line 2: BadName
ITEM A x 32 FLOAT|line 2: FloatItem
ITEM A x 0 DERIVED|line 2: DerivedItem
ITEM A x 8 ARRAY|line 2: ArrayItem
append_array_item|line 2: ArrayItem
ID_ITEM A 0 8 STRING MIN|line 2: NotNumber
ITEM A 0 8 STRING;STATE A x|line 3: NotNumber
ITEM A 0 8 UINT;POLY_READ_CONVERSION 1 0.0000000000001|line 3: NotNumber
ITEM A 0 8 UINT;LIMITS DEFAULT 0 ENABLED 1 2 3 4|line 3: NotNumber";

#[test]
fn words_alone_are_refused(rt: HostRuntime) -> Result<(), Fail> {
    rows_end_so::<Telemetry>(rt.alloc(), WORDS)
}

const OUTSIDE: &str = "\
ITEM|line 1: OutsidePacket
;;REQUIRED 1|line 3: OutsidePacket
# no statement;META|line 2: OutsidePacket
HAZARDOUS|line 1: OutsidePacket
COMMAND T C BIG_ENDIAN;ITEM A|line 2: UnknownKeyword";

#[test]
fn nothing_stands_outside_a_definition(rt: HostRuntime) -> Result<(), Fail> {
    rows_end_so::<Files>(rt.alloc(), OUTSIDE)
}

const KINDS: &str = "\
ITEM A 0 8 STRING;STATE A 1|line 3: WrongKind
ITEM A 0 8 BLOCK;LIMITS TVAC 1 ENABLED 4 3 2 1|line 3: WrongKind
ITEM A 0 8 STRING;POLY_READ_CONVERSION 1|line 3: WrongKind
ITEM A 0 8 STRING;SEG_POLY_READ_CONVERSION 1 1|line 3: WrongKind
ITEM A 0 8 UINT;STATE A 1 RED;LIMITS DEFAULT 1 ENABLED 1 2 3 4|line 4: WrongKind
ITEM A 0 8 UINT;LIMITS DEFAULT 1 ENABLED 1 2 3 4;STATE A 1;STATE A 1 RED|line 5: WrongKind
ITEM A 0 64 UINT;SEG_POLY_READ_CONVERSION 0 1;POLY_READ_CONVERSION 0 0 1|line 4: WrongKind
ITEM A 0 8 UINT;POLY_READ_CONVERSION 0;SEG_POLY_READ_CONVERSION 0 1|line 4: WrongKind
ID_ITEM A 0 8 STRING 1|line 2: IdNotWhole
ITEM A 0 8 UINT;ID_ITEM A 0 8 BLOCK 1|line 3: IdNotWhole";

#[test]
fn kinds_of_items_exclude_details(rt: HostRuntime) -> Result<(), Fail> {
    rows_end_so::<Telemetry>(rt.alloc(), KINDS)
}

const NAMES: &str = "\
COMMAND T P BIG_ENDIAN;TELEMETRY t p LITTLE_ENDIAN|line 3: DoubleName
TELEMETRY unknown P BIG_ENDIAN|line 2: DoubleName
COMMAND Unknown C BIG_ENDIAN|line 2: DoubleName
ITEM received_count 0 8 UINT|line 2: DoubleName
ITEM A 0 8 UINT;ITEM B 8 8 UINT;APPEND_ITEM a 12 UINT '' LITTLE_ENDIAN|line 4: DoubleName
ITEM A 0 8 UINT;STATE on 1;STATE ON 2|line 4: DoubleName
ITEM A 0 8 UINT;LIMITS DEFAULT 1 ENABLED 1 2 3 4;LIMITS default 1 ENABLED 4 3 2 1|line 4: DoubleName
ITEM A 0 64 UINT;SEG_POLY_READ_CONVERSION 1.50 1;SEG_POLY_READ_CONVERSION 1.5 0 0 1|line 4: DoubleName
COMMAND T C BIG_ENDIAN;PARAMETER A 0 8 UINT 0 1 0;PARAMETER A 8 8 UINT 0 1 0|line 4: DoubleName
COMMAND T C BIG_ENDIAN;COMMAND T D BIG_ENDIAN;COMMAND T C BIG_ENDIAN|line 4: DoubleName
COMMAND T C BIG_ENDIAN;PARAMETER RECEIVED_COUNT 0 8 UINT 0 1 0|line 3: DoubleName
TELEMETRY T Q BIG_ENDIAN;TELEMETRY T P BIG_ENDIAN|line 3: DoubleName";

#[test]
fn names_stand_once(rt: HostRuntime) -> Result<(), Fail> {
    rows_end_so::<Telemetry>(rt.alloc(), NAMES)
}

/// Names of states, items and packets that others have too.
const FREE: &str = "\
TELEMETRY T P BIG_ENDIAN; ITEM A 0 8 UINT; STATE ON 1; STATE OFF 1; ITEM B 0 8 UINT; STATE ON 1; LIMITS DEFAULT 1 ENABLED 1 2 3 4; ITEM C 0 8 UINT; LIMITS DEFAULT 1 ENABLED 1 2 3 4; STATE OFF 0; \
TELEMETRY T Q BIG_ENDIAN; ITEM A 0 8 UINT; \
COMMAND T P BIG_ENDIAN; PARAMETER A 0 8 UINT 0 1 0; STATE ON 1|read";

#[test]
fn names_of_others_are_free(rt: HostRuntime) -> Result<(), Fail> {
    rows_end_so::<Files>(rt.alloc(), FREE)
}

const PLACES: &str = "\
APPEND_ITEM A 12 UINT '' LITTLE_ENDIAN|line 2: AppendLittleBits
ITEM A 0 4 UINT;APPEND_ITEM B 8 INT '' LITTLE_ENDIAN|line 3: AppendLittleBits
ITEM A 0 0 STRING;APPEND_ITEM B 12 UINT '' LITTLE_ENDIAN|line 3: AppendLittleBits
APPEND_ITEM A -8 UINT '' LITTLE_ENDIAN|line 2: AppendLittleBits
ITEM A 0 12 FLOAT \"\" LITTLE_ENDIAN|line 2: FloatItem
ITEM A 0 12 UINT \"\" LITTLE_ENDIAN|line 2: BadPlace
ITEM A 8388609 8 STRING|line 2: BadPlace
ITEM A 0 18446744073709551615 STRING|line 2: BadPlace
ITEM A -9223372036854775808 8 STRING|line 2: BadPlace
ITEM A 0 65 UINT|line 2: BadPlace
ID_ITEM A 0 0 UINT MAX|line 2: BadPlace
ITEM A -12 8 UINT|line 2: BadPlace
ITEM A -8 16 UINT|line 2: BadPlace
ITEM A -16 12 UINT '' LITTLE_ENDIAN|line 2: BadPlace
ITEM A 4 8 STRING|line 2: BadPlace
ITEM A 0 12 BLOCK|line 2: BadPlace
ITEM A -8 -16 BLOCK|line 2: BadPlace
ITEM A 8388600 16 UINT|line 2: BadPlace
ITEM A 8388600 8 UINT;APPEND_ITEM B 1 UINT|line 3: BadPlace
ITEM A 0 -8 STRING;ITEM B 8 8 UINT;APPEND_ITEM C 8 UINT|line 4: BadPlace
ID_ITEM A -8 8 UINT 256|line 2: BadPlace
ITEM A 0 0 STRING;APPEND_ITEM B 8 UINT|line 3: BadPlace";

#[test]
fn places_are_refused(rt: HostRuntime) -> Result<(), Fail> {
    rows_end_so::<Telemetry>(rt.alloc(), PLACES)
}

const COMMAND_PLACES: &str = "\
PARAMETER A -8 8 UINT 0 1 0|line 2: BadPlace
PARAMETER A 0 -8 STRING ''|line 2: BadPlace
PARAMETER A 0 0 STRING '';PARAMETER B 0 8 UINT 0 1 0|line 3: BadPlace
PARAMETER A 0 0 STRING '';UNITS a b;PARAMETER B 0 8 UINT 0 1 0|line 4: BadPlace
PARAMETER A 0 0 UINT 0 1 256|line 2: BadPlace
APPEND_PARAMETER A 3 UINT 0 1 0 '' LITTLE_ENDIAN|line 2: AppendLittleBits";

#[test]
fn places_in_commands_are_refused(rt: HostRuntime) -> Result<(), Fail> {
    rows_end_so::<Commands>(rt.alloc(), COMMAND_PLACES)
}

const VALUES: &str = "\
ID_PARAMETER A 0 8 UINT 0 1 256|line 2: IdOutOfRange
ID_PARAMETER A 0 8 INT 0 1 128|line 2: IdOutOfRange
ID_PARAMETER A 0 8 UINT 0 1 -1|line 2: IdOutOfRange
PARAMETER A 0 8 UINT 0 1 256|line 2: DefaultOutOfRange
PARAMETER A 0 8 INT 0 1 -129|line 2: DefaultOutOfRange
PARAMETER A 0 8 STRING ab|line 2: DefaultOutOfRange
PARAMETER A 0 8 BLOCK 0x0102|line 2: DefaultOutOfRange
PARAMETER A 0 0 STRING Ā|line 2: DefaultOutOfRange
PARAMETER A 0 8 UINT 0 1 MAX_UINT16|line 2: DefaultOutOfRange";

#[test]
fn values_do_not_fit(rt: HostRuntime) -> Result<(), Fail> {
    rows_end_so::<Commands>(rt.alloc(), VALUES)
}

const DETAILS: &str = "\
ID_ITEM A 0 8 UINT 256|line 2: IdOutOfRange
ITEM A 0 64 UINT;POLY_READ_CONVERSION 0 0 1|line 3: ConversionTooLarge
ITEM A 0 64 UINT;SEG_POLY_READ_CONVERSION 0 0 0 -1|line 3: ConversionTooLarge
ITEM A 0 8 UINT;LIMITS TVAC 1 ENABLED 1 2 3 4|line 3: LimitsOrder
ITEM A 0 8 UINT;LIMITS DEFAULT 1 ENABLED 1 2 2 4|line 3: LimitsOrder
ITEM A 0 8 UINT;LIMITS DEFAULT 1 ENABLED 1 2 5 6 2 4|line 3: LimitsOrder
ITEM A 0 8 UINT;FORMAT_STRING 5|line 3: BadFormat
ITEM A 0 8 STRING;FORMAT_STRING %s%s|line 3: BadFormat";

#[test]
fn conversions_limits_and_formats_are_refused(rt: HostRuntime) -> Result<(), Fail> {
    rows_end_so::<Telemetry>(rt.alloc(), DETAILS)
}

const FIRST: &str = "\
ITEM A 0 8 UINT;ITEM A 0 8 UINT;FOO|line 3: DoubleName
FOO;ITEM A 0 8 UINT;ITEM A 0 8 UINT|line 2: UnknownKeyword
ITEM A 0 8 &;  UINT;ITEM B 0 8 &;  FLOAT;|line 4: FloatItem
ITEM A 0 8 UINT;;BAR|line 4: UnknownKeyword";

#[test]
fn the_first_refused_line_is_named(rt: HostRuntime) -> Result<(), Fail> {
    rows_end_so::<Telemetry>(rt.alloc(), FIRST)
}

// ---- more than the server can hold

/// What is answered to a text of many lines.
struct Crowds;

impl Answers for Crowds {
    fn answer(alloc: Global, asked: &str) -> Result<String, Fail> {
        let text = crowd(alloc, asked)?;
        definitions_text(alloc, text.as_str())
    }
}

/// As many items, packets, segments and states as there may be, and one more.
const MOST: &str = "\
TELEMETRY T P BIG_ENDIAN;ITEM A 0 16 UINT;|APPEND_ITEM B| 8 UINT|4095||read
TELEMETRY T P BIG_ENDIAN;ITEM A 0 16 UINT;|APPEND_ITEM B| 8 UINT|4096||line 4098: TooMany
TELEMETRY T P BIG_ENDIAN;ITEM A 0 16 UINT;|TELEMETRY T Q| BIG_ENDIAN|4095||read
TELEMETRY T P BIG_ENDIAN;ITEM A 0 16 UINT;|TELEMETRY T Q| BIG_ENDIAN|4096||line 4098: TooMany
TELEMETRY T P BIG_ENDIAN;ITEM A 0 16 UINT;|SEG_POLY_READ_CONVERSION | 0|16||read
TELEMETRY T P BIG_ENDIAN;ITEM A 0 16 UINT;|SEG_POLY_READ_CONVERSION | 0|17||line 19: TooMany
TELEMETRY T P BIG_ENDIAN;ITEM A 0 16 UINT;|STATE S| 0|256||read
TELEMETRY T P BIG_ENDIAN;ITEM A 0 16 UINT;|STATE S| 0|257||line 259: TooMany";

#[test]
fn the_server_holds_so_many(rt: HostRuntime) -> Result<(), Fail> {
    rows_end_so::<Crowds>(rt.alloc(), MOST)
}

/// One more, with a cause that comes first.
const EARLIER: &str = "\
TELEMETRY T P BIG_ENDIAN;ITEM A 0 16 UINT;|STATE S| 0|256|STATE s0 1|line 259: DoubleName
TELEMETRY T P BIG_ENDIAN;ITEM A 0 16 UINT;|SEG_POLY_READ_CONVERSION | 0|16|SEG_POLY_READ_CONVERSION 16 0 0 0 0 0 0 0 1|line 19: ConversionTooLarge";

#[test]
fn earlier_causes_hide_too_many(rt: HostRuntime) -> Result<(), Fail> {
    rows_end_so::<Crowds>(rt.alloc(), EARLIER)
}

/// DEFAULT and 63 further limits sets; one more, one more that is out of order, and one that is known.
const SETS: &str = "\
TELEMETRY T P BIG_ENDIAN;ITEM A 0 8 UINT;LIMITS DEFAULT 1 ENABLED 1 2 3 4;|LIMITS S| 1 ENABLED 1 2 3 4|63||read
TELEMETRY T P BIG_ENDIAN;ITEM A 0 8 UINT;LIMITS DEFAULT 1 ENABLED 1 2 3 4;|LIMITS S| 1 ENABLED 1 2 3 4|63|LIMITS S64 1 ENABLED 1 2 3 4|line 67: TooMany
TELEMETRY T P BIG_ENDIAN;ITEM A 0 8 UINT;LIMITS DEFAULT 1 ENABLED 1 2 3 4;|LIMITS S| 1 ENABLED 1 2 3 4|63|LIMITS S64 1 ENABLED 4 3 2 1|line 67: LimitsOrder
TELEMETRY T P BIG_ENDIAN;ITEM A 0 8 UINT;LIMITS DEFAULT 1 ENABLED 1 2 3 4;|LIMITS S| 1 ENABLED 1 2 3 4|63|ITEM B 0 8 UINT;LIMITS DEFAULT 1 ENABLED 1 2 3 4;LIMITS S9 1 ENABLED 1 2 3 4|read";

#[test]
fn a_65th_limits_set_is_refused(rt: HostRuntime) -> Result<(), Fail> {
    rows_end_so::<Crowds>(rt.alloc(), SETS)
}

// ---- what texts define

/// All that a text defines, and its refusal where it has one.
struct Defined;

impl Answers for Defined {
    fn answer(alloc: Global, asked: &str) -> Result<String, Fail> {
        let found = statements_of(alloc, asked)?;
        readable_of(alloc, &read_definitions(alloc, &found))
    }
}

/// An instrument with a packet, a line of text and a command.
const INSTRUMENT: &str = "\
TELEMETRY INST HS BIG_ENDIAN \"Health and status\";  APPEND_ID_ITEM PKTID 8 UINT 1 \"Packet id\";  APPEND_ITEM TEMP1 16 UINT \"Temperature\";    POLY_READ_CONVERSION -100.0 0.00305;    \
LIMITS DEFAULT 1 ENABLED -80.0 -70.0 60.0 80.0;    LIMITS TVAC 1 ENABLED -80.0 -70.0 0.0 80.0;    UNITS CELSIUS C;    FORMAT_STRING \"%0.3f\";  APPEND_ITEM MODE 8 UINT;    STATE OFF 0;    STATE ON 1;\
TELEMETRY AUX LINE BIG_ENDIAN \"A line of text\";  APPEND_ITEM TEXT 0 STRING;\
COMMAND INST COLLECT BIG_ENDIAN \"Start a collect\";  APPEND_ID_PARAMETER OPCODE 8 UINT 7 7 7 \"Opcode\";  APPEND_PARAMETER DURATION 16 UINT 0 10 5 \"Duration\"\
|Ok(Definitions { telemetry: List { items: [\
Packet { target: Name { text: 'INST' }, name: Name { text: 'HS' }, items: List { items: [\
Item { name: Name { text: 'PKTID' }, kind: Uint, offset: 0, size: 8, order: Big, id: Some(1), range: None, preset: Whole(0), states: List { items: [] }, conversion: Plain, limits: None, units: None, \
format: None, required: false, overflow: Error }, \
Item { name: Name { text: 'TEMP1' }, kind: Uint, offset: 8, size: 16, order: Big, id: None, range: None, preset: Whole(0), states: List { items: [] }, \
conversion: Poly(List { items: [Decimal { parts: -100000000000000 }, Decimal { parts: 3050000000 }] }), limits: Some(LimitsSetup { sets: List { items: [(Name { text: 'DEFAULT' }, \
Limits { red_low: Decimal { parts: -80000000000000 }, yellow_low: Decimal { parts: -70000000000000 }, yellow_high: Decimal { parts: 60000000000000 }, red_high: Decimal { parts: 80000000000000 }, \
green: None }), (Name { text: 'TVAC' }, Limits { red_low: Decimal { parts: -80000000000000 }, yellow_low: Decimal { parts: -70000000000000 }, yellow_high: Decimal { parts: 0 }, \
red_high: Decimal { parts: 80000000000000 }, green: None })] }, persistence: 1, enabled: true }), units: Some(('CELSIUS', 'C')), format: Some('%0.3f'), required: false, overflow: Error }, \
Item { name: Name { text: 'MODE' }, kind: Uint, offset: 24, size: 8, order: Big, id: None, range: None, preset: Whole(0), states: List { items: [StateDef { name: 'OFF', value: 0, color: None, \
hazardous: false }, StateDef { name: 'ON', value: 1, color: None, hazardous: false }] }, conversion: Plain, limits: None, units: None, format: None, required: false, overflow: Error }] }, length: 4, \
variable: false, hazardous: false }, \
Packet { target: Name { text: 'AUX' }, name: Name { text: 'LINE' }, items: List { items: [\
Item { name: Name { text: 'TEXT' }, kind: Str, offset: 0, size: 0, order: Big, id: None, range: None, preset: Raw(''), states: List { items: [] }, conversion: Plain, limits: None, units: None, format: None, \
required: false, overflow: Error }] }, length: 0, variable: true, hazardous: false }] }, \
commands: List { items: [\
Packet { target: Name { text: 'INST' }, name: Name { text: 'COLLECT' }, items: List { items: [\
Item { name: Name { text: 'OPCODE' }, kind: Uint, offset: 0, size: 8, order: Big, id: Some(7), range: Some((7, 7)), preset: Whole(7), states: List { items: [] }, conversion: Plain, limits: None, units: None, \
format: None, required: false, overflow: Error }, \
Item { name: Name { text: 'DURATION' }, kind: Uint, offset: 8, size: 16, order: Big, id: None, range: Some((0, 10)), preset: Whole(5), states: List { items: [] }, conversion: Plain, limits: None, units: None, \
format: None, required: false, overflow: Error }] }, length: 3, variable: false, hazardous: false }] }, \
set_names: List { items: [Name { text: 'DEFAULT' }, Name { text: 'TVAC' }] } })";

#[test]
fn an_instrument_is_defined(rt: HostRuntime) -> Result<(), Fail> {
    rows_end_so::<Defined>(rt.alloc(), INSTRUMENT)
}

const PACKETS: &str = "\
|Ok(Definitions { telemetry: List { items: [] }, commands: List { items: [] }, set_names: List { items: [Name { text: 'DEFAULT' }] } })
telemetry t p LITTLE_ENDIAN;META X;ALLOW_SHORT\
|Ok(Definitions { telemetry: List { items: [\
Packet { target: Name { text: 'T' }, name: Name { text: 'P' }, items: List { items: [] }, length: 0, variable: false, hazardous: false }] }, \
commands: List { items: [] }, set_names: List { items: [Name { text: 'DEFAULT' }] } })
TELEMETRY T P BIG_ENDIAN;ITEM A 32 8 UINT;ITEM B 0 8 UINT;APPEND_ITEM C 4 INT;APPEND_ITEM D 8 UINT\
|Ok(Definitions { telemetry: List { items: [\
Packet { target: Name { text: 'T' }, name: Name { text: 'P' }, items: List { items: [\
Item { name: Name { text: 'A' }, kind: Uint, offset: 32, size: 8, order: Big, id: None, range: None, preset: Whole(0), states: List { items: [] }, conversion: Plain, limits: None, units: None, format: None, \
required: false, overflow: Error }, \
Item { name: Name { text: 'B' }, kind: Uint, offset: 0, size: 8, order: Big, id: None, range: None, preset: Whole(0), states: List { items: [] }, conversion: Plain, limits: None, units: None, format: None, \
required: false, overflow: Error }, \
Item { name: Name { text: 'C' }, kind: Int, offset: 40, size: 4, order: Big, id: None, range: None, preset: Whole(0), states: List { items: [] }, conversion: Plain, limits: None, units: None, format: None, \
required: false, overflow: Error }, \
Item { name: Name { text: 'D' }, kind: Uint, offset: 44, size: 8, order: Big, id: None, range: None, preset: Whole(0), states: List { items: [] }, conversion: Plain, limits: None, units: None, format: None, \
required: false, overflow: Error }] }, length: 7, variable: false, hazardous: false }] }, \
commands: List { items: [] }, set_names: List { items: [Name { text: 'DEFAULT' }] } })
TELEMETRY T P LITTLE_ENDIAN;ITEM A 12 12 UINT;APPEND_ITEM B 8 UINT;ITEM C 17 2 UINT '' BIG_ENDIAN\
|Ok(Definitions { telemetry: List { items: [\
Packet { target: Name { text: 'T' }, name: Name { text: 'P' }, items: List { items: [\
Item { name: Name { text: 'A' }, kind: Uint, offset: 12, size: 12, order: Little, id: None, range: None, preset: Whole(0), states: List { items: [] }, conversion: Plain, limits: None, units: None, \
format: None, required: false, overflow: Error }, \
Item { name: Name { text: 'B' }, kind: Uint, offset: 16, size: 8, order: Little, id: None, range: None, preset: Whole(0), states: List { items: [] }, conversion: Plain, limits: None, units: None, format: None, \
required: false, overflow: Error }, \
Item { name: Name { text: 'C' }, kind: Uint, offset: 17, size: 2, order: Big, id: None, range: None, preset: Whole(0), states: List { items: [] }, conversion: Plain, limits: None, units: None, format: None, \
required: false, overflow: Error }] }, length: 3, variable: false, hazardous: false }] }, \
commands: List { items: [] }, set_names: List { items: [Name { text: 'DEFAULT' }] } })
TELEMETRY T P BIG_ENDIAN;ITEM A 16 0 BLOCK\
|Ok(Definitions { telemetry: List { items: [\
Packet { target: Name { text: 'T' }, name: Name { text: 'P' }, items: List { items: [\
Item { name: Name { text: 'A' }, kind: Block, offset: 16, size: 0, order: Big, id: None, range: None, preset: Raw(''), states: List { items: [] }, conversion: Plain, limits: None, units: None, format: None, \
required: false, overflow: Error }] }, length: 2, variable: true, hazardous: false }] }, \
commands: List { items: [] }, set_names: List { items: [Name { text: 'DEFAULT' }] } })
TELEMETRY T P BIG_ENDIAN;ITEM A 16 -8 STRING;ITEM B 0 8 UINT\
|Ok(Definitions { telemetry: List { items: [\
Packet { target: Name { text: 'T' }, name: Name { text: 'P' }, items: List { items: [\
Item { name: Name { text: 'A' }, kind: Str, offset: 16, size: -8, order: Big, id: None, range: None, preset: Raw(''), states: List { items: [] }, conversion: Plain, limits: None, units: None, format: None, \
required: false, overflow: Error }, \
Item { name: Name { text: 'B' }, kind: Uint, offset: 0, size: 8, order: Big, id: None, range: None, preset: Whole(0), states: List { items: [] }, conversion: Plain, limits: None, units: None, format: None, \
required: false, overflow: Error }] }, length: 3, variable: true, hazardous: false }] }, \
commands: List { items: [] }, set_names: List { items: [Name { text: 'DEFAULT' }] } })
TELEMETRY T P BIG_ENDIAN;ITEM A -16 16 UINT;APPEND_ITEM B 8 UINT\
|Ok(Definitions { telemetry: List { items: [\
Packet { target: Name { text: 'T' }, name: Name { text: 'P' }, items: List { items: [\
Item { name: Name { text: 'A' }, kind: Uint, offset: -16, size: 16, order: Big, id: None, range: None, preset: Whole(0), states: List { items: [] }, conversion: Plain, limits: None, units: None, format: None, \
required: false, overflow: Error }, \
Item { name: Name { text: 'B' }, kind: Uint, offset: 0, size: 8, order: Big, id: None, range: None, preset: Whole(0), states: List { items: [] }, conversion: Plain, limits: None, units: None, format: None, \
required: false, overflow: Error }] }, length: 2, variable: true, hazardous: false }] }, \
commands: List { items: [] }, set_names: List { items: [Name { text: 'DEFAULT' }] } })
TELEMETRY T P BIG_ENDIAN;ITEM A 8388600 8 UINT\
|Ok(Definitions { telemetry: List { items: [\
Packet { target: Name { text: 'T' }, name: Name { text: 'P' }, items: List { items: [\
Item { name: Name { text: 'A' }, kind: Uint, offset: 8388600, size: 8, order: Big, id: None, range: None, preset: Whole(0), states: List { items: [] }, conversion: Plain, limits: None, units: None, \
format: None, required: false, overflow: Error }] }, length: 1048576, variable: false, hazardous: false }] }, \
commands: List { items: [] }, set_names: List { items: [Name { text: 'DEFAULT' }] } })
TELEMETRY T P BIG_ENDIAN;ITEM A 8388608 -8388608 STRING\
|Ok(Definitions { telemetry: List { items: [\
Packet { target: Name { text: 'T' }, name: Name { text: 'P' }, items: List { items: [\
Item { name: Name { text: 'A' }, kind: Str, offset: 8388608, size: -8388608, order: Big, id: None, range: None, preset: Raw(''), states: List { items: [] }, conversion: Plain, limits: None, units: None, \
format: None, required: false, overflow: Error }] }, length: 2097152, variable: true, hazardous: false }] }, \
commands: List { items: [] }, set_names: List { items: [Name { text: 'DEFAULT' }] } })";

#[test]
fn packets_end_after_their_items(rt: HostRuntime) -> Result<(), Fail> {
    rows_end_so::<Defined>(rt.alloc(), PACKETS)
}

const LAST: &str = "\
TELEMETRY T P BIG_ENDIAN;ITEM A 0 8 UINT;UNITS Volts V;UNITS Amps A;FORMAT_STRING %d;FORMAT_STRING %x;OVERFLOW TRUNCATE;OVERFLOW SATURATE\
|Ok(Definitions { telemetry: List { items: [\
Packet { target: Name { text: 'T' }, name: Name { text: 'P' }, items: List { items: [\
Item { name: Name { text: 'A' }, kind: Uint, offset: 0, size: 8, order: Big, id: None, range: None, preset: Whole(0), states: List { items: [] }, conversion: Plain, limits: None, units: Some(('Amps', 'A')), \
format: Some('%x'), required: false, overflow: Saturate }] }, length: 1, variable: false, hazardous: false }] }, \
commands: List { items: [] }, set_names: List { items: [Name { text: 'DEFAULT' }] } })
TELEMETRY T P BIG_ENDIAN;ITEM A 0 8 UINT;POLY_READ_CONVERSION 1;POLY_READ_CONVERSION 0 -2.5;OVERFLOW ERROR\
|Ok(Definitions { telemetry: List { items: [\
Packet { target: Name { text: 'T' }, name: Name { text: 'P' }, items: List { items: [\
Item { name: Name { text: 'A' }, kind: Uint, offset: 0, size: 8, order: Big, id: None, range: None, preset: Whole(0), states: List { items: [] }, conversion: Poly(List { items: [Decimal { parts: 0 }, \
Decimal { parts: -2500000000000 }] }), limits: None, units: None, format: None, required: false, overflow: Error }] }, length: 1, variable: false, hazardous: false }] }, \
commands: List { items: [] }, set_names: List { items: [Name { text: 'DEFAULT' }] } })
TELEMETRY T P BIG_ENDIAN;ITEM A 0 8 UINT;SEG_POLY_READ_CONVERSION 5 1;SEG_POLY_READ_CONVERSION 0.5 2 3\
|Ok(Definitions { telemetry: List { items: [\
Packet { target: Name { text: 'T' }, name: Name { text: 'P' }, items: List { items: [\
Item { name: Name { text: 'A' }, kind: Uint, offset: 0, size: 8, order: Big, id: None, range: None, preset: Whole(0), states: List { items: [] }, \
conversion: Segments(List { items: [Segment { bound: Decimal { parts: 5000000000000 }, coefficients: List { items: [Decimal { parts: 1000000000000 }] } }, Segment { bound: Decimal { parts: 500000000000 }, \
coefficients: List { items: [Decimal { parts: 2000000000000 }, Decimal { parts: 3000000000000 }] } }] }), limits: None, units: None, format: None, required: false, overflow: Error }] }, length: 1, \
variable: false, hazardous: false }] }, commands: List { items: [] }, \
set_names: List { items: [Name { text: 'DEFAULT' }] } })
TELEMETRY T P BIG_ENDIAN;ITEM A 0 8 UINT;LIMITS default 3 DISABLED 1 1 4 4 2 3;LIMITS tvac 9 ENABLED 1 2 3 4;ITEM B 0 8 UINT;LIMITS DEFAULT 4294967295 ENABLED 1 2 3 4;LIMITS S 1 ENABLED 1 2 3 4;\
LIMITS TVAC 1 ENABLED 1 2 3 4\
|Ok(Definitions { telemetry: List { items: [\
Packet { target: Name { text: 'T' }, name: Name { text: 'P' }, items: List { items: [\
Item { name: Name { text: 'A' }, kind: Uint, offset: 0, size: 8, order: Big, id: None, range: None, preset: Whole(0), states: List { items: [] }, conversion: Plain, \
limits: Some(LimitsSetup { sets: List { items: [(Name { text: 'DEFAULT' }, Limits { red_low: Decimal { parts: 1000000000000 }, yellow_low: Decimal { parts: 1000000000000 }, \
yellow_high: Decimal { parts: 4000000000000 }, red_high: Decimal { parts: 4000000000000 }, green: Some((Decimal { parts: 2000000000000 }, Decimal { parts: 3000000000000 })) }), (Name { text: 'TVAC' }, \
Limits { red_low: Decimal { parts: 1000000000000 }, yellow_low: Decimal { parts: 2000000000000 }, yellow_high: Decimal { parts: 3000000000000 }, red_high: Decimal { parts: 4000000000000 }, green: None })] }, \
persistence: 3, enabled: false }), units: None, format: None, required: false, overflow: Error }, \
Item { name: Name { text: 'B' }, kind: Uint, offset: 0, size: 8, order: Big, id: None, range: None, preset: Whole(0), states: List { items: [] }, conversion: Plain, \
limits: Some(LimitsSetup { sets: List { items: [(Name { text: 'DEFAULT' }, Limits { red_low: Decimal { parts: 1000000000000 }, yellow_low: Decimal { parts: 2000000000000 }, \
yellow_high: Decimal { parts: 3000000000000 }, red_high: Decimal { parts: 4000000000000 }, green: None }), (Name { text: 'S' }, Limits { red_low: Decimal { parts: 1000000000000 }, \
yellow_low: Decimal { parts: 2000000000000 }, yellow_high: Decimal { parts: 3000000000000 }, red_high: Decimal { parts: 4000000000000 }, green: None }), (Name { text: 'TVAC' }, \
Limits { red_low: Decimal { parts: 1000000000000 }, yellow_low: Decimal { parts: 2000000000000 }, yellow_high: Decimal { parts: 3000000000000 }, red_high: Decimal { parts: 4000000000000 }, green: None })] }, \
persistence: 4294967295, enabled: true }), units: None, format: None, required: false, overflow: Error }] }, length: 1, variable: false, hazardous: false }] }, \
commands: List { items: [] }, \
set_names: List { items: [Name { text: 'DEFAULT' }, Name { text: 'TVAC' }, Name { text: 'S' }] } })
TELEMETRY T P BIG_ENDIAN;ITEM A 0 8 INT;STATE on 1 GREEN;STATE low -1 YELLOW;STATE '' 0x7f RED;STATE other 1000\
|Ok(Definitions { telemetry: List { items: [\
Packet { target: Name { text: 'T' }, name: Name { text: 'P' }, items: List { items: [\
Item { name: Name { text: 'A' }, kind: Int, offset: 0, size: 8, order: Big, id: None, range: None, preset: Whole(0), states: List { items: [StateDef { name: 'ON', value: 1, color: Some(StateGreen), \
hazardous: false }, StateDef { name: 'LOW', value: -1, color: Some(StateYellow), hazardous: false }, StateDef { name: '', value: 127, color: Some(StateRed), hazardous: false }, StateDef { name: 'OTHER', \
value: 1000, color: None, hazardous: false }] }, conversion: Plain, limits: None, units: None, format: None, required: false, overflow: Error }] }, length: 1, variable: false, hazardous: false }] }, \
commands: List { items: [] }, set_names: List { items: [Name { text: 'DEFAULT' }] } })";

#[test]
fn the_last_detail_counts_and_the_first_limits(rt: HostRuntime) -> Result<(), Fail> {
    rows_end_so::<Defined>(rt.alloc(), LAST)
}

const PRESETS: &str = "\
COMMAND T C BIG_ENDIAN;HAZARDOUS 'Not now';APPEND_PARAMETER A 12 INT MIN MAX MIN;REQUIRED;APPEND_PARAMETER B 8 UINT MIN_INT8 MAX_UINT64 MAX\
|Ok(Definitions { telemetry: List { items: [] }, commands: List { items: [\
Packet { target: Name { text: 'T' }, name: Name { text: 'C' }, items: List { items: [\
Item { name: Name { text: 'A' }, kind: Int, offset: 0, size: 12, order: Big, id: None, range: Some((-2048, 2047)), preset: Whole(-2048), states: List { items: [] }, conversion: Plain, limits: None, \
units: None, format: None, required: true, overflow: Error }, \
Item { name: Name { text: 'B' }, kind: Uint, offset: 12, size: 8, order: Big, id: None, range: Some((-128, 18446744073709551615)), preset: Whole(255), states: List { items: [] }, conversion: Plain, \
limits: None, units: None, format: None, required: false, overflow: Error }] }, length: 3, variable: false, hazardous: true }] }, \
set_names: List { items: [Name { text: 'DEFAULT' }] } })
COMMAND T C BIG_ENDIAN;PARAMETER A 0 32 BLOCK 0x414243;PARAMETER B 0 32 BLOCK 0x1;PARAMETER C 0 32 STRING 0x41\
|Ok(Definitions { telemetry: List { items: [] }, commands: List { items: [\
Packet { target: Name { text: 'T' }, name: Name { text: 'C' }, items: List { items: [\
Item { name: Name { text: 'A' }, kind: Block, offset: 0, size: 32, order: Big, id: None, range: None, preset: Raw('ABC'), states: List { items: [] }, conversion: Plain, limits: None, units: None, format: None, \
required: false, overflow: Error }, \
Item { name: Name { text: 'B' }, kind: Block, offset: 0, size: 32, order: Big, id: None, range: None, preset: Raw('0x1'), states: List { items: [] }, conversion: Plain, limits: None, units: None, format: None, \
required: false, overflow: Error }, \
Item { name: Name { text: 'C' }, kind: Str, offset: 0, size: 32, order: Big, id: None, range: None, preset: Raw('0x41'), states: List { items: [] }, conversion: Plain, limits: None, units: None, format: None, \
required: false, overflow: Error }] }, length: 4, variable: false, hazardous: false }] }, \
set_names: List { items: [Name { text: 'DEFAULT' }] } })
COMMAND T C BIG_ENDIAN;PARAMETER A 0 0 STRING 'a ÿ'\
|Ok(Definitions { telemetry: List { items: [] }, commands: List { items: [\
Packet { target: Name { text: 'T' }, name: Name { text: 'C' }, items: List { items: [\
Item { name: Name { text: 'A' }, kind: Str, offset: 0, size: 0, order: Big, id: None, range: None, preset: Raw('a ÿ'), states: List { items: [] }, conversion: Plain, limits: None, units: None, format: None, \
required: false, overflow: Error }] }, length: 0, variable: true, hazardous: false }] }, \
set_names: List { items: [Name { text: 'DEFAULT' }] } })
COMMAND T C BIG_ENDIAN;PARAMETER A 0 8 UINT 0 10 20;STATE off 0;STATE fire 1 HAZARDOUS 'It burns'\
|Ok(Definitions { telemetry: List { items: [] }, commands: List { items: [\
Packet { target: Name { text: 'T' }, name: Name { text: 'C' }, items: List { items: [\
Item { name: Name { text: 'A' }, kind: Uint, offset: 0, size: 8, order: Big, id: None, range: Some((0, 10)), preset: Whole(20), states: List { items: [StateDef { name: 'OFF', value: 0, color: None, \
hazardous: false }, StateDef { name: 'FIRE', value: 1, color: None, hazardous: true }] }, conversion: Plain, limits: None, units: None, format: None, required: false, overflow: Error }] }, length: 1, \
variable: false, hazardous: false }] }, set_names: List { items: [Name { text: 'DEFAULT' }] } })";

#[test]
fn commands_have_defaults(rt: HostRuntime) -> Result<(), Fail> {
    rows_end_so::<Defined>(rt.alloc(), PRESETS)
}
