// Commands that end before they do anything, and checks: one line, or none.
use crate::instrument::INSTRUMENT_DEFINITIONS;
use crate::table::{WHOLE, commands_end_so, said};
use cts_rows::same;
use std::test::Fail;

const MISUSED: &str =
    "$||INTERFACE I tcpip_client_interface.rb h 8080 8080 10.0 nil LENGTH 0 16 0 1||Usage usage: check DEFS SITE | replay DEFS SITE SCRIPT | rehearse N | dump LOG | serve DEFS SITE | play DEFS SITE LOG | extract DEFS LOG TARGET PACKET KIND ITEMS | hub DEFS SITE SCRIPT SITE2 WHO NAME CUT;";

const OTHER_WORDS: &str = "\
no words|
a check without a site|check d
a check with a script|check d s c
a replay without a script|replay d s
a replay with a word more|replay d s c c
a command in capital letters|CHECK d s
a rehearsal without a number|rehearse
a rehearsal of none|rehearse 0
a rehearsal of too many|rehearse 1000001
a rehearsal with a leading zero|rehearse 01
a rehearsal with a sign|rehearse +5
a rehearsal with a word more|rehearse 5 5
a dump without a log|dump
a dump of 65 files|dump x x x x x x x x x x x x x x x x x x x x x x x x x x x x x x x x x x x x x x x x x x x x x x x x x x x x x x x x x x x x x x x x x
a dump in capital letters|DUMP x
columns without items|extract d s T P RAW
columns with a word more|extract d s T P RAW I I
columns by a kind in lower case|extract d s T P raw I
columns by another kind|extract d s T P ALL I
65 items|extract d s T P RAW ,,,,,,,,,,,,,,,,,,,,,,,,,,,,,,,,,,,,,,,,,,,,,,,,,,,,,,,,,,,,,,,,
the server|serve d s";

#[test]
fn words_that_fit_no_command(rt: HostRuntime) -> Result<(), Fail> {
    commands_end_so(rt.alloc(), MISUSED, OTHER_WORDS)
}

// A check says how much there is, and takes limits and routers. Each file has its refusals before the next one is read.
const FILES: &str = "\
a check of empty files|check d s||||Ok telemetry 0 commands 0 items 0 interfaces 0 routers 0;
limits and a router|check d s|TELEMETRY T A BIG_ENDIAN;APPEND_ITEM X 8 UINT;LIMITS DEFAULT 1 ENABLED 1 2 3 4|INTERFACE I tcpip_client_interface.rb h 1 1 nil nil LENGTH 0 16 0 1;ROUTER R tcpip_server_interface.rb 2 2 nil nil BURST|x|Ok telemetry 1 commands 0 items 1 interfaces 1 routers 1;
a check whose definitions are refused|check d s|TELEMETRY T A BIG_ENDIAN;  APPEND_ITEM X 32 FLOAT|x||ConfigRefused refused: d line 2: FloatItem;
a check whose site is refused|check d s||INTERFACE I tcpip_client_interface.rb h 1 2 10.0 nil BURST||ConfigRefused refused: s line 1: TwoPorts;
a check of a target that no packet has|check d s|TELEMETRY INST A BIG_ENDIAN|INTERFACE I tcpip_client_interface.rb h 1 1 10.0 nil BURST;TARGET INST;TARGET PUMP||ConfigRefused refused: s line 3: UnknownTarget;
a check whose definitions are not there|check e f||||Absent absent: e;
a replay whose definitions are not there|replay e s c||||Absent absent: e;
a replay whose site is not there|replay d e f||||Absent absent: e;
no file is there|replay d s c|-|-|-|Absent absent: d;
definitions with an open quote|replay d s c|A 'b|-|-|ConfigRefused refused: d line 1: OpenQuote;
definitions that are joined to nothing|replay d s c|;A &|-|-|ConfigRefused refused: d line 2: DanglingJoin;
an unknown keyword of the definitions|replay d s c|x|x|'|ConfigRefused refused: d line 1: UnknownKeyword;
an item that has no place|replay d s c|TELEMETRY T A BIG_ENDIAN;ITEM A 0 12 UINT \"\" LITTLE_ENDIAN|-|-|ConfigRefused refused: d line 2: BadPlace;
a site that is refused after definitions with limits|replay d s c|TELEMETRY T A BIG_ENDIAN;APPEND_ITEM X 8 UINT;LIMITS DEFAULT 1 ENABLED 1 2 3 4;|x|'|ConfigRefused refused: s line 1: UnknownKeyword;
a site that is refused after definitions with states|replay d s c|TELEMETRY T A BIG_ENDIAN;APPEND_ITEM X 8 UINT;STATE ON 1 GREEN;|x|-|ConfigRefused refused: s line 1: UnknownKeyword;
definitions without a statement, and no site|replay d s c|; # no statement;|-|-|Absent absent: s;
a site with an open quote|replay d s c||\"|-|ConfigRefused refused: s line 1: OpenQuote;
a site that is joined to nothing|replay d s c||INTERFACE I &|'|ConfigRefused refused: s line 1: DanglingJoin;
an unknown keyword of the site|replay d s c||;x|-|ConfigRefused refused: s line 2: UnknownKeyword;
a script that is refused over a router|replay d s c||INTERFACE I tcpip_client_interface.rb h 1 1 nil nil LENGTH 0 16 0 1;ROUTER R tcpip_server_interface.rb 2 2 nil nil BURST;|'|ScriptRefused refused: c line 1: WrongCount;
a site over TERMINATED, and no script|replay d s c||INTERFACE I tcpip_client_interface.rb h 1 1 nil nil TERMINATED 0x0A 0x0A;|-|Absent absent: c;
a site over a LENGTH with an offset, and no script|replay d s c||INTERFACE I tcpip_client_interface.rb h 1 1 nil nil LENGTH 0 16 2 1;|-|Absent absent: c;
a site whose protocol has a line of its own, and no script|replay d s c||INTERFACE I tcpip_client_interface.rb h 1 1 nil nil;PROTOCOL READ LENGTH 0 16 0 1;|-|Absent absent: c;
an empty site, and no script|replay d s c|||-|Absent absent: c;
a site over LENGTH, and no script|replay d s c||INTERFACE I tcpip_client_interface.rb h 1 1 nil nil LENGTH 0 16 0 1|-|Absent absent: c;
joined lines and carriage returns of a site|replay d s c||# one; INTERFACE I tcpip_client_interface.rb h 1 &\r;\t1 nil 'nil' LENGTH 0 16 0 1;;|OPEN I;x ';|ScriptRefused refused: c line 2: WrongCount;
an unknown keyword of the script|replay d s c||INTERFACE I tcpip_client_interface.rb h 1 1 nil nil LENGTH 0 16 0 1|x|ScriptRefused refused: c line 1: UnknownKeyword;
an interface that the site does not have|replay d s c|||OPEN I|ScriptRefused refused: c line 1: UnknownMaker;
all files are taken|replay d s c||INTERFACE I tcpip_client_interface.rb h 1 1 nil nil LENGTH 0 16 0 1|OPEN I|Ok 0 0.000000 I OPENED;END 1;";

#[test]
fn each_file_has_its_refusals_before_the_next(rt: HostRuntime) -> Result<(), Fail> {
    commands_end_so(rt.alloc(), WHOLE, FILES)
}

// Two interfaces and a router for them.
const INSTRUMENT: &str = "\
TITLE \"Demo\";\
INTERFACE INST_INT tcpip_client_interface.rb localhost 8080 8080 10.0 nil LENGTH 0 16 0 1 BIG_ENDIAN 2 nil nil true;\
TARGET INST;\
INTERFACE AUX_INT tcpip_client_interface.rb localhost 8081 8081 10.0 nil TERMINATED 0x0A 0x0A;\
TARGET AUX;\
ROUTER OUT tcpip_server_interface.rb 2950 2950 10.0 nil PREIDENTIFIED;\
ROUTE INST_INT";

#[test]
fn a_check_counts_what_there_is(rt: HostRuntime) -> Result<(), Fail> {
    let found = said(
        rt.alloc(),
        "check d s",
        INSTRUMENT_DEFINITIONS,
        INSTRUMENT,
        "",
    )?;
    let wanted = "Ok telemetry 2 commands 1 items 6 interfaces 2 routers 1;";
    same(found.as_str(), wanted, "the instrument")
}

const NO_TEXT: &str =
    "replay d s c|$|INTERFACE I tcpip_client_interface.rb h 8080 8080 10.0 nil LENGTH 0 16 0 1|$|$";

// Definitions that are no text, and a script that is none: each character is the byte of its number.
const NO_TEXTS: &str = "\
definitions that are no text|A;\u{ff} '||ConfigRefused refused: d line 0: NotText;
a script that is no text||OPEN I;\u{80}|ScriptRefused refused: c line 0: WrongCount;";

#[test]
fn a_file_that_is_no_text_is_refused_as_a_whole(rt: HostRuntime) -> Result<(), Fail> {
    commands_end_so(rt.alloc(), NO_TEXT, NO_TEXTS)
}
