// Replays of scripts.
use crate::table::{SITE, WHOLE, replays_end_so, replays_go_so, said};
use cts_rows::{pieces_of, same};
use std::alloc::Global;
use std::test::Fail;

const CONNECTIONS: &str = "
@ a packet in one piece
OPEN I
BYTES I 0004AABB
> Ok
0 0.000000 I OPENED
1 0.000000 I PACKET UNKNOWN UNKNOWN 0004aabb
END 2
@ a packet in pieces of one byte
OPEN I
BYTES I 00
BYTES I 04
BYTES I AA
BYTES I BB
> Ok
0 0.000000 I OPENED
1 0.000000 I PACKET UNKNOWN UNKNOWN 0004aabb
END 2
@ bytes in no packet
OPEN I
BYTES I 0004AABB0005CC
CLOSE I PEER
> Ok
0 0.000000 I OPENED
1 0.000000 I PACKET UNKNOWN UNKNOWN 0004aabb
2 0.000000 I CLOSED PEER held 3 0 0 0 skipped 0 empty 0 unposted 0 unsent 0
END 3
@ a length within its own field, after which no bytes may follow
OPEN I
BYTES I 0001FFFFFF
BYTES I 00
> ScriptRefused
0 0.000000 I OPENED
1 0.000000 I CLOSED BAD 1 SHORT 1 held 5 0 0 0 skipped 0 empty 0 unposted 0 unsent 0
refused: c line 3: NotEnabled
@ packets before such an error
OPEN I
BYTES I 0002
BYTES I 00030700
BYTES I 00ff
> Ok
0 0.000000 I OPENED
1 0.000000 I PACKET UNKNOWN UNKNOWN 0002
2 0.000000 I PACKET UNKNOWN UNKNOWN 000307
3 0.000000 I CLOSED BAD 1 SHORT 0 held 3 0 0 0 skipped 0 empty 0 unposted 0 unsent 0
END 4
@ a second connection
OPEN I
BYTES I 0005AA
CLOSE I PEER
OPEN I
BYTES I 0003BB
> Ok
0 0.000000 I OPENED
1 0.000000 I CLOSED PEER held 3 0 0 0 skipped 0 empty 0 unposted 0 unsent 0
2 0.000000 I OPENED
3 0.000000 I PACKET UNKNOWN UNKNOWN 0003bb
END 4
@ any case
open i
Bytes I 0003aa
> Ok
0 0.000000 I OPENED
1 0.000000 I PACKET UNKNOWN UNKNOWN 0003aa
END 2
@ no events
> Ok
END 0
@ bytes before a connection
BYTES I 00
> ScriptRefused
refused: c line 1: NotEnabled
@ a connection that is opened twice
OPEN I
OPEN I
> ScriptRefused
0 0.000000 I OPENED
refused: c line 2: NotEnabled
@ a connection that is closed twice
OPEN I
CLOSE I PEER
CLOSE I PEER
> ScriptRefused
0 0.000000 I OPENED
1 0.000000 I CLOSED PEER held 0 0 0 0 skipped 0 empty 0 unposted 0 unsent 0
refused: c line 3: NotEnabled
";

#[test]
fn connections_open_bring_packets_and_close(rt: HostRuntime) -> Result<(), Fail> {
    replays_go_so(rt.alloc(), "", SITE, CONNECTIONS)
}

const TWO: &str =
    "INTERFACE I tcpip_client_interface.rb h 8080 8080 10.0 nil LENGTH 0 16 0 1;INTERFACE j tcpip_client_interface.rb h 8081 8081 10.0 nil LENGTH 0 16 0 1";

const STATEMENTS: &str = "\
nothing but a comment|;;# nothing;|Ok END 0;
an empty line, and a carriage return|;OPEN J\r;|Ok 0 0.000000 J OPENED;END 1;
a comment after a statement, and joined lines|OPEN I # first;;BYTES J &; 0003fF;\t'CLOSE' I \"PEER\"|ScriptRefused 0 0.000000 I OPENED;refused: c line 3: NotEnabled;
where lines begin|OPEN I # first;OPEN J;BYTES J &; 0003fF;\t'CLOSE' I \"PEER\";CLOSE I PEER|ScriptRefused 0 0.000000 I OPENED;1 0.000000 J OPENED;2 0.000000 J PACKET UNKNOWN UNKNOWN 0003ff;3 0.000000 I CLOSED PEER held 0 0 0 0 skipped 0 empty 0 unposted 0 unsent 0;refused: c line 6: NotEnabled;
any case|open i;ByTeS i 00;close J PEER|ScriptRefused 0 0.000000 I OPENED;refused: c line 3: NotEnabled;";

#[test]
fn each_statement_of_a_script_has_one_event(rt: HostRuntime) -> Result<(), Fail> {
    replays_end_so(rt.alloc(), "", TWO, WHOLE, STATEMENTS)
}

// Each cause of a line, with the line of the first one that has a cause: nothing of the lines in front of it is done.
const CAUSES: &str = "\
an unknown keyword|OPEN I;CONNECT I|ScriptRefused refused: c line 2: UnknownKeyword;
a keyword with a blank|OPEN I;;'STOP '|ScriptRefused refused: c line 3: UnknownKeyword;
a keyword of a definitions file|OPEN I;TRY TLM RAW T P I|ScriptRefused refused: c line 2: UnknownKeyword;
OPEN without a name|OPEN|ScriptRefused refused: c line 1: WrongCount;
OPEN with a word more|OPEN I I|ScriptRefused refused: c line 1: WrongCount;
CLOSE without a reason|CLOSE I|ScriptRefused refused: c line 1: WrongCount;
BYTES without bytes|BYTES I|ScriptRefused refused: c line 1: WrongCount;
BYTES with a word more|BYTES I 00 11|ScriptRefused refused: c line 1: WrongCount;
TIME without micros|OPEN I;TIME 5|ScriptRefused refused: c line 2: WrongCount;
STOP with a word|STOP now|ScriptRefused refused: c line 1: WrongCount;
WRITE without a count|WRITE I|ScriptRefused refused: c line 1: WrongCount;
CALL without a text|CALL 0|ScriptRefused refused: c line 1: WrongCount;
CALL with a text of several words|OPEN I;CALL 0 {\"id\": 1}|ScriptRefused refused: c line 2: WrongCount;
CALL with two texts|CALL 0 '{}' '{}'|ScriptRefused refused: c line 1: WrongCount;
an open quote|OPEN I;;'|ScriptRefused refused: c line 3: WrongCount;
OPEN of no interface|OPEN K|ScriptRefused refused: c line 1: UnknownMaker;
BYTES of no interface|BYTES K 00|ScriptRefused refused: c line 1: UnknownMaker;
WRITE of no interface|OPEN I;;WRITE K 1|ScriptRefused refused: c line 3: UnknownMaker;
DRAIN of no slot|DRAIN I 1|ScriptRefused refused: c line 1: UnknownMaker;
micros that are too great|OPEN I;TIME 0 4294967296|ScriptRefused refused: c line 2: NotNumber;
seconds below 0|TIME -1 0|ScriptRefused refused: c line 1: NotNumber;
a desk that is no number|CALL x y|ScriptRefused refused: c line 1: NotNumber;
a desk by its name|CALL DESK/0 '{}'|ScriptRefused refused: c line 1: NotNumber;
a desk that is too great|CALL 4294967296 '{}'|ScriptRefused refused: c line 1: NotNumber;
half a byte|BYTES I 0|ScriptRefused refused: c line 1: BadHex;
a digit that is none|OPEN I;OPEN I;BYTES I 0g|ScriptRefused refused: c line 3: BadHex;
no bytes|OPEN I;BYTES I ''|ScriptRefused refused: c line 2: PieceSize;
a reason in small letters|CLOSE I peer|ScriptRefused refused: c line 1: UnknownWhy;
a reason of a log|OPEN I;;CLOSE I FULL;OPEN K|ScriptRefused refused: c line 3: UnknownWhy;";

#[test]
fn each_cause_of_a_line_refuses_the_script(rt: HostRuntime) -> Result<(), Fail> {
    replays_end_so(rt.alloc(), "", TWO, WHOLE, CAUSES)
}

// A packet that is unknown takes 28 bytes of a log, and its own.
const DRAINS: &str = "
@ of no entries
DRAIN LOG 0
> Ok
LOGGED 0 0
END 0
@ of more than there are
DRAIN LOG 1
> ScriptRefused
refused: c line 1: NotEnabled
@ of each entry once
OPEN I
drain LOG 1
BYTES I 0004AABB
DRAIN LOG 1
DRAIN LOG 0
> Ok
0 0.000000 I OPENED
LOGGED 0 0
1 0.000000 I PACKET UNKNOWN UNKNOWN 0004aabb
LOGGED 32 0
LOGGED 0 0
END 2
@ of an entry again
OPEN I
DRAIN LOG 1
DRAIN LOG 1
> ScriptRefused
0 0.000000 I OPENED
LOGGED 0 0
refused: c line 3: NotEnabled
@ before a line that is refused
DRAIN LOG 0
OPEN K
> ScriptRefused
refused: c line 2: UnknownMaker
";

#[test]
fn logs_take_entries_in_their_order(rt: HostRuntime) -> Result<(), Fail> {
    replays_go_so(rt.alloc(), "", TWO, DRAINS)
}

// An interface writes as many commands as wait for it, while it is connected.
const WRITES: &str = "
@ no commands, twice
OPEN I
WRITE I 0
write i 0
> Ok
0 0.000000 I OPENED
WRITTEN I -
WRITTEN I -
END 1
@ before a connection
WRITE I 0
> ScriptRefused
refused: c line 1: NotEnabled
@ of another interface
OPEN I
write j 0
> ScriptRefused
0 0.000000 I OPENED
refused: c line 2: NotEnabled
@ a command that does not wait
OPEN I
WRITE I 1
> ScriptRefused
0 0.000000 I OPENED
refused: c line 2: NotEnabled
";

#[test]
fn interfaces_write_what_waits_for_them(rt: HostRuntime) -> Result<(), Fail> {
    replays_go_so(rt.alloc(), "", TWO, WRITES)
}

// The server is stopped once; then nothing opens, and what is open goes on until it ends.
const STOPS: &str = "
@ one stop
STOP
> Ok
0 0.000000 SERVER STOP
END 1
@ a second stop
TIME 3 4
stop
STOP
> ScriptRefused
0 3.000004 SERVER STOP
refused: c line 3: NotEnabled
@ a connection after it
STOP
OPEN I
> ScriptRefused
0 0.000000 SERVER STOP
refused: c line 2: NotEnabled
@ what is open goes on
OPEN I
STOP
BYTES I 0002
CLOSE I STOP
> Ok
0 0.000000 I OPENED
1 0.000000 SERVER STOP
2 0.000000 I PACKET UNKNOWN UNKNOWN 0002
3 0.000000 I CLOSED STOP held 0 0 0 0 skipped 0 empty 0 unposted 0 unsent 0
END 4
";

#[test]
fn the_server_is_stopped_once(rt: HostRuntime) -> Result<(), Fail> {
    replays_go_so(rt.alloc(), "", TWO, STOPS)
}

// Why a connection ends. It ends by a Stop only after one.
const ENDS: &str = "
@ a read failed
OPEN I
CLOSE I READ
> Ok
0 0.000000 I OPENED
1 0.000000 I CLOSED READ held 0 0 0 0 skipped 0 empty 0 unposted 0 unsent 0
END 2
@ a write failed
OPEN J
BYTES J 0003
close j WRITE
> Ok
0 0.000000 J OPENED
1 0.000000 J CLOSED WRITE held 2 0 0 0 skipped 0 empty 0 unposted 0 unsent 0
END 2
@ no connection
CLOSE I READ
> ScriptRefused
refused: c line 1: NotEnabled
@ a stop without one
OPEN I
CLOSE I STOP
> ScriptRefused
0 0.000000 I OPENED
refused: c line 2: NotEnabled
";

#[test]
fn connections_end_for_each_reason(rt: HostRuntime) -> Result<(), Fail> {
    replays_go_so(rt.alloc(), "", TWO, ENDS)
}

// Entries have the time of the last line that sets it, which may go back; micros are below a million.
const TIMES: &str = "
@ no entry
TIME 5 7
> Ok
END 0
@ seconds and micros
TIME 5 7
OPEN I
> Ok
0 5.000007 I OPENED
END 1
@ numbers in any form
time 0x10 +007
OPEN I
> Ok
0 16.000007 I OPENED
END 1
@ the greatest time
TIME 4294967295 999999
OPEN I
> Ok
0 4294967295.999999 I OPENED
END 1
@ a time that goes back
OPEN I
TIME 1 0
TIME 2 0
BYTES I 0002
TIME 0 999999
CLOSE I READ
> Ok
0 0.000000 I OPENED
1 2.000000 I PACKET UNKNOWN UNKNOWN 0002
2 0.999999 I CLOSED READ held 0 0 0 0 skipped 0 empty 0 unposted 0 unsent 0
END 3
@ a million micros
TIME 0 1000000
> ScriptRefused
refused: c line 1: NotEnabled
@ the greatest number of micros
OPEN I
TIME 7 4294967295
OPEN J
> ScriptRefused
0 0.000000 I OPENED
refused: c line 2: NotEnabled
";

#[test]
fn entries_have_the_time_that_was_set(rt: HostRuntime) -> Result<(), Fail> {
    replays_go_so(rt.alloc(), "", TWO, TIMES)
}

// What is printed of a connection with these bytes.
const BYTES: &str = "0003aa00020004bbcc0006";

const PRINTED: &str =
    "Ok 0 0.000000 I OPENED;1 0.000000 I PACKET UNKNOWN UNKNOWN 0003aa;2 0.000000 I PACKET UNKNOWN UNKNOWN 0002;3 0.000000 I PACKET UNKNOWN UNKNOWN 0004bbcc;4 0.000000 I CLOSED PEER held 2 0 0 0 skipped 0 empty 0 unposted 0 unsent 0;END 5;";

// A script that brings the bytes of a connection in pieces: a cut after byte k where bit k is set.
fn script_with_cuts(alloc: Global, cuts: u32) -> Result<String, Fail> {
    let pieces = pieces_of(alloc, BYTES, cuts)?;
    let pieces = pieces.as_str().replace(alloc, ' ', ";BYTES I ")?;
    Ok(format!(in alloc; "OPEN I;BYTES I {pieces};CLOSE I PEER")?)
}

fn cuts_give_the_text(alloc: Global, cuts: u32) -> Result<(), Fail> {
    let script = script_with_cuts(alloc, cuts)?;
    let found = said(alloc, "replay d s c", "", SITE, script.as_str())?;
    same(found.as_str(), PRINTED, script.as_str())
}

#[test]
fn every_cut_of_a_connection_gives_one_text(rt: HostRuntime) -> Result<(), Fail> {
    for cuts in 0..1024u32 {
        cuts_give_the_text(rt.alloc(), cuts)?;
    }
    Ok(())
}

// A power supply with two packets that are told by a number, and a pump with one packet.
const UNITS: &str = "\
TELEMETRY POWER STATUS BIG_ENDIAN \"State of the power supply\";\
APPEND_ITEM LENGTH 16 UINT \"Bytes in the packet\";\
APPEND_ID_ITEM KIND 8 UINT 1 \"1 for this packet\";\
APPEND_ITEM VOLTS 8 UINT \"Volts\";\
TELEMETRY POWER FAULT BIG_ENDIAN \"A fault of the power supply\";\
APPEND_ITEM LENGTH 16 UINT \"Bytes in the packet\";\
APPEND_ID_ITEM KIND 8 UINT 2 \"2 for this packet\";\
APPEND_ITEM CODE 8 UINT \"What is wrong\";\
TELEMETRY PUMP STATUS BIG_ENDIAN \"State of the pump\";\
APPEND_ITEM LENGTH 16 UINT \"Bytes in the packet\";\
APPEND_ITEM FLOW 16 UINT \"Litres an hour\"";

const TWO_UNITS: &str = "\
INTERFACE POWER_INT tcpip_client_interface.rb localhost 8080 8080 10.0 nil LENGTH 0 16 0 1;\
TARGET POWER;\
INTERFACE PUMP_INT tcpip_client_interface.rb localhost 8081 8081 10.0 nil LENGTH 0 16 0 1;\
TARGET PUMP";

const DAY: &str = "
@ a day of two units
OPEN POWER_INT
OPEN PUMP_INT
BYTES POWER_INT 000401
BYTES POWER_INT 0C0004
BYTES PUMP_INT 00040190
BYTES POWER_INT 0207
BYTES POWER_INT 000463FF000501
CLOSE POWER_INT PEER
OPEN POWER_INT
BYTES POWER_INT 0004010D
> Ok
0 0.000000 POWER_INT OPENED
1 0.000000 PUMP_INT OPENED
2 0.000000 POWER_INT PACKET POWER STATUS 0004010c
3 0.000000 PUMP_INT PACKET PUMP STATUS 00040190
4 0.000000 POWER_INT PACKET POWER FAULT 00040207
5 0.000000 POWER_INT PACKET UNKNOWN UNKNOWN 000463ff
6 0.000000 POWER_INT CLOSED PEER held 3 0 0 0 skipped 0 empty 0 unposted 0 unsent 0
7 0.000000 POWER_INT OPENED
8 0.000000 POWER_INT PACKET POWER STATUS 0004010d
END 9
";

#[test]
fn packets_of_two_interfaces_have_their_names(rt: HostRuntime) -> Result<(), Fail> {
    replays_go_so(rt.alloc(), UNITS, TWO_UNITS, DAY)
}
