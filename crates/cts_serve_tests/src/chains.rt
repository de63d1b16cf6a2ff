// Replays over chains of all protocols.
use crate::table::{commands_end_so, replays_go_so};
use std::test::Fail;

// Each row has a label, the protocols of the interface, a script and how its replay ends, with bars between.
const OF_NO_PACKETS: &str =
    "replay d s c||INTERFACE I tcpip_client_interface.rb h 1 1 10.0 nil $|$|$";

const CHAINS: &str = "\
a sync pattern that is cut, and bytes before it|LENGTH 16 16 0 1 BIG_ENDIAN 0 0x1ACF|OPEN I;BYTES I 001A1A;BYTES I CF0006AABB;CLOSE I PEER|Ok 0 0.000000 I OPENED;1 0.000000 I PACKET UNKNOWN UNKNOWN 1acf0006aabb;2 0.000000 I CLOSED PEER held 0 0 0 0 skipped 2 empty 0 unposted 0 unsent 0;END 3;
a termination that is cut, and a line without bytes|TERMINATED 0x0D0A 0x0D0A|OPEN I;BYTES I 41420D;BYTES I 0A;BYTES I 0D0A;CLOSE I PEER|Ok 0 0.000000 I OPENED;1 0.000000 I PACKET UNKNOWN UNKNOWN 4142;2 0.000000 I CLOSED PEER held 0 0 0 0 skipped 0 empty 1 unposted 0 unsent 0;END 3;
two stages|;PROTOCOL READ TerminatedProtocol 0x0A 0x0A;PROTOCOL READ LengthProtocol 0 8 0 1|OPEN I;BYTES I 03110A220A|Ok 0 0.000000 I OPENED;1 0.000000 I PACKET UNKNOWN UNKNOWN 031122;END 2;
bytes in no packet, and a second connection|LENGTH 0 16 0 1|OPEN I;BYTES I 0005AA;CLOSE I PEER;OPEN I;BYTES I 0003BB|Ok 0 0.000000 I OPENED;1 0.000000 I CLOSED PEER held 3 0 0 0 skipped 0 empty 0 unposted 0 unsent 0;2 0.000000 I OPENED;3 0.000000 I PACKET UNKNOWN UNKNOWN 0003bb;END 4;
BURST, at once|BURST|OPEN I;BYTES I 0102|Ok 0 0.000000 I OPENED;1 0.000000 I PACKET UNKNOWN UNKNOWN 0102;END 2;
BURST, in two pieces|BURST|OPEN I;BYTES I 01;BYTES I 02|Ok 0 0.000000 I OPENED;1 0.000000 I PACKET UNKNOWN UNKNOWN 01;2 0.000000 I PACKET UNKNOWN UNKNOWN 02;END 3;
a length at the limit|LENGTH 0 32 0 1|OPEN I;BYTES I 00100000|Ok 0 0.000000 I OPENED;END 1;
a length past it|LENGTH 0 32 0 1|OPEN I;BYTES I 00100001|Ok 0 0.000000 I OPENED;1 0.000000 I CLOSED BAD 1 TOOLONG held 4 0 0 0 skipped 0 empty 0 unposted 0 unsent 0;END 2;
an error of the second stage|;PROTOCOL READ TERMINATED 0x0A 0x0A;PROTOCOL READ LENGTH 0 8 0 1|OPEN I;BYTES I 02AA0A000A33|Ok 0 0.000000 I OPENED;1 0.000000 I PACKET UNKNOWN UNKNOWN 02aa;2 0.000000 I CLOSED BAD 2 SHORT 0 held 1 1 0 0 skipped 0 empty 0 unposted 0 unsent 0;END 3;
what two stages hold and skipped|;PROTOCOL READ TERMINATED 0x0A 0x0A true 0 0x24;PROTOCOL READ LENGTH 8 8 0 1 BIG_ENDIAN 0 0x24|OPEN I;BYTES I 0024040A;BYTES I 240A24;CLOSE I READ|Ok 0 0.000000 I OPENED;1 0.000000 I CLOSED READ held 1 3 0 0 skipped 1 empty 0 unposted 0 unsent 0;END 2;
a chain that only writes reads pieces as they come|;PROTOCOL WRITE LENGTH 0 16 0 1|OPEN I;BYTES I 0102;BYTES I 03|Ok 0 0.000000 I OPENED;1 0.000000 I PACKET UNKNOWN UNKNOWN 0102;2 0.000000 I PACKET UNKNOWN UNKNOWN 03;END 3;";

#[test]
fn each_protocol_cuts_what_comes(rt: HostRuntime) -> Result<(), Fail> {
    commands_end_so(rt.alloc(), OF_NO_PACKETS, CHAINS)
}

const OF_ONE_PACKET: &str =
    "replay d s c|TELEMETRY T A BIG_ENDIAN;APPEND_ID_ITEM K 8 UINT 1;APPEND_ITEM V 16 UINT|INTERFACE I tcpip_client_interface.rb h 1 1 10.0 nil $;TARGET T|$|$";

const KNOWN: &str = "\
two packets in pieces|FIXED 1|OPEN I;BYTES I 010506;BYTES I 010708|Ok 0 0.000000 I OPENED;1 0.000000 I PACKET T A 010506;2 0.000000 I PACKET T A 010708;END 3;
an unknown start is one byte|FIXED 1|OPEN I;BYTES I 020105;CLOSE I PEER|Ok 0 0.000000 I OPENED;1 0.000000 I PACKET UNKNOWN UNKNOWN 02;2 0.000000 I CLOSED PEER held 2 0 0 0 skipped 0 empty 0 unposted 0 unsent 0;END 3;
an unknown start as an error|FIXED 1 0 nil true false true|OPEN I;BYTES I 0105060205|Ok 0 0.000000 I OPENED;1 0.000000 I PACKET T A 010506;2 0.000000 I CLOSED BAD 1 UNKNOWN held 2 0 0 0 skipped 0 empty 0 unposted 0 unsent 0;END 3;";

#[test]
fn packets_of_known_length(rt: HostRuntime) -> Result<(), Fail> {
    commands_end_so(rt.alloc(), OF_ONE_PACKET, KNOWN)
}

// Three packets, whose names frames of PREIDENTIFIED bring along.
const PACKETS: &str = "\
TELEMETRY T A BIG_ENDIAN;APPEND_ITEM V 16 UINT;\
TELEMETRY T B BIG_ENDIAN;APPEND_ITEM W 16 UINT;\
TELEMETRY INST HS BIG_ENDIAN;APPEND_ID_ITEM K 8 UINT 1;APPEND_ITEM TEMP 16 UINT;APPEND_ITEM MODE 8 UINT";

const NAMING: &str =
    "INTERFACE I tcpip_client_interface.rb h 1 1 10.0 nil PREIDENTIFIED;TARGET T;TARGET INST";

const NAMED: &str = r#"
@ time and names of a frame, whatever the clock shows
TIME 7 0
OPEN I
BYTES I 000000640003D0900154014200000002
BYTES I 0105
CALL 0 '{"jsonrpc":"2.0","method":"tlm_raw","params":["T B W"],"id":1}'
> Ok
0 7.000000 I OPENED
1 100.250000 I PACKET T B 0105
REPLY DESK/0 2 {"id":1,"jsonrpc":"2.0","result":261}
END 2
@ a name that no packet has, and a head that is cut
OPEN I
BYTES I 000000640003D09001740158000000010700000064
CLOSE I PEER
> Ok
0 0.000000 I OPENED
1 100.250000 I PACKET UNKNOWN UNKNOWN 07
2 0.000000 I CLOSED PEER held 4 0 0 0 skipped 0 empty 0 unposted 0 unsent 0
END 3
@ two frames in one piece
OPEN I
BYTES I 000000640003d09004494e53540248530000000401800001000000640003d09004494e53540248530000000401900001
> Ok
0 0.000000 I OPENED
1 100.250000 I PACKET INST HS 01800001
2 100.250000 I PACKET INST HS 01900001
END 3
@ microseconds of a million and more, with all their digits
OPEN I
BYTES I 00000064000f4240015401410000000109
BYTES I 00000000ffffffff015401410000000109
> Ok
0 0.000000 I OPENED
1 100.1000000 I PACKET T A 09
2 0.4294967295 I PACKET T A 09
END 3
"#;

const SYNCED: &str =
    "INTERFACE I tcpip_client_interface.rb h 1 1 10.0 nil PREIDENTIFIED 0xAAAA 1;TARGET T";

const NAMED_AFTER_SYNC: &str = "
@ a sync pattern that is cut
OPEN I
BYTES I 11AA
BYTES I AA00000064000000000154014100000001
BYTES I 09
> Ok
0 0.000000 I OPENED
1 100.000000 I PACKET T A 09
END 2
@ a count above the greatest
OPEN I
BYTES I AAAA00000064000000000154014100000002
> Ok
0 0.000000 I OPENED
1 0.000000 I CLOSED BAD 1 OVERMAX 2 held 18 0 0 0 skipped 0 empty 0 unposted 0 unsent 0
END 2
";

#[test]
fn packets_bring_their_time_and_names(rt: HostRuntime) -> Result<(), Fail> {
    replays_go_so(rt.alloc(), PACKETS, NAMING, NAMED)?;
    replays_go_so(rt.alloc(), PACKETS, SYNCED, NAMED_AFTER_SYNC)
}
