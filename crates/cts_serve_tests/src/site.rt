// Site files over definitions that were read: what depends on the packets of a target.
use crate::table::commands_end_so;
use std::test::Fail;

/// A check of six packets and commands, and of an interface whose words and lines go on with a row.
const CHECK: &str = "\
check d s|\
TELEMETRY INST HS BIG_ENDIAN;ID_ITEM PKTID 8 8 UINT 1;ITEM REST 16 8 UINT;\
TELEMETRY INST WIDE LITTLE_ENDIAN;ID_ITEM PKTID 8 16 INT -2;ITEM LAST 31 1 UINT;\
TELEMETRY AUX LINE BIG_ENDIAN;ID_ITEM PKTID 0 8 UINT 1;APPEND_ITEM TEXT 0 STRING;\
TELEMETRY BARE ONE BIG_ENDIAN;ITEM X 0 8 UINT;\
COMMAND INST GO BIG_ENDIAN;APPEND_ID_PARAMETER CODE 32 UINT 7 7 7;\
COMMAND TOOL CUT BIG_ENDIAN;APPEND_PARAMETER TEXT 0 STRING 'a'|\
INTERFACE I tcpip_client_interface.rb h 1 1 nil nil $|-|$";

/// What follows the words of an interface, and how the check ends; lines end with `;`.
const ROWS: &str = "\
three targets|BURST;TARGET INST;TARGET AUX;TARGET TOOL|Ok telemetry 4 commands 2 items 9 interfaces 1 routers 0;
targets in any case|BURST;TARGET inst;TARGET Bare|Ok telemetry 4 commands 2 items 9 interfaces 1 routers 0;
no packet has a part of a name|BURST;TARGET INST;TARGET INS|ConfigRefused refused: s line 3: UnknownTarget;
UNKNOWN is no target|BURST;TARGET UNKNOWN|ConfigRefused refused: s line 2: UnknownTarget;
a target twice in one interface|BURST;TARGET INST;TARGET inst|ConfigRefused refused: s line 3: TargetTwice;
a target of two interfaces|;TARGET INST;INTERFACE J tcpip_server_interface.rb 2 2 nil nil;TARGET INST|ConfigRefused refused: s line 4: TargetTwice;
FIXED up to the end of the ids|FIXED 3;TARGET INST|Ok telemetry 4 commands 2 items 9 interfaces 1 routers 0;
FIXED below it|FIXED 2;TARGET INST|ConfigRefused refused: s line 1: MinIdSize;
FIXED over a target without ids|FIXED 1;TARGET BARE|Ok telemetry 4 commands 2 items 9 interfaces 1 routers 0;
FIXED above that|FIXED 2;TARGET BARE|ConfigRefused refused: s line 1: MinIdSize;
FIXED over two targets that differ|FIXED 3;TARGET INST;TARGET BARE|ConfigRefused refused: s line 1: MinIdSize;
FIXED above the end of the ids|FIXED 4;TARGET INST|ConfigRefused refused: s line 1: MinIdSize;
FIXED over commands|FIXED 4 0 nil false;TARGET INST|Ok telemetry 4 commands 2 items 9 interfaces 1 routers 0;
FIXED over commands, below it|FIXED 3 0 nil false;TARGET INST|ConfigRefused refused: s line 1: MinIdSize;
FIXED over commands, above it|FIXED 5 0 nil false;TARGET INST|ConfigRefused refused: s line 1: MinIdSize;
FIXED over an item that goes to the end|FIXED 1;TARGET AUX|ConfigRefused refused: s line 1: VariableLength;
FIXED over it, with another size|FIXED 3;TARGET AUX|ConfigRefused refused: s line 1: MinIdSize;
FIXED over commands of a target without any|FIXED 1 0 nil false;TARGET AUX|Ok telemetry 4 commands 2 items 9 interfaces 1 routers 0;
FIXED over a command that goes to the end|FIXED 1 0 nil false;TARGET TOOL|ConfigRefused refused: s line 1: MinIdSize;
FIXED over telemetry of a target without any|FIXED 1;TARGET TOOL|Ok telemetry 4 commands 2 items 9 interfaces 1 routers 0;
FIXED that only writes|TERMINATED nil 0x0A;TARGET AUX;PROTOCOL WRITE FIXED 1;LOG DEFAULT;ROUTER R x.rb|ConfigRefused refused: s line 3: VariableLength;
a wrong line after a good FIXED|FIXED 1;TARGET AUX;LOG DEFAULT;LOG|ConfigRefused refused: s line 4: WrongCount;
FIXED of a router below the ids of its interface|BURST;TARGET INST;ROUTER R tcpip_server_interface.rb 2 2 nil nil FIXED 2;ROUTE I|ConfigRefused refused: s line 3: MinIdSize;
FIXED of a router up to their end|BURST;TARGET INST;ROUTER R tcpip_server_interface.rb 2 2 nil nil FIXED 3;ROUTE I|Ok telemetry 4 commands 2 items 9 interfaces 1 routers 1;
FIXED of a router over an item that goes to the end|BURST;TARGET AUX;ROUTER R tcpip_server_interface.rb 2 2 nil nil FIXED 1;ROUTE I|ConfigRefused refused: s line 3: VariableLength;
FIXED of a router without routes|BURST;TARGET AUX;ROUTER R tcpip_server_interface.rb 2 2 nil nil FIXED 1|Ok telemetry 4 commands 2 items 9 interfaces 1 routers 1;";

#[test]
fn a_site_is_judged_over_its_definitions(rt: HostRuntime) -> Result<(), Fail> {
    commands_end_so(rt.alloc(), CHECK, ROWS)
}
