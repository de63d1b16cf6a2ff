// The demo of two interfaces and a router, and what its devices and clients give.

/// Two packets and a command.
pub const DEFINITIONS: &str = "\
TELEMETRY INST HS BIG_ENDIAN;APPEND_ID_ITEM PKTID 8 UINT 1;\
APPEND_ITEM TEMP1 16 UINT;POLY_READ_CONVERSION -100.0 0.00305;\
LIMITS DEFAULT 1 ENABLED -80.0 -70.0 60.0 80.0;LIMITS TVAC 1 ENABLED -80.0 -70.0 0.0 80.0;\
UNITS CELSIUS C;FORMAT_STRING '%0.3f';APPEND_ITEM MODE 8 UINT;STATE OFF 0;STATE ON 1;\
TELEMETRY AUX LINE BIG_ENDIAN;APPEND_ITEM TEXT 0 STRING;\
COMMAND INST COLLECT BIG_ENDIAN;APPEND_ID_PARAMETER OPCODE 8 UINT 7 7 7;APPEND_PARAMETER DURATION 16 UINT 0 10 5";

/// The interfaces, one of which gives its frames their length.
pub const INTERFACES: &str = "\
INTERFACE INST_INT tcpip_client_interface.rb localhost 8080 8080 10.0 nil LENGTH 0 16 0 1 BIG_ENDIAN 2 nil nil true;TARGET INST;\
INTERFACE AUX_INT tcpip_client_interface.rb localhost 8081 8081 10.0 nil TERMINATED 0x0A 0x0A;TARGET AUX;";

/// The router of the first interface.
pub const ROUTER: &str =
    "ROUTER OUT tcpip_server_interface.rb 2950 2950 10.0 nil PREIDENTIFIED;ROUTE INST_INT";

/// What each interface's device gives in its one connection: its pieces in digits, with a comma after each device.
pub const PIECES: &str = "000601 80000100 0601900001,48490A";

/// A client of the router's first slot, which sends nothing.
pub const SILENT: &str = "-";

/// What the client of the first desk asks, one request in each line.
pub const CALLS: &str = r#"{"jsonrpc":"2.0","method":"set_limits_set","params":["TVAC"],"id":1}
{"jsonrpc":"2.0","method":"get_limits_set","id":2}
{"jsonrpc":"2.0","method":"tlm_with_units","params":["INST HS TEMP1"],"id":3}
{"jsonrpc":"2.0","method":"cmd","params":["INST COLLECT with DURATION 10"],"id":4}"#;
