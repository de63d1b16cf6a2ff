// The files of the demo: its definitions and its site, in which each `;` is a line feed, and a log of packets.
use cts_log::{LogKind, digest_of, head};
use cts_rows::bytes_of;
use std::alloc::Global;
use std::test::Fail;

/// Two telemetry packets and a command.
pub const DEFINITIONS: &str = "\
TELEMETRY INST HS BIG_ENDIAN;APPEND_ID_ITEM PKTID 8 UINT 1;APPEND_ITEM TEMP1 16 UINT;POLY_READ_CONVERSION -100.0 0.00305;UNITS CELSIUS C;\
FORMAT_STRING '%0.3f';APPEND_ITEM MODE 8 UINT;STATE OFF 0;STATE ON 1;TELEMETRY AUX LINE BIG_ENDIAN;APPEND_ITEM TEXT 0 STRING;\
COMMAND INST COLLECT BIG_ENDIAN;APPEND_ID_PARAMETER OPCODE 8 UINT 7 7 7;APPEND_PARAMETER DURATION 16 UINT 0 10 5";

/// Two interfaces, and a router that sends the packets of the first one.
pub const SITE: &str = "\
INTERFACE INST_INT tcpip_client_interface.rb localhost 8080 8080 10.0 nil LENGTH 0 16 0 1 BIG_ENDIAN 2 nil nil true;TARGET INST;\
INTERFACE AUX_INT tcpip_client_interface.rb localhost 8081 8081 10.0 nil TERMINATED 0x0A 0x0A;TARGET AUX;\
ROUTER OUT tcpip_server_interface.rb 2950 2950 10.0 nil PREIDENTIFIED;ROUTE INST_INT";

/// The entries of its log: a line of AUX, and two packets of INST.
pub const ENTRIES: &str = "\
000000640003d09003415558044c494e45000000024849\
000000640003d09004494e53540248530000000401800001\
000000640003d09004494e53540248530000000401900001";

fn head_of_log(alloc: Global) -> Result<Vec<u8>, Fail> {
    let bytes = head(alloc, LogKind::Tlm, 2, &digest_of(b""))?;
    Ok(bytes.into_vec())
}

/// A log of layout 2 with these entries in hexadecimal digits.
pub fn log_of(alloc: Global, entries: &str) -> Result<Vec<u8>, Fail> {
    let bytes = bytes_of(alloc, entries)?;
    let mut log = head_of_log(alloc)?;
    log.extend_from_slice(&bytes)?;
    Ok(log)
}
