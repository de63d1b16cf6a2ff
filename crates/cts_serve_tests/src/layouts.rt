// Layouts of heads: stored packets in a replay, in its logs and in their dumps.
use crate::instrument::INSTRUMENT_DEFINITIONS;
use crate::table::{ended_stocked, files, hold_bytes, replays_go_so, rows_told};
use cts_outside::{LogKind, MemFiles, MemSink, MemVault};
use cts_rows::{Answers, as_text, digits_of};
use std::alloc::Global;
use std::test::Fail;

/// An interface that reads heads of layout 4.
const INTERFACE: &str =
    "INTERFACE P tcpip_client_interface.rb localhost 2950 2950 nil nil PREIDENTIFIED nil nil 4;TARGET INST";

// A stored packet says nothing of now: it is neither counted nor current, and has no limits event. Its time is its own.
const STORED: &str = r#"
@ a stored packet, the same one live, and flags that no packet has
OPEN P
BYTES P 80000000640003d09004494e53540248530000000401900001
BYTES P 00000000640003d09004494e53540248530000000401900001
BYTES P 41
> Ok
0 0.000000 P OPENED
1 100.250000 P STORED INST HS 01900001
2 100.250000 P PACKET INST HS 01900001
EVENT INST HS TEMP1 STALE GREEN
3 0.000000 P CLOSED BAD 1 FLAGS 65 held 1 0 0 0 skipped 0 empty 0 unposted 0 unsent 0
END 4
@ what is told after each of them
OPEN P
BYTES P 80000000640003d09004494e53540248530000000401900001
CALL 0 '{"jsonrpc":"2.0","method":"get_tlm_cnt","params":["INST","HS"],"id":1}'
CALL 0 '{"jsonrpc":"2.0","method":"tlm_raw","params":["INST HS TEMP1"],"id":2}'
BYTES P 00000000640003d09004494e53540248530000000401900001
CALL 0 '{"jsonrpc":"2.0","method":"get_tlm_cnt","params":["INST","HS"],"id":3}'
CALL 0 '{"jsonrpc":"2.0","method":"tlm_raw","params":["INST HS TEMP1"],"id":4}'
BYTES P 80000000640003d09004494e53540248530000000401ffff01
CALL 0 '{"jsonrpc":"2.0","method":"tlm_raw","params":["INST HS TEMP1"],"id":5}'
> Ok
0 0.000000 P OPENED
1 100.250000 P STORED INST HS 01900001
REPLY DESK/0 2 {"id":1,"jsonrpc":"2.0","result":0}
REPLY DESK/0 2 {"error":{"code":-32001,"message":"Never received"},"id":2,"jsonrpc":"2.0"}
2 100.250000 P PACKET INST HS 01900001
EVENT INST HS TEMP1 STALE GREEN
REPLY DESK/0 3 {"id":3,"jsonrpc":"2.0","result":1}
REPLY DESK/0 3 {"id":4,"jsonrpc":"2.0","result":36864}
3 100.250000 P STORED INST HS 01ffff01
REPLY DESK/0 4 {"id":5,"jsonrpc":"2.0","result":36864}
END 4
"#;

#[test]
fn stored_packets_say_nothing_of_now(rt: HostRuntime) -> Result<(), Fail> {
    let alloc = rt.alloc();
    let site = format!(in alloc; "LOG_LAYOUT 4;{INTERFACE}")?;
    replays_go_so(alloc, INSTRUMENT_DEFINITIONS, site.as_str(), STORED)
}

/// The script of a stored packet and the same one live.
const SCRIPT: &str = "OPEN P;\
BYTES P 80000000640003d09004494e53540248530000000401900001;\
BYTES P 00000000640003d09004494e53540248530000000401900001";

/// Of a first line of the site: how each log begins and how many bytes it has, those after the head of the log of telemetry in
/// hexadecimal digits, and how that log is dumped.
struct Kept;

impl Answers for Kept {
    fn answer(alloc: Global, asked: &str) -> Result<String, Fail> {
        let site = format!(in alloc; "{asked};{INTERFACE}")?;
        let mut files = files(
            alloc,
            INSTRUMENT_DEFINITIONS,
            site.as_str(),
            SCRIPT,
            Vec::new(alloc),
        )?;
        let mut sink = MemSink::new(alloc, Vec::new(alloc));
        let mut vault = MemVault::new(alloc, Vec::new(alloc));
        ended_stocked(alloc, "replay d s c", &mut files, &mut sink, &mut vault)?;
        kept_text(alloc, &vault)
    }
}

fn kept_text(alloc: Global, vault: &MemVault) -> Result<String, Fail> {
    let tlm = vault.bytes(LogKind::Tlm);
    let cmd = vault.bytes(LogKind::Cmd);
    let after = digits_of(alloc, tlm.get(128..).unwrap_or(&[]))?;
    let dumped = dumped(alloc, tlm)?;
    Ok(format!(in alloc;
        "{} {} {} {} {after} {dumped}",
        as_text(tlm.get(..12).unwrap_or(&[]))?,
        tlm.len(),
        as_text(cmd.get(..12).unwrap_or(&[]))?,
        cmd.len()
    )?)
}

/// How a dump of these bytes ends.
fn dumped(alloc: Global, log: &[u8]) -> Result<String, Fail> {
    let mut held = Vec::new(alloc);
    hold_bytes(alloc, &mut held, "l", log.to_vec(alloc)?)?;
    let mut files = MemFiles::new(held, Vec::new(alloc));
    let mut sink = MemSink::new(alloc, Vec::new(alloc));
    let mut vault = MemVault::new(alloc, Vec::new(alloc));
    ended_stocked(alloc, "dump l", &mut files, &mut sink, &mut vault)
}

const KEPT: &str = "\
layout 4|LOG_LAYOUT 4|COSMOS4_TLM_ 178 COSMOS4_CMD_ 128 8000000064\
0003d09004494e5354024853000000040190000100000000640003d09004494e53540248530000000401900001 \
Ok 1970-01-01 00:01:40.250000 INST HS 01900001 STORED;1970-01-01 00:01:40.250000 INST HS 01900001;
layout 2|LOG_LAYOUT 2|COSMOS2_TLM_ 176 COSMOS2_CMD_ 128 00000064\
0003d09004494e53540248530000000401900001000000640003d09004494e53540248530000000401900001 \
Ok 1970-01-01 00:01:40.250000 INST HS 01900001;1970-01-01 00:01:40.250000 INST HS 01900001;
no layout, and a cycle|LOG_CYCLE 4096|COSMOS2_TLM_ 176 COSMOS2_CMD_ 128 00000064\
0003d09004494e53540248530000000401900001000000640003d09004494e53540248530000000401900001 \
Ok 1970-01-01 00:01:40.250000 INST HS 01900001;1970-01-01 00:01:40.250000 INST HS 01900001;";

#[test]
fn logs_have_the_layout_of_the_site(rt: HostRuntime) -> Result<(), Fail> {
    rows_told::<Kept>(rt.alloc(), KEPT)
}
