// How a server ends whose workers run one after another, where nothing fails and where one call does.
use crate::demo::{CALLS, DEFINITIONS, INTERFACES, PIECES, ROUTER, SILENT};
use crate::devices::{FIRST_DESK_DOOR, Gives, failing};
use crate::serving::{Served, serve_demo};
use crate::told::{logs, places, transcript, whys};
use cts_outside::{LogKind, MemVault, OpenGate, TurnCrew};
use cts_rows::{cut, digits_of, in_one_line, same};
use cts_samples::site_of;
use std::alloc::Global;
use std::sync::Wait;
use std::test::Fail;
use std::thread::Threads;

/// The demo, where these calls fail.
fn demo(failing: &str) -> Gives<'_> {
    Gives {
        lines: PIECES,
        slots: SILENT,
        calls: CALLS,
        failing,
    }
}

/// The entries of the demo, in the order in which its workers run one after another.
const ENTRIES: &str = "\
INST_INT OPENED
INST_INT PACKET INST HS 01800001
INST_INT PACKET INST HS 01900001
INST_INT CLOSED PEER held 0 0 0 0 skipped 0 empty 0 unposted 0 unsent 0
INST_INT ENDED
AUX_INT OPENED
AUX_INT PACKET AUX LINE 4849
AUX_INT CLOSED PEER held 0 0 0 0 skipped 0 empty 0 unposted 0 unsent 0
AUX_INT ENDED
OUT/0 OPENED
OUT/0 CLOSED PEER held 0 0 0 0 skipped 0 empty 0 unposted 0 unsent 0
OUT/0 ENDED
OUT/1 ENDED
DESK/0 LIMITSSET TVAC
DESK/0 ENDED
DESK/1 ENDED
DESK/2 ENDED
DESK/3 ENDED
0 0.000000 SCRIBE ENDED
";

/// How the demo's server ends where nothing fails.
const WHOLE: &str =
    "Ok READY;END 19; [Finished, Finished, Finished, Finished] Finished[13, 14, 14, 14] Finished[] Finished[] Finished[] Some(Drained) 199/199 128/128 aimed";

/// Each log in digits after its head.
const LOGS: &str = "\
000000640003d09004494e53540248530000000401800001000000640003d09004494e53540248530000000401900001000000640003d09003415558044c494e45000000024849
";

/// The responses to the client of the first desk, each in a line from the length of its text on.
const RESPONSES: &str = r#"
38;X-Cts-Front: 13;;{"id":1,"jsonrpc":"2.0","result":null}
40;X-Cts-Front: 14;;{"id":2,"jsonrpc":"2.0","result":"TVAC"}
44;X-Cts-Front: 14;;{"id":3,"jsonrpc":"2.0","result":"12.435 C"}
84;X-Cts-Front: 14;;{"error":{"code":-32002,"message":"Not connected: INST_INT"},"id":4,"jsonrpc":"2.0"}"#;

/// A server of this site over a crew that takes turns, with devices that give this.
pub fn turned<R: Threads + Wait + Sync>(
    rt: &R,
    alloc: Global,
    words: &str,
    site: &str,
    gives: Gives<'_>,
) -> Result<Served<MemVault>, Fail> {
    let mut crew = TurnCrew::new(failing(alloc, gives.failing, "c")?);
    let vault = MemVault::new(alloc, failing(alloc, gives.failing, "v")?);
    let gate = OpenGate::new();
    serve_demo(rt, alloc, words, site, gives, vault, &mut crew, &gate)
}

/// A server of the demo over a crew that takes turns, where these calls fail.
pub fn in_turn<R: Threads + Wait + Sync>(
    rt: &R,
    alloc: Global,
    words: &str,
    failing_words: &str,
) -> Result<Served<MemVault>, Fail> {
    let site = format!(in alloc; "{INTERFACES}{ROUTER}")?;
    turned(rt, alloc, words, &site, demo(failing_words))
}

/// How a server has ended: its status, what it printed, why each worker ended, what the logs have, and whether the devices are in their places.
fn told(alloc: Global, left: &Served<MemVault>) -> Result<String, Fail> {
    Ok(format!(in alloc;
        "{:?} {} {} {} {}",
        left.ended.status,
        left.printed,
        whys(alloc, &left.ended)?,
        logs(alloc, &left.devices)?,
        places(alloc, &left.devices)?
    )?)
}

/// The same of a server of the demo over a crew that takes turns, where these calls fail.
fn told_in_turn<R: Threads + Wait + Sync>(
    rt: &R,
    alloc: Global,
    words: &str,
    failing_words: &str,
) -> Result<String, Fail> {
    let left = in_turn(rt, alloc, words, failing_words)?;
    told(alloc, &left)
}

fn after_head(alloc: Global, left: &Served<MemVault>, kind: LogKind) -> Result<String, Fail> {
    match &left.devices.vault {
        Some(vault) => digits_of(alloc, vault.bytes(kind).get(128..).unwrap_or(&[])),
        None => Err(Fail::new("no vault")),
    }
}

/// What each response begins with.
const GOOD: &str = "HTTP/1.1 200 OK;Content-Type: application/json-rpc;Content-Length: ";

fn responses(alloc: Global, left: &Served<MemVault>) -> Result<String, Fail> {
    match left.devices.doors.get(FIRST_DESK_DOOR) {
        Some(Some(door)) => {
            let text = in_one_line(alloc, door.put_to(0).unwrap_or(&[]))?;
            Ok(text.replace(alloc, '\r', "")?.replace(alloc, GOOD, "\n")?)
        }
        _ => Err(Fail::new("no door")),
    }
}

/// The entries of the history that a server left, by the demo's site.
pub fn entries(alloc: Global, left: &Served<MemVault>) -> Result<String, Fail> {
    let text = format!(in alloc; "{INTERFACES}{ROUTER}")?;
    let site = site_of(alloc, DEFINITIONS, &text)?;
    transcript(alloc, &site, &left.ended.history)
}

/// Both logs in digits after their heads.
fn both_logs(alloc: Global, left: &Served<MemVault>) -> Result<String, Fail> {
    let mut text = after_head(alloc, left, LogKind::Tlm)?;
    text.push('\n')?;
    text.push_str(&after_head(alloc, left, LogKind::Cmd)?)?;
    Ok(text)
}

fn demo_holds(alloc: Global, left: &Served<MemVault>) -> Result<(), Fail> {
    same(&entries(alloc, left)?, ENTRIES, "entries")?;
    same(&responses(alloc, left)?, RESPONSES, "responses")?;
    same(&both_logs(alloc, left)?, LOGS, "logs")?;
    same(&told(alloc, left)?, WHOLE, "the end")
}

#[test]
fn the_demo_is_served(rt: HostRuntime) -> Result<(), Fail> {
    let left = in_turn(&rt, rt.alloc(), "serve d s", "")?;
    demo_holds(rt.alloc(), &left)
}

/// The words, the calls that fail, and how the server ends. Calls are `f` of the files, `o` of the output, `v` of the vault, `c` of the crew, `l0` of the first
/// dialer and `d0` of the first door, each with its number; where the shelf is to be so, `empty`.
const STATUSES: &str = "\
serve d||Usage usage: check DEFS SITE | replay DEFS SITE SCRIPT | rehearse N | dump LOG | serve DEFS SITE | play DEFS SITE LOG | extract DEFS LOG TARGET PACKET KIND ITEMS | hub DEFS SITE SCRIPT SITE2 WHO NAME CUT; [] None 0/0 0/0 idle
serve x s||Absent absent: x; [] None 0/0 0/0 idle
serve d x||Absent absent: x; [] None 0/0 0/0 idle
serve s s||ConfigRefused refused: s line 1: UnknownKeyword; [] None 0/0 0/0 idle
serve d d||ConfigRefused refused: d line 1: UnknownKeyword; [] None 0/0 0/0 idle
serve d s|f:0|ReadFault read fault: d; [] None 0/0 0/0 idle
serve d s|empty|ShelfEmpty shelf empty: LENGTH needed 1 stocked 0; [] None 0/0 0/0 idle
serve d s|o:0|WriteFault  [] None 0/0 0/0 aimed";

fn row_holds<R: Threads + Wait + Sync>(rt: &R, alloc: Global, row: &str) -> Result<(), Fail> {
    let (words, rest) = cut(row, '|')?;
    let (failing, wanted) = cut(rest, '|')?;
    same(&told_in_turn(rt, alloc, words, failing)?, wanted, failing)
}

#[test]
fn each_status_has_its_last_line(rt: HostRuntime) -> Result<(), Fail> {
    for row in STATUSES.split('\n') {
        row_holds(&rt, rt.alloc(), row)?;
    }
    Ok(())
}

fn failing_row_holds<R: Threads + Wait + Sync>(
    rt: &R,
    alloc: Global,
    row: &str,
) -> Result<(), Fail> {
    let (failing, wanted) = cut(row, '|')?;
    let wanted = if wanted == "=" { WHOLE } else { wanted };
    same(
        &told_in_turn(rt, alloc, "serve d s", failing)?,
        wanted,
        failing,
    )
}

fn failing_rows_hold<R: Threads + Wait + Sync>(
    rt: &R,
    alloc: Global,
    rows: &str,
) -> Result<(), Fail> {
    for row in rows.split('\n') {
        failing_row_holds(rt, alloc, row)?;
    }
    Ok(())
}

/// Each read of a file and each put of the output that fails, up to the first that no server makes. A row has the calls that fail and how the server ends, `=` where
/// it ends as one of which nothing fails.
const READS_AND_PUTS: &str = "\
f:0|ReadFault read fault: d; [] None 0/0 0/0 idle
f:1|ReadFault read fault: d; [] None 0/0 0/0 idle
f:2|ReadFault read fault: s; [] None 0/0 0/0 idle
f:3|ReadFault read fault: s; [] None 0/0 0/0 idle
f:4|=
f:5|=
o:0|WriteFault  [] None 0/0 0/0 aimed
o:1|WriteFault READY; [Finished, Finished, Finished, Finished] Finished[13, 14, 14, 14] Finished[] Finished[] Finished[] Some(Drained) 199/199 128/128 aimed
o:2|WriteFault READY;END  [Finished, Finished, Finished, Finished] Finished[13, 14, 14, 14] Finished[] Finished[] Finished[] Some(Drained) 199/199 128/128 aimed";

#[test]
fn a_read_or_a_put_fails(rt: HostRuntime) -> Result<(), Fail> {
    failing_rows_hold(&rt, rt.alloc(), READS_AND_PUTS)
}

/// The same of each append and sync.
const VAULT: &str = "\
v:0|LogFault READY;END 20;log fault; [Finished, Finished, Finished, Finished] Finished[13, 14, 14, 14] Finished[] Finished[] Finished[] Some(VaultFailed) 0/0 0/0 aimed
v:1|LogFault READY;END 20;log fault; [Finished, Finished, Finished, Finished] Finished[13, 14, 14, 14] Finished[] Finished[] Finished[] Some(VaultFailed) 128/0 0/0 aimed
v:2|LogFault READY;END 20;log fault; [Finished, Finished, Finished, Finished] Finished[13, 14, 14, 14] Finished[] Finished[] Finished[] Some(VaultFailed) 128/128 0/0 aimed
v:3|LogFault READY;END 20;log fault; [Finished, Finished, Finished, Finished] Finished[13, 14, 14, 14] Finished[] Finished[] Finished[] Some(VaultFailed) 128/128 128/0 aimed
v:4|LogFault READY;END 20;log fault; [Finished, Finished, Finished, Finished] Finished[13, 14, 14, 14] Finished[] Finished[] Finished[] Some(VaultFailed) 128/128 128/128 aimed
v:5|LogFault READY;END 20;log fault; [Finished, Finished, Finished, Finished] Finished[13, 14, 14, 14] Finished[] Finished[] Finished[] Some(VaultFailed) 199/128 128/128 aimed
v:6|=";

#[test]
fn an_append_or_a_sync_fails(rt: HostRuntime) -> Result<(), Fail> {
    failing_rows_hold(&rt, rt.alloc(), VAULT)
}

/// The same of each job of the crew, which is cancelled: two interfaces, two slots, four desks and the scribe.
const CANCELLED: &str = "\
c:0|NoWorker READY;END 10;no worker; [Cancelled, Stopped, Stopped, Stopped] Stopped[] Finished[] Finished[] Finished[] Some(Drained) 128/128 128/128 aimed
c:1|NoWorker READY;END 14;no worker; [Finished, Cancelled, Stopped, Stopped] Stopped[] Finished[] Finished[] Finished[] Some(Drained) 176/176 128/128 aimed
c:2|NoWorker READY;END 17;no worker; [Finished, Finished, Cancelled, Stopped] Stopped[] Finished[] Finished[] Finished[] Some(Drained) 199/199 128/128 aimed
c:3|NoWorker READY;END 19;no worker; [Finished, Finished, Finished, Cancelled] Stopped[] Finished[] Finished[] Finished[] Some(Drained) 199/199 128/128 aimed
c:4|NoWorker READY;END 19;no worker; [Finished, Finished, Finished, Finished] Cancelled[] Finished[] Finished[] Finished[] Some(Drained) 199/199 128/128 aimed
c:5|NoWorker READY;END 20;no worker; [Finished, Finished, Finished, Finished] Finished[13, 14, 14, 14] Cancelled[] Finished[] Finished[] Some(Drained) 199/199 128/128 aimed
c:6|NoWorker READY;END 20;no worker; [Finished, Finished, Finished, Finished] Finished[13, 14, 14, 14] Finished[] Cancelled[] Finished[] Some(Drained) 199/199 128/128 aimed
c:7|NoWorker READY;END 20;no worker; [Finished, Finished, Finished, Finished] Finished[13, 14, 14, 14] Finished[] Finished[] Cancelled[] Some(Drained) 199/199 128/128 aimed
c:8|NoWorker READY;END 20;no worker; [Finished, Finished, Finished, Finished] Finished[13, 14, 14, 14] Finished[] Finished[] Finished[] Some(Cancelled) 0/0 0/0 aimed
c:9|=";

#[test]
fn a_worker_is_cancelled(rt: HostRuntime) -> Result<(), Fail> {
    failing_rows_hold(&rt, rt.alloc(), CANCELLED)
}

/// The same of each dial, take and put of the interfaces' dialers: what was not taken any more is in no log.
const DIALERS: &str = "\
l0:0|=
l0:1|Ok READY;END 17; [Finished, Finished, Finished, Finished] Finished[11, 12, 12, 12] Finished[] Finished[] Finished[] Some(Drained) 151/151 128/128 aimed
l0:2|Ok READY;END 17; [Finished, Finished, Finished, Finished] Finished[11, 12, 12, 12] Finished[] Finished[] Finished[] Some(Drained) 151/151 128/128 aimed
l0:3|Ok READY;END 18; [Finished, Finished, Finished, Finished] Finished[12, 13, 13, 13] Finished[] Finished[] Finished[] Some(Drained) 175/175 128/128 aimed
l0:4|=
l0:5|=
l0:6|=
l1:0|=
l1:1|Ok READY;END 18; [Finished, Finished, Finished, Finished] Finished[12, 13, 13, 13] Finished[] Finished[] Finished[] Some(Drained) 176/176 128/128 aimed
l1:2|=
l1:3|=
l1:4|=";

#[test]
fn a_call_of_a_dialer_fails(rt: HostRuntime) -> Result<(), Fail> {
    failing_rows_hold(&rt, rt.alloc(), DIALERS)
}

/// The same of the doors of the slots and of two desks. A dial that fails is a door fault, and each other call ends a client's connection.
const DOORS: &str = "\
d0:0|DoorFault READY;END 17;door fault; [Finished, Finished, DoorFailed, Stopped] Stopped[] Finished[] Finished[] Finished[] Some(Drained) 199/199 128/128 aimed
d0:1|=
d0:2|=
d0:3|DoorFault READY;END 19;door fault; [Finished, Finished, DoorFailed, Stopped] Stopped[] Finished[] Finished[] Finished[] Some(Drained) 199/199 128/128 aimed
d1:0|DoorFault READY;END 19;door fault; [Finished, Finished, Finished, DoorFailed] Stopped[] Finished[] Finished[] Finished[] Some(Drained) 199/199 128/128 aimed
d1:1|=
d8:0|DoorFault READY;END 19;door fault; [Finished, Finished, Finished, Finished] DoorFailed[] Finished[] Finished[] Finished[] Some(Drained) 199/199 128/128 aimed
d8:1|Ok READY;END 18; [Finished, Finished, Finished, Finished] Finished[] Finished[] Finished[] Finished[] Some(Drained) 199/199 128/128 aimed
d8:2|Ok READY;END 19; [Finished, Finished, Finished, Finished] Finished[13] Finished[] Finished[] Finished[] Some(Drained) 199/199 128/128 aimed
d8:3|Ok READY;END 19; [Finished, Finished, Finished, Finished] Finished[13] Finished[] Finished[] Finished[] Some(Drained) 199/199 128/128 aimed
d8:4|Ok READY;END 19; [Finished, Finished, Finished, Finished] Finished[13, 14] Finished[] Finished[] Finished[] Some(Drained) 199/199 128/128 aimed
d8:5|Ok READY;END 19; [Finished, Finished, Finished, Finished] Finished[13, 14] Finished[] Finished[] Finished[] Some(Drained) 199/199 128/128 aimed
d8:6|Ok READY;END 19; [Finished, Finished, Finished, Finished] Finished[13, 14, 14] Finished[] Finished[] Finished[] Some(Drained) 199/199 128/128 aimed
d8:7|Ok READY;END 19; [Finished, Finished, Finished, Finished] Finished[13, 14, 14] Finished[] Finished[] Finished[] Some(Drained) 199/199 128/128 aimed
d8:8|=
d8:9|=
d8:10|DoorFault READY;END 20;door fault; [Finished, Finished, Finished, Finished] DoorFailed[13, 14, 14, 14] Finished[] Finished[] Finished[] Some(Drained) 199/199 128/128 aimed
d8:11|=
d9:0|DoorFault READY;END 20;door fault; [Finished, Finished, Finished, Finished] Finished[13, 14, 14, 14] DoorFailed[] Finished[] Finished[] Some(Drained) 199/199 128/128 aimed";

#[test]
fn a_call_of_a_door_fails(rt: HostRuntime) -> Result<(), Fail> {
    failing_rows_hold(&rt, rt.alloc(), DOORS)
}

/// Several of them: the least status is told.
const SEVERAL: &str = "\
v:4 c:0|NoWorker READY;END 10;no worker; [Cancelled, Stopped, Stopped, Stopped] Stopped[] Finished[] Finished[] Finished[] Some(Drained) 128/128 128/128 aimed
c:0 c:1|NoWorker READY;END 10;no worker; [Cancelled, Cancelled, Stopped, Stopped] Stopped[] Finished[] Finished[] Finished[] Some(Drained) 128/128 128/128 aimed
c:0 d0:0|NoWorker READY;END 10;no worker; [Cancelled, Stopped, Stopped, Stopped] Stopped[] Finished[] Finished[] Finished[] Some(Drained) 128/128 128/128 aimed
o:1 v:4|WriteFault READY; [Finished, Finished, Finished, Finished] Finished[13, 14, 14, 14] Finished[] Finished[] Finished[] Some(VaultFailed) 128/128 128/128 aimed
o:1 c:2|WriteFault READY; [Finished, Finished, Cancelled, Stopped] Stopped[] Finished[] Finished[] Finished[] Some(Drained) 199/199 128/128 aimed
v:0 d8:0|LogFault READY;END 19;log fault; [Finished, Finished, Finished, Finished] DoorFailed[] Finished[] Finished[] Finished[] Some(VaultFailed) 0/0 0/0 aimed
l0:1 d8:2|Ok READY;END 17; [Finished, Finished, Finished, Finished] Finished[11] Finished[] Finished[] Finished[] Some(Drained) 151/151 128/128 aimed";

#[test]
fn the_least_status_is_told(rt: HostRuntime) -> Result<(), Fail> {
    failing_rows_hold(&rt, rt.alloc(), SEVERAL)
}
