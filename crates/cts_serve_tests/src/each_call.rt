// Each call of a device fails in its turn, up to a run in which none does: what the logs have then, and that each worker ends.
use crate::devices::failing;
use crate::instrument::INSTRUMENT_DEFINITIONS;
use crate::laid_out::logs_hold;
use crate::routers::{DEMO, ROUTED_SITE};
use crate::serving::Served;
use crate::statuses::{entries, in_turn};
use crate::table::{ended_stocked, files};
use cts_outside::{MemDialer, MemSink, MemVault};
use cts_rows::{asked_and_wanted, cut, field, same};
use cts_scribe::ScribeWhy;
use cts_serve::Status;
use std::alloc::Global;
use std::sync::Wait;
use std::test::Fail;
use std::thread::Threads;

/// More calls than any device has.
const ENOUGH: u32 = 100;

/// The digest of the definitions of the replays here, and of those of the servers.
const REPLAYED: &str = "627baa1d50988b723fa5980baa5ecb3c";

const SERVED: &str = "9b1c3cdb9c67cbf85cc15d647a61699a";

/// How a replay ends that prints this transcript, where the files, the output or the vault failed: by its status and its last line, and else with a
/// beginning of the transcript.
fn ends_as(told: &str, device: &str, transcript: &str) -> bool {
    match device {
        "f" => told.starts_with("ReadFault read fault: "),
        "o" => begins(told.strip_prefix("WriteFault "), transcript),
        _ => begins(before_log_fault(told), transcript),
    }
}

fn before_log_fault(told: &str) -> Option<&str> {
    told.strip_prefix("LogFault ")?.strip_suffix("log fault;")
}

fn begins(text: Option<&str>, whole: &str) -> bool {
    matches!(text, Some(text) if whole.starts_with(text))
}

/// How the replay of a script ends where these calls fail.
fn replayed(
    alloc: Global,
    script: &str,
    words: &str,
    vault: &mut MemVault,
) -> Result<String, Fail> {
    let reads = failing(alloc, words, "f")?;
    let puts = failing(alloc, words, "o")?;
    let mut files = files(alloc, INSTRUMENT_DEFINITIONS, ROUTED_SITE, script, reads)?;
    let mut sink = MemSink::new(alloc, puts);
    ended_stocked(alloc, "replay d s c", &mut files, &mut sink, vault)
}

/// A replay ends as it has to. Says whether a call of this device has failed.
fn told_holds(told: &str, device: &str, transcript: &str) -> Result<bool, Fail> {
    if ends_as(told, device, transcript) {
        return Ok(true);
    }
    same(told.strip_prefix("Ok ").unwrap_or(told), transcript, device)?;
    Ok(false)
}

fn replay_left(
    alloc: Global,
    script: &str,
    transcript: &str,
    device: &str,
    words: &str,
    vault: &mut MemVault,
) -> Result<bool, Fail> {
    let told = replayed(alloc, script, words, vault)?;
    logs_hold(alloc, vault, REPLAYED, transcript, told.starts_with("Ok "))?;
    told_holds(&told, device, transcript)
}

/// What a replay leaves where this call fails. Says whether there was such a call.
fn replay_holds(
    alloc: Global,
    script: &str,
    transcript: &str,
    device: &str,
    call: u32,
) -> Result<bool, Fail> {
    let words = format!(in alloc; "{device}:{call}")?;
    let mut vault = MemVault::new(alloc, failing(alloc, &words, "v")?);
    replay_left(alloc, script, transcript, device, &words, &mut vault)
}

fn replays_hold(alloc: Global, script: &str, transcript: &str, device: &str) -> Result<(), Fail> {
    for call in 0..ENOUGH {
        if !replay_holds(alloc, script, transcript, device, call)? {
            return Ok(());
        }
    }
    Err(Fail::new("no run without a fault"))
}

/// The files, the output and the vault of replays of a script, each call of them in its turn.
fn devices_hold(alloc: Global, script: &str, ends: &str) -> Result<(), Fail> {
    let transcript = ends.replace(alloc, '\n', ";")?;
    for device in ["f", "o", "v"] {
        replays_hold(alloc, script, &transcript, device)?;
    }
    Ok(())
}

#[test]
fn a_replay_leaves_a_beginning_where_any_call_fails(rt: HostRuntime) -> Result<(), Fail> {
    let (_, case) = cut(DEMO, 'o')?;
    let (script, ends) = cut(case, '>')?;
    devices_hold(rt.alloc(), script, ends.trim_start_matches(" Ok\n"))
}

fn failed(place: &Option<MemDialer>) -> bool {
    matches!(place, Some(dialer) if dialer.faults() > 0 || dialer.failed_dials() > 0)
}

/// Whether a call of some device has failed, or a start.
fn has_failed(left: &Served<MemVault>) -> bool {
    let mut any = !matches!(left.ended.status, Status::Ok);
    for place in left.devices.lines.iter().chain(left.devices.doors.iter()) {
        any |= failed(place);
    }
    any
}

/// The workers of the demo.
const WORKERS: &str = "INST_INT AUX_INT OUT/0 OUT/1 DESK/0 DESK/1 DESK/2 DESK/3 SCRIBE";

/// Each worker ends once, and as many connections are closed as are opened.
fn workers_hold(alloc: Global, transcript: &str) -> Result<(), Fail> {
    for worker in WORKERS.split(' ') {
        ends_once(alloc, transcript, worker)?;
    }
    if count_of(transcript, " OPENED;") == count_of(transcript, " CLOSED ") {
        return Ok(());
    }
    Err(Fail::new("a connection that is not closed"))
}

/// How often a mark stands in a text.
fn count_of(text: &str, mark: &str) -> usize {
    text.split(mark).skip(1).count()
}

fn ends_once(alloc: Global, transcript: &str, worker: &str) -> Result<(), Fail> {
    let end = format!(in alloc; "{worker} ENDED;")?;
    if count_of(transcript, &end) == 1 {
        return Ok(());
    }
    Err(Fail::new(worker))
}

/// The logs of a server whose history has this transcript.
fn vault_holds(alloc: Global, left: &Served<MemVault>, transcript: &str) -> Result<(), Fail> {
    let is_whole = matches!(left.ended.scribe, Some(ScribeWhy::Drained));
    match &left.devices.vault {
        Some(vault) => logs_hold(alloc, vault, SERVED, transcript, is_whole),
        None => Err(Fail::new("no vault")),
    }
}

/// The entries of the history that a server left, each with `;` after it.
fn entries_left(alloc: Global, left: &Served<MemVault>) -> Result<String, Fail> {
    let text = entries(alloc, left)?;
    Ok(text.replace(alloc, '\n', ";")?)
}

/// What a server leaves. Says whether a call of a device has failed.
fn left_holds(alloc: Global, left: &Served<MemVault>) -> Result<bool, Fail> {
    let transcript = entries_left(alloc, left)?;
    workers_hold(alloc, &transcript)?;
    vault_holds(alloc, left, &transcript)?;
    Ok(has_failed(left))
}

/// What a server leaves where this call fails. Says whether there was such a call.
fn server_holds<R: Threads + Wait + Sync>(
    rt: &R,
    alloc: Global,
    device: &str,
    call: u32,
) -> Result<bool, Fail> {
    let words = format!(in alloc; "{device}:{call}")?;
    let left = in_turn(rt, alloc, "serve d s", &words)?;
    left_holds(alloc, &left)
}

fn servers_hold<R: Threads + Wait + Sync>(rt: &R, alloc: Global, device: &str) -> Result<(), Fail> {
    for call in 0..ENOUGH {
        if !server_holds(rt, alloc, device, call)? {
            return Ok(());
        }
    }
    Err(Fail::new("no run without a fault"))
}

/// Each call of these devices in its turn.
fn all_hold<R: Threads + Wait + Sync>(rt: &R, alloc: Global, devices: &str) -> Result<(), Fail> {
    for device in devices.split(' ') {
        servers_hold(rt, alloc, device)?;
    }
    Ok(())
}

#[test]
fn a_server_leaves_a_beginning_where_its_vault_or_a_start_fails(
    rt: HostRuntime,
) -> Result<(), Fail> {
    all_hold(&rt, rt.alloc(), "v c")
}

#[test]
fn a_server_leaves_a_beginning_where_a_dialer_fails(rt: HostRuntime) -> Result<(), Fail> {
    all_hold(&rt, rt.alloc(), "l0 l1")
}

// The doors of the router's slots and of the four desks.
#[test]
fn a_server_leaves_a_beginning_where_a_door_fails(rt: HostRuntime) -> Result<(), Fail> {
    all_hold(&rt, rt.alloc(), "d0 d1 d8 d9 d10 d11")
}

/// Appends a line if it is of a closed connection.
fn tell_closed(line: &str, out: &mut String) -> Result<(), Fail> {
    if line.contains(" CLOSED ") {
        out.push_str(line)?;
        out.push(';')?;
    }
    Ok(())
}

/// The closed connections of a transcript.
fn closed(alloc: Global, transcript: &str) -> Result<String, Fail> {
    let mut out = String::new(alloc);
    for line in transcript.split(';') {
        tell_closed(line, &mut out)?;
    }
    Ok(out)
}

/// What stands in the line of each closed connection here after the bytes that it held.
const NOTHING_ELSE: &str = " skipped 0 empty 0 unposted 0 unsent 0";

/// A call that fails, and the closed connections: which bytes each held that no packet has. A call that was not made took none.
const CLOSED: &str = "\
l0:0|INST_INT CLOSED PEER held 0 0 0 0;AUX_INT CLOSED PEER held 0 0 0 0;OUT/0 CLOSED PEER held 0 0 0 0;
l0:1|INST_INT CLOSED READ held 0 0 0 0;AUX_INT CLOSED PEER held 0 0 0 0;OUT/0 CLOSED PEER held 0 0 0 0;
l0:2|INST_INT CLOSED READ held 3 0 0 0;AUX_INT CLOSED PEER held 0 0 0 0;OUT/0 CLOSED PEER held 0 0 0 0;
l0:3|INST_INT CLOSED READ held 1 0 0 0;AUX_INT CLOSED PEER held 0 0 0 0;OUT/0 CLOSED PEER held 0 0 0 0;
l0:4|INST_INT CLOSED READ held 0 0 0 0;AUX_INT CLOSED PEER held 0 0 0 0;OUT/0 CLOSED PEER held 0 0 0 0;
l1:1|INST_INT CLOSED PEER held 0 0 0 0;AUX_INT CLOSED READ held 0 0 0 0;OUT/0 CLOSED PEER held 0 0 0 0;
l1:2|INST_INT CLOSED PEER held 0 0 0 0;AUX_INT CLOSED READ held 0 0 0 0;OUT/0 CLOSED PEER held 0 0 0 0;
d0:0|INST_INT CLOSED PEER held 0 0 0 0;AUX_INT CLOSED PEER held 0 0 0 0;
d0:1|INST_INT CLOSED PEER held 0 0 0 0;AUX_INT CLOSED PEER held 0 0 0 0;OUT/0 CLOSED READ held 0 0 0 0;
d0:2|INST_INT CLOSED PEER held 0 0 0 0;AUX_INT CLOSED PEER held 0 0 0 0;OUT/0 CLOSED READ held 0 0 0 0;";

fn closed_are(alloc: Global, left: &Served<MemVault>, row: &str) -> Result<(), Fail> {
    let (words, wanted) = asked_and_wanted(row)?;
    let transcript = entries_left(alloc, left)?;
    let closed = closed(alloc, &transcript)?.replace(alloc, NOTHING_ELSE, "")?;
    same(&closed, wanted, words)
}

fn closed_row_holds<R: Threads + Wait + Sync>(
    rt: &R,
    alloc: Global,
    row: &str,
) -> Result<(), Fail> {
    let left = in_turn(rt, alloc, "serve d s", field(row, 0))?;
    closed_are(alloc, &left, row)
}

#[test]
fn closed_connections_say_what_they_lost(rt: HostRuntime) -> Result<(), Fail> {
    for row in CLOSED.split('\n') {
        closed_row_holds(&rt, rt.alloc(), row)?;
    }
    Ok(())
}
