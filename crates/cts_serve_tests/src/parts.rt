// Servers of a site with a cycle, whose workers run one after another.
use crate::demo::{CALLS, INTERFACES, ROUTER, SILENT};
use crate::devices::Gives;
use crate::laid_out::dump_of;
use crate::serving::Served;
use crate::statuses::turned;
use cts_outside::{LogKind, MemVault};
use cts_rows::{asked_and_wanted, debug_of, field, number, same};
use std::alloc::Global;
use std::sync::Wait;
use std::test::Fail;
use std::thread::Threads;

/// What more the site says, and how many packets of 24 bytes in a log the first device gives; the bytes and the entries of the parts of both logs, and how
/// many bytes of the last ones are synced.
const ROWS: &str = "\
LOG_CYCLE 4096|400|T 4088:165 4088:165 1808:70/1808 C 128:0/128
LOG_CYCLE 4096|165|T 4088:165/4088 C 128:0/128
LOG_CYCLE 4095|0|ConfigRefused
|400|T 9728:400/9728 C 128:0/128";

// A server of the demo with so many packets of the first device.
fn served<R: Threads + Wait + Sync>(
    rt: &R,
    alloc: Global,
    row: &str,
) -> Result<Served<MemVault>, Fail> {
    let site = format!(in alloc; "{INTERFACES}{ROUTER};{}", field(row, 0))?;
    let lines = "000601800001".repeat(alloc, number(field(row, 1), 0)?)?;
    let gives = Gives {
        lines: &lines,
        slots: SILENT,
        calls: CALLS,
        failing: "",
    };
    turned(rt, alloc, "serve d s", &site, gives)
}

// How many bytes a part has, and how many lines its dump prints, which reads it up to its end.
fn of_part(alloc: Global, part: &[u8]) -> Result<String, Fail> {
    let dumped = dump_of(alloc, part)?;
    match dumped.strip_prefix("Ok ") {
        Some(lines) => Ok(format!(in alloc;
            "{}:{}",
            part.len(),
            lines.split(';').skip(1).count()
        )?),
        None => Err(Fail::new(dumped.as_str())),
    }
}

// Appends what is told of a part, and a blank.
fn tell_part(alloc: Global, part: &[u8], told: &mut String) -> Result<(), Fail> {
    let part = of_part(alloc, part)?;
    told.push_str(&part)?;
    Ok(told.push(' ')?)
}

// The bytes and the entries of the parts of a log, and how many bytes of the last one are synced.
fn of_log(alloc: Global, vault: &MemVault, kind: LogKind) -> Result<String, Fail> {
    let mut told = String::new(alloc);
    for part in vault.past(kind) {
        tell_part(alloc, part.as_slice(), &mut told)?;
    }
    let last = of_part(alloc, vault.bytes(kind))?;
    Ok(format!(in alloc; "{told}{last}/{}", vault.synced(kind).len())?)
}

fn of_logs(alloc: Global, vault: &MemVault) -> Result<String, Fail> {
    let tlm = of_log(alloc, vault, LogKind::Tlm)?;
    let cmd = of_log(alloc, vault, LogKind::Cmd)?;
    Ok(format!(in alloc; "T {tlm} C {cmd}")?)
}

// What the logs of a server have, or how it ends that has none.
fn told(alloc: Global, left: &Served<MemVault>) -> Result<String, Fail> {
    match &left.devices.vault {
        Some(vault) if !vault.bytes(LogKind::Tlm).is_empty() => { of_logs(alloc, vault) }
        _ => debug_of(alloc, &left.ended.status),
    }
}

fn told_is(alloc: Global, left: &Served<MemVault>, row: &str) -> Result<(), Fail> {
    let (asked, wanted) = asked_and_wanted(row)?;
    same(told(alloc, left)?.as_str(), wanted, asked)
}

fn row_holds<R: Threads + Wait + Sync>(rt: &R, alloc: Global, row: &str) -> Result<(), Fail> {
    let left = served(rt, alloc, row)?;
    told_is(alloc, &left, row)
}

#[test]
fn a_site_with_a_cycle_is_served(rt: HostRuntime) -> Result<(), Fail> {
    for row in ROWS.split('\n') {
        row_holds(&rt, rt.alloc(), row)?;
    }
    Ok(())
}
