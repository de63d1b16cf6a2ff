// Scribes over a site with a cycle, and vaults in memory.
ghost use Rattle.cts_scribe.specs.Vaults.{AreBlank};

use crate::logs::of_log;
use crate::scribes::logged;
use cts_outside::{LogKind, MemVault, Vault};
use cts_rows::{asked_and_wanted, field, number, same};
use std::alloc::Global;
use std::sync::Wait;
use std::test::Fail;

const DEFINITIONS: &str = "\
TELEMETRY INST HS BIG_ENDIAN;APPEND_ID_ITEM PKTID 8 UINT 1;APPEND_ITEM TEMP1 16 UINT;APPEND_ITEM MODE 8 UINT;\
TELEMETRY AUX LINE BIG_ENDIAN;APPEND_ITEM TEXT 0 STRING;\
COMMAND INST COLLECT BIG_ENDIAN;APPEND_ID_PARAMETER OPCODE 8 UINT 7 7 7;APPEND_PARAMETER DURATION 16 UINT 0 10 5";

const SITE: &str = "\
INTERFACE INST_INT tcpip_client_interface.rb localhost 8080 8080 10.0 nil LENGTH 0 16 0 1 BIG_ENDIAN 2 nil nil true;TARGET INST;\
INTERFACE AUX_INT tcpip_client_interface.rb localhost 8081 8081 10.0 nil TERMINATED 0x0A 0x0A;TARGET AUX;\
ROUTER OUT tcpip_server_interface.rb 2950 2950 10.0 nil PREIDENTIFIED;ROUTE INST_INT";

/// What more the site says, how many packets of 24 bytes in a log come before everyone ends, and how many commands of 28; why the scribe ended, its
/// cursor and its entries, and of each log the bytes and the entries of its parts, and how many bytes of the last one are synced.
const ROWS: &str = "\
LOG_CYCLE 4096|400|0|(Drained, 410) E T 4088:165 4088:165 1808:70/1808 C 128:0/128
|400|0|(Drained, 410) E T 9728:400/9728 C 128:0/128
LOG_CYCLE 4096|0|0|(Drained, 10) E T 128:0/128 C 128:0/128
LOG_CYCLE 4096|165|141|(Drained, 316) E T 4088:165/4088 C 4076:141/4076
LOG_CYCLE 4096|166|142|(Drained, 318) E T 4088:165 152:1/152 C 4076:141 156:1/156
LOG_CYCLE 4104|330|142|(Drained, 482) E T 4088:165 4088:165/4088 C 4104:142/4104
LOG_CYCLE 1073741824|400|200|(Drained, 610) E T 9728:400/9728 C 5728:200/5728";

// So many packets and then commands of an interface that is opened before and closed after them.
fn words_of(alloc: Global, packets: u32, commands: u32) -> Result<String, Fail> {
    let packets = "packet:0:0:01800001 ".repeat(alloc, packets as usize)?;
    let commands = "command:24:0:07000a ".repeat(alloc, commands as usize)?;
    Ok(format!(in alloc; "open:0 {packets}{commands}close:0")?)
}

// Why a scribe ended over a row's history, its cursor and its entries.
fn run_row<R: Wait, V: Vault>(
    rt: &R,
    alloc: Global,
    row: &str,
    vault: &mut V,
) -> Result<String, Fail>
    requires blank { AreBlank (V.seen vault.old).told }
{
    let site = format!(in alloc; "{SITE};{}", field(row, 0))?;
    let words = words_of(alloc, number(field(row, 1), 0)?, number(field(row, 2), 0)?)?;
    logged(rt, alloc, (DEFINITIONS, &site), &words, vault)
}

// How many bytes a part has, and how many whole entries.
fn of_part(alloc: Global, part: &[u8]) -> Result<String, Fail> {
    let told = of_log(alloc, part, 0)?;
    let entries = told.split(';').count() - 1;
    Ok(format!(in alloc; "{}:{entries}", part.len())?)
}

// Appends what is told of a part, and a blank.
fn tell_part(alloc: Global, part: &[u8], told: &mut String) -> Result<(), Fail> {
    let part = of_part(alloc, part)?;
    told.push_str(&part)?;
    Ok(told.push(' ')?)
}

// The same of the parts of a log, and how many bytes of the last one are synced.
fn of_parts(alloc: Global, vault: &MemVault, kind: LogKind) -> Result<String, Fail> {
    let mut told = String::new(alloc);
    for part in vault.past(kind) {
        tell_part(alloc, part.as_slice(), &mut told)?;
    }
    let last = of_part(alloc, vault.bytes(kind))?;
    Ok(format!(in alloc; "{told}{last}/{}", vault.synced(kind).len())?)
}

// What was told of a scribe, and the parts of both logs.
fn with_parts(alloc: Global, told: &str, vault: &MemVault) -> Result<String, Fail> {
    let tlm = of_parts(alloc, vault, LogKind::Tlm)?;
    let cmd = of_parts(alloc, vault, LogKind::Cmd)?;
    Ok(format!(in alloc; "{told} T {tlm} C {cmd}")?)
}

fn told_of_row<R: Wait>(rt: &R, alloc: Global, row: &str) -> Result<String, Fail> {
    let mut vault = MemVault::new(alloc, Vec::new(alloc));
    let told = run_row(rt, alloc, row, &mut vault)?;
    with_parts(alloc, &told, &vault)
}

fn row_holds<R: Wait>(rt: &R, alloc: Global, row: &str) -> Result<(), Fail> {
    let (asked, wanted) = asked_and_wanted(row)?;
    same(&told_of_row(rt, alloc, asked)?, wanted, asked)
}

#[test]
fn a_cycle_begins_parts(rt: HostRuntime) -> Result<(), Fail> {
    for row in ROWS.split('\n') {
        row_holds(&rt, rt.alloc(), row)?;
    }
    Ok(())
}

// A part of a log by its number, or the last one.
fn part_at(vault: &MemVault, kind: LogKind, number: usize) -> &[u8] {
    match vault.past(kind).get(number) {
        Some(part) => part.as_slice(),
        None => vault.bytes(kind),
    }
}

// Whether the parts of a log before its last one are those of another.
fn are_same(some: &[Vec<u8>], whole: &MemVault, kind: LogKind) -> bool {
    for n in 0..some.len() {
        if some[n].as_slice() != part_at(whole, kind, n) {
            return false;
        }
    }
    true
}

// Whether the parts of a log are a beginning of those of another.
fn begins(some: &MemVault, whole: &MemVault, kind: LogKind) -> bool {
    let past = some.past(kind);
    past.len() <= whole.past(kind).len()
        && are_same(past, whole, kind)
        && part_at(whole, kind, past.len()).starts_with(some.bytes(kind))
}

/// A history that begins a new part in each of two looks.
const LONG: &str = "LOG_CYCLE 4096|400|0";

// The vault of this history where nothing fails.
fn whole_vault<R: Wait>(rt: &R, alloc: Global) -> Result<MemVault, Fail> {
    let mut vault = MemVault::new(alloc, Vec::new(alloc));
    let _told = run_row(rt, alloc, LONG, &mut vault)?;
    Ok(vault)
}

// A vault has beginnings of the parts of both logs. Says whether a call of it has failed.
fn left_holds(told: &str, vault: &MemVault, whole: &MemVault) -> Result<bool, Fail> {
    let has_failed = vault.faults() > 0;
    if begins(vault, whole, LogKind::Tlm)
        && begins(vault, whole, LogKind::Cmd)
        && has_failed == told.starts_with("(VaultFailed, ")
    {
        return Ok(has_failed);
    }
    Err(Fail::new(told))
}

// What a scribe leaves where the call of this number fails.
fn is_left<R: Wait>(rt: &R, alloc: Global, call: u64, whole: &MemVault) -> Result<bool, Fail> {
    let mut vault = MemVault::new(alloc, vec![in alloc; call]?);
    let told = run_row(rt, alloc, LONG, &mut vault)?;
    left_holds(&told, &vault, whole)
}

// The calls fail one after another, up to a run without a fault.
fn each_call_holds<R: Wait>(rt: &R, alloc: Global, whole: &MemVault) -> Result<(), Fail> {
    for call in 0..100 {
        if !is_left(rt, alloc, call, whole)? {
            return Ok(());
        }
    }
    Err(Fail::new("no run without a fault"))
}

#[test]
fn a_fault_at_any_call_leaves_a_beginning_of_the_parts(rt: HostRuntime) -> Result<(), Fail> {
    let whole = whole_vault(&rt, rt.alloc())?;
    each_call_holds(&rt, rt.alloc(), &whole)
}
