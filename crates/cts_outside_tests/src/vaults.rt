// A vault in memory.
use crate::shared::tell;
use cts_outside::{LogKind, MemVault, PutFailed, Vault};
use cts_rows::{Answers, cut, debug_of, numbers, rows_end_so};
use std::alloc::Global;
use std::test::Fail;

/// The numbers of the calls that fail, and calls: `tab` appends `ab` to the log of telemetry, `cab` to that of commands, `T` and
/// `C` sync them. Of each call what it answers, the bytes of its log, how many of them are synced, and how many calls have failed.
const CALLS: &str = "\
|tab T cx tc C T|(Ok(()), [97, 98], 0, 0);(Ok(()), [97, 98], 2, 0);(Ok(()), [120], 0, 0);(Ok(()), [97, 98, 99], 2, 0);(Ok(()), [120], 1, 0);(Ok(()), [97, 98, 99], 3, 0);
0 3 4|ta tb T T cx cy|(Err(PutFailed), [], 0, 1);(Ok(()), [98], 0, 1);(Ok(()), [98], 1, 1);(Err(PutFailed), [98], 1, 2);(Err(PutFailed), [], 0, 3);(Ok(()), [121], 0, 3);
2|t T T t C|(Ok(()), [], 0, 0);(Ok(()), [], 0, 0);(Err(PutFailed), [], 0, 1);(Ok(()), [], 0, 1);(Ok(()), [], 0, 1);";

struct Calls;

impl Answers for Calls {
    fn answer(alloc: Global, asked: &str) -> Result<String, Fail> {
        let (failing, calls) = cut(asked, '|')?;
        let mut vault = MemVault::new(alloc, numbers(alloc, failing)?);
        told_of_calls(alloc, &mut vault, calls)
    }
}

#[test]
fn a_vault_keeps_both_logs_and_the_listed_calls_fail(rt: HostRuntime) -> Result<(), Fail> {
    rows_end_so::<Calls>(rt.alloc(), CALLS)
}

fn told_of_calls(alloc: Global, vault: &mut MemVault, calls: &str) -> Result<String, Fail> {
    let mut out = String::new(alloc);
    for call in calls.split(' ') {
        tell(&mut out, call_text(alloc, vault, call)?.as_str())?;
    }
    Ok(out)
}

fn call_text(alloc: Global, vault: &mut MemVault, call: &str) -> Result<String, Fail> {
    let kind = kind_of(call);
    let answer = called(vault, kind, call.as_bytes());
    debug_of(
        alloc,
        &(
            answer,
            vault.bytes(kind),
            vault.synced(kind).len(),
            vault.faults(),
        ),
    )
}

fn kind_of(call: &str) -> LogKind {
    if call.starts_with('t') || call.starts_with('T') {
        LogKind::Tlm
    } else {
        LogKind::Cmd
    }
}

/// A sync where the call is one capital letter, else an append of what follows the letter.
fn called<V: Vault>(vault: &mut V, kind: LogKind, call: &[u8]) -> Result<(), PutFailed> {
    match call {
        [b'T' | b'C'] => vault.sync(kind),
        [_, bytes @ ..] => vault.append(kind, bytes),
        [] => Err(PutFailed),
    }
}

/// The numbers of the calls that fail, and calls as above; `P` and `Q` sync the log of telemetry or that of commands and begin a part of it. Of each call
/// what it answers, the parts of its log before the last, the bytes of the last, how many of them are synced, and how many calls have failed.
const PARTS: &str = "\
|tab P tc P Q|(Ok(()), [], [97, 98], 0, 0);(Ok(()), [[97, 98]], [], 0, 0);(Ok(()), [[97, 98]], [99], 0, 0);(Ok(()), [[97, 98], [99]], [], 0, 0);(Ok(()), [[]], [], 0, 0);
1|ta P P tb T|(Ok(()), [], [97], 0, 0);(Err(PutFailed), [], [97], 0, 1);(Ok(()), [[97]], [], 0, 1);(Ok(()), [[97]], [98], 0, 1);(Ok(()), [[97]], [98], 1, 1);
2|ta P T|(Ok(()), [], [97], 0, 0);(Err(PutFailed), [], [97], 1, 1);(Ok(()), [], [97], 1, 1);";

struct Parts;

impl Answers for Parts {
    fn answer(alloc: Global, asked: &str) -> Result<String, Fail> {
        let (failing, calls) = cut(asked, '|')?;
        let mut vault = MemVault::new(alloc, numbers(alloc, failing)?);
        let mut out = String::new(alloc);
        for call in calls.split(' ') {
            tell(&mut out, part_text(alloc, &mut vault, call)?.as_str())?;
        }
        Ok(out)
    }
}

#[test]
fn a_part_begins_without_bytes(rt: HostRuntime) -> Result<(), Fail> {
    rows_end_so::<Parts>(rt.alloc(), PARTS)
}

fn part_text(alloc: Global, vault: &mut MemVault, call: &str) -> Result<String, Fail> {
    let (answer, kind) = match call {
        "P" => (begun(vault, LogKind::Tlm), LogKind::Tlm),
        "Q" => (begun(vault, LogKind::Cmd), LogKind::Cmd),
        _ => (called(vault, kind_of(call), call.as_bytes()), kind_of(call)),
    };
    debug_of(
        alloc,
        &(
            answer,
            vault.past(kind),
            vault.bytes(kind),
            vault.synced(kind).len(),
            vault.faults(),
        ),
    )
}

/// A sync, and then a new part.
fn begun(vault: &mut MemVault, kind: LogKind) -> Result<(), PutFailed> {
    match vault.sync(kind) {
        Ok(()) => vault.part(kind),
        Err(fault) => Err(fault),
    }
}
