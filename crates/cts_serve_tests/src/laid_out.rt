// What the logs of a vault have to have, by the transcript of their history.
use crate::table::{ended_stocked, hold_bytes};
use cts_outside::{LogKind, MemFiles, MemSink, MemVault};
use cts_rows::{as_text, digits_of, part, same};
use std::alloc::Global;
use std::test::Fail;

/// A name in digits, with its length before it.
fn name_digits(alloc: Global, name: &str) -> Result<String, Fail> {
    let digits = digits_of(alloc, name.as_bytes())?;
    Ok(format!(in alloc; "{:02x}{digits}", name.len())?)
}

/// An entry of a log of layout 2 at the moment 100.250000 in digits, by its two names and its bytes in digits.
fn entry_digits(alloc: Global, entry: &str) -> Result<String, Fail> {
    let target = name_digits(alloc, part(entry, 0))?;
    let packet = name_digits(alloc, part(entry, 1))?;
    let bytes = part(entry, 2);
    Ok(format!(in alloc;
        "000000640003d090{target}{packet}{:08x}{bytes}",
        bytes.len() / 2
    )?)
}

fn push_entry(alloc: Global, entry: &str, out: &mut String) -> Result<(), Fail> {
    let digits = entry_digits(alloc, entry)?;
    Ok(out.push_str(&digits)?)
}

/// Appends the entry that stands in a line after this mark, if there is one.
fn lay_out(alloc: Global, line: &str, mark: &str, out: &mut String) -> Result<(), Fail> {
    match line.split(mark).nth(1) {
        Some(entry) => push_entry(alloc, entry, out),
        None => Ok(()),
    }
}

/// The entries that stand in lines after this mark, as a log has them after its head, in digits. Each line ends with `;`.
fn laid_out(alloc: Global, lines: &str, mark: &str) -> Result<String, Fail> {
    let mut out = String::new(alloc);
    for line in lines.split(';') {
        lay_out(alloc, line, mark, &mut out)?;
    }
    Ok(out)
}

/// How the dump of a log ends: its status, and after a blank all that it prints.
pub fn dump_of(alloc: Global, log: &[u8]) -> Result<String, Fail> {
    let content = log.to_vec(alloc)?;
    let mut held = Vec::new(alloc);
    hold_bytes(alloc, &mut held, "l", content)?;
    let mut files = MemFiles::new(held, Vec::new(alloc));
    let mut sink = MemSink::new(alloc, Vec::new(alloc));
    let mut vault = MemVault::new(alloc, Vec::new(alloc));
    ended_stocked(alloc, "dump l", &mut files, &mut sink, &mut vault)
}

/// The entries of a log in digits, after its head, which has to be this one with blanks after it.
fn after_head(alloc: Global, log: &[u8], head: &str) -> Result<String, Fail> {
    let Some((first, rest)) = log.split_at_checked(128) else {
        return Err(Fail::new("no whole head"));
    };
    same(as_text(first)?.trim_end(), head, "a head")?;
    digits_of(alloc, rest)
}

/// A dump of these entries prints all of them, and they are a beginning of all of a history.
fn dump_holds(alloc: Global, dumped: &str, digits: &str, all: &str) -> Result<(), Fail> {
    let printed = laid_out(alloc, dumped, "0.250000 ")?;
    if dumped.starts_with("Ok ") && all.starts_with(digits) {
        return same(&printed, digits, "a dump");
    }
    Err(Fail::new(dumped))
}

/// A log is empty, or it has this head and a beginning of these entries, and its dump prints just these.
fn log_holds(alloc: Global, log: &[u8], head: &str, all: &str) -> Result<(), Fail> {
    let dumped = dump_of(alloc, log)?;
    if log.is_empty() {
        return same(&dumped, "LogRefused log refused at 0;", "no log");
    }
    let digits = after_head(alloc, log, head)?;
    dump_holds(alloc, &dumped, &digits, all)
}

/// A log of a vault has all entries of a history, and all of it is synced; or it has a beginning of them, and what is synced is a beginning of it.
fn kind_holds(
    alloc: Global,
    vault: &MemVault,
    kind: LogKind,
    head: &str,
    all: &str,
    is_whole: bool,
) -> Result<(), Fail> {
    let (log, synced) = (vault.bytes(kind), vault.synced(kind));
    log_holds(alloc, log, head, all)?;
    if log.starts_with(synced) && (!is_whole || synced.len() == 128 + all.len() / 2) {
        return Ok(());
    }
    Err(Fail::new("another count of synced bytes"))
}

/// What each log of a vault has to have, by the digest of its definitions and the transcript of its history: a beginning of the log of its kind, and all
/// of it, synced, where this is said.
pub fn logs_hold(
    alloc: Global,
    vault: &MemVault,
    digest: &str,
    transcript: &str,
    is_whole: bool,
) -> Result<(), Fail> {
    let packets = laid_out(alloc, transcript, " PACKET ")?;
    let commands = laid_out(alloc, transcript, " COMMAND ")?;
    let tlm = format!(in alloc; "COSMOS2_TLM_{digest}_cts")?;
    let cmd = format!(in alloc; "COSMOS2_CMD_{digest}_cts")?;
    kind_holds(alloc, vault, LogKind::Tlm, &tlm, &packets, is_whole)?;
    kind_holds(alloc, vault, LogKind::Cmd, &cmd, &commands, is_whole)
}
