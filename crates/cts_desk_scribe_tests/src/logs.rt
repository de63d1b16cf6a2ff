// What is told of the logs of a vault.
use cts_log::{LogEntry, LogReader, dump_line};
use cts_outside::{LogKind, MemVault};
use cts_rows::{cut, in_one_line};
use std::alloc::Global;
use std::test::Fail;

fn put_line(alloc: Global, out: &mut Vec<u8>, entry: &LogEntry<'_>) -> Result<(), Fail> {
    match dump_line(alloc, entry) {
        Ok(line) => Ok(out.extend_from_slice(line.as_slice())?),
        Err(_) => Err(Fail::new("no memory")),
    }
}

// The lines of a log file as a dump of it has them, and then `end`, or `cut` where the reader stops before the end.
fn lines_of(alloc: Global, file: &[u8]) -> Result<String, Fail> {
    let mut reader = LogReader::new(file);
    let mut out = Vec::new(alloc);
    for _ in 0..=file.len() {
        match reader.next() {
            Ok(Some(entry)) => put_line(alloc, &mut out, &entry)?,
            Ok(None) => {
                out.extend_from_slice(b"end")?;
                break;
            }
            Err(_) => {
                out.extend_from_slice(b"cut")?;
                break;
            }
        }
    }
    in_one_line(alloc, &out)
}

/// How many bytes a log has and how many of these are synced, and what is read of it: each line without its time, with `;` at its end, and then `end` or
/// `cut`.
pub fn of_log(alloc: Global, bytes: &[u8], synced: usize) -> Result<String, Fail> {
    let lines = lines_of(alloc, bytes)?;
    let lines = lines.replace(alloc, "1970-01-01 00:01:40.250000 ", "")?;
    Ok(format!(in alloc; "{}/{synced} {lines}", bytes.len())?)
}

/// The same of both logs of a vault.
pub fn of_vault(alloc: Global, vault: &MemVault) -> Result<String, Fail> {
    let tlm = of_kind(alloc, vault, LogKind::Tlm)?;
    let cmd = of_kind(alloc, vault, LogKind::Cmd)?;
    Ok(format!(in alloc; "T {tlm} C {cmd}")?)
}

fn of_kind(alloc: Global, vault: &MemVault, kind: LogKind) -> Result<String, Fail> {
    of_log(alloc, vault.bytes(kind), vault.synced(kind).len())
}

/// What is told of a long log, in which the lines are only counted.
pub fn counted(alloc: Global, told: &str) -> Result<String, Fail> {
    let (first, _) = cut(told, ';')?;
    let lines = told.split(';').count() - 1;
    Ok(format!(in alloc; "{first} {lines}")?)
}
