// The room of `dump`: the lines of log files.
ghost use Rattle.std.specs.Prelude.{◌≡◌, [], IfOk, IfSome, List, map};
ghost use Rattle.cts_framing.specs.Patterns.{begins};
ghost use Rattle.cts_log.specs.Reading.{HasRead, logged};
ghost use Rattle.cts_outside.specs.Seen.{VaultSeen};
ghost use Rattle.cts_proto.specs.Meaning.{Meaning};
ghost use Rattle.cts_run.specs.Acts.{outside};
ghost use Rattle.cts_run.specs.Command.{Dumps, DumpsFile, Performs};
ghost use Rattle.cts_run.specs.Dump.{PutsEntry, PutsFile, PutsLines, PutsLog, head_after};
ghost use Rattle.cts_run.specs.Load.{bytes_of};
ghost use Rattle.cts_run.specs.Phases.{FileCounts, answer_seen};
ghost use Rattle.cts_run.specs.Putting.{SinkCounts, VaultCounts};
ghost use Rattle.cts_run.specs.declared.words.Command.TheVariants.{Dump};

use crate::file_name::{FileName, FileNames};
use crate::halt::Halt;
use crate::load::file::read_file;
use crate::putting::{Undone, put_text};
use cts_base::{Bytes, Memory};
use cts_log::{LogEntry, LogFault, LogReader, dump_line};
use cts_outside::{Files, Sink};
use std::alloc::Global;

// The greatest log that is taken.
const LOG_LIMIT: u64 = 1_073_741_824;

// How many bytes the head of a log has.
const HEAD_LEN: usize = 128;

/// Puts the line of each whole entry of logs, file after file. It halts at the first file that is not a head with whole entries alone after it;
/// and, before any line of it, at one that is too large or has another head than the first one.
pub fn dump<'a, F: Files, O: Sink>(
    alloc: Global,
    logs: &FileNames<'a>,
    files: &mut F,
    out: &mut O,
) -> Result<(), Halt<'a>>
    ensures stays { (F.seen files.new).told ≡ (F.seen files.old).told }
    ensures files { FileCounts result (F.seen files.old) (F.seen files.new) }
    ensures sink { SinkCounts result (O.seen out.old) (O.seen out.new) }
    ensures vault { (vault : VaultSeen) → VaultCounts result vault vault }
    ensures performs { (stock : List Meaning) (vault : VaultSeen) → IfSome (F.seen files.old).told
        (λ all. Performs stock all (Dump logs.now) result (outside (O.seen out.old) vault) (outside (O.seen out.new) vault)) }
{
    dump_files(alloc, logs.words(), b"", files, out)
}

// Dumps files that have to begin so, or, where nothing is said, as the first of them does. Each is read and put before the next is read.
fn dump_files<'a, F: Files, O: Sink>(
    alloc: Global,
    logs: &[&'a str],
    head: &[u8],
    files: &mut F,
    out: &mut O,
) -> Result<(), Halt<'a>>
    ensures stays { (F.seen files.new).told ≡ (F.seen files.old).told }
    ensures files { FileCounts result (F.seen files.old) (F.seen files.new) }
    ensures sink { SinkCounts result (O.seen out.old) (O.seen out.new) }
    ensures vault { (vault : VaultSeen) → VaultCounts result vault vault }
    ensures dumps { (vault : VaultSeen) → IfSome (F.seen files.old).told
        (λ all. Dumps all head.now (map (λ w. w.now) logs.now) result (outside (O.seen out.old) vault) (outside (O.seen out.new) vault)) }
{
    let Some((log, others)) = logs.split_first() else {
        return Ok(());
    };
    match dump_file(alloc, &FileName::of(*log), head, files, out) {
        Ok(first) => dump_files(alloc, others, first.as_slice(), files, out),
        Err(why) => Err(why),
    }
}

// Dumps a file that has to begin so, and says what the files after it have to begin with.
fn dump_file<'a, F: Files, O: Sink>(
    alloc: Global,
    log: &FileName<'a>,
    head: &[u8],
    files: &mut F,
    out: &mut O,
) -> Result<Bytes, Halt<'a>>
    ensures stays { (F.seen files.new).told ≡ (F.seen files.old).told }
    ensures files { FileCounts result (F.seen files.old) (F.seen files.new) }
    ensures sink { SinkCounts result (O.seen out.old) (O.seen out.new) }
    ensures vault { (vault : VaultSeen) → VaultCounts result vault vault }
    ensures dumps { (vault : VaultSeen) → IfSome (F.seen files.old).told
        (λ all. DumpsFile all head.now log.now (answer_seen (λ b. tt) result) (outside (O.seen out.old) vault) (outside (O.seen out.new) vault)) }
    ensures head { IfOk result (λ b. IfSome (F.seen files.old).told (λ all. b ≡ head_after head.now (bytes_of (all log.now)))) }
{
    let large = Halt::LogRefused { place: LOG_LIMIT };
    match read_file(alloc, files, log, LOG_LIMIT as usize, large) {
        Ok(bytes) => {
            let dumped = put_file(alloc, bytes.as_slice(), head, out);
            drop(bytes);
            dumped
        }
        Err(halt) => Err(halt),
    }
}

// Puts the lines of a file that was read, if it begins so.
fn put_file<'a, O: Sink>(
    alloc: Global,
    file: &[u8],
    head: &[u8],
    out: &mut O,
) -> Result<Bytes, Halt<'a>>
    ensures puts { (vault : VaultSeen) → PutsFile head.now file.now (answer_seen (λ b. tt) result) (outside (O.seen out.old) vault)
        (outside (O.seen out.new) vault) }
    ensures head { IfOk result (λ b. b ≡ head_after head.now file.now) }
{
    if !begins(head, file) {
        return Err(Halt::LogRefused { place: 0 });
    }
    match head_after(alloc, head, file) {
        Ok(first) => match put_log(alloc, file, out) {
            Ok(()) => Ok(first),
            Err(halt) => Err(halt),
        },
        Err(Memory) => Err(Halt::Memory),
    }
}

fn begins(head: &[u8], file: &[u8]) -> bool
    ensures { result ≡ begins head.now file.now }
{
    file.starts_with(head)
}

// What the files after one have to begin with.
fn head_after(alloc: Global, head: &[u8], file: &[u8]) -> Result<Bytes, Memory>
    ensures { IfOk result (λ b. b ≡ head_after head.now file.now) }
{
    if head.is_empty() {
        Bytes::copy(alloc, &file[..HEAD_LEN.min(file.len())])
    } else {
        Bytes::copy(alloc, head)
    }
}

// Puts the line of each whole entry of a log, in order, and says where the log ends otherwise than with one.
fn put_log<'a, O: Sink>(alloc: Global, file: &[u8], out: &mut O) -> Result<(), Halt<'a>>
    ensures { (vault : VaultSeen) → PutsLog file.now result (outside (O.seen out.old) vault) (outside (O.seen out.new) vault) }
{
    let mut reader = LogReader::new(file);
    if reader.kind().is_none() {
        return Err(Halt::LogRefused { place: 0 });
    }
    put_entries(alloc, &mut reader, out)
}

// Puts the lines of the entries of a log whose head was read.
fn put_entries<'a, O: Sink>(
    alloc: Global,
    reader: &mut LogReader<'_>,
    out: &mut O,
) -> Result<(), Halt<'a>>
    requires { HasRead reader.old [] }
    ensures { (vault : VaultSeen) → PutsLines reader.old.file result (outside (O.seen out.old) vault) (outside (O.seen out.new) vault) }
{
    loop {
        match reader.next() {
            Ok(Some(entry)) => match put_entry(alloc, &entry, out) {
                Ok(()) => {}
                Err(Undone::WriteFault) => return Err(Halt::WriteFault),
                Err(Undone::LogFault) => return Err(Halt::LogFault),
                Err(Undone::Memory) => return Err(Halt::Memory),
            },
            Ok(None) => return Ok(()),
            Err(LogFault::BadHead) => return Err(Halt::LogRefused { place: 0 }),
            Err(LogFault::Cut { place }) => return Err(Halt::LogRefused { place }),
        }
    }
}

// Puts the line of an entry.
fn put_entry<O: Sink>(alloc: Global, entry: &LogEntry<'_>, out: &mut O) -> Result<(), Undone>
    ensures { PutsEntry (logged entry.now) result (O.seen out.old) (O.seen out.new) }
{
    let line = dump_line(alloc, entry)?;
    put_text(out, line.as_slice())
}
