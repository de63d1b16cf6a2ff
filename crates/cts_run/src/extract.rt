// The room of `extract`: columns of a log.
ghost use Rattle.std.specs.Prelude.{◌≡◌, ◌++◌, ◌∷◌, [], IfSome, List};
ghost use Rattle.cts_def.specs.Items.{ItemData};
ghost use Rattle.cts_def.specs.Packets.{PacketData};
ghost use Rattle.cts_extract.specs.Columns.{AreOf, ColumnsAre};
ghost use Rattle.cts_extract.specs.Words.{texts_of};
ghost use Rattle.cts_log.specs.Reading.{HasRead, logged};
ghost use Rattle.cts_outside.specs.Seen.{VaultSeen};
ghost use Rattle.cts_proto.specs.Meaning.{Meaning};
ghost use Rattle.cts_run.specs.Acts.{outside};
ghost use Rattle.cts_run.specs.Command.{Performs};
ghost use Rattle.cts_run.specs.Extract.{PutsLines, PutsRows, has_commands, heading_line, row_line, row_puts};
ghost use Rattle.cts_run.specs.Extracting.{PerformsLog, PutsTable};
ghost use Rattle.cts_run.specs.Phases.{FileCounts};
ghost use Rattle.cts_run.specs.Putting.{PutsText, SinkCounts, VaultCounts};
ghost use Rattle.cts_run.specs.declared.words.Command.TheVariants.{Extract};

use crate::file_name::FileName;
use crate::halt::Halt;
use crate::load::configuration::load_definitions;
use crate::load::file::read_file;
use crate::putting::{Undone, put_text};
use crate::wanted::Wanted;
use cts_base::{Bytes, Memory};
use cts_def::Definitions;
use cts_extract::{ColumnFault, Columns, texts_of};
use cts_log::{LogEntry, LogFault, LogKind, LogReader};
use cts_outside::{Files, Sink};
use std::alloc::Global;

// The greatest log that is taken.
const LOG_LIMIT: u64 = 1_073_741_824;

/// Reads definitions and a log, and puts the heading of the columns that are asked for and a row for each whole entry of the packet. It
/// halts before that where the log has no head, or a word names nothing that is defined, and after the rows where the log is not
/// whole entries to its end.
pub fn extract<'a, F: Files, O: Sink>(
    alloc: Global,
    definitions: &FileName<'a>,
    log: &FileName<'a>,
    wanted: &Wanted<'a>,
    files: &mut F,
    out: &mut O,
) -> Result<(), Halt<'a>>
    ensures stays { (F.seen files.new).told ≡ (F.seen files.old).told }
    ensures files { FileCounts result (F.seen files.old) (F.seen files.new) }
    ensures sink { SinkCounts result (O.seen out.old) (O.seen out.new) }
    ensures vault { (vault : VaultSeen) → VaultCounts result vault vault }
    ensures performs { (stock : List Meaning) (vault : VaultSeen) → IfSome (F.seen files.old).told (λ all. Performs stock all
        (Extract definitions.now log.now wanted.now) result (outside (O.seen out.old) vault) (outside (O.seen out.new) vault)) }
{
    match load_definitions(alloc, files, definitions) {
        Ok(read) => {
            let done = extract_over(alloc, &read.0, log, wanted, files, out);
            drop(read);
            done
        }
        Err(halt) => Err(halt),
    }
}

// Reads the log, and puts its columns by these definitions.
fn extract_over<'a, F: Files, O: Sink>(
    alloc: Global,
    definitions: &Definitions,
    log: &FileName<'a>,
    wanted: &Wanted<'a>,
    files: &mut F,
    out: &mut O,
) -> Result<(), Halt<'a>>
    ensures stays { (F.seen files.new).told ≡ (F.seen files.old).told }
    ensures files { FileCounts result (F.seen files.old) (F.seen files.new) }
    ensures sink { SinkCounts result (O.seen out.old) (O.seen out.new) }
    ensures vault { (vault : VaultSeen) → VaultCounts result vault vault }
    ensures performs { (vault : VaultSeen) → IfSome (F.seen files.old).told (λ all. PerformsLog all definitions.now log.now wanted.now result
        (outside (O.seen out.old) vault) (outside (O.seen out.new) vault)) }
{
    let large = Halt::LogRefused { place: LOG_LIMIT };
    match read_file(alloc, files, log, LOG_LIMIT as usize, large) {
        Ok(bytes) => {
            let done = put_table(alloc, definitions, wanted, bytes.as_slice(), out);
            drop(bytes);
            done
        }
        Err(halt) => Err(halt),
    }
}

// Puts the columns of a log in bytes.
fn put_table<'a, O: Sink>(
    alloc: Global,
    definitions: &Definitions,
    wanted: &Wanted<'a>,
    file: &[u8],
    out: &mut O,
) -> Result<(), Halt<'a>>
    ensures { (vault : VaultSeen) → PutsTable definitions.now wanted.now file.now result (outside (O.seen out.old) vault) (outside (O.seen out.new) vault) }
{
    let mut reader = LogReader::new(file);
    match reader.kind() {
        Some(kind) => match columns_of(alloc, definitions, kind, wanted) {
            Ok(columns) => {
                let done = put_columns(alloc, definitions, &columns, &mut reader, out);
                drop(columns);
                done
            }
            Err(ColumnFault::Unknown(name)) => Err(Halt::UnknownName { name }),
            Err(ColumnFault::Memory) => Err(Halt::Memory),
        },
        None => Err(Halt::LogRefused { place: 0 }),
    }
}

// The columns that are asked for of a log of this kind.
fn columns_of(
    alloc: Global,
    definitions: &Definitions,
    kind: LogKind,
    wanted: &Wanted<'_>,
) -> Result<Columns, ColumnFault>
    ensures { ColumnsAre definitions.now (has_commands kind) wanted.now.target wanted.now.packet (texts_of wanted.now.items) wanted.now.kind result }
{
    let items = texts_of(alloc, wanted.items())?;
    Columns::new(
        alloc,
        definitions,
        has_commands(kind),
        wanted.target(),
        wanted.packet(),
        &items,
        wanted.kind(),
    )
}

fn has_commands(kind: LogKind) -> bool
    ensures { result ≡ has_commands kind }
{
    match kind {
        LogKind::Tlm => false,
        LogKind::Cmd => true,
    }
}

// Puts the heading, and the rows of a log whose head was read.
fn put_columns<'a, O: Sink>(
    alloc: Global,
    definitions: &Definitions,
    columns: &Columns,
    reader: &mut LogReader<'_>,
    out: &mut O,
) -> Result<(), Halt<'a>>
    requires { HasRead reader.old [] }
    ensures { (p : PacketData) (items : List ItemData) (vault : VaultSeen) → AreOf definitions.now p items columns.now
        → PutsLines columns.now.kind p items reader.old.file result (outside (O.seen out.old) vault) (outside (O.seen out.new) vault) }
{
    match put_heading(alloc, columns, out) {
        Ok(()) => put_rows(alloc, definitions, columns, reader, out),
        Err(why) => Err(Halt::from(why)),
    }
}

fn put_heading<O: Sink>(alloc: Global, columns: &Columns, out: &mut O) -> Result<(), Undone>
    ensures { PutsText (heading_line columns.now.names) result (O.seen out.old) (O.seen out.new) }
{
    let heading = columns.heading(alloc)?;
    put_line(out, heading)
}

// Puts a line in one piece, with its end.
fn put_line<O: Sink>(out: &mut O, line: Bytes) -> Result<(), Undone>
    ensures { PutsText (line ++ 10 ∷ []) result (O.seen out.old) (O.seen out.new) }
{
    let mut text = line.into_vec();
    match text.push(b'\n') {
        Ok(()) => put_text(out, &text),
        Err(_) => Err(Undone::Memory),
    }
}

// Puts the row of each whole entry of the packet, in order, and says where the log ends otherwise than with one.
fn put_rows<'a, O: Sink>(
    alloc: Global,
    definitions: &Definitions,
    columns: &Columns,
    reader: &mut LogReader<'_>,
    out: &mut O,
) -> Result<(), Halt<'a>>
    requires { HasRead reader.old [] }
    ensures { (p : PacketData) (items : List ItemData) (vault : VaultSeen) → AreOf definitions.now p items columns.now
        → PutsRows (row_puts columns.now.kind p items) reader.old.file result (outside (O.seen out.old) vault) (outside (O.seen out.new) vault) }
{
    loop {
        match reader.next() {
            Ok(Some(entry)) => match put_row(alloc, definitions, columns, &entry, out) {
                Ok(()) => {}
                Err(Undone::WriteFault) => return Err(Halt::WriteFault),
                Err(Undone::LogFault) => return Err(Halt::LogFault),
                Err(Undone::Memory) => return Err(Halt::Memory),
            },
            Ok(None) => return Ok(()),
            Err(LogFault::BadHead) => return Err(Halt::LogRefused { place: 0 }),
            Err(LogFault::Cut { place }) => return Err(Halt::LogRefused { place }),
        }
    }
}

// Puts the row of an entry, if it is one of the packet.
fn put_row<O: Sink>(
    alloc: Global,
    definitions: &Definitions,
    columns: &Columns,
    entry: &LogEntry<'_>,
    out: &mut O,
) -> Result<(), Undone>
    ensures { (p : PacketData) (items : List ItemData) → AreOf definitions.now p items columns.now
        → PutsText (row_line columns.now.kind p items (logged entry.now)) result (O.seen out.old) (O.seen out.new) }
{
    match columns.row(alloc, definitions, entry) {
        Ok(Some(row)) => put_line(out, row),
        Ok(None) => Ok(()),
        Err(Memory) => Err(Undone::Memory),
    }
}
