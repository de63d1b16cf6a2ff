// How a command ends: one table from why it halts to its status and its last line, and one put.
ghost use Rattle.std.specs.Prelude.{◌≡◌, true, IfOk, OnErr};
ghost use Rattle.cts_run.specs.Endings.{Ends, EndsHalted, halt_line, halt_status, line_text, refused_as, takes_memory};
ghost use Rattle.cts_run.specs.Lines.{usage_line};
ghost use Rattle.cts_run.specs.Putting.{Printed};

use crate::halt::file_kind::FileKind;
use crate::halt::status::Status;
use crate::halt::{Halt, lines};
use cts_base::Memory;
use cts_outside::Sink;
use std::alloc::Global;

/// Ends a command that did all, or halted.
pub fn end<O: Sink>(alloc: Global, done: Result<(), Halt<'_>>, out: &mut O) -> Status
    ensures { Ends done.entry result (O.seen out.old) (O.seen out.new) }
{
    match done {
        Ok(()) => Status::Ok,
        Err(halt) => end_halted(alloc, &halt, out),
    }
}

/// Ends where the words fit no command.
pub fn end_misused<O: Sink>(out: &mut O) -> Status
    ensures status { result ≡ Status.Usage }
    ensures printed { Printed (O.seen out.old) (O.seen out.new) usage_line }
{
    put_last(out, lines::usage_text());
    Status::Usage
}

// Puts the last line of a command that halts. The status stays, also where the line can't be put.
fn end_halted<O: Sink>(alloc: Global, halt: &Halt<'_>, out: &mut O) -> Status
    ensures { EndsHalted halt.now result (O.seen out.old) (O.seen out.new) }
{
    match last_line(alloc, halt) {
        Ok(line) => {
            put_last(out, line.as_slice());
            status_of(halt)
        }
        Err(Memory) => {
            put_last(out, lines::memory_text());
            Status::Memory
        }
    }
}

fn status_of(halt: &Halt<'_>) -> Status
    ensures { result ≡ halt_status halt.now }
{
    match halt {
        Halt::Memory => Status::Memory,
        Halt::ReadFault { .. } => Status::ReadFault,
        Halt::Absent { .. } => Status::Absent,
        Halt::WriteFault => Status::WriteFault,
        Halt::Refused { kind, .. } => refused_as(*kind),
        Halt::ShelfEmpty { .. } => Status::ShelfEmpty,
        Halt::HistoryFull { .. } => Status::HistoryFull,
        Halt::LogFault => Status::LogFault,
        Halt::LogRefused { .. } => Status::LogRefused,
        Halt::UnknownName { .. } => Status::UnknownName,
        Halt::HubRefused { .. } => Status::HubRefused,
        Halt::Misused => Status::Usage,
    }
}

// The status of a file of this kind that is refused.
fn refused_as(kind: FileKind) -> Status
    ensures { result ≡ refused_as kind }
{
    match kind {
        FileKind::Configuration => Status::ConfigRefused,
        FileKind::Script => Status::ScriptRefused,
    }
}

// A last line, which is known beforehand or was made.
#[derive(Drop)]
enum LastLine {
    Known(&'static [u8]),
    Made(Vec<u8>),
}

impl LastLine {
    ghost use Rattle.cts_run.specs.Endings.{line_text};

    fn as_slice(&self) -> &[u8]
        ensures { result.now ≡ line_text self.now }
    {
        match self {
            LastLine::Known(line) => *line,
            LastLine::Made(line) => line.as_slice(),
        }
    }
}

// The last line of a command that halts; none after a put that failed.
fn last_line(alloc: Global, halt: &Halt<'_>) -> Result<LastLine, Memory>
    ensures line { IfOk result (λ line. line_text line ≡ halt_line halt.now) }
    ensures memory { OnErr result (takes_memory halt.now ≡ true) }
{
    match halt {
        Halt::Memory => Ok(LastLine::Known(lines::memory_text())),
        Halt::WriteFault => Ok(LastLine::Known(b"")),
        Halt::LogFault => Ok(LastLine::Known(lines::log_fault_text())),
        Halt::HubRefused { cause } => Ok(LastLine::Known(cause.line())),
        Halt::Misused => Ok(LastLine::Known(lines::usage_text())),
        Halt::ReadFault { name } => Ok(LastLine::Made(lines::read_fault(alloc, name.text())?)),
        Halt::Absent { name } => Ok(LastLine::Made(lines::absent(alloc, name.text())?)),
        Halt::Refused {
            name,
            line,
            cause,
            ..
        } => Ok(LastLine::Made(lines::refused(alloc, name.text(), *line, cause.text())?)),
        Halt::ShelfEmpty {
            kind,
            needed,
            stocked,
        } => Ok(LastLine::Made(lines::shelf_empty(alloc, *kind, *needed, *stocked)?)),
        Halt::HistoryFull { entries, bytes } => {
            Ok(LastLine::Made(lines::history_full(alloc, *entries, *bytes)?))
        }
        Halt::LogRefused { place } => Ok(LastLine::Made(lines::log_refused(alloc, *place)?)),
        Halt::UnknownName { name } => {
            Ok(LastLine::Made(lines::unknown_name(alloc, name.as_slice())?))
        }
    }
}

/// Puts a last line, if there is one.
pub fn put_last<O: Sink>(out: &mut O, line: &[u8])
    ensures { Printed (O.seen out.old) (O.seen out.new) line.now }
{
    if !line.is_empty() {
        let _ = out.put(line);
    }
}
