// The bytes of a file, or why a command halts at it.
ghost use Rattle.std.specs.Prelude.{◌≡◌, ◌<◌, ◌^◌, ◌≤◌, false, length, IfOk, IfSome};
ghost use Rattle.cts_run.specs.Load.Files.{GivesBytes};
ghost use Rattle.cts_run.specs.Phases.{LoadCounts, is_fault};

use crate::file_name::FileName;
use crate::halt::Halt;
use crate::load::fetch::{FetchFault, fetch};
use cts_base::Bytes;
use cts_outside::Files;
use std::alloc::Global;

/// The bytes of the file of this name. Where it holds more than the limit, the command halts as is given.
pub(crate) fn read_file<'a, F: Files>(
    alloc: Global,
    files: &mut F,
    name: &FileName<'a>,
    limit: usize,
    large: Halt<'a>,
) -> Result<Bytes, Halt<'a>>
    requires limit { limit < 2 ^ 32 }
    requires large { is_fault large ≡ false }
    ensures stays { (F.seen files.new).told ≡ (F.seen files.old).told }
    ensures content { IfSome (F.seen files.old).told (λ all. GivesBytes limit large.entry name.now (all name.now) result) }
    ensures small { IfOk result (λ bytes. length bytes ≤ limit) }
    ensures counts { LoadCounts result (F.seen files.old) (F.seen files.new) }
{
    match fetch(alloc, files, name.text(), limit) {
        Ok(bytes) => Ok(bytes),
        Err(FetchFault::TooLarge) => Err(large),
        Err(FetchFault::Absent) => Err(Halt::Absent { name: name.again() }),
        Err(FetchFault::Failed) => Err(Halt::ReadFault { name: name.again() }),
        Err(FetchFault::Memory) => Err(Halt::Memory),
    }
}
