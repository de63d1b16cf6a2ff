// Reads a whole file, up to a limit.
ghost use Rattle.std.specs.Prelude.{◌≡◌, ◌<◌, ◌≤◌, ◌^◌, length, vec_len, IfOk, IfSome};
ghost use Rattle.cts_run.specs.Load.Files.{FetchCounts, FetchGives};
ghost use Rattle.cts_run.specs.declared.load.fetch.FetchFault.TheVariants.{Memory as NoMemory};

use cts_base::{Bytes, Memory};
use cts_outside::{FileGot, Files};
use std::alloc::{AllocError, Global};

/// Why a file was not read whole.
#[derive(Clone, Copy)]
pub enum FetchFault {
    /// It holds more bytes than the limit.
    TooLarge,
    /// There is no file of that name.
    Absent,
    /// A read failed.
    Failed,
    /// Memory ran out.
    Memory,
}

impl From<AllocError> for FetchFault {
    ghost from_gives = { λ _ e. e ≡ NoMemory };

    fn from(_: AllocError) -> FetchFault {
        FetchFault::Memory
    }
}

impl From<Memory> for FetchFault {
    ghost from_gives = { λ _ e. e ≡ NoMemory };

    fn from(_: Memory) -> FetchFault {
        FetchFault::Memory
    }
}

// How many bytes a read asks for. They stand on the heap, since a stack may be small.
const PIECE: usize = 65_536;

/// The bytes of the file of this name.
pub(crate) fn fetch<F: Files>(
    alloc: Global,
    files: &mut F,
    name: &str,
    limit: usize,
) -> Result<Bytes, FetchFault>
    requires { limit < 2 ^ 32 }
    ensures stays { (F.seen files.new).told ≡ (F.seen files.old).told }
    ensures content { IfSome (F.seen files.old).told (λ all. FetchGives limit (all name.now) result) }
    ensures small { IfOk result (λ bytes. length bytes ≤ limit) }
    ensures counts { FetchCounts result (F.seen files.old) (F.seen files.new) }
{
    let mut piece = room(alloc, PIECE)?;
    fetch_by(alloc, files, name, limit, &mut piece)
}

fn room(alloc: Global, size: usize) -> Result<Vec<u8>, AllocError>
    ensures { IfOk result (λ v. vec_len v ≡ size) }
{
    vec![in alloc; 0u8; size]
}

// Reads the file piece by piece.
fn fetch_by<F: Files>(
    alloc: Global,
    files: &mut F,
    name: &str,
    limit: usize,
    piece: &mut [u8],
) -> Result<Bytes, FetchFault>
    requires small { limit < 2 ^ 32 }
    requires room { 0 < length piece.old }
    ensures stays { (F.seen files.new).told ≡ (F.seen files.old).told }
    ensures content { IfSome (F.seen files.old).told (λ all. FetchGives limit (all name.now) result) }
    ensures small { IfOk result (λ bytes. length bytes ≤ limit) }
    ensures counts { FetchCounts result (F.seen files.old) (F.seen files.new) }
{
    let mut held = Vec::new(alloc);
    'pieces: while held.len() <= limit {
        match files.read(name, held.len() as u64, piece) {
            FileGot::Got(count) => held.extend_from_slice(&piece[..count])?,
            FileGot::End => return Ok(Bytes::of(held)),
            FileGot::Absent => return Err(FetchFault::Absent),
            FileGot::Failed => return Err(FetchFault::Failed),
        }
    }
    Err(FetchFault::TooLarge)
}
