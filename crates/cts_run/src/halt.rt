// Why a command halts.
ghost use Rattle.std.specs.Prelude.{◌≡◌};
ghost use Rattle.cts_run.specs.Causes.{chain_halt, undone_halt};
ghost use Rattle.cts_run.specs.declared.halt.Halt.TheVariants.{Memory as NoMemory};

pub mod cause;
pub mod ending;
pub mod file_kind;
pub mod hub_cause;
pub mod lines;
pub mod status;

use crate::file_name::FileName;
use crate::putting::Undone;
use cause::Cause;
use cts_base::{Bytes, Memory};
use cts_chain::ChainFault;
use cts_def::Kind;
use file_kind::FileKind;
use hub_cause::HubCause;

/// Why a command halts before all is done. A fault of a file carries the file's name.
#[derive(Drop)]
pub enum Halt<'a> {
    /// Memory ran out.
    Memory,
    /// The file could not be read.
    ReadFault {
        name: FileName<'a>,
    },
    /// There is no file of this name.
    Absent {
        name: FileName<'a>,
    },
    /// The output could not be written.
    WriteFault,
    /// A log could not be written or synced.
    LogFault,
    /// The line of the file is refused; line 0 where it is the file as a whole.
    Refused {
        name: FileName<'a>,
        kind: FileKind,
        line: u32,
        cause: Cause,
    },
    /// The chains of the site need more boxes of a kind than the shelf has in stock.
    ShelfEmpty {
        kind: Kind,
        needed: u32,
        stocked: u32,
    },
    /// An event's entries would pass a limit of the history. The numbers are of the entries and bytes that count in it.
    HistoryFull {
        entries: u64,
        bytes: u64,
    },
    /// From this place on a log has no whole entry, or it is too large.
    LogRefused {
        place: u64,
    },
    /// This word names nothing that is defined: a target, a packet or an item of it.
    UnknownName {
        name: Bytes,
    },
    /// A router of the one site can't be tied to an interface of the other.
    HubRefused {
        cause: HubCause,
    },
    /// A word names nothing in the sites that were read, or is no size of pieces: the words fit no command after all.
    Misused,
}

impl<'a> From<Memory> for Halt<'a> {
    ghost from_gives = { λ _ e. e ≡ NoMemory };

    fn from(_: Memory) -> Halt<'a> {
        Halt::Memory
    }
}

impl<'a> From<Undone> for Halt<'a> {
    ghost from_gives = { λ why e. e ≡ undone_halt why };

    fn from(why: Undone) -> Halt<'a> {
        match why {
            Undone::WriteFault => Halt::WriteFault,
            Undone::LogFault => Halt::LogFault,
            Undone::Memory => Halt::Memory,
        }
    }
}

impl<'a> From<ChainFault> for Halt<'a> {
    ghost from_gives = { λ why e. e ≡ chain_halt why };

    fn from(why: ChainFault) -> Halt<'a> {
        match why {
            ChainFault::ShelfEmpty {
                kind,
                needed,
                stocked,
            } => Halt::ShelfEmpty {
                kind,
                needed,
                stocked,
            },
            ChainFault::Memory => Halt::Memory,
        }
    }
}
