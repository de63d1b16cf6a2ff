// What the workers of a site left.
use cts_base::{List, Memory};
use cts_desk::DeskWhy;
use cts_line::LineWhy;
use cts_scribe::ScribeWhy;
use cts_table::History;

/// What the workers of a site left.
#[derive(Drop)]
pub struct Worked {
    /// The history that stood in the turn at the end.
    pub history: History,
    /// Why each interface ended, and then each slot, in the order of their numbers.
    pub lines: List<LineWhy>,
    /// What each desk left, in the order of their numbers.
    pub desks: List<DeskNote>,
    /// Why the scribe ended.
    pub scribe: ScribeWhy,
}

/// What a desk left, beside its door.
#[derive(Drop)]
pub struct DeskNote {
    /// The fronts of its requests, in order.
    pub fronts: List<u64>,
    /// Why it ended.
    pub why: DeskWhy,
    /// Whether each of its responses is of a beginning of the history that stands at the end, which it is where the desk reads in holds of the turn.
    pub tied: bool,
}

/// Why no worker has begun.
#[derive(Clone, Copy, Debug, PartialEq, Eq)]
pub enum NotStarted {
    /// Memory ran out.
    Memory,
    /// The line that says that the server is ready could not be put.
    WriteFault,
}

impl From<Memory> for NotStarted {
    ghost use Rattle.std.specs.Prelude.{◌≡◌};
    ghost use Rattle.cts_server.specs.declared.worked.NotStarted.TheVariants.{Memory as NoMemory};

    ghost from_gives = { λ _ e. e ≡ NoMemory };

    fn from(_: Memory) -> NotStarted {
        NotStarted::Memory
    }
}
