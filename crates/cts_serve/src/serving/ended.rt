// What a server leaves.
ghost use Rattle.std.specs.Prelude.{◌≡◌, [], Some};
ghost use Rattle.cts_serve.specs.Served.{LeftNothing};

use cts_base::List;
use cts_line::LineWhy;
use cts_run::Status;
use cts_scribe::ScribeWhy;
use cts_server::DeskNote;
use cts_table::History;
use std::alloc::Global;

/// What a server leaves. Where it was not started, it has no history and nothing of workers.
#[derive(Drop)]
pub struct Ended {
    /// How it ended.
    pub status: Status,
    /// The history that stood at the end.
    pub history: History,
    /// Why each interface ended, and then each slot, in the order of their numbers.
    pub lines: List<LineWhy>,
    /// What each desk left, in the order of their numbers.
    pub desks: List<DeskNote>,
    /// Why the scribe ended, where the server was started.
    pub scribe: Option<ScribeWhy>,
}

impl Ended {
    /// A server that was not started. It takes no memory.
    pub(crate) fn unstarted(alloc: Global, status: Status) -> Ended
        ensures status { result.status ≡ status }
        ensures nothing { LeftNothing result }
    {
        Ended {
            status,
            history: History::none(alloc),
            lines: List::new(alloc),
            desks: List::new(alloc),
            scribe: None,
        }
    }
}
