// What may trouble a server.
ghost use Rattle.std.specs.Prelude.{◌≡◌};
ghost use Rattle.cts_server.specs.Troubles.{closed_shows, desk_shows, line_shows, scribe_shows};
ghost use Rattle.cts_trace.specs.Makers.{closes_for};

use cts_desk::DeskWhy;
use cts_entry::{What, Why};
use cts_line::LineWhy;
use cts_scribe::ScribeWhy;

/// What troubled a server, so that it did not end well. Where there are several, the first of these is told.
#[derive(Clone, Copy, Debug, PartialEq, Eq)]
pub enum Trouble {
    /// Memory ran out.
    Memory,
    /// The output could not be written.
    WriteFault,
    /// The history was full.
    HistoryFull,
    /// A packet log could not be written or synced.
    LogFault,
    /// A worker was not started.
    NoWorker,
    /// A door failed.
    DoorFault,
}

impl Trouble {
    /// Whether a line shows it that ended for this reason.
    pub(crate) fn is_of_line(self, why: LineWhy) -> bool
        ensures { result ≡ line_shows self why }
    {
        match (self, why) {
            (Trouble::Memory, LineWhy::NoMemory) => true,
            (Trouble::HistoryFull, LineWhy::Full) => true,
            (Trouble::NoWorker, LineWhy::Cancelled) => true,
            (Trouble::DoorFault, LineWhy::DoorFailed) => true,
            _ => false,
        }
    }

    /// Whether a desk shows it that ended for this reason.
    pub(crate) fn is_of_desk(self, why: DeskWhy) -> bool
        ensures { result ≡ desk_shows self why }
    {
        match (self, why) {
            (Trouble::NoWorker, DeskWhy::Cancelled) => true,
            (Trouble::DoorFault, DeskWhy::DoorFailed) => true,
            _ => false,
        }
    }

    /// Whether a scribe shows it that ended for this reason.
    pub(crate) fn is_of_scribe(self, why: ScribeWhy) -> bool
        ensures { result ≡ scribe_shows self why }
    {
        match (self, why) {
            (Trouble::Memory, ScribeWhy::NoMemory) => true,
            (Trouble::LogFault, ScribeWhy::VaultFailed) => true,
            (Trouble::NoWorker, ScribeWhy::Cancelled) => true,
            _ => false,
        }
    }

    /// Whether an entry shows it: that of a connection which was closed for such a reason.
    pub(crate) fn is_of_entry(self, what: &What) -> bool
        ensures { result ≡ closes_for (closed_shows self) what.now }
    {
        match what {
            What::Closed { why, .. } => self.is_of_closed(*why),
            _ => false,
        }
    }

    fn is_of_closed(self, why: Why) -> bool
        ensures { result ≡ closed_shows self why }
    {
        match (self, why) {
            (Trouble::Memory, Why::NoMemory) => true,
            (Trouble::HistoryFull, Why::Full) => true,
            _ => false,
        }
    }
}
