// How a command ends.
ghost use Rattle.std.specs.Prelude.{◌≡◌};

/// How a command ends. Each has an exit status of its own, but that both faults of a file have 3.
#[derive(Clone, Copy, Debug, PartialEq, Eq)]
pub enum Status {
    /// All was done.
    Ok,
    /// Memory ran out.
    Memory,
    /// The words fit no command, or name nothing in the sites that were read.
    Usage,
    /// A file could not be read.
    ReadFault,
    /// A file is not there.
    Absent,
    /// The output could not be written.
    WriteFault,
    /// A line of the definitions or the site is refused, or such a file is too large.
    ConfigRefused,
    /// The shelf holds too few boxes of a kind for the chains of the site.
    ShelfEmpty,
    /// A line of the script is refused, or the script is too large.
    ScriptRefused,
    /// An event's entries would pass a limit of the history.
    HistoryFull,
    /// A packet log could not be written or synced.
    LogFault,
    /// A log is not a head with whole entries alone after it, or is too large.
    LogRefused,
    /// A worker of the server was not started.
    NoWorker,
    /// A door of the server failed.
    DoorFault,
    /// A target, a packet or an item that is asked for is not defined.
    UnknownName,
    /// A router of the one site can't be tied to an interface of the other.
    HubRefused,
}

impl Status {
    ghost use Rattle.cts_run.specs.Statuses.{exit_status};

    /// The exit status of the program.
    pub fn code(self) -> u8
        ensures { result ≡ exit_status self }
    {
        match self {
            Status::Ok => 0,
            Status::Memory => 1,
            Status::Usage => 2,
            Status::ReadFault => 3,
            Status::Absent => 3,
            Status::WriteFault => 4,
            Status::ConfigRefused => 5,
            Status::ShelfEmpty => 6,
            Status::ScriptRefused => 7,
            Status::HistoryFull => 8,
            Status::LogFault => 9,
            Status::LogRefused => 10,
            Status::NoWorker => 11,
            Status::DoorFault => 12,
            Status::UnknownName => 14,
            Status::HubRefused => 15,
        }
    }
}
