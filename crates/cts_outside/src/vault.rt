// The vault of the packet logs.
ghost use Rattle.cts_outside.specs.Causes.{Cause};
ghost use Rattle.cts_outside.specs.Seen.{VaultSeen};
ghost use Rattle.cts_outside.specs.Vaults.{Appends, BeginsPart, IsSynced, Syncs};

use crate::PutFailed;

/// Which of the two packet logs.
#[derive(Clone, Copy, PartialEq, Eq)]
pub enum LogKind {
    /// That of telemetry.
    Tlm,
    /// That of commands.
    Cmd,
}

/// Where the two packet logs are kept, each in parts, of which the last one alone grows.
pub trait Vault: Drop {
    /// The logs, where they are told, and how often an append, a sync or the beginning of a part has failed.
    ghost seen: { Self → VaultSeen };

    /// Appends these bytes to the last part of a log. Where it fails, a prefix of them was appended.
    fn append(&mut self, kind: LogKind, bytes: &[u8]) -> Result<(), PutFailed>
        ensures content { Appends kind (seen self.old).told (seen self.new).told bytes.now result }
        ensures cause { Cause result (seen self.old).faults (seen self.new).faults };

    /// Makes sure that what was appended to the last part of a log outlives a stop of the program or of the system.
    fn sync(&mut self, kind: LogKind) -> Result<(), PutFailed>
        ensures content { Syncs kind (seen self.old).told (seen self.new).told result }
        ensures cause { Cause result (seen self.old).faults (seen self.new).faults };

    /// Begins a part of a log, of whose last part all bytes are synced. Where it fails, the parts are as they were.
    fn part(&mut self, kind: LogKind) -> Result<(), PutFailed>
        requires synced { IsSynced kind (seen self.old).told }
        ensures content { BeginsPart kind (seen self.old).told (seen self.new).told result }
        ensures cause { Cause result (seen self.old).faults (seen self.new).faults };
}
