//! The outside as traits: files that are read in pieces, sinks that bytes are put to, links and their dialers, the vault of the
//! packet logs, a clock, a gate and crews. Each device counts its own faults, so that a program over any of them can say when it may
//! answer a fault. Beside them stand their parts in memory, each of which does as its script and the list of its failing calls say.
#![tactic(auto)]

mod clock;
mod crew;
mod failing;
mod files;
mod gate;
mod job;
mod link;
mod mem_dialer;
mod mem_files;
mod mem_sink;
mod mem_vault;
mod noted;
mod sink;
mod thread_crew;
mod turn_crew;
mod vault;

pub use clock::{Clock, FixedClock};
pub use crew::Crew;
pub use files::{FileGot, Files};
pub use gate::{Gate, GateStage, OpenGate};
pub use job::Job;
pub use link::{Aim, Dialed, Dialer, Link, Taken};
pub use mem_dialer::{MemConnection, MemDialer, MemPiece};
pub use mem_files::MemFiles;
pub use mem_sink::MemSink;
pub use mem_vault::MemVault;
pub use sink::{PutFailed, Sink};
pub use thread_crew::ThreadCrew;
pub use turn_crew::TurnCrew;
pub use vault::{LogKind, Vault};
