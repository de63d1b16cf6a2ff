//! The house of the workers of a site: each works as a job of one crew, with the device that it owns and a pass of its own number alone.
//! Each device that the site needs is aimed and goes with its worker, and stands in its place again when all have ended; what each worker
//! owes holds of the one history and of what its device shows then. Of what they left, the first trouble in one order is told. The rules
//! of this crate are the project's own.
#![tactic(auto)]

mod aims;
mod context;
mod desk;
mod duty;
mod job;
mod kindred;
mod kinds;
mod laws;
mod line;
mod notes;
mod outcome;
mod places;
mod running;
mod scribe;
mod serving;
mod settling;
mod staging;
mod tasks;
mod undone;
mod worked;

pub use context::WorkerContext;
pub use duty::Duty;
pub use kinds::{ByKind, DeskLeft, Left, Line, LineLeft, ScribeLeft, Work};
pub use laws::{
    drained_logs_are_whole, headline_holds, last_ended_is_only, plain_ends_are_caused,
    served_stops_leave_logs, sites_are_complete, stops_are_caused,
};
pub use outcome::{
    Counted, Trouble, count_history, first_trouble, first_trouble_is_told, plain_where_none_is_told,
};
pub use running::{Task, run_workers};
pub use serving::{Shared, serve_site};
pub use settling::{close, settle};
pub use staging::{Begun, Room, Staged, begin, stage};
pub use undone::tasks_back;
pub use worked::{DeskNote, NotStarted, Worked};
