//! What a server has besides whose desks read from a snapshot: the worker of such a desk with the door and the reader that it owns, the
//! publisher, what each owes over the one history, and the tie of each reader once all passes have come back. The rules of this crate are
//! the project's own. No server starts them yet.
#![tactic(auto)]

mod desk;
mod laws;
mod publisher;
mod tied;

pub use desk::{SnapDeskLeft, cancel_snap_desk, run_snap_desk};
pub use laws::owed_lasts;
pub use publisher::{cancel_publisher, run_publisher};
pub use tied::{TiedDesk, tie_desk};
