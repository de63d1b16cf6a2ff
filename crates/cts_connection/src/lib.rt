//! The connections of a site's lines, which are its interfaces and the slots of its routers. What a line's chain takes becomes entries of
//! the history, what the history has for its peer is put into frames, and each connection knows what it has passed. A core that does
//! one event after the other and a running line make the same calls.
#![tactic(auto)]

mod appending;
mod chains;
mod connection;
mod end;
mod ident;
mod laws;
mod naming;
mod place;
mod saying;
mod supplier;
mod taking;
mod writing;

pub use chains::{build_chains, shortage_of};
pub use connection::Connection;
pub use end::End;
pub use laws::{lines, lines_may_post};
pub use naming::{command_label, packet_label};
pub use place::{is_interface, is_line, is_slot, line_count, line_place};
pub use saying::said;
pub use supplier::Supplier;
pub use taking::Taken;
