//! Replies that never wait: two copies of a hall, of which readers take one while the other takes in what came to the history.
#![tactic(auto)]

mod pane;
mod reader;
mod reading;
mod replica;
mod writer;

pub use pane::{Pane, PlainPane};
pub use reader::{Notice, SnapReader};
pub use reading::SnapAnswer;
pub use replica::{Addition, Grounds, Replica, Replicates};
pub use writer::{Snap, SnapWriter, Writer};
