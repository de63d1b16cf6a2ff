//! What the program stands on outside of it: the files of the system, standard output and the files of the packet logs, each
//! after its trait of `cts_outside`. They tell nothing of content, since no proof sees what a system keeps; what they count is
//! exact.
#![tactic(auto)]

mod console;
mod disk;
mod names;
mod vault;

pub use crate::console::Console;
pub use crate::disk::DiskFiles;
pub use crate::names::LogNames;
pub use crate::vault::{DiskVault, Opening};
