//! How bytes are put into frames by each protocol, and the heads of preidentified frames and of log entries.
#![tactic(auto)]

mod counted;
mod encode_fault;
mod encoding;
mod ended;
mod head;
mod headed;
mod laws;
mod plain;
mod put;

pub use encode_fault::EncodeFault;
pub use encoding::encode;
pub use head::{Head, encode_head, read_head};
pub use laws::{heads_are_read, one_spelling, spellings, spellings_are_told};
