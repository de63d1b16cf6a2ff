//! The top call of all commands but the server: `run`, from the words of the command line to the last printed line. What the server has in common
//! with them is public: a site that is read, why a command halts, and how it ends.
#![tactic(auto)]

mod check;
mod command;
mod demo;
mod digest;
mod dump;
mod extract;
mod file_name;
mod halt;
mod hub;
mod keeping;
mod laws;
mod load;
mod play;
mod putting;
mod rehearse;
mod replay;
mod story;
mod tie;
mod wanted;
mod words;

pub use command::run;
pub use digest::Digest;
pub use file_name::FileName;
pub use halt::Halt;
pub use halt::ending::{end, end_misused, put_last};
pub use halt::lines::{log_fault_text, memory_text};
pub use halt::status::Status;
pub use hub::boxes::Counted;
pub use laws::{acts, left_parts, outcomes, rehearsals};
pub use load::load_site;
pub use putting::{Undone, put_text};
