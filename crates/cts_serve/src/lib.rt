//! The top call of the server: `serve`, from the words of the command line to the last printed line. `run`, that of the other commands, is handed on.
#![tactic(auto)]

mod lines;
mod serving;
mod words;

pub use cts_run::{Status, acts, outcomes, run};
pub use serving::ended::Ended;
pub use serving::serve;
