//! Statements of a definitions file, read word by word: what each says, or why its words are refused.
//!
//! The keywords and their words are those of the COSMOS 4 documentation for command and telemetry definitions, in this
//! project's profile. What a statement says in itself stands here; what it means among the statements before it is for the
//! reader above.
#![tactic(auto)]

mod cause;
mod details;
mod field;
mod fixed;
mod form;
mod items;
mod keyword;
mod laws;
mod line;
mod lines;
mod numbers;
mod open;
mod reading;
mod refusal;
mod texts;
mod words;

pub use cause::{DefCause, DefFault};
pub use details::{Detail, LimitsLine};
pub use keyword::{Field, Keyword};
pub use laws::statements_say_their_words;
pub use line::{ItemLine, Line, PacketLine};
pub use open::{Open, PacketKind};
pub use reading::read_line;
