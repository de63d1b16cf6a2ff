//! Rows of text for tests: what goes through a table of them, and what most tables need to read and to show. Crates of tests
//! share it, so that it is proved once for all of them; no program stands on it, and nothing is claimed of it.
#![tactic(auto)]

mod parts;
mod rows;
mod shown;
mod texts;

pub use parts::{field, number, numbers, part};
pub use rows::{Answers, asked_and_wanted, rows_end_so, same};
pub use shown::{debug_of, display_of, readable_of, refusal_of};
pub use texts::{
    as_text, bytes_by_number, bytes_of, cut, digits_of, in_one_line, lines, pieces_of,
};
