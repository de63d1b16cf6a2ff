//! The words and statements of configuration texts.
//!
//! A text is UTF-8 in lines, each of which ends with a line feed or with the text. White space is
//! space, tab and carriage return. A word that begins with `"` or `'` ends before the next same
//! quote: its bytes stand as they are, and what follows the quote begins a new word. Any other
//! word ends before white space. An unquoted word that begins with `#` ends its line. Where the
//! last word of a line is the unquoted word `&`, it is dropped, and the next line's words follow.
//! A statement is the words of a line or of joined lines; lines without words give none.
#![tactic(auto)]

mod end;
mod fault;
mod joiner;
pub mod laws;
mod line;
mod reading;
mod statement;

pub use end::last;
pub use fault::WordFault;
pub use reading::statements;
pub use statement::Statement;
