//! What readers of statements share, whatever their statements are: keywords in any case, words by their places, the causes
//! in one order of which the first that holds is told, one fault, and one pass over the statements that ends at the first
//! that is refused.
#![tactic(auto)]

mod causes;
mod fault;
mod keyword;
mod laws;
mod reading;
mod words;

pub use causes::first_that_holds;
pub use fault::Fault;
pub use keyword::{Spelled, keyword_in};
pub use laws::{first_cause_is_told, first_statement_is_refused};
pub use reading::{Reader, read_statements, unless_refused};
pub use words::word_at;
