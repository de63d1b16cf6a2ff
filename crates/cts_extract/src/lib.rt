//! Columns of telemetry: the values of some items of a packet, a row for each of its entries in a log, as a spreadsheet reads them.
#![tactic(auto)]

mod cells;
mod columns;
mod fault;
mod finding;
mod times;
mod words;

pub use columns::Columns;
pub use fault::ColumnFault;
pub use words::{has_few_texts, kind_named, texts_of};
