// How a server ends: the troubles that its last put, its workers and its history show, of which the first in one order is told.
mod counting;
mod laws;
mod showing;
mod trouble;

pub use counting::{Counted, count_history};
pub use laws::{first_trouble_is_told, plain_where_none_is_told};
pub use showing::first_trouble;
pub use trouble::Trouble;
