//! A lock round a state that stands for a history. Whoever has a pass may take the turn, append entries of its own makers to the
//! history, and leave; and may ask without waiting how many entries stand. The rules of this crate are the project's own.
#![tactic(auto)]

mod many;
mod rule;
mod turn;

pub use many::{close_all, hand_out, take_back};
pub use rule::View;
pub use turn::{Held, Pass, Turn};
