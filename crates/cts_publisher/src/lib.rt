//! The publisher: the worker that publishes what comes to the one history, for readers that never wait. It looks at the history in holds of the turn
//! that append nothing, and publishes outside of them. And the tie of a reader to what was published. The rules of this crate are the project's own.
#![tactic(auto)]

mod ending;
mod looking;
mod sight;
mod tying;
mod worker;

pub use ending::{PublisherEnd, PublisherWhy};
pub use tying::tie;
pub use worker::Publisher;
