//! Laws of what goes out by streams of spellings: what a protocol puts into a stream is taken out of it again, however its bytes are cut
//! into pieces, and what a line puts is such a stream, out of a stretch of the history.
//!
//! They are said of the definitions that the contracts of `cts_framing`, `cts_encode` and `cts_trace` cite, so they are laws of what goes
//! through a connection.
#![tactic(auto)]

mod laws;

pub use laws::{
    lines_put_stretches, packets_are_read_back, slots_put_what_is_routed, streams_are_heard,
    streams_split,
};
