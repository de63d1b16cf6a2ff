//! Requests of HTTP/1.x as the bytes of a connection bring them, in whatever pieces, and the responses to them.
//!
//! A request is a head of at most 16,384 bytes and a body of at most 1,048,576. What is a head is `httparse`'s grammar in
//! its default configuration: empty lines may stand before it, and a line may end with a line feed alone.
#![tactic(auto)]

mod asks;
mod digits;
mod judge;
mod laws;
mod reader;
mod step;
mod texts;
mod whole;

pub use laws::{
    connections_have_one_list_of_requests, connections_have_one_stream, waiting_is_bounded,
};
pub use reader::Reader;
pub use step::HttpStep;
pub use texts::{refusal, response};
pub use whole::requests;
