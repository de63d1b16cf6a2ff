//! Bit fields of a buffer, in both byte orders.
//!
//! A field is read and written as one number, whatever bits it begins and ends at. No call takes memory.
#![tactic(auto)]

mod laws;
mod order;
mod place;
mod read;
mod sign;
mod window;
mod write;

pub use laws::{
    big_fields_in_turn_are_apart, field_is_its_bits, fields_of_other_bytes_are_apart,
    places_are_not_refused, the_last_place_is_its_word, write_has_one_outcome,
};
pub use order::Order;
pub use place::{LAST_PLACE, Place, PlaceFault};
pub use read::{read_bytes, read_int, read_uint};
pub use write::{write_int, write_uint};
