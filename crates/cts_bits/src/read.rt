// Reading fields.
ghost use Rattle.std.specs.Prelude.{◌≡◌, ◌≤◌, ◌<◌, ◌^◌, length, slice_range};
ghost use Rattle.cts_bits.specs.Bits.{HasSpelling};
ghost use Rattle.cts_bits.specs.Fields.{field, reach, signed_field, size_of};

use crate::Place;
use crate::sign::signed;
use crate::window::{cut, number_in};

/// The number in the field. The buffer holds the field, as [`Place::fits`] tells.
pub fn read_uint(buffer: &[u8], place: &Place) -> u64
    requires { reach place.now ≤ length buffer.now }
    ensures value { result ≡ field place.now buffer.now }
    ensures fits { result < 2 ^ size_of place.now }
{
    let window = &buffer[place.first() as usize..place.reach() as usize];
    cut(number_in(window, place.order()), place.tail(), place.bits())
}

/// The number in the field, as two's complement. The buffer holds the field, as [`Place::fits`] tells.
pub fn read_int(buffer: &[u8], place: &Place) -> i64
    requires { reach place.now ≤ length buffer.now }
    ensures value { result ≡ signed_field place.now buffer.now }
    ensures spelled { HasSpelling (size_of place.now) result }
{
    signed(read_uint(buffer, place), place.bits())
}

/// The bytes from `from` up to `to`.
pub fn read_bytes(buffer: &[u8], from: usize, to: usize) -> &[u8]
    requires ordered { from ≤ to }
    requires inside { to ≤ length buffer.now }
    ensures { result.now ≡ slice_range buffer.now from to }
{
    &buffer[from..to]
}
