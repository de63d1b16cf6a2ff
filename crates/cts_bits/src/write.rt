// Writing fields.
ghost use Rattle.std.specs.Prelude.{◌≡◌, ◌≤◌, ◌<◌, ◌^◌, length};
ghost use Rattle.cts_bits.specs.Bits.{HasSpelling, twos_complement};
ghost use Rattle.cts_bits.specs.declared.place.Place.{Place};
ghost use Rattle.cts_bits.specs.Fields.{IsApart, KeepsOtherBits, field, reach, signed_field, size_of};

use crate::Place;
use crate::sign::unsigned;
use crate::window::{number_in, put, replaced};

/// Writes the number into the field, and changes no other bit. The buffer holds the field, as
/// [`Place::fits`] tells, and the number has no more bits than the field.
pub fn write_uint(buffer: &mut [u8], place: &Place, value: u64)
    requires fits { reach place.now ≤ length buffer.old }
    requires spelled { value < 2 ^ size_of place.now }
    ensures value { field place.now buffer.new ≡ value }
    ensures others { KeepsOtherBits place.now buffer.old buffer.new }
    ensures apart { (q : Place) → IsApart place.now q → reach q ≤ length buffer.old
        → field q buffer.new ≡ field q buffer.old }
    ensures same { value ≡ field place.now buffer.old → buffer.new ≡ buffer.old }
{
    let order = place.order();
    let first = place.first() as usize;
    let window = &mut buffer[first..place.reach() as usize];
    let number = replaced(number_in(window, order), place.tail(), place.bits(), value);
    put(window, order, number);
}

/// Writes the number into the field as two's complement, and changes no other bit. The buffer holds the
/// field, as [`Place::fits`] tells, and the number has a spelling in the field's bits.
pub fn write_int(buffer: &mut [u8], place: &Place, value: i64)
    requires fits { reach place.now ≤ length buffer.old }
    requires spelled { HasSpelling (size_of place.now) value }
    ensures value { signed_field place.now buffer.new ≡ value }
    ensures others { KeepsOtherBits place.now buffer.old buffer.new }
    ensures apart { (q : Place) → IsApart place.now q → reach q ≤ length buffer.old
        → field q buffer.new ≡ field q buffer.old }
    ensures same { value ≡ signed_field place.now buffer.old → buffer.new ≡ buffer.old }
{
    write_uint(buffer, place, unsigned(value, place.bits()));
}
