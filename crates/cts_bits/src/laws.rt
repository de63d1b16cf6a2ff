// What holds of the definitions that the contracts cite.
ghost use Rattle.std.specs.Prelude.{◌≡◌, ◌≤◌, ◌+◌, false, length};
ghost use Rattle.cts_bits.specs.Bits.{number_of_bits};
ghost use Rattle.cts_bits.specs.Fields.{IsApart, KeepsOtherBits, field, field_bits, offset_of, order_of, reach, size_of};
ghost use Rattle.cts_bits.specs.Places.{is_refused, last_place, span};

use crate::{LAST_PLACE, Order, Place};

/// A place is none that is refused.
pub fn places_are_not_refused(place: &Place)
    ensures { is_refused (order_of place.now) (offset_of place.now) (size_of place.now) ≡ false }
{}

/// The constant is the last place of the definitions.
pub fn the_last_place_is_its_word()
    ensures { LAST_PLACE ≡ last_place }
{}

/// A field is the number that its bits spell, each taken from where it stands in the buffer. So the
/// places of its bits alone say which fields share a bit.
pub fn field_is_its_bits(buffer: &[u8], place: &Place)
    requires { reach place.now ≤ length buffer.now }
    ensures { field place.now buffer.now ≡ number_of_bits (field_bits place.now buffer.now) }
{}

/// A field's value and the bits outside it leave no choice for the bytes: two buffers that keep the bits
/// outside the field, and have the same value in it, are the same.
pub fn write_has_one_outcome(place: &Place, old: &[u8], one: &[u8], other: &[u8])
    requires fits { reach place.now ≤ length old.now }
    requires one { KeepsOtherBits place.now old.now one.now }
    requires other { KeepsOtherBits place.now old.now other.now }
    requires same { field place.now one.now ≡ field place.now other.now }
    ensures { one.now ≡ other.now }
{}

/// Big-endian fields share no bit where one ends before the other begins.
pub fn big_fields_in_turn_are_apart(first: &Place, second: &Place)
    requires first_is_big { order_of first.now ≡ Order.Big }
    requires second_is_big { order_of second.now ≡ Order.Big }
    requires in_turn { offset_of first.now + size_of first.now ≤ offset_of second.now }
    ensures forth { IsApart first.now second.now }
    ensures back { IsApart second.now first.now }
{}

/// Fields of any order share no bit where one reaches no byte that the other touches.
pub fn fields_of_other_bytes_are_apart(first: &Place, second: &Place)
    requires { reach first.now + span (offset_of second.now) (size_of second.now) ≤ reach second.now }
    ensures forth { IsApart first.now second.now }
    ensures back { IsApart second.now first.now }
{}
