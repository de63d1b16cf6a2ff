// The number in a field of a packet's bytes.
ghost use Rattle.std.specs.Prelude.{◌≡◌, ◌≤◌, length};
ghost use Rattle.cts_bits.specs.Fields.{reach};
ghost use Rattle.cts_def.specs.Beginnings.{number_at};
ghost use Rattle.cts_def.specs.Starts.{place_data};

use cts_bits::{Place, read_int, read_uint};

/// The number in the field, as two's complement where it is signed. The bytes hold the field, as [`Place::fits`] tells.
pub fn number_at(place: &Place, signed: bool, bytes: &[u8]) -> i128
    requires { reach place.now ≤ length bytes.now }
    ensures { result ≡ number_at (place_data place.now) signed bytes.now }
{
    if signed {
        i128::from(read_int(bytes, place))
    } else {
        i128::from(read_uint(bytes, place))
    }
}
