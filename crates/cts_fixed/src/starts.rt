// How packets of known length begin.
ghost use Rattle.std.specs.Prelude.{◌≡◌, ◌≤◌, length, option_map};
ghost use Rattle.std.specs.List.{find, list_all};
ghost use Rattle.cts_def.specs.Beginnings.{begins_with, has_id};
ghost use Rattle.cts_def.specs.Starts.{id_field_data, place_data};

use cts_bits::Place;
use cts_def::{Start, number_at};

/// Whether the field lies within the bytes and has its value there.
fn has_id(id: &(Place, i128, bool), bytes: &[u8]) -> bool
    ensures { result ≡ has_id bytes.now (id_field_data id.now) }
{
    let (place, value, signed) = *id;
    place.fits(bytes.len()) && number_at(&place, signed, bytes) == value
}

fn have_ids(ids: &[(Place, i128, bool)], bytes: &[u8]) -> bool
    ensures { result ≡ list_all (λ i. has_id bytes.now (id_field_data i)) ids.now }
{
    ids.iter().all(|id| has_id(id, bytes))
}

/// Whether the bytes begin as the packet does: all its id fields lie within them and have their
/// values there.
pub fn begins_with(start: &Start, bytes: &[u8]) -> bool
    ensures { result ≡ begins_with start.now bytes.now }
{
    have_ids(start.ids.as_slice(), bytes)
}

/// The first start with which the bytes begin, if they begin with one.
pub(crate) fn first_start<'a>(starts: &'a [Start], bytes: &[u8]) -> Option<&'a Start>
    ensures { option_map (λ s. s.now) result ≡ find (λ s. begins_with s bytes.now) starts.now }
{
    starts.iter().find(|start| begins_with(start, bytes))
}
