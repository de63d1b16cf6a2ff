// Whether bytes begin as a packet does.
ghost use Rattle.std.specs.Prelude.{◌≡◌, ◌≤◌, length};
ghost use Rattle.std.specs.List.{list_all};
ghost use Rattle.cts_def.specs.Beginnings.{id_field_of};
ghost use Rattle.cts_ident.specs.Identification.{fits};
ghost use Rattle.cts_ident.specs.Matches.{has_own_id};

use cts_def::{Item, Packet, number_at};

/// Whether all id fields of the packet lie within the bytes and have their values there.
pub(crate) fn fits(packet: &Packet, bytes: &[u8]) -> bool
    ensures { result ≡ fits bytes.now packet.now }
{
    have_own_ids(packet.items.as_slice(), bytes)
}

fn have_own_ids(items: &[Item], bytes: &[u8]) -> bool
    ensures { result ≡ list_all (has_own_id bytes.now) items.now }
{
    items.iter().all(|item| has_own_id(item, bytes))
}

// Whether the item is no id item, or its field lies within the bytes and has its id there.
fn has_own_id(item: &Item, bytes: &[u8]) -> bool
    ensures { result ≡ has_own_id bytes.now item.now }
{
    match item.id_field() {
        Some((place, id, signed)) => {
            place.fits(bytes.len()) && number_at(&place, signed, bytes) == id
        }
        None => true,
    }
}
