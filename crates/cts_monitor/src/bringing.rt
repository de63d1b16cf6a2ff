// The bytes that an entry brings.
ghost use Rattle.std.specs.Prelude.{◌≡◌};
ghost use Rattle.std.specs.Option.{option_copied};
ghost use Rattle.cts_monitor.specs.Brought.{brought_by, same_ident};

use cts_def::Ident;
use cts_entry::{Entry, What};

fn is_same(a: Ident, b: Ident) -> bool
    ensures { result ≡ same_ident a b }
{
    match (a, b) {
        (Ident::Known(p), Ident::Known(q)) => p == q,
        (Ident::Unknown, Ident::Unknown) => true,
        _ => false,
    }
}

/// The bytes of the ident that the entry brings, if it does: those of a device's packet that was not stored, or those that were put in their place.
/// It takes no memory.
pub fn brought(entry: &Entry, ident: Ident) -> Option<&[u8]>
    ensures { option_copied result ≡ brought_by ident entry.now }
{
    match &entry.what {
        What::Packet {
            ident: of,
            stored: false,
            bytes,
        } if is_same(*of, ident) => Some(bytes.as_slice()),
        What::Injected { packet, bytes } if is_same(Ident::Known(*packet), ident) => {
            Some(bytes.as_slice())
        }
        _ => None,
    }
}
