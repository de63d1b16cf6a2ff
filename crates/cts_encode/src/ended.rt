// Bytes and their termination.
ghost use Rattle.std.specs.Prelude.{◌≡◌, ◌≤◌, ◌+◌, ◌++◌, ◌&&◌, nat_le, length, replicate};
ghost use Rattle.cts_framing.specs.Patterns.{first_place};
ghost use Rattle.cts_encode.specs.Putting.{PutsEnded};
ghost use Rattle.cts_encode.specs.Spellings.{is_before};

use crate::EncodeFault;
use crate::put::{put_bytes, put_zeros};
use memchr::memmem;

/// Whether the pattern has bytes and stands in the bytes leftmost before this place.
pub(crate) fn stands_before(bytes: &[u8], pattern: &[u8], place: usize) -> bool
    ensures { result ≡ (nat_le 1 (length pattern.now) && is_before (first_place pattern.now bytes.now) place) }
{
    if pattern.is_empty() {
        return false;
    }
    match memmem::find(bytes, pattern) {
        Some(first) => first < place,
        None => false,
    }
}

/// Puts `padding` zero bytes, the bytes and the termination.
///
/// # Errors
///
/// `HoldsTermination` where the termination stands before that at the end, and `Memory`. Then nothing was put.
pub(crate) fn put_ended(
    out: &mut Vec<u8>,
    padding: usize,
    bytes: &[u8],
    termination: &[u8],
) -> Result<(), EncodeFault>
    requires padding { padding ≤ 4294967295 }
    requires termination { length termination.now ≤ 64 }
    ensures { PutsEnded (replicate padding 0 ++ bytes.now) termination.now out.old.items out.new.items result }
{
    let start = out.len();
    out.reserve(padding + bytes.len() + termination.len())?;
    put_zeros(out, padding);
    put_bytes(out, bytes);
    put_bytes(out, termination);
    if stands_before(&out[start..], termination, padding + bytes.len()) {
        out.truncate(start);
        return Err(EncodeFault::HoldsTermination);
    }
    Ok(())
}
