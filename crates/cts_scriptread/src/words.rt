//! What a word of a script says by itself.

ghost use Rattle.std.specs.Prelude.{◌≡◌, ◌≤◌, IfOk, IfSome};
ghost use Rattle.std.specs.Int.{is_negative};
ghost use Rattle.std.specs.List.{list_all};
ghost use Rattle.hex.specs.Hex.{is_hex_digit};
ghost use Rattle.cts_base.specs.Wholes.{whole_of};
ghost use Rattle.cts_scriptread.specs.Words.{are_byte_digits, count_of, if_piece, is_log, is_piece_size, natural_in, number_of, piece_of, why_of};

use crate::digits::decoded;
use cts_base::{Bytes, Memory, read_whole};
use cts_entry::Why;
use std::alloc::Global;

/// The most bytes of a piece.
const MOST_PIECE: usize = 65_536;

// The whole number that a word writes, where it is none below 0 and none above this.
fn natural(most: u64, word: &[u8]) -> Option<u64>
    ensures value { result ≡ natural_in most (whole_of word.now) }
    ensures most { IfSome result (λ n. n ≤ most) }
{
    let number = read_whole(word)?;
    if number < 0 {
        return None;
    }
    let size = number.unsigned_abs();
    if u128::from(most) < size {
        return None;
    }
    Some(size as u64)
}

/// The whole number of 32 bits that a word writes.
#[tactic(auto, unfolding(crate::specs::Words::number_of))]
pub(crate) fn number_of(word: &[u8]) -> Option<u32>
    ensures { result ≡ number_of word.now }
{
    let number = natural(4_294_967_295, word)?;
    Some(number as u32)
}

/// The whole number of 64 bits that a word writes.
#[tactic(auto, unfolding(crate::specs::Words::count_of))]
pub(crate) fn count_of(word: &[u8]) -> Option<u64>
    ensures { result ≡ count_of word.now }
{
    natural(18_446_744_073_709_551_615, word)
}

/// Whether a word is hexadecimal digits, two for each byte.
pub(crate) fn are_byte_digits(word: &[u8]) -> bool
    ensures { result ≡ are_byte_digits word.now }
{
    word.len() % 2 == 0 && are_digits(word)
}

fn are_digits(word: &[u8]) -> bool
    ensures { result ≡ list_all is_hex_digit word.now }
{
    word.iter().all(|digit| is_digit(*digit))
}

fn is_digit(digit: u8) -> bool
    ensures { result ≡ is_hex_digit digit }
{
    digit.is_ascii_hexdigit()
}

/// Whether a piece may have `size` bytes.
pub(crate) fn is_piece_size(size: usize) -> bool
    ensures { result ≡ is_piece_size size }
{
    1 <= size && size <= MOST_PIECE
}

/// The piece that the digits of a word write, if they write one.
pub(crate) fn piece_of(alloc: Global, word: &[u8]) -> Result<Option<Bytes>, Memory>
    ensures { IfOk result (λ piece. piece ≡ piece_of word.now) }
{
    if !is_piece_size(word.len() / 2) {
        return Ok(None);
    }
    match decoded(alloc, word)? {
        Some(bytes) => Ok(Some(Bytes::of(bytes))),
        None => Ok(None),
    }
}

/// Why a connection ends.
pub(crate) fn why_of(word: &[u8]) -> Option<Why>
    ensures { result ≡ why_of word.now }
{
    if word == b"PEER".as_slice() {
        Some(Why::PeerEnded)
    } else if word == b"READ".as_slice() {
        Some(Why::ReadFault)
    } else if word == b"WRITE".as_slice() {
        Some(Why::WriteFault)
    } else if word == b"STOP".as_slice() {
        Some(Why::Stopped)
    } else {
        None
    }
}

/// Whether a word stands for the logs.
pub(crate) fn is_log(word: &[u8]) -> bool
    ensures { result ≡ is_log word.now }
{
    word == b"LOG".as_slice()
}
