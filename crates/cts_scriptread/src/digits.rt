//! Bytes from hexadecimal digits, in one pass without a jump that depends on a digit: the digits of a script are as good as random, so
//! a processor guesses every second such jump wrongly, and most of the bytes of a script are such digits.

ghost use Rattle.std.specs.Prelude.{◌≡◌, IfOk, option_map};
ghost use Rattle.std.specs.Result.{result_ok};
ghost use Rattle.hex.specs.Hex.{decode_of};
ghost use Rattle.cts_scriptread.specs.Words.{value_or_none};

use cts_base::Memory;
use std::alloc::Global;

/// What stands for the value of a byte that is no digit.
const NO_DIGIT: u8 = 255;

/// The greatest value of a digit.
const GREATEST: u8 = 15;

// The value of a digit in either case, or `NO_DIGIT`.
fn value_of(digit: u8) -> u8
    ensures { result ≡ value_or_none digit }
{
    match digit {
        b'0'..=b'9' => digit - b'0',
        b'A'..=b'F' => digit - b'A' + 10,
        b'a'..=b'f' => digit - b'a' + 10,
        _ => NO_DIGIT,
    }
}

/// The bytes that a text of hexadecimal digits writes, two digits a byte, in either case; none where a byte of it is no digit, or
/// their number is odd.
pub(crate) fn decoded(alloc: Global, text: &[u8]) -> Result<Option<Vec<u8>>, Memory>
    ensures { IfOk result (λ bytes. option_map (λ b. b.items) bytes ≡ result_ok (decode_of text.now)) }
{
    if text.len() % 2 != 0 {
        return Ok(None);
    }
    let mut bytes = vec![in alloc; 0u8; text.len() / 2]?;
    let mut greatest = 0u8;
    for place in 0..bytes.len() {
        let high = value_of(text[2 * place]);
        let low = value_of(text[2 * place + 1]);
        greatest = greatest.max(high).max(low);
        bytes[place] = high.wrapping_mul(16).wrapping_add(low);
    }
    if greatest > GREATEST {
        return Ok(None);
    }
    Ok(Some(bytes))
}
