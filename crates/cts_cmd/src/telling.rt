// Refusals as they are told.
ghost use Rattle.std.specs.Prelude.{◌≡◌, ◌++◌, true, IfOk, OnOk};
ghost use Rattle.std.specs.Fmt.{signed_decimal};
ghost use Rattle.cts_cmd.specs.Refusals.{has_words, range_text, refusal_text};

use crate::Refused;
use cts_base::{Bytes, Memory};
use itoa::Buffer;
use std::alloc::Global;

/// Why a command is refused, in words, with the name of the parameter: that of its definition, but of an unknown one that which
/// was given.
///
/// # Errors
///
/// `Memory` where none was found for the text, and for a refusal for want of memory, which has no words.
pub fn refusal_text(alloc: Global, refused: &Refused) -> Result<Bytes, Memory>
    ensures text { IfOk result (λ text. text ≡ refusal_text refused.now) }
    ensures spoken { IfOk result (λ _. has_words refused.now ≡ true) }
{
    match refused {
        Refused::UnknownTarget => Bytes::copy(alloc, b"Unknown target"),
        Refused::UnknownCommand => Bytes::copy(alloc, b"Unknown command"),
        Refused::UnknownParameter(name) => naming(alloc, b"Unknown parameter: ", name),
        Refused::Twice(name) => naming(alloc, b"Given twice: ", name),
        Refused::Missing(name) => naming(alloc, b"Missing: ", name),
        Refused::WrongType(name) => naming(alloc, b"Wrong type: ", name),
        Refused::UnknownState(name) => naming(alloc, b"Unknown state: ", name),
        Refused::OutOfRange {
            name,
            value,
            min,
            max,
        } => range_text(alloc, name, *value, *min, *max),
        Refused::Overflow(name) => naming(alloc, b"Overflow: ", name),
        Refused::Hazardous => Bytes::copy(alloc, b"Hazardous"),
        Refused::Memory => Err(Memory),
    }
}

// The words with a name after them.
fn naming(alloc: Global, words: &[u8], name: &Bytes) -> Result<Bytes, Memory>
    ensures { IfOk result (λ text. text ≡ words.now ++ name.now) }
{
    let mut text = Vec::from_slice(alloc, words)?;
    text.extend_from_slice(name.as_slice())?;
    Ok(Bytes::of(text))
}

// A value that is not within its range.
fn range_text(
    alloc: Global,
    name: &Bytes,
    value: i128,
    min: i128,
    max: i128,
) -> Result<Bytes, Memory>
    ensures { IfOk result (λ text. text ≡ range_text name.now value min max) }
{
    let mut text = Vec::from_slice(alloc, b"Out of range: ")?;
    text.extend_from_slice(name.as_slice())?;
    text.extend_from_slice(b" ")?;
    put_whole(&mut text, value)?;
    text.extend_from_slice(b" not in ")?;
    put_whole(&mut text, min)?;
    text.extend_from_slice(b"..")?;
    put_whole(&mut text, max)?;
    Ok(Bytes::of(text))
}

// The number in decimal digits, after a text.
fn put_whole(text: &mut Vec<u8>, number: i128) -> Result<(), Memory>
    ensures { OnOk result (text.new.items ≡ text.old.items ++ signed_decimal number) }
{
    let mut buffer = Buffer::new();
    text.extend_from_slice(buffer.format(number).as_bytes())?;
    Ok(())
}
