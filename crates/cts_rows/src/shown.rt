// What tests show of values.
use crate::cut;
use std::alloc::Global;
use std::fmt::{Debug, Display};
use std::test::Fail;

/// A value by its `Debug`. Where a row wants several values, they are shown as a tuple, which is one call.
pub fn debug_of<T: Debug>(alloc: Global, value: &T) -> Result<String, Fail> {
    Ok(format!(in alloc; "{value:?}")?)
}

/// A value by its `Display`.
pub fn display_of<T: Display>(alloc: Global, value: &T) -> Result<String, Fail> {
    Ok(format!(in alloc; "{value}")?)
}

/// `read`, or the fault by its `Display`.
pub fn refusal_of<T: Drop, E: Display + Drop>(
    alloc: Global,
    found: Result<T, E>,
) -> Result<String, Fail> {
    match found {
        Ok(_) => Ok("read".to_string(alloc)?),
        Err(fault) => display_of(alloc, &fault),
    }
}

const HELD: &str = "Bytes { held: [";

/// A value by its `Debug`, in which each list of bytes stands as the characters of their numbers, between quotes: `'AB'`
/// for `Bytes { held: [65, 66] }`.
pub fn readable_of<T: Debug>(alloc: Global, value: &T) -> Result<String, Fail> {
    let text = debug_of(alloc, value)?;
    match text.split_once(HELD) {
        Some((front, rest)) => readable(alloc, front, rest),
        None => Ok(text.as_str().to_string(alloc)?),
    }
}

fn readable(alloc: Global, front: &str, rest: &str) -> Result<String, Fail> {
    let mut out = front.to_string(alloc)?;
    for piece in rest.split(HELD) {
        push_piece(&mut out, piece)?;
    }
    Ok(out)
}

/// Appends the bytes in front of `] }`, and what stands after.
fn push_piece(out: &mut String, piece: &str) -> Result<(), Fail> {
    let (numbers, rest) = cut(piece, ']')?;
    out.push('\'')?;
    push_numbers(out, numbers)?;
    out.push('\'')?;
    Ok(out.push_str(rest.strip_prefix(" }").unwrap_or(rest))?)
}

fn push_numbers(out: &mut String, numbers: &str) -> Result<(), Fail> {
    for word in numbers.split_ascii_whitespace() {
        out.push(character(word)?)?;
    }
    Ok(())
}

/// The character of a number, which a comma may follow.
fn character(word: &str) -> Result<char, Fail> {
    match word.trim_end_matches(',').parse::<u8>() {
        Ok(byte) => Ok(char::from(byte)),
        Err(_) => Err(Fail::new("no byte")),
    }
}
