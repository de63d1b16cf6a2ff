// What rows are cut into, and what bytes are in a row.
use std::alloc::Global;
use std::test::Fail;

/// The part of a text in front of the first of these marks, and the part after it.
pub fn cut(text: &str, mark: char) -> Result<(&str, &str), Fail> {
    match text.split_once(mark) {
        Some(parts) => Ok(parts),
        None => Err(Fail::new("no mark")),
    }
}

/// Bytes as a text.
pub fn as_text(bytes: &[u8]) -> Result<&str, Fail> {
    match str::from_utf8(bytes) {
        Ok(text) => Ok(text),
        Err(_) => Err(Fail::new("no text")),
    }
}

/// A text whose lines end with line feeds, of one whose lines end with `;`.
pub fn lines(alloc: Global, text: &str) -> Result<Vec<u8>, Fail> {
    let mut out = Vec::new(alloc);
    for byte in text.as_bytes() {
        out.push(with_line_feed(*byte))?;
    }
    Ok(out)
}

fn with_line_feed(byte: u8) -> u8 {
    if byte == b';' { b'\n' } else { byte }
}

/// The bytes of a text, each the number of a character, and a line feed for each `;`.
pub fn bytes_by_number(alloc: Global, text: &str) -> Result<Vec<u8>, Fail> {
    let mut out = Vec::new(alloc);
    for c in text.chars() {
        out.push(byte_of(c)?)?;
    }
    Ok(out)
}

fn byte_of(c: char) -> Result<u8, Fail> {
    match u8::try_from(c as u32) {
        Ok(byte) => Ok(with_line_feed(byte)),
        Err(_) => Err(Fail::new("no byte")),
    }
}

/// What was printed, with `;` for each line feed. A `;` in it is refused, so that it is not taken for the end of a line.
pub fn in_one_line(alloc: Global, printed: &[u8]) -> Result<String, Fail> {
    let text = as_text(printed)?;
    if text.contains(';') {
        return Err(Fail::new("a ; is printed"));
    }
    Ok(text.replace(alloc, '\n', ";")?)
}

/// The bytes of pairs of hexadecimal digits.
pub fn bytes_of(alloc: Global, digits: &str) -> Result<Vec<u8>, Fail> {
    match hex::decode(alloc, digits.as_bytes()) {
        Ok(bytes) => Ok(bytes),
        Err(_) => Err(Fail::new("no bytes")),
    }
}

/// The bytes as pairs of hexadecimal digits.
pub fn digits_of(alloc: Global, bytes: &[u8]) -> Result<String, Fail> {
    Ok(hex::encode(alloc, bytes)?)
}

/// The pairs of digits, with a blank after pair `k` where bit `k` of `cuts` is set.
pub fn pieces_of(alloc: Global, digits: &str, cuts: u32) -> Result<String, Fail> {
    let mut out = String::new(alloc);
    let mut left = cuts;
    let mut odd = false;
    for digit in digits.chars() {
        push_digit(&mut out, digit, odd && left % 2 == 1)?;
        if odd {
            left /= 2;
        }
        odd = !odd;
    }
    Ok(out)
}

/// Appends a digit, and a blank where the text is cut after it.
fn push_digit(out: &mut String, digit: char, is_cut: bool) -> Result<(), Fail> {
    out.push(digit)?;
    if is_cut {
        out.push(' ')?;
    }
    Ok(())
}
