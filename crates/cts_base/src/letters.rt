// Letters in any case, and what a name is made of.
ghost use Rattle.std.specs.Prelude.{◌≡◌, ◌==◌, ℕ, IfOk};
ghost use Rattle.std.specs.List.{list_all, zip};
ghost use Rattle.cts_base.specs.Names.{in_upper_case, is_name, is_name_byte, spells, upper};

use crate::{Bytes, Memory};
use std::alloc::Global;

/// Whether the text is 1 to 255 letters, digits and underscores of ASCII, as names of COSMOS 4 are here.
pub fn is_name(text: &[u8]) -> bool
    ensures { result ≡ is_name text.now }
{
    1 <= text.len() && text.len() <= 255 && has_name_bytes(text)
}

fn has_name_bytes(text: &[u8]) -> bool
    ensures { result ≡ list_all is_name_byte text.now }
{
    text.iter().all(|c| is_name_byte(*c))
}

fn is_name_byte(c: u8) -> bool
    ensures { result ≡ is_name_byte c }
{
    c.is_ascii_alphanumeric() || c == b'_'
}

/// The text with its letters of ASCII in upper case. `Memory` where none was found for it.
pub fn in_upper_case(alloc: Global, text: &[u8]) -> Result<Bytes, Memory>
    ensures { IfOk result (λ b. b ≡ in_upper_case text.now) }
{
    let held = text.iter().map(|c| upper(*c)).collect(alloc)?;
    Ok(Bytes::of(held))
}

/// Whether the word, in any case, is this text, which has no lower-case letters.
pub fn spells(word: &[u8], text: &[u8]) -> bool
    ensures { result ≡ spells word.now text.now }
{
    word.len() == text.len() && agrees(word, text)
}

// Whether each byte of the word, in upper case, is that of the text, as far as both go.
fn agrees(word: &[u8], text: &[u8]) -> bool
    ensures { result ≡ list_all (λ (c : ℕ × ℕ). upper c.0 == c.1) (zip word.now text.now) }
{
    word.iter().zip(text).all(|(c, d)| upper(*c) == *d)
}

fn upper(c: u8) -> u8
    ensures { result ≡ upper c }
{
    c.to_ascii_uppercase()
}
