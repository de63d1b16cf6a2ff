//! The words of a text.

ghost use Rattle.std.specs.Prelude.{◌≡◌, ◌≤◌, length, option_map};
ghost use Rattle.std.specs.List.{position, position_or_len};
ghost use Rattle.cts_cmd.specs.Words.{is_white};
ghost use Rattle.cts_methods.specs.Kinds.{after_white, is_black, three_words, word_first};
ghost use Rattle.cts_methods.specs.Seen.{item_name};

use crate::params::ItemWords;

fn is_white(byte: u8) -> bool
    ensures { result ≡ is_white byte }
{
    byte == b' ' || byte == b'\t' || byte == b'\r'
}

fn first_black(text: &[u8]) -> Option<usize>
    ensures { result ≡ position is_black text.now }
{
    text.iter().position(|c| !is_white(*c))
}

// Where the white space ends.
fn black_place(text: &[u8]) -> usize
    ensures place { result ≡ position_or_len is_black text.now }
    ensures within { result ≤ length text.now }
{
    first_black(text).unwrap_or(text.len())
}

fn first_white(text: &[u8]) -> Option<usize>
    ensures { result ≡ position is_white text.now }
{
    text.iter().position(|c| is_white(*c))
}

// Where the word ends.
fn white_place(text: &[u8]) -> usize
    ensures place { result ≡ position_or_len is_white text.now }
    ensures within { result ≤ length text.now }
{
    first_white(text).unwrap_or(text.len())
}

// What stands after white space.
fn after_white(text: &[u8]) -> &[u8]
    ensures { result.now ≡ after_white text.now }
{
    &text[black_place(text)..]
}

// The word that stands first, after white space, and what stands after it.
fn word_first(text: &[u8]) -> Option<(&[u8], &[u8])>
    ensures { option_map (λ f. (f.0.now, f.1.now)) result ≡ word_first text.now }
{
    let here = after_white(text);
    if here.is_empty() {
        return None;
    }
    let end = white_place(here);
    Some((&here[..end], &here[end..]))
}

/// The names of an item in one text of three words, with white space between and perhaps around them.
pub(crate) fn three_words(text: &[u8]) -> Option<ItemWords<'_>>
    ensures { option_map item_name result ≡ three_words text.now }
{
    let (target, rest) = word_first(text)?;
    let (packet, rest) = word_first(rest)?;
    let (item, rest) = word_first(rest)?;
    if !after_white(rest).is_empty() {
        return None;
    }
    Some(ItemWords {
        target,
        packet,
        item,
    })
}
