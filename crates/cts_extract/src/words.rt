// What the words of a command that asks for columns say.
ghost use Rattle.std.specs.Prelude.{◌≡◌, ◌<◌, ◌∷◌, [], IfOk, IfSome, IsNone, length, map};
ghost use Rattle.std.specs.List.{position};
ghost use Rattle.cts_extract.specs.Words.{has_few_texts, is_comma, kind_named, texts_of};

use cts_base::Memory;
use cts_conv::ValueKind;
use std::alloc::Global;

/// The kind of values that a word names: `RAW`, `CONVERTED`, `FORMATTED` or `WITH_UNITS`, in upper case.
pub fn kind_named(word: &str) -> Option<ValueKind>
    ensures { result ≡ kind_named word.now }
{
    if word == "RAW" {
        Some(ValueKind::Raw)
    } else if word == "CONVERTED" {
        Some(ValueKind::Converted)
    } else if word == "FORMATTED" {
        Some(ValueKind::Formatted)
    } else if word == "WITH_UNITS" {
        Some(ValueKind::WithUnits)
    } else {
        None
    }
}

/// Whether at most 64 texts stand between the commas of a word.
pub fn has_few_texts(word: &[u8]) -> bool
    ensures { result ≡ has_few_texts word.now }
{
    word.iter().filter(|byte| **byte == b',').count() < 64
}

/// The texts between the commas of a word, in order. One of them may have no bytes.
///
/// # Errors
///
/// `Memory`.
pub fn texts_of<'a>(alloc: Global, word: &'a [u8]) -> Result<Vec<&'a [u8]>, Memory>
    ensures { IfOk result (λ texts. map (λ t. t.now) texts.items ≡ texts_of word.now) }
{
    let mut texts = Vec::new(alloc);
    let mut left = word;
    'texts: while let Some((text, after)) = cut(left) {
        texts.push(text)?;
        left = after;
    }
    texts.push(left)?;
    Ok(texts)
}

// Where the first comma stands, if there is one.
fn comma_in(word: &[u8]) -> Option<usize>
    ensures place { result ≡ position is_comma word.now }
    ensures within { IfSome result (λ n. n < length word.now) }
{
    word.iter().position(|byte| *byte == b',')
}

// What stands before the first comma and what after it, if there is one.
#[tactic(auto, using(crate::proofs::Texts::cut_nowhere))]
fn cut(word: &[u8]) -> Option<(&[u8], &[u8])>
    ensures cut { IfSome result (λ c. texts_of word.now ≡ c.0.now ∷ texts_of c.1.now) }
    ensures shorter { IfSome result (λ c. length c.1.now < length word.now) }
    ensures whole { IsNone result → texts_of word.now ≡ word.now ∷ [] }
{
    match comma_in(word) {
        Some(place) => Some((&word[..place], &word[place + 1..])),
        None => None,
    }
}
