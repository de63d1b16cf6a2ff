// Words by their places.
ghost use Rattle.std.specs.Prelude.{◌≡◌, drop};
ghost use Rattle.cts_def.specs.Items.{is_same};

use cts_base::Bytes;

/// The words after the first.
pub(crate) fn rest(words: &[Bytes]) -> &[Bytes]
    ensures { result.now ≡ drop 1 words.now }
{
    match words {
        [_, rest @ ..] => rest,
        [] => &[],
    }
}

/// Whether the word is this text.
pub(crate) fn is_same(word: &[u8], text: &[u8]) -> bool
    ensures { result ≡ is_same word.now text.now }
{
    word == text
}
