// Words by their places.
ghost use Rattle.std.specs.Prelude.{◌≡◌};
ghost use Rattle.cts_reader.specs.Words.{word_at};

use cts_base::Bytes;

/// The word at a place, and an empty one where there is none.
pub fn word_at(words: &[Bytes], at: usize) -> &[u8]
    ensures { result.now ≡ word_at words.now at }
{
    match words.get(at) {
        Some(word) => word.as_slice(),
        None => b"",
    }
}
