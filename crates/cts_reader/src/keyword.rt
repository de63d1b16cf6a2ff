// Keywords in any case.
ghost use Rattle.std.specs.Prelude.{◌≡◌, map};
ghost use Rattle.cts_reader.specs.Words.{keyword_in};

use cts_base::spells;

/// A keyword as it is written.
#[derive(Clone, Copy, Debug)]
pub struct Spelled<K> {
    /// Its letters, in upper case.
    pub text: &'static [u8],
    /// The keyword.
    pub keyword: K,
}

#[tactic(auto, unfolding(crate::specs::Words::is_keyword))]
/// The keyword of this list that the word is, in any case.
pub fn keyword_in<K: Copy>(list: &[Spelled<K>], word: &[u8]) -> Option<K>
    ensures { result ≡ keyword_in (map (λ s. (s.text.now, s.keyword)) list.now) word.now }
{
    for spelled in list {
        if spells(word, spelled.text) {
            return Some(spelled.keyword);
        }
    }
    None
}
