// What is copied, compared and found in a set, whatever it is.
use cts_rows::{cut, debug_of, same};
use std::alloc::Global;
use std::collections::BTreeSet;
use std::test::Fail;

/// What a set may hold, read from a word.
pub trait Key: Clone + Ord + Drop {
    /// The key that this word says.
    fn read(alloc: Global, word: &str) -> Result<Self, Fail>;
}

/// Two keys with a dot between.
impl<A: Key, B: Key> Key for (A, B) {
    fn read(alloc: Global, word: &str) -> Result<(A, B), Fail> {
        let (first, second) = cut(word, '.')?;
        let first = A::read(alloc, first)?;
        Ok((first, B::read(alloc, second)?))
    }
}

/// A key equals its clone, and differs from the other.
pub fn differs<K: Key>(alloc: Global, word: &str, other: &K) -> Result<(), Fail> {
    let key = K::read(alloc, word)?;
    let found = debug_of(alloc, &(is_cloned(&key)?, key != *other))?;
    same(found.as_str(), "(true, true)", word)
}

fn is_cloned<K: Key>(key: &K) -> Result<bool, Fail> {
    Ok(key.clone()? == *key)
}

/// What a set answers to these words one after the other, and how many keys it then has: a word is put into it, and it says
/// whether it is new; a word after a `?` is looked for, and it says whether it is there.
pub fn set_answers<K: Key>(alloc: Global, words: &str, wanted: &str) -> Result<(), Fail> {
    let mut set = BTreeSet::new(alloc);
    let found = answers_of::<K>(alloc, &mut set, words)?;
    same(found.as_str(), wanted, words)
}

fn answers_of<K: Key>(alloc: Global, set: &mut BTreeSet<K>, words: &str) -> Result<String, Fail> {
    let mut answers = Vec::new(alloc);
    put_answers(alloc, set, words, &mut answers)?;
    debug_of(alloc, &(answers.as_slice(), set.len()))
}

fn put_answers<K: Key>(
    alloc: Global,
    set: &mut BTreeSet<K>,
    words: &str,
    answers: &mut Vec<bool>,
) -> Result<(), Fail> {
    for word in words.split(' ') {
        answers.push(answer_of(alloc, set, word)?)?;
    }
    Ok(())
}

fn answer_of<K: Key>(alloc: Global, set: &mut BTreeSet<K>, word: &str) -> Result<bool, Fail> {
    match word.strip_prefix('?') {
        Some(word) => has(alloc, set, word),
        None => is_new(alloc, set, word),
    }
}

fn has<K: Key>(alloc: Global, set: &BTreeSet<K>, word: &str) -> Result<bool, Fail> {
    Ok(set.contains(&K::read(alloc, word)?))
}

fn is_new<K: Key>(alloc: Global, set: &mut BTreeSet<K>, word: &str) -> Result<bool, Fail> {
    Ok(set.insert(K::read(alloc, word)?)?)
}
