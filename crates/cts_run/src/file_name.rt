// Names of files.
ghost use Rattle.std.specs.Prelude.{◌≡◌};

use std::marker::Model;

/// The name of a file, as a word of the command line gives it. A fault of a file carries it.
#[derive(Drop)]
pub struct FileName<'a> {
    text: &'a str,
}

impl<'a> Model for FileName<'a> {
    ghost use Rattle.std.specs.Prelude.{List, ℕ};

    ghost Value = { List ℕ };

    ghost view = { λ n. n.text.now };
}

impl<'a> FileName<'a> {
    /// The name that is this word.
    pub fn of(text: &'a str) -> FileName<'a>
        ensures { result ≡ text.now }
    {
        FileName { text }
    }

    /// The same name once more.
    pub fn again(&self) -> FileName<'a>
        ensures { result ≡ self.now }
    {
        FileName { text: self.text }
    }

    /// Its text.
    pub fn text(&self) -> &'a str
        ensures { result.now ≡ self.now }
    {
        self.text
    }
}

/// The names of files, as words of the command line give them one after the other.
#[derive(Drop)]
pub struct FileNames<'a> {
    words: &'a [&'a str],
}

impl<'a> Model for FileNames<'a> {
    ghost use Rattle.std.specs.Prelude.{List, map, ℕ};

    ghost Value = { List (List ℕ) };

    ghost view = { λ n. map (λ w. w.now) n.words.now };
}

impl<'a> FileNames<'a> {
    ghost use Rattle.std.specs.Prelude.{map};

    /// The names that are these words.
    pub fn of(words: &'a [&'a str]) -> FileNames<'a>
        ensures { result ≡ map (λ w. w.now) words.now }
    {
        FileNames { words }
    }

    /// The words.
    pub fn words(&self) -> &'a [&'a str]
        ensures { map (λ w. w.now) result.now ≡ self.now }
    {
        self.words
    }
}
