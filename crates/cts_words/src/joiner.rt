//! Lines that are joined to statements.

ghost use Rattle.std.specs.Prelude.{◌≡◌, ◌+◌, ◌<◌, ◌^◌, ◌++◌, [], map, false, OnOk, Result};
ghost use Rattle.cts_words.specs.Grammar.{text};
ghost use Rattle.cts_words.specs.Statements.{joins, own, statement, is_join};
ghost use Rattle.cts_words.specs.Answers.{Gives};
ghost use Rattle.cts_words.specs.Seen.{word_of};
ghost use Rattle.cts_words.specs.Joining.{ends, Adds, IsStart};

use crate::fault::WordFault;
use crate::line::Piece;
use crate::statement::Statement;
use cts_base::{Bytes, List, Memory};
use std::alloc::Global;
use std::mem;

/// The statements of the lines so far, and what is known of the statement that goes on.
#[derive(Drop)]
pub struct Joiner {
    pub done: Vec<Statement>,
    /// The words of the statement that goes on.
    pub words: Vec<Bytes>,
    /// The number of its first line.
    pub first: u32,
    /// How many lines there were.
    pub line: u32,
    /// Whether the last of them ends with the join word.
    pub joined: bool,
}

impl Piece<'_> {
    fn is_join(&self) -> bool
        ensures { result ≡ is_join (word_of self.now) }
    {
        matches!(self, Piece::Bare([b'&']))
    }

    fn text(&self) -> &[u8]
        ensures { result.now ≡ text (word_of self.now) }
    {
        match self {
            Piece::Bare(text) => text,
            Piece::Quoted(text) => text,
        }
    }
}

/// Whether a line ends with the join word, and its words without that.
fn split_join<'a, 'b>(row: &'a [Piece<'b>]) -> (bool, &'a [Piece<'b>])
    ensures joins { result.0 ≡ joins (map word_of row.now) }
    ensures own { map text (map word_of result.1.now) ≡ own (map word_of row.now) }
{
    let Some((last, front)) = row.split_last() else {
        return (false, row);
    };
    if last.is_join() {
        (true, front)
    } else {
        (false, row)
    }
}

/// Copies words after others.
fn push_texts(alloc: Global, words: &mut Vec<Bytes>, pieces: &[Piece]) -> Result<(), Memory>
    ensures { OnOk result (words.new.items ≡ words.old.items ++ map text (map word_of pieces.now)) }
{
    for piece in pieces {
        words.push(Bytes::copy(alloc, piece.text())?)?;
    }
    Ok(())
}

impl Joiner {
    pub fn new(alloc: Global) -> Joiner
        ensures start { IsStart result }
        ensures line { result.line ≡ 0 }
        ensures idle { result.joined ≡ false → result.words.items ≡ [] }
    {
        Joiner {
            done: Vec::new(alloc),
            words: Vec::new(alloc),
            first: 1,
            line: 0,
            joined: false,
        }
    }

    /// Ends the statement: the next line begins another.
    fn end_statement(&mut self, alloc: Global) -> Result<(), Memory>
        requires { self.old.line + 1 < 2 ^ 32 }
        ensures done { let next = statement self.old.first self.old.words.items in
            OnOk result (self.new.done.items ≡ self.old.done.items ++ next) }
        ensures words { OnOk result (self.new.words.items ≡ []) }
        ensures first { OnOk result (self.new.first ≡ self.old.line + 1) }
        ensures line { self.new.line ≡ self.old.line }
        ensures joined { self.new.joined ≡ self.old.joined }
    {
        if !self.words.is_empty() {
            let words = mem::replace(&mut self.words, Vec::new(alloc));
            self.done.push(Statement {
                line: self.first,
                words: List::of(words),
            })?;
        }
        self.first = self.line + 1;
        Ok(())
    }

    /// Adds the words of the next line.
    pub fn add(&mut self, alloc: Global, row: &[Piece]) -> Result<(), Memory>
        requires { self.old.line + 2 < 2 ^ 32 }
        ensures adds { OnOk result (Adds self.old (map word_of row.now) self.new) }
        ensures line { OnOk result (self.new.line ≡ self.old.line + 1) }
        ensures idle { OnOk result (self.new.joined ≡ false → self.new.words.items ≡ []) }
    {
        let (joined, own) = split_join(row);
        push_texts(alloc, &mut self.words, own)?;
        self.line += 1;
        self.joined = joined;
        if !joined {
            self.end_statement(alloc)?;
        }
        Ok(())
    }

    /// The statements of all lines, or the fault that the last line joins.
    pub fn finish(self) -> Result<Vec<Statement>, WordFault>
        requires { self.joined ≡ false → self.words.items ≡ [] }
        ensures { Gives (λ v. v.items) result (ends self []) }
    {
        if self.joined {
            return Err(WordFault::DanglingJoin(self.line));
        }
        Ok(self.done)
    }
}
