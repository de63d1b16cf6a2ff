//! The words of one line.

ghost use Rattle.std.specs.Prelude.{◌≡◌, ◌≤◌, ◌<◌, ◌-◌, length, List, [], ◌==◌, not, Some, None, map, IfSome, IfNone};
ghost use Rattle.std.specs.List.{position_or_len};
ghost use Rattle.cts_words.specs.Answers.{Gives};
ghost use Rattle.cts_words.specs.Grammar.{words, with_word, Quoted, Between, InWord, InQuotes, is_white, is_quote, hash};
ghost use Rattle.cts_words.specs.Joining.{or_open};
ghost use Rattle.cts_words.specs.Seen.{IsBlackFirst, NextIs, word_of, stops};

use crate::fault::WordFault;
use std::alloc::Global;

/// A word as it stands in its line, without its quotes.
#[derive(Clone, Copy)]
pub enum Piece<'a> {
    Bare(&'a [u8]),
    Quoted(&'a [u8]),
}

/// What stands next in a line.
enum Next<'a> {
    /// A word, and what follows it.
    Word(Piece<'a>, &'a [u8]),
    /// A quote that does not end.
    Open,
    /// Nothing, or a comment.
    End,
}

/// What a run of bytes ends before.
#[derive(Clone, Copy)]
enum Stop {
    White,
    Black,
    Byte(u8),
}

impl Stop {
    fn is_at(&self, byte: u8) -> bool
        ensures { result ≡ stops self.now byte }
    {
        match self {
            Stop::White => is_space(byte),
            Stop::Black => !is_space(byte),
            Stop::Byte(stop) => byte == *stop,
        }
    }
}

fn is_space(byte: u8) -> bool
    ensures { result ≡ is_white byte }
{
    byte == b' ' || byte == b'\t' || byte == b'\r'
}

fn is_quote_mark(byte: u8) -> bool
    ensures { result ≡ is_quote byte }
{
    byte == b'"' || byte == b'\''
}

/// How many bytes stand before the first at which to stop.
fn run_len(stop: Stop, line: &[u8]) -> usize
    ensures place { result ≡ position_or_len (stops stop) line.now }
    ensures within { result ≤ length line.now }
{
    for (at, byte) in line.iter().enumerate() {
        if stop.is_at(*byte) {
            return at;
        }
    }
    line.len()
}

/// The line from the first byte on that is not white.
fn skip_white(line: &[u8]) -> &[u8]
    ensures same { words Between line.now ≡ words Between result.now }
    ensures black { IsBlackFirst result.now }
    ensures shorter { length result.now ≤ length line.now }
{
    &line[run_len(Stop::Black, line)..]
}

/// The rest of a quoted word, and what follows the quote that ends it.
fn close_quote(quote: u8, line: &[u8]) -> Option<(&[u8], &[u8])>
    ensures open { IfNone result (words (InQuotes quote []) line.now ≡ None) }
    ensures word { IfSome result (λ x.
        words (InQuotes quote []) line.now ≡ with_word (Quoted x.0.now) (words Between x.1.now)) }
    ensures shorter { IfSome result (λ x. length x.1.now < length line.now) }
{
    let len = run_len(Stop::Byte(quote), line);
    if len == line.len() {
        return None;
    }
    Some((&line[..len], &line[len + 1..]))
}

fn next_word(line: &[u8]) -> Next<'_>
    ensures { NextIs line.now result }
{
    let line = skip_white(line);
    let Some((first, rest)) = line.split_first() else {
        return Next::End;
    };
    if *first == b'#' {
        return Next::End;
    }
    if is_quote_mark(*first) {
        return match close_quote(*first, rest) {
            Some((word, rest)) => Next::Word(Piece::Quoted(word), rest),
            None => Next::Open,
        };
    }
    let len = 1 + run_len(Stop::White, rest);
    Next::Word(Piece::Bare(&line[..len]), &line[len..])
}

/// The words of the line with this number, or the fault that a quoted word does not end on it.
pub fn words_of(alloc: Global, number: u32, line: &[u8]) -> Result<Vec<Piece<'_>>, WordFault>
    ensures { Gives (λ v. map word_of v.items) result (or_open number (words Between line.now)) }
{
    let mut found = Vec::new(alloc);
    let mut rest = line;
    loop {
        match next_word(rest) {
            Next::End => return Ok(found),
            Next::Open => return Err(WordFault::OpenQuote(number)),
            Next::Word(word, after) => {
                found.push(word)?;
                rest = after;
            }
        }
    }
}
