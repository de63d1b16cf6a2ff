//! A text read line by line.

ghost use Rattle.std.specs.Prelude.{◌≡◌, ◌+◌, ◌<◌, ◌^◌, ◌∷◌, ◌↔◌, ℕ, length, IsErrOf};
ghost use Rattle.cts_words.specs.Statements.{lines, said, IsNotTextAt, IsOpenAt, IsDanglingAt};
ghost use Rattle.cts_words.specs.Joining.{lines_said};
ghost use Rattle.cts_words.specs.Answers.{Gives, UnlessMemory};

use crate::fault::WordFault;
use crate::joiner::Joiner;
use crate::line::words_of;
use crate::statement::Statement;
use std::alloc::Global;
use std::str;

/// The first line, and what follows it.
fn cut_line(text: &[u8]) -> (&[u8], &[u8])
    requires { 0 < length text.now }
    ensures cut { lines text.now ≡ result.0.now ∷ lines result.1.now }
    ensures shorter { length result.1.now < length text.now }
{
    for (at, byte) in text.iter().enumerate() {
        if *byte == b'\n' {
            return (&text[..at], &text[at + 1..]);
        }
    }
    (text, &text[text.len()..])
}

/// The statements of a text that is UTF-8.
fn read_lines(alloc: Global, text: &[u8]) -> Result<Vec<Statement>, WordFault>
    requires { length text.now + 1 < 2 ^ 32 }
    ensures { Gives (λ v. v.items) result (lines_said (lines text.now)) }
{
    let mut joiner = Joiner::new(alloc);
    let mut rest = text;
    while !rest.is_empty() {
        let (line, after) = cut_line(rest);
        let row = words_of(alloc, joiner.line + 1, line)?;
        joiner.add(alloc, &row)?;
        rest = after;
    }
    joiner.finish()
}

/// The statements of a text, or its first fault. Only want of memory is not told by the text.
pub fn statements(alloc: Global, text: &[u8]) -> Result<Vec<Statement>, WordFault>
    requires { length text.now + 1 < 2 ^ 32 }

    // What the text says, unless memory ran out.
    ensures statements { Gives (λ v. v.items) result (said text.now) }

    // Each fault comes exactly where the text has it.
    ensures not_text { UnlessMemory result
        ((place : ℕ) → IsErrOf result (WordFault.NotText place) ↔ IsNotTextAt text.now place) }
    ensures open_quote { UnlessMemory result
        ((line : ℕ) → IsErrOf result (WordFault.OpenQuote line) ↔ IsOpenAt text.now line) }
    ensures dangling_join { UnlessMemory result
        ((line : ℕ) → IsErrOf result (WordFault.DanglingJoin line) ↔ IsDanglingAt text.now line) }
{
    match str::from_utf8(text) {
        Ok(_) => read_lines(alloc, text),
        Err(fault) => Err(WordFault::NotText(fault.valid_up_to() as u64)),
    }
}
