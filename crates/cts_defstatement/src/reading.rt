// The words of a statement read to what it says.
ghost use Rattle.std.specs.Prelude.{◌∷◌, IfOk};
ghost use Rattle.cts_reader.specs.Reading.{at_line, Judged};
ghost use Rattle.cts_defstatement.specs.Lines.{line_in};
ghost use Rattle.cts_defstatement.specs.Refusals.{open_kind, word_cause};
ghost use Rattle.cts_defstatement.specs.Rules.{KeepsRules};

use crate::keyword::{is_array_keyword, keyword_of};
use crate::lines::line_of;
use crate::refusal::first_cause;
use crate::{DefCause, DefFault, Line, Open};
use cts_base::Bytes;
use std::alloc::Global;

/// What the words of a statement say where this is open before it, the first of them being its keyword. `Refused` with
/// this line and the first cause for which they are refused, and exactly where there is one; `Memory` where no memory was
/// found.
pub fn read_line(alloc: Global, line: u32, opened: Open, words: &[Bytes]) -> Result<Line, DefFault>
    ensures read { Judged (at_line line (word_cause opened words.now)) (line_in words.now) result }
    ensures kept { IfOk result (λ l. KeepsRules (open_kind opened) l) }
{
    let Some((keyword, rest)) = words.split_first() else {
        let cause = DefCause::UnknownKeyword;
        return Err(DefFault::Refused { line, cause });
    };
    read_words(alloc, line, opened, keyword.as_slice(), rest)
}

fn read_words(
    alloc: Global,
    line: u32,
    opened: Open,
    word: &[u8],
    words: &[Bytes],
) -> Result<Line, DefFault>
    ensures read { Judged (at_line line (word_cause opened (word.now ∷ words.now))) (line_in (word.now ∷ words.now)) result }
    ensures kept { IfOk result (λ l. KeepsRules (open_kind opened) l) }
{
    if is_array_keyword(word) {
        let cause = DefCause::ArrayItem;
        return Err(DefFault::Refused { line, cause });
    }
    let Some(keyword) = keyword_of(word) else {
        let cause = DefCause::UnknownKeyword;
        return Err(DefFault::Refused { line, cause });
    };
    match first_cause(opened, keyword, words) {
        Some(cause) => Err(DefFault::Refused { line, cause }),
        None => Ok(line_of(alloc, keyword, words)?),
    }
}
