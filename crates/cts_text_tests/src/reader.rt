use cts_reader::{Fault, Reader, Spelled, first_that_holds, keyword_in, read_statements, word_at};
use cts_rows::{Answers, debug_of, display_of, number, rows_end_so, same};
use cts_samples::statements_of;
use cts_words::Statement;
use std::alloc::Global;
use std::test::Fail;

// Counts statements, and refuses those of the line that is given, for cause 2.
#[derive(Drop)]
struct Count {
    taken: u64,
}

impl Reader for Count {
    ghost use Rattle.std.specs.Prelude.{Some, None, ◌==◌, if◌then◌else◌};

    type Cause = u8;

    type Given = u32;

    ghost refusal = { λ given before s. if s.line == given then Some (s.line, 2) else None };

    ghost stands = { λ given count before. Unit {0} };

    fn take(&mut self, _: Global, given: &u32, statement: &Statement) -> Result<(), Fault<u8>> {
        let line = statement.line;
        if line == *given {
            return Err(Fault::Refused { line, cause: 2 });
        }
        self.taken = self.taken.saturating_add(1);
        Ok(())
    }
}

/// The first of the causes 1, 2 and 3 that holds, where those from this one on hold.
const FIRST: &str = "\
2|Some(2)
1|Some(1)
4|None";

struct First;

impl Answers for First {
    fn answer(alloc: Global, asked: &str) -> Result<String, Fail> {
        debug_of(alloc, &first_from(number(asked, 0)?))
    }
}

fn first_from(least: u8) -> Option<u8> {
    first_that_holds(&[1, 2, 3], |cause| cause >= least)
}

#[test]
fn first_cause_that_holds_is_told(rt: HostRuntime) -> Result<(), Fail> {
    rows_end_so::<First>(rt.alloc(), FIRST)
}

const KEYWORDS: [Spelled<u8>; 2] = [
    Spelled {
        text: b"ITEM",
        keyword: 1u8,
    },
    Spelled {
        text: b"ID_ITEM",
        keyword: 2u8,
    },
];

/// The keyword that a word is.
const WORDS: &str = "\
Id_iTem|Some(2)
item|Some(1)
items|None";

struct Keywords;

impl Answers for Keywords {
    fn answer(alloc: Global, asked: &str) -> Result<String, Fail> {
        debug_of(alloc, &keyword_in(&KEYWORDS, asked.as_bytes()))
    }
}

#[test]
fn keywords_are_read_in_any_case(rt: HostRuntime) -> Result<(), Fail> {
    rows_end_so::<Keywords>(rt.alloc(), WORDS)
}

/// What a pass over three statements that refuses this line comes to, and how many it takes.
const PASSES: &str = "\
3|(Err(Refused { line: 3, cause: 2 }), 1)
2|(Ok(()), 3)";

struct Passes;

impl Answers for Passes {
    fn answer(alloc: Global, asked: &str) -> Result<String, Fail> {
        let line = number(asked, 0)?;
        let all = statements_of(alloc, "A x;;B;C;")?;
        debug_of(alloc, &passed(alloc, line, &all))
    }
}

fn passed(alloc: Global, line: u32, all: &[Statement]) -> (Result<(), Fault<u8>>, u64) {
    let mut count = Count { taken: 0 };
    let answer = read_statements(alloc, &mut count, &line, all);
    (answer, count.taken)
}

#[test]
fn first_statement_that_is_refused_ends_the_pass(rt: HostRuntime) -> Result<(), Fail> {
    rows_end_so::<Passes>(rt.alloc(), PASSES)
}

/// The second and the third word of one statement.
fn words_at(alloc: Global, all: &[Statement]) -> Result<String, Fail> {
    let [statement] = all else {
        return Err(Fail::new("not one statement"));
    };
    let words = statement.words.as_slice();
    debug_of(alloc, &(word_at(words, 1), word_at(words, 2)))
}

#[test]
fn words_are_found_by_their_places(rt: HostRuntime) -> Result<(), Fail> {
    let all = statements_of(rt.alloc(), "A x;")?;
    let found = words_at(rt.alloc(), &all)?;
    same(found.as_str(), "([120], [])", "two words")
}

#[test]
fn faults_say_their_line_and_cause(rt: HostRuntime) -> Result<(), Fail> {
    let refused: Fault<u8> = Fault::Refused { line: 7, cause: 3 };
    let text = display_of(rt.alloc(), &refused)?;
    same(text.as_str(), "line 7: 3", "a fault")
}
