use cts_base::{in_upper_case, is_name, spells};
use cts_rows::{Answers, bytes_by_number, debug_of, part, readable_of, rows_end_so};
use std::alloc::Global;
use std::test::Fail;

/// Whether a word spells a text.
const SPELLED: &str = "\
Target_1 TARGET_1|true
TARGET TARGET_1|false
TARGET_1 TARGET|false";

struct Spelled;

impl Answers for Spelled {
    fn answer(alloc: Global, asked: &str) -> Result<String, Fail> {
        let (word, text) = (part(asked, 0), part(asked, 1));
        debug_of(alloc, &spells(word.as_bytes(), text.as_bytes()))
    }
}

#[test]
fn words_are_compared_in_any_case(rt: HostRuntime) -> Result<(), Fail> {
    rows_end_so::<Spelled>(rt.alloc(), SPELLED)
}

/// Whether a word is a name.
const NAMES: &str = "\
Target_1|true
Target-1|false";

struct Names;

impl Answers for Names {
    fn answer(alloc: Global, asked: &str) -> Result<String, Fail> {
        debug_of(alloc, &is_name(asked.as_bytes()))
    }
}

#[test]
fn names_are_told(rt: HostRuntime) -> Result<(), Fail> {
    rows_end_so::<Names>(rt.alloc(), NAMES)
}

/// The bytes of a text in upper case.
struct Upper;

impl Answers for Upper {
    fn answer(alloc: Global, asked: &str) -> Result<String, Fail> {
        let bytes = bytes_by_number(alloc, asked)?;
        readable_of(alloc, &in_upper_case(alloc, &bytes))
    }
}

#[test]
fn letters_alone_change_their_case(rt: HostRuntime) -> Result<(), Fail> {
    rows_end_so::<Upper>(rt.alloc(), "az{`@\u{e9}|Ok('AZ{`@\u{e9}')")
}
