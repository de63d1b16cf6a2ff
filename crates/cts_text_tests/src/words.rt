use cts_rows::{Answers, bytes_by_number, debug_of, readable_of, rows_end_so};
use cts_words::{Statement, last, statements};
use std::alloc::Global;
use std::test::Fail;

/// The statements of a row's bytes, each with its line and its words, or the fault. Each character of a row is the byte of its
/// number, and `;` a line feed.
struct Texts;

impl Answers for Texts {
    fn answer(alloc: Global, asked: &str) -> Result<String, Fail> {
        let bytes = bytes_by_number(alloc, asked)?;
        told(alloc, &bytes)
    }
}

fn told(alloc: Global, text: &[u8]) -> Result<String, Fail> {
    if text.len() > 1000 {
        return Err(Fail::new("too large"));
    }
    match statements(alloc, text) {
        Ok(found) => shown(alloc, &found),
        Err(fault) => debug_of(alloc, &fault),
    }
}

fn shown(alloc: Global, found: &[Statement]) -> Result<String, Fail> {
    let mut out = String::new(alloc);
    for statement in found {
        show(alloc, &mut out, statement)?;
    }
    Ok(out)
}

fn show(alloc: Global, out: &mut String, statement: &Statement) -> Result<(), Fail> {
    let text = readable_of(alloc, &(statement.line, statement.words.as_slice()))?;
    Ok(out.push_str(text.as_str())?)
}

const WORDS: &str = "\
A 'b c' #d|(1, ['A', 'b c'])
|
 \t\r|
\tA  b\r\rc |(1, ['A', 'b', 'c'])
A\x0bB\x0c\u{c2}\u{a0}|(1, ['A\x0bB\x0c\u{c2}\u{a0}'])
A\x00B \x00|(1, ['A\x00B', '\x00'])
A '' \"\"|(1, ['A', '', ''])
''|(1, [''])
'a''b'\"c\"d|(1, ['a', 'b', 'c', 'd'])
'a'b'c' d'e f'|(1, ['a', 'b'c'', 'd'e', 'f''])
'it\"s' \"it's\"|(1, ['it\"s', 'it's'])
' a\tb\r '|(1, [' a\tb\r '])
\u{c3}\u{a9} '\u{e2}\u{82}\u{ac}'|(1, ['\u{c3}\u{a9}', '\u{e2}\u{82}\u{ac}'])
# A|
A # it's|(1, ['A'])
A#b c#|(1, ['A#b', 'c#'])
A '#b' \"c#\"|(1, ['A', '#b', 'c#'])
'a'#b|(1, ['a'])
A \\'b|(1, ['A', '\\'b'])
A '\\' b|(1, ['A', '\\', 'b'])";

#[test]
fn words_stand_between_white_space_and_quotes(rt: HostRuntime) -> Result<(), Fail> {
    rows_end_so::<Texts>(rt.alloc(), WORDS)
}

const LINES: &str = "\
;;|
A;; # c;B c;|(1, ['A'])(4, ['B', 'c'])
A\r;B\r;|(1, ['A'])(2, ['B'])
A &;B|(1, ['A', 'B'])
A &\r;B &; C;D|(1, ['A', 'B', 'C'])(4, ['D'])
A & # x;B;C|(1, ['A', 'B'])(3, ['C'])
;&;A;B|(2, ['A'])(4, ['B'])
&;&;A|(1, ['A'])
A &;;B|(1, ['A'])(3, ['B'])
A &; |(1, ['A'])
&;;B|(3, ['B'])
&;;|
A & &;B|(1, ['A', '&', 'B'])
A & b;C|(1, ['A', '&', 'b'])(2, ['C'])
A \"&\";B|(1, ['A', '&'])(2, ['B'])
A '&'|(1, ['A', '&'])
A &b;c&;&&;D|(1, ['A', '&b'])(2, ['c&'])(3, ['&&'])(4, ['D'])
A 'b'&;C|(1, ['A', 'b', 'C'])
A &#;B|(1, ['A', '&#'])(2, ['B'])";

#[test]
fn lines_are_counted_and_joined(rt: HostRuntime) -> Result<(), Fail> {
    rows_end_so::<Texts>(rt.alloc(), LINES)
}

const FAULTS: &str = "\
A \u{ff}|NotText(2)
\u{ff}|NotText(0)
A \u{e2}\u{82}|NotText(2)
A \u{ed}\u{a0}\u{80}|NotText(2)
\u{c0}\u{80}|NotText(0)
A;\u{c3}\u{a9}\u{80}|NotText(4)
\u{f4}\u{90}\u{80}\u{80}|NotText(0)
# \u{f0}\u{9f}\u{98}|NotText(2)
A \"b|OpenQuote(1)
'|OpenQuote(1)
A;B 'c;d'|OpenQuote(2)
'a\" |OpenQuote(1)
'a' '|OpenQuote(1)
;'a;\"b|OpenQuote(2)
A &|DanglingJoin(1)
A &;|DanglingJoin(1)
&|DanglingJoin(1)
A & # x;|DanglingJoin(1)
A &;B &;|DanglingJoin(2)
A;;B &;C &|DanglingJoin(4)";

#[test]
fn each_fault_has_its_place(rt: HostRuntime) -> Result<(), Fail> {
    rows_end_so::<Texts>(rt.alloc(), FAULTS)
}

const EARLIER: &str = "\
A 'b;\u{ff}|NotText(5)
A &\u{ff}|NotText(3)
A 'b;C &|OpenQuote(1)
A &;B 'c|OpenQuote(2)";

#[test]
fn an_earlier_kind_of_fault_hides_a_later_one(rt: HostRuntime) -> Result<(), Fail> {
    rows_end_so::<Texts>(rt.alloc(), EARLIER)
}

/// The last byte of a text.
const LAST: &str = "\
123|Some(51)
1|Some(49)
|None";

struct Last;

impl Answers for Last {
    fn answer(alloc: Global, asked: &str) -> Result<String, Fail> {
        debug_of(alloc, &last(asked.as_bytes()))
    }
}

#[test]
fn the_last_one_is_found(rt: HostRuntime) -> Result<(), Fail> {
    rows_end_so::<Last>(rt.alloc(), LAST)
}
