// Texts of commands: where they are refused, and which values are numbers.
use cts_cmd::parse;
use cts_rows::{Answers, debug_of, readable_of, rows_end_so, same};
use std::alloc::Global;
use std::test::Fail;

/// Texts, the place at which each fails, and the cause.
const FAULTS: &str = "\
|Some(Refused { place: 0, cause: NoTarget })
  \t|Some(Refused { place: 3, cause: NoTarget })
T|Some(Refused { place: 1, cause: NoCommand })
 T \t|Some(Refused { place: 4, cause: NoCommand })
T A x|Some(Refused { place: 4, cause: NoWith })
T A with,|Some(Refused { place: 4, cause: NoWith })
T A with|Some(Refused { place: 8, cause: NoName })
T A with ,|Some(Refused { place: 9, cause: NoName })
T A with B 1,|Some(Refused { place: 13, cause: NoName })
T A with B 1, ,C 2|Some(Refused { place: 14, cause: NoName })
T A with B|Some(Refused { place: 10, cause: NoValue })
T A with B,C 1|Some(Refused { place: 10, cause: NoValue })
T A with B ,C 1|Some(Refused { place: 11, cause: NoValue })
T A with N'1'|Some(Refused { place: 13, cause: NoValue })
T A with B 'x\"|Some(Refused { place: 11, cause: OpenQuote })
T A with B 1 C|Some(Refused { place: 13, cause: NoComma })
T A with B 'x'y|Some(Refused { place: 14, cause: NoComma })";

struct Faults;

impl Answers for Faults {
    fn answer(alloc: Global, asked: &str) -> Result<String, Fail> {
        debug_of(alloc, &parse(alloc, asked.as_bytes()).err())
    }
}

#[test]
fn texts_are_refused_at_the_first_place(rt: HostRuntime) -> Result<(), Fail> {
    rows_end_so::<Faults>(rt.alloc(), FAULTS)
}

/// What that text asks for.
const ASKED: &str =
    "Request { target: 'T', command: 'a-b', params: List { items: [('B', Whole(16)), (''C'', Text('a, b')), ('D', Text('it's')), ('E', Text('')), ('F', Text('5'))] } }";

#[test]
fn words_are_numbers_and_quotes_are_texts(rt: HostRuntime) -> Result<(), Fail> {
    let text = " T\ta-b WiTh B 0x10 ,'C' \"a, b\",D it's , E '' , F '5'\r";
    let request = parse(rt.alloc(), text.as_bytes())?;
    let found = readable_of(rt.alloc(), &request)?;
    same(found.as_str(), ASKED, text)
}
