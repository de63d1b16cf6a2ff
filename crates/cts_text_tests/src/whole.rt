use cts_base::read_whole;
use cts_rows::{Answers, debug_of, rows_end_so, same};
use std::alloc::Global;
use std::test::Fail;

/// The whole number of a text, if it is one.
struct Wholes;

impl Answers for Wholes {
    fn answer(alloc: Global, asked: &str) -> Result<String, Fail> {
        debug_of(alloc, &read_whole(asked.as_bytes()))
    }
}

const BOTH: &str = "\
+5|Some(5)
007|Some(7)
-0|Some(0)
-0x10|Some(-16)
+0XfF|Some(255)
18446744073709551615|Some(18446744073709551615)
-9223372036854775808|Some(-9223372036854775808)
0xffffffffffffffff|Some(18446744073709551615)
-0x8000000000000000|Some(-9223372036854775808)";

#[test]
fn whole_numbers_are_read_in_both_bases(rt: HostRuntime) -> Result<(), Fail> {
    rows_end_so::<Wholes>(rt.alloc(), BOTH)
}

const OTHERS: &str = "\
|None
+|None
-|None
0x|None
0xg|None
--1|None
+-1|None
-+1|None
0x+1|None
0x-1|None
1 |None
 1|None
1.0|None
a|None
x1|None
00x1|None
\u{e9}|None
18446744073709551616|None
-9223372036854775809|None
0x10000000000000000|None
-0x8000000000000001|None
340282366920938463463374607431768211456|None";

#[test]
fn other_texts_and_numbers_past_64_bits_are_no_whole_numbers(rt: HostRuntime) -> Result<(), Fail> {
    rows_end_so::<Wholes>(rt.alloc(), OTHERS)
}

#[test]
fn what_is_no_text_is_no_whole_number(rt: HostRuntime) -> Result<(), Fail> {
    let found = debug_of(rt.alloc(), &read_whole(b"\xff"))?;
    same(found.as_str(), "None", "a byte ff")
}

/// A hundred zeros and a 5.
const ZEROS: &str = "\
\
00000000000000000000000000000000000000000000000000\
000000000000000000000000000000000000000000000000005|Some(5)";

#[test]
fn leading_zeros_count_for_nothing(rt: HostRuntime) -> Result<(), Fail> {
    rows_end_so::<Wholes>(rt.alloc(), ZEROS)
}
