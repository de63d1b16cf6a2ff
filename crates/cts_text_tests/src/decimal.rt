use cts_base::read_decimal;
use cts_rows::{Answers, debug_of, rows_end_so};
use std::alloc::Global;
use std::test::Fail;

/// The parts of a decimal, or why the text is none.
struct Decimals;

impl Answers for Decimals {
    fn answer(alloc: Global, asked: &str) -> Result<String, Fail> {
        debug_of(alloc, &read_decimal(asked.as_bytes()))
    }
}

const PARTS: &str = "\
-100.0|Ok(Decimal { parts: -100000000000000 })
+7|Ok(Decimal { parts: 7000000000000 })
0.000000000001|Ok(Decimal { parts: 1 })
-0.0576|Ok(Decimal { parts: -57600000000 })
-0.0|Ok(Decimal { parts: 0 })
9999999999999999999999999.999999999999|Ok(Decimal { parts: 9999999999999999999999999999999999999 })";

#[test]
fn decimals_are_read_in_parts(rt: HostRuntime) -> Result<(), Fail> {
    rows_end_so::<Decimals>(rt.alloc(), PARTS)
}

const OTHERS: &str = "\
|Err(Form)
-|Err(Form)
1.|Err(Form)
.5|Err(Form)
.|Err(Form)
1.2.3|Err(Form)
1.-2|Err(Form)
--1|Err(Form)
1e3|Err(Form)
0x10|Err(Form)
 1|Err(Form)
1 |Err(Form)
1,5|Err(Form)";

#[test]
fn other_texts_are_no_decimals(rt: HostRuntime) -> Result<(), Fail> {
    rows_end_so::<Decimals>(rt.alloc(), OTHERS)
}

const MANY: &str = "\
0.0000000000001|Err(TooManyDigits)
10000000000000000000000000|Err(TooManyDigits)
00000000000000000000000001.5|Err(TooManyDigits)
10000000000000000000000000.|Err(Form)";

#[test]
fn digits_past_the_room_are_too_many(rt: HostRuntime) -> Result<(), Fail> {
    rows_end_so::<Decimals>(rt.alloc(), MANY)
}
