use cts_base::{Decimal, print_decimal};
use cts_rows::{Answers, number, readable_of, rows_end_so};
use std::alloc::Global;
use std::test::Fail;

/// How a decimal of so many parts is printed.
struct Printed;

impl Answers for Printed {
    fn answer(alloc: Global, asked: &str) -> Result<String, Fail> {
        let parts = number(asked, 0)?;
        readable_of(alloc, &print_decimal(alloc, Decimal { parts }))
    }
}

const SHORTEST: &str = "\
-57600000000|Ok('-0.0576')
0|Ok('0.0')
1|Ok('0.000000000001')
-500000000000|Ok('-0.5')
1000000000000|Ok('1.0')
100500000000000|Ok('100.5')
-10000000000000|Ok('-10.0')
170141183460469231731687303715884105727|Ok('170141183460469231731687303.715884105727')
-170141183460469231731687303715884105728|Ok('-170141183460469231731687303.715884105728')";

#[test]
fn decimals_are_printed_in_their_shortest_form(rt: HostRuntime) -> Result<(), Fail> {
    rows_end_so::<Printed>(rt.alloc(), SHORTEST)
}
