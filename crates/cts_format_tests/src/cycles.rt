// Where parts of logs begin.
use cts_log::Cycle;
use cts_rows::{Answers, cut, number, rows_end_so, same};
use std::alloc::Global;
use std::test::Fail;

/// Lengths of entries, each with how many of them come, and the places of those that begin a new part, where a part has at most 4,096
/// bytes. Behind the head of a part is room for 165 entries of 24 bytes.
const PARTS: &str = "\
24*331|165;330;
5000*1 24*1|1;
24*1 5000*2 24*2|1;2;3;
3968*1 1*1|1;
3967*1 1*2|2;
0*2 3969*1|
0*2 3968*1 0*2 1*1|5;";

struct Parts;

impl Answers for Parts {
    fn answer(alloc: Global, asked: &str) -> Result<String, Fail> {
        let mut cycle = Cycle::new(Some(4_096));
        let mut out = String::new(alloc);
        let mut place = 0;
        for word in asked.split(' ') {
            let (length, times) = cut(word, '*')?;
            place = put_parts(
                alloc,
                &mut cycle,
                number(length, 0)?,
                number(times, 0)?,
                place,
                &mut out,
            )?;
        }
        Ok(out)
    }
}

/// Appends the places of those of so many entries of this length that begin a part, where so many came before, and answers how many have
/// come then.
fn put_parts(
    alloc: Global,
    cycle: &mut Cycle,
    length: u32,
    times: u64,
    before: u64,
    out: &mut String,
) -> Result<u64, Fail> {
    let mut place = before;
    for _ in 0..times {
        if cycle.next(u64::from(length)) {
            put_place(alloc, place, out)?;
        }
        place = place.saturating_add(1);
    }
    Ok(place)
}

fn put_place(alloc: Global, place: u64, out: &mut String) -> Result<(), Fail> {
    let text = format!(in alloc; "{place};")?;
    Ok(out.push_str(text.as_str())?)
}

#[test]
fn a_part_begins_where_an_entry_would_pass_the_limit(rt: HostRuntime) -> Result<(), Fail> {
    rows_end_so::<Parts>(rt.alloc(), PARTS)
}

#[test]
fn without_a_limit_no_part_begins(rt: HostRuntime) -> Result<(), Fail> {
    let mut cycle = Cycle::new(None);
    let mut out = String::new(rt.alloc());
    put_parts(rt.alloc(), &mut cycle, 4_294_967_295, 10, 0, &mut out)?;
    same(out.as_str(), "", "no limit")
}
