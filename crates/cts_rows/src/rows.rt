// Tables of rows, and the one place that goes through them.
use crate::cut;
use std::alloc::Global;
use std::test::Fail;

/// What a table asks in its rows, answered in a text.
pub trait Answers {
    /// What is answered to the part of a row in which it asks.
    fn answer(alloc: Global, asked: &str) -> Result<String, Fail>;
}

/// Each row is answered by what stands after its last bar. Where one is not, all of them that are not are told: the first with what was
/// found, and the others with what they ask, as far as a failure has room for a text. A table is gone through by one call a row, since
/// a loop with more in it is slow to prove.
pub fn rows_end_so<A: Answers>(alloc: Global, rows: &str) -> Result<(), Fail> {
    let mut told = String::new(alloc);
    for row in rows.split('\n') {
        tell_row::<A>(alloc, row, &mut told)?;
    }
    none_told(told.as_str())
}

// Tells of a row that is answered otherwise.
fn tell_row<A: Answers>(alloc: Global, row: &str, told: &mut String) -> Result<(), Fail> {
    let (asked, wanted) = asked_and_wanted(row)?;
    let found = A::answer(alloc, asked)?;
    tell(alloc, found.as_str(), wanted, asked, told)
}

/// What a row asks, and what stands after its last bar.
pub fn asked_and_wanted(row: &str) -> Result<(&str, &str), Fail> {
    match row.rsplit_once('|') {
        Some(parts) => Ok(parts),
        None => Err(Fail::new("no bar")),
    }
}

fn tell(
    alloc: Global,
    found: &str,
    wanted: &str,
    asked: &str,
    told: &mut String,
) -> Result<(), Fail> {
    if found == wanted {
        return Ok(());
    }
    let more = if told.is_empty() {
        difference(alloc, found, wanted, asked)?
    } else {
        format!(in alloc; "; also at {asked}")?
    };
    Ok(told.push_str(more.as_str())?)
}

fn difference(alloc: Global, found: &str, wanted: &str, asked: &str) -> Result<String, Fail> {
    Ok(format!(in alloc; "found {found}, wanted {wanted}, at {asked}")?)
}

fn none_told(told: &str) -> Result<(), Fail> {
    if told.is_empty() {
        return Ok(());
    }
    Err(Fail::new(told))
}

/// What was found is what was wanted, where this was asked.
pub fn same(found: &str, wanted: &str, asked: &str) -> Result<(), Fail> {
    if found == wanted {
        return Ok(());
    }
    Err(Fail::new(format_args!("found {found}, wanted {wanted}, at {asked}")))
}
