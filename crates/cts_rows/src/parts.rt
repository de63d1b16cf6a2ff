// The parts of a row.
use std::alloc::Global;
use std::str::FromStr;
use std::test::Fail;

/// The part of a row at this place, counted from 0, between blanks; nothing after the last.
pub fn part(row: &str, n: usize) -> &str {
    row.split(' ').nth(n).unwrap_or("")
}

/// The part of a row at this place between bars; nothing after the last.
pub fn field(row: &str, n: usize) -> &str {
    row.split('|').nth(n).unwrap_or("")
}

/// The number at this place of a row.
pub fn number<N: FromStr>(row: &str, n: usize) -> Result<N, Fail>
where
    <N as FromStr>::Err: Drop,
{
    match part(row, n).parse::<N>() {
        Ok(number) => Ok(number),
        Err(_) => Err(Fail::new("no number")),
    }
}

/// The numbers between blanks.
pub fn numbers(alloc: Global, text: &str) -> Result<Vec<u64>, Fail> {
    let mut found = Vec::new(alloc);
    for word in text.split_ascii_whitespace() {
        found.push(number(word, 0)?)?;
    }
    Ok(found)
}
