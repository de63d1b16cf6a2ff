// Texts in rows of which parts are repeated.
use cts_rows::{bytes_by_number, cut, number};
use std::alloc::Global;
use std::test::Fail;

/// The bytes of these parts, which have bars between. Each stands after how often it comes, and a `*`.
pub fn bytes_of_parts(alloc: Global, parts: &str) -> Result<Vec<u8>, Fail> {
    let text = repeated(alloc, parts)?;
    bytes_by_number(alloc, text.as_str())
}

fn repeated(alloc: Global, parts: &str) -> Result<String, Fail> {
    let mut out = String::new(alloc);
    for part in parts.split('|') {
        push_part(&mut out, part)?;
    }
    Ok(out)
}

fn push_part(out: &mut String, part: &str) -> Result<(), Fail> {
    let (times, text) = cut(part, '*')?;
    for _ in 0..number::<u32>(times, 0)? {
        out.push_str(text)?;
    }
    Ok(())
}
