// What is read of texts whose lines end with `;`, and texts that are made of rows.
use cts_defread::read_definitions;
use cts_plan::read_site;
use cts_rows::{display_of, field, number, refusal_of};
use cts_samples::{definitions_of, statements_of};
use cts_words::Statement;
use std::alloc::Global;
use std::test::Fail;

/// `read`, or the line and the cause for which definitions are refused.
pub fn definitions_text(alloc: Global, text: &str) -> Result<String, Fail> {
    let found = statements_of(alloc, text)?;
    refusal_of(alloc, read_definitions(alloc, &found))
}

/// The same of a site without definitions.
pub fn site_text(alloc: Global, text: &str) -> Result<String, Fail> {
    let found = statements_of(alloc, text)?;
    text_of_site(alloc, &found)
}

fn text_of_site(alloc: Global, found: &[Statement]) -> Result<String, Fail> {
    let definitions = definitions_of(alloc, "")?;
    refusal_of(alloc, read_site(alloc, found, definitions))
}

/// Two texts as one.
pub fn joined(alloc: Global, front: &str, rest: &str) -> Result<String, Fail> {
    display_of(alloc, &format_args!("{front}{rest}"))
}

/// The text of a row with five parts between bars: first lines, then as many lines as its fourth part says, each of its second part, a
/// number from 0 on and its third part, and then last lines.
pub fn crowd(alloc: Global, row: &str) -> Result<String, Fail> {
    let mut out = field(row, 0).to_string(alloc)?;
    let count = number(field(row, 3), 0)?;
    push_lines(alloc, &mut out, field(row, 1), count, field(row, 2))?;
    out.push_str(field(row, 4))?;
    Ok(out)
}

fn push_lines(
    alloc: Global,
    out: &mut String,
    before: &str,
    count: u32,
    after: &str,
) -> Result<(), Fail> {
    for n in 0..count {
        let line = format!(in alloc; "{before}{n}{after};")?;
        out.push_str(line.as_str())?;
    }
    Ok(())
}
