// How commands end over files, a shelf, a sink and a vault in memory, from rows of text.
use crate::failing::Failing;
use crate::shelves::stocked;
use cts_base::Bytes;
use cts_chain::Chain;
use cts_outside::{MemFiles, MemSink, MemVault};
use cts_proto::Shelf;
use cts_rows::{Answers, bytes_by_number, cut, in_one_line};
use cts_serve::{Status, run};
use std::alloc::Global;
use std::test::Fail;

/// The site of the tests that need one.
pub const SITE: &str = "INTERFACE I tcpip_client_interface.rb h 8080 8080 10.0 nil LENGTH 0 16 0 1";

/// The form of rows that have all that there is.
pub const WHOLE: &str = "$";

/// Each row has a label and, put into the form, a command, its definitions, its site, its script and how it ends, with bars between;
/// lines end with `;`. All rows that do not hold are told.
pub fn commands_end_so(alloc: Global, form: &str, rows: &str) -> Result<(), Fail> {
    let mut failing = Failing::new(alloc);
    for row in rows.split('\n') {
        row_ends_so(alloc, form, row, &mut failing)?;
    }
    failing.told()
}

/// The same of replays over these definitions and this site. Each row has a label and, put into the form, a script and how its
/// replay ends.
pub fn replays_end_so(
    alloc: Global,
    definitions: &str,
    site: &str,
    form: &str,
    rows: &str,
) -> Result<(), Fail> {
    let form = format!(in alloc; "replay d s c|{definitions}|{site}|{form}")?;
    commands_end_so(alloc, form.as_str(), rows)
}

/// The same of replays in cases of several lines: `@` and a label, the script, `>` and the status, and what is printed.
pub fn replays_go_so(
    alloc: Global,
    definitions: &str,
    site: &str,
    cases: &str,
) -> Result<(), Fail> {
    let mut failing = Failing::new(alloc);
    for case in cases.split('@').skip(1) {
        case_goes_so(alloc, definitions, site, case, &mut failing)?;
    }
    failing.told()
}

fn case_goes_so(
    alloc: Global,
    definitions: &str,
    site: &str,
    case: &str,
    failing: &mut Failing,
) -> Result<(), Fail> {
    let (label, rest) = cut(case, '\n')?;
    let (script, ends) = cut(rest, '>')?;
    let (status, printed) = cut(ends.trim(), '\n')?;
    let printed = printed.replace(alloc, '\n', ";")?;
    let wanted = format!(in alloc; "{status} {printed};")?;
    let found = said(alloc, "replay d s c", definitions, site, script)?;
    failing.note(alloc, label.trim(), found.as_str(), wanted.as_str())
}

/// Each row has a label, what is asked, and what is answered after its last bar. All rows that do not hold are told.
pub fn rows_told<A: Answers>(alloc: Global, rows: &str) -> Result<(), Fail> {
    let mut failing = Failing::new(alloc);
    for row in rows.split('\n') {
        row_told::<A>(alloc, row, &mut failing)?;
    }
    failing.told()
}

fn row_told<A: Answers>(alloc: Global, row: &str, failing: &mut Failing) -> Result<(), Fail> {
    let (label, row) = cut(row, '|')?;
    let Some((asked, wanted)) = row.rsplit_once('|') else {
        return Err(Fail::new("no bar"));
    };
    let found = A::answer(alloc, asked)?;
    failing.note(alloc, label, found.as_str(), wanted)
}

fn row_ends_so(alloc: Global, form: &str, row: &str, failing: &mut Failing) -> Result<(), Fail> {
    let (label, row) = cut(row, '|')?;
    let row = filled(alloc, form, row)?;
    let row = format!(in alloc; "{label}|{row}")?;
    let mut shelf = stocked(alloc)?;
    command_ends_so(alloc, &mut shelf, row.as_str(), failing)
}

/// The form with the row's parts in the place of its marks `$`; the last part may have bars.
fn filled(alloc: Global, form: &str, row: &str) -> Result<String, Fail> {
    let mut out = form.to_string(alloc)?;
    for part in row.splitn(form.split('$').skip(1).count(), '|') {
        out = with_part(alloc, out.as_str(), part)?;
    }
    Ok(out)
}

fn with_part(alloc: Global, form: &str, part: &str) -> Result<String, Fail> {
    let (front, after) = cut(form, '$')?;
    Ok(format!(in alloc; "{front}{part}{after}")?)
}

/// Notes a row with its label and all five parts where it does not hold over this shelf.
pub fn command_ends_so(
    alloc: Global,
    shelf: &mut Shelf,
    row: &str,
    failing: &mut Failing,
) -> Result<(), Fail> {
    let parts = row.splitn(6, '|').collect::<Vec<&str>>(alloc)?;
    let [label, words, definitions, site, script, wanted] = parts.as_slice() else {
        return Err(Fail::new("not a label and five parts"));
    };
    let found = said_over(alloc, shelf, words, definitions, site, script)?;
    failing.note(alloc, label, found.as_str(), wanted)
}

/// How a command ends over these files and a shelf with boxes of each kind, where nothing fails.
pub fn said(
    alloc: Global,
    words: &str,
    definitions: &str,
    site: &str,
    script: &str,
) -> Result<String, Fail> {
    let mut shelf = stocked(alloc)?;
    said_over(alloc, &mut shelf, words, definitions, site, script)
}

/// The same over this shelf.
pub fn said_over(
    alloc: Global,
    shelf: &mut Shelf,
    words: &str,
    definitions: &str,
    site: &str,
    script: &str,
) -> Result<String, Fail> {
    let mut files = files(alloc, definitions, site, script, Vec::new(alloc))?;
    ended_without_faults(alloc, words, shelf, &mut files)
}

/// How a command ends over this shelf and these files, where nothing else fails.
pub fn ended_without_faults(
    alloc: Global,
    words: &str,
    shelf: &mut Shelf,
    files: &mut MemFiles,
) -> Result<String, Fail> {
    let mut sink = MemSink::new(alloc, Vec::new(alloc));
    let mut vault = MemVault::new(alloc, Vec::new(alloc));
    ended(alloc, words, shelf, files, &mut sink, &mut vault)
}

/// The files of these contents, by the names `d`, `s` and `c`, and which of their reads fail.
pub fn files(
    alloc: Global,
    definitions: &str,
    site: &str,
    script: &str,
    failing: Vec<u64>,
) -> Result<MemFiles, Fail> {
    let mut held = Vec::new(alloc);
    hold(alloc, &mut held, "d", definitions)?;
    hold(alloc, &mut held, "s", site)?;
    hold(alloc, &mut held, "c", script)?;
    Ok(MemFiles::new(held, failing))
}

/// Holds a file of this name. A dash is no file.
fn hold(alloc: Global, held: &mut Vec<(Bytes, Bytes)>, name: &str, text: &str) -> Result<(), Fail> {
    if text == "-" {
        return Ok(());
    }
    let content = bytes_by_number(alloc, text)?;
    hold_bytes(alloc, held, name, content)
}

/// Holds a file of this name with these bytes.
pub fn hold_bytes(
    alloc: Global,
    held: &mut Vec<(Bytes, Bytes)>,
    name: &str,
    content: Vec<u8>,
) -> Result<(), Fail> {
    let name = Bytes::copy(alloc, name.as_bytes())?;
    Ok(held.push((name, Bytes::of(content)))?)
}

/// How a command ends over a shelf with boxes of each kind.
pub fn ended_stocked(
    alloc: Global,
    words: &str,
    files: &mut MemFiles,
    sink: &mut MemSink,
    vault: &mut MemVault,
) -> Result<String, Fail> {
    let mut shelf = stocked(alloc)?;
    ended(alloc, words, &mut shelf, files, sink, vault)
}

/// How a command ends: its status, and after a blank all that it prints, with `;` for each line feed.
pub fn ended(
    alloc: Global,
    words: &str,
    shelf: &mut Shelf,
    files: &mut MemFiles,
    sink: &mut MemSink,
    vault: &mut MemVault,
) -> Result<String, Fail> {
    let words = words.split_whitespace().collect::<Vec<&str>>(alloc)?;
    let status = status_of(alloc, &words, shelf, files, sink, vault);
    let printed = in_one_line(alloc, sink.bytes())?;
    Ok(format!(in alloc; "{status:?} {printed}")?)
}

/// The status of a command. Nothing is said of it, so that no test has to carry what is.
fn status_of(
    alloc: Global,
    words: &[&str],
    shelf: &mut Shelf,
    files: &mut MemFiles,
    sink: &mut MemSink,
    vault: &mut MemVault,
) -> Status {
    run::<Chain, Shelf, MemFiles, MemSink, MemVault>(alloc, words, shelf, files, sink, vault)
}
