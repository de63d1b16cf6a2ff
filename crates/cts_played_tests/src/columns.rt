// Columns of a log: the heading, the rows, and which words are unknown.
use crate::files::{DEFINITIONS, ENTRIES, log_of};
use cts_base::Bytes;
use cts_conv::ValueKind;
use cts_def::Definitions;
use cts_extract::{ColumnFault, Columns, has_few_texts, kind_named, texts_of};
use cts_log::{LogEntry, LogReader};
use cts_rows::{Answers, as_text, debug_of, in_one_line, part, rows_end_so};
use cts_samples::definitions_of;
use std::alloc::Global;
use std::test::Fail;

fn words_of(alloc: Global, text: &str) -> Result<Vec<&[u8]>, Fail> {
    Ok(texts_of(alloc, text.as_bytes())?)
}

/// The columns of these items of a row: its log's kind, target, packet and kind of values.
fn columns_of(
    alloc: Global,
    definitions: &Definitions,
    row: &str,
    items: &[&[u8]],
) -> Result<Columns, ColumnFault> {
    let kind = kind_named(part(row, 3)).unwrap_or(ValueKind::Raw);
    Columns::new(
        alloc,
        definitions,
        part(row, 0) == "CMD",
        part(row, 1).as_bytes(),
        part(row, 2).as_bytes(),
        items,
        kind,
    )
}

/// A line, after which a line feed stands.
fn put_line(out: &mut Vec<u8>, line: &Bytes) -> Result<(), Fail> {
    out.extend_from_slice(line.as_slice())?;
    Ok(out.push(b'\n')?)
}

fn put_heading(alloc: Global, columns: &Columns, out: &mut Vec<u8>) -> Result<(), Fail> {
    let heading = columns.heading(alloc)?;
    put_line(out, &heading)
}

fn put_row(
    alloc: Global,
    definitions: &Definitions,
    columns: &Columns,
    entry: &LogEntry<'_>,
    out: &mut Vec<u8>,
) -> Result<(), Fail> {
    match columns.row(alloc, definitions, entry)? {
        Some(row) => put_line(out, &row),
        None => Ok(()),
    }
}

fn put_rows(
    alloc: Global,
    definitions: &Definitions,
    columns: &Columns,
    file: &[u8],
    out: &mut Vec<u8>,
) -> Result<(), Fail> {
    let mut reader = LogReader::new(file);
    for _ in 0..file.len() {
        let Ok(Some(entry)) = reader.next() else {
            return Ok(());
        };
        put_row(alloc, definitions, columns, &entry, out)?;
    }
    Ok(())
}

/// The table of a log in one line: the heading and the rows, each with `;` after it, and `/` for each tab.
fn table(
    alloc: Global,
    definitions: &Definitions,
    columns: &Columns,
    file: &[u8],
) -> Result<String, Fail> {
    let mut out = Vec::new(alloc);
    put_heading(alloc, columns, &mut out)?;
    put_rows(alloc, definitions, columns, file, &mut out)?;
    Ok(in_one_line(alloc, &out)?.replace(alloc, '\t', "/")?)
}

fn refusal(alloc: Global, fault: &ColumnFault) -> Result<String, Fail> {
    match fault {
        ColumnFault::Unknown(word) => {
            Ok(format!(in alloc; "unknown: {}", as_text(word.as_slice())?)?)
        }
        ColumnFault::Memory => Err(Fail::new("no memory")),
    }
}

fn table_of(
    alloc: Global,
    definitions: &Definitions,
    row: &str,
    file: &[u8],
) -> Result<String, Fail> {
    let items = words_of(alloc, part(row, 4))?;
    match columns_of(alloc, definitions, row, &items) {
        Ok(columns) => table(alloc, definitions, &columns, file),
        Err(fault) => refusal(alloc, &fault),
    }
}

/// The table of a row, of a log with these entries.
fn answer_over(alloc: Global, row: &str, entries: &str) -> Result<String, Fail> {
    let file = log_of(alloc, entries)?;
    let definitions = definitions_of(alloc, DEFINITIONS)?;
    table_of(alloc, &definitions, row, &file)
}

/// Tables of the demo's log. A name is in any case, an item may stand twice, and an unknown word is told as it is written: the target
/// before the packet, and that before the items. The number of packets that were received is no item here.
const TABLES: &str = "\
TLM INST HS WITH_UNITS TEMP1,MODE|TIME/TEMP1/MODE;100.250000/-0.058 C/ON;100.250000/12.435 C/ON;
TLM inst hs FORMATTED mode,temp1|TIME/MODE/TEMP1;100.250000/ON/-0.058;100.250000/ON/12.435;
TLM INST HS RAW MODE,MODE,PKTID|TIME/MODE/MODE/PKTID;100.250000/1/1/1;100.250000/1/1/1;
TLM AUX LINE CONVERTED TEXT|TIME/TEXT;100.250000/HI;
TLM INST HS RAW MODE,nope,no|unknown: nope
TLM INST HS RAW MODE,|unknown: 
TLM INST HS RAW RECEIVED_COUNT|unknown: RECEIVED_COUNT
TLM INST LINE RAW no|unknown: LINE
TLM NOPE no RAW no|unknown: NOPE
TLM UNKNOWN UNKNOWN RAW no|unknown: UNKNOWN
CMD AUX LINE RAW TEXT|unknown: AUX
CMD INST HS RAW MODE|unknown: HS
CMD INST COLLECT RAW DURATION|TIME/DURATION;";

struct Tables;

impl Answers for Tables {
    fn answer(alloc: Global, asked: &str) -> Result<String, Fail> {
        answer_over(alloc, asked, ENTRIES)
    }
}

#[test]
fn columns_are_values_of_the_packets_entries(rt: HostRuntime) -> Result<(), Fail> {
    rows_end_so::<Tables>(rt.alloc(), TABLES)
}

/// Commands of a log of commands, and bytes that would break a row: a tab, a line feed, a bar and a byte that is no text.
const OTHERS: &str = "\
CMD INST COLLECT RAW OPCODE,DURATION 000000010000000504494e535407434f4c4c4543540000000307000a|TIME/OPCODE/DURATION;1.000005/7/10;
TLM AUX LINE RAW TEXT 0000000100ffffff03415558044c494e450000000541095c0a7f|TIME/TEXT;1.16777215/A\\x09\\x5C\\x0A\\x7F;
TLM INST HS CONVERTED TEMP1,MODE 000000010000000004494e5354024853000000020102|TIME/TEMP1/MODE;1.000000/-98.4384/OFF;";

struct Others;

impl Answers for Others {
    fn answer(alloc: Global, asked: &str) -> Result<String, Fail> {
        answer_over(alloc, asked, part(asked, 5))
    }
}

#[test]
fn rows_have_no_line_ends_and_tabs_in_their_values(rt: HostRuntime) -> Result<(), Fail> {
    rows_end_so::<Others>(rt.alloc(), OTHERS)
}

/// Which kind of values a word names.
const KINDS: &str = "\
RAW|Some(Raw)
CONVERTED|Some(Converted)
FORMATTED|Some(Formatted)
WITH_UNITS|Some(WithUnits)
raw|None
RAWS|None
WITH|None";

struct Kinds;

impl Answers for Kinds {
    fn answer(alloc: Global, asked: &str) -> Result<String, Fail> {
        debug_of(alloc, &kind_named(asked))
    }
}

/// Which texts stand between the commas of a word.
const WORDS: &str = "\
A|[[65]]
A,B|[[65], [66]]
,|[[], []]
A,,B|[[65], [], [66]]";

struct Words;

impl Answers for Words {
    fn answer(alloc: Global, asked: &str) -> Result<String, Fail> {
        let texts = words_of(alloc, asked)?;
        debug_of(alloc, &texts.as_slice())
    }
}

#[test]
fn words_ask_for_kinds_and_items(rt: HostRuntime) -> Result<(), Fail> {
    rows_end_so::<Kinds>(rt.alloc(), KINDS)?;
    rows_end_so::<Words>(rt.alloc(), WORDS)
}

/// Whether a word with so many commas has at most 64 texts.
fn has_few(alloc: Global, commas: usize) -> Result<bool, Fail> {
    Ok(has_few_texts(&vec![in alloc; b','; commas]?))
}

#[test]
fn at_most_64_items_are_asked_for(rt: HostRuntime) -> Result<(), Fail> {
    if has_few(rt.alloc(), 63)? && !has_few(rt.alloc(), 64)? {
        Ok(())
    } else {
        Err(Fail::new("another count"))
    }
}
