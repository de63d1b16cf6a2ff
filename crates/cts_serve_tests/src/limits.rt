// The greatest files, definitions and pieces that are taken.
use crate::shelves::stocked;
use crate::table::{SITE, ended_without_faults, hold_bytes, rows_told, said};
use cts_outside::MemFiles;
use cts_rows::Answers;
use std::alloc::Global;
use std::test::Fail;

// How a replay ends without a site, by its definitions.
fn said_of(alloc: Global, definitions: &str) -> Result<String, Fail> {
    said(alloc, "replay d s c", definitions, "-", "-")
}

/// How a replay ends whose script brings a piece of so many bytes.
struct Piece;

impl Answers for Piece {
    fn answer(alloc: Global, asked: &str) -> Result<String, Fail> {
        let digits = "a5".repeat(alloc, asked.parse::<usize>()?)?;
        let script = format!(in alloc; "BYTES I {digits}")?;
        said(alloc, "replay d s c", "", SITE, script.as_str())
    }
}

const PIECES: &str = "\
the greatest piece|65536|ScriptRefused refused: c line 1: NotEnabled;
a byte more|65537|ScriptRefused refused: c line 1: PieceSize;";

#[test]
fn a_piece_has_65536_bytes_at_most(rt: HostRuntime) -> Result<(), Fail> {
    rows_told::<Piece>(rt.alloc(), PIECES)
}

/// How a replay ends whose definitions are one word of so many letters.
struct Word;

impl Answers for Word {
    fn answer(alloc: Global, asked: &str) -> Result<String, Fail> {
        let word = vec![in alloc; b'a'; asked.parse::<usize>()?]?;
        said_of_bytes(alloc, word)
    }
}

fn said_of_bytes(alloc: Global, definitions: Vec<u8>) -> Result<String, Fail> {
    let mut shelf = stocked(alloc)?;
    let mut held = Vec::new(alloc);
    hold_bytes(alloc, &mut held, "d", definitions)?;
    let mut files = MemFiles::new(held, Vec::new(alloc));
    ended_without_faults(alloc, "replay d s c", &mut shelf, &mut files)
}

const WORDS: &str = "\
the greatest file|67108864|ConfigRefused refused: d line 1: UnknownKeyword;
a byte more|67108865|ConfigRefused refused: d line 0: TooLarge;";

#[test]
fn a_file_has_67108864_bytes_at_most(rt: HostRuntime) -> Result<(), Fail> {
    rows_told::<Word>(rt.alloc(), WORDS)
}

// Appends a number between two texts.
fn push_numbered(
    alloc: Global,
    out: &mut String,
    front: &str,
    number: u32,
    after: &str,
) -> Result<(), Fail> {
    let text = format!(in alloc; "{front}{number}{after}")?;
    Ok(out.push_str(text.as_str())?)
}

// Appends an item, each 4,096 of them after a packet.
fn push_item(alloc: Global, out: &mut String, number: u32) -> Result<(), Fail> {
    if number % 4096 == 0 {
        push_numbered(alloc, out, "TELEMETRY T P", number, " BIG_ENDIAN;")?;
    }
    push_numbered(alloc, out, "APPEND_ITEM I", number, " 8 UINT;")
}

/// How a replay ends whose definitions are sixteen packets of 4,096 items each and what is asked.
struct Items;

impl Answers for Items {
    fn answer(alloc: Global, asked: &str) -> Result<String, Fail> {
        let mut text = String::new(alloc);
        for number in 0..65_536u32 {
            push_item(alloc, &mut text, number)?;
        }
        text.push_str(asked)?;
        said_of(alloc, text.as_str())
    }
}

const BEHIND_ITEMS: &str = "\
the most items||Absent absent: s;
an item more|TELEMETRY T Q BIG_ENDIAN;APPEND_ITEM A 8 UINT|ConfigRefused refused: d line 65554: TooMany;";

#[test]
fn definitions_have_65536_items_at_most(rt: HostRuntime) -> Result<(), Fail> {
    rows_told::<Items>(rt.alloc(), BEHIND_ITEMS)
}

/// How a replay ends whose definitions are 4,096 commands and what is asked.
struct Commands;

impl Answers for Commands {
    fn answer(alloc: Global, asked: &str) -> Result<String, Fail> {
        let mut text = String::new(alloc);
        for number in 0..4096u32 {
            push_numbered(alloc, &mut text, "COMMAND T C", number, " BIG_ENDIAN;")?;
        }
        text.push_str(asked)?;
        said_of(alloc, text.as_str())
    }
}

const BEHIND_COMMANDS: &str = "\
the most commands||Absent absent: s;
a command more|COMMAND U C BIG_ENDIAN|ConfigRefused refused: d line 4097: TooMany;";

#[test]
fn definitions_have_4096_commands_at_most(rt: HostRuntime) -> Result<(), Fail> {
    rows_told::<Commands>(rt.alloc(), BEHIND_COMMANDS)
}
