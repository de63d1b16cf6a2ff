// What tests read from the parts of rows: sites, whose lines end with `;`, halls and dialers.
ghost use Rattle.std.specs.Prelude.{◌≡◌, [], IfOk};
ghost use Rattle.std.specs.Arc.{arc_value};

use cts_base::Bytes;
use cts_def::Site;
use cts_outside::{MemConnection, MemDialer, MemPiece};
use cts_rows::{asked_and_wanted, bytes_of, cut, number, numbers};
use cts_table::Hall;
use std::alloc::Global;
use std::sync::Arc;
use std::test::Fail;

/// What a row asks, with the row for the `$` of a form, and what it wants.
pub fn parts<'r>(alloc: Global, form: &str, row: &'r str) -> Result<(String, &'r str), Fail> {
    let (asked, wanted) = asked_and_wanted(row)?;
    Ok((form.replace(alloc, '$', asked)?, wanted))
}

/// A hall without entries, by how many entries and how many bytes it may have.
pub fn hall_of(alloc: Global, site: Arc<Site>, limits: &str) -> Result<Hall, Fail>
    ensures site { IfOk result (λ hall. hall.basis.site ≡ arc_value site) }
    ensures empty { IfOk result (λ hall. hall.entries ≡ []) }
{
    let entries: u64 = number(limits, 0)?;
    let bytes: u64 = number(limits, 1)?;
    if entries > 1000 || bytes > 1_000_000 {
        return Err(Fail::new("too many entries or bytes"));
    }
    Ok(Hall::with_limits(alloc, site, entries, bytes)?)
}

/// A dialer by the numbers of its calls that fail and its connections, with `;` between.
pub fn dialer_of(alloc: Global, text: &str) -> Result<MemDialer, Fail> {
    let (failing, rest) = cut(text, ';')?;
    let connections = connections(alloc, rest)?;
    Ok(MemDialer::new(alloc, connections, numbers(alloc, failing)?))
}

/// Connections, each with how many Later it answers and its pieces in digits, `-` for Nothing.
pub fn connections(alloc: Global, text: &str) -> Result<Vec<MemConnection>, Fail> {
    let mut found = Vec::new(alloc);
    for words in text.split(',') {
        if !words.is_empty() {
            found.push(connection(alloc, words)?)?;
        }
    }
    Ok(found)
}

fn connection(alloc: Global, words: &str) -> Result<MemConnection, Fail> {
    let mut pieces = Vec::new(alloc);
    for word in words.split(' ').skip(1) {
        pieces.push(piece(alloc, word)?)?;
    }
    Ok(MemConnection {
        later: number(words, 0)?,
        pieces,
    })
}

/// The piece of a word: `-` for Nothing, or bytes.
fn piece(alloc: Global, word: &str) -> Result<MemPiece, Fail> {
    if word == "-" {
        return Ok(MemPiece::Nothing);
    }
    Ok(MemPiece::Bytes(Bytes::of(bytes_in(alloc, word)?)))
}

/// The bytes of a word: digits, or `x` and a number for so many bytes of 0.
fn bytes_in(alloc: Global, word: &str) -> Result<Vec<u8>, Fail> {
    match word.strip_prefix('x') {
        Some(count) => Ok(vec![in alloc; 0; number(count, 0)?]?),
        None => bytes_of(alloc, word),
    }
}
