// The devices of a server, from text.
ghost use Rattle.std.specs.Prelude.{◌≡◌, IfOk, Some};
ghost use Rattle.cts_server.specs.Places.{AreThere};

use crate::demo::DEFINITIONS;
use crate::shelves::put;
use cts_base::Bytes;
use cts_fixed::Fixed;
use cts_outside::{MemConnection, MemDialer, MemFiles, MemPiece};
use cts_preid::Preidentified;
use cts_proto::Shelf;
use cts_rows::{bytes_of, lines, number};
use cts_stream::{Burst, Length, Terminated};
use std::alloc::Global;
use std::test::Fail;

/// How many places there are for dialers, and for doors.
pub const LINES: usize = 16;

pub const DOORS: usize = 12;

/// The place of the first desk's door.
pub const FIRST_DESK_DOOR: usize = 8;

/// The numbers of the calls of a device that fail: what stands after its name and a colon in these words.
pub fn failing(alloc: Global, words: &str, name: &str) -> Result<Vec<u64>, Fail> {
    let mut found = Vec::new(alloc);
    for word in words.split_ascii_whitespace() {
        if let Some((of, digits)) = word.split_once(':')
            && of == name
        {
            found.push(number(digits, 0)?)?;
        }
    }
    Ok(found)
}

/// One connection with these pieces; none where there are none, unless it is one without pieces.
fn one_connection(
    alloc: Global,
    pieces: Vec<MemPiece>,
    bare: bool,
) -> Result<Vec<MemConnection>, Fail> {
    let mut out = Vec::with_capacity(alloc, 1)?;
    if bare || !pieces.is_empty() {
        out.push_reserved(MemConnection { later: 0, pieces });
    }
    Ok(out)
}

fn piece(alloc: Global, word: &str) -> Result<MemPiece, Fail> {
    if word == "-" {
        return Ok(MemPiece::Nothing);
    }
    Ok(MemPiece::Bytes(Bytes::of(bytes_of(alloc, word)?)))
}

/// What stands for a connection without pieces.
pub const BARE: &str = "=";

/// The pieces of words of digits, in which a dash finds nothing.
fn pieces_by_digits(alloc: Global, digits: &str) -> Result<Vec<MemPiece>, Fail> {
    let mut out = Vec::new(alloc);
    for word in digits.split_ascii_whitespace() {
        if word != BARE {
            out.push(piece(alloc, word)?)?;
        }
    }
    Ok(out)
}

/// The requests of these bodies, each of which stands in a line of its own and comes in a piece of its own.
fn pieces_by_calls(alloc: Global, calls: &str) -> Result<Vec<MemPiece>, Fail> {
    let mut out = Vec::new(alloc);
    for call in calls.split_terminator('\n') {
        let text = format!(in alloc; "POST / HTTP/1.1\nContent-Length: {}\n\n{call}", call.len())?;
        out.push(MemPiece::Bytes(Bytes::copy(alloc, text.as_bytes())?))?;
    }
    Ok(out)
}

/// What devices give: each interface's in digits, with a comma after each, and each slot's client, `=` for one that gives nothing; the bodies of the requests of the first desk's client,
/// each in a line; and which of their calls fail.
#[derive(Clone, Copy)]
pub struct Gives<'a> {
    pub lines: &'a str,
    pub slots: &'a str,
    pub calls: &'a str,
    pub failing: &'a str,
}

/// The devices of a server: its dialers, its doors and its vault, each in its place.
#[derive(Drop)]
pub struct Devices<V> {
    pub lines: Vec<Option<MemDialer>>,
    pub doors: Vec<Option<MemDialer>>,
    pub vault: Option<V>,
}

/// What the dialer in a place gives, or the door.
fn pieces_at(
    alloc: Global,
    gives: Gives<'_>,
    serves: bool,
    place: usize,
) -> Result<Vec<MemPiece>, Fail> {
    if serves && place == FIRST_DESK_DOOR {
        return pieces_by_calls(alloc, gives.calls);
    }
    let all = if serves { gives.slots } else { gives.lines };
    pieces_by_digits(alloc, all.split(',').nth(place).unwrap_or(""))
}

/// The dialer in a place, or the door, whose names in the words of what fails are `l` or `d` and its place.
fn dialer_at(
    alloc: Global,
    gives: Gives<'_>,
    serves: bool,
    place: usize,
) -> Result<MemDialer, Fail> {
    let kind = if serves { 'd' } else { 'l' };
    let name = format!(in alloc; "{kind}{place}")?;
    let failing = failing(alloc, gives.failing, &name)?;
    let bare = serves && gives.slots.split(',').nth(place) == Some(BARE);
    let connections = one_connection(alloc, pieces_at(alloc, gives, serves, place)?, bare)?;
    Ok(MemDialer::new(alloc, connections, failing))
}

/// So many dialers, or doors, each in its place.
fn dialers(
    alloc: Global,
    gives: Gives<'_>,
    serves: bool,
    count: usize,
) -> Result<Vec<Option<MemDialer>>, Fail>
    ensures there { IfOk result (λ v. AreThere count v.items) }
{
    let mut out = Vec::new(alloc);
    for place in 0..count {
        out.push(Some(dialer_at(alloc, gives, serves, place)?))?;
    }
    Ok(out)
}

/// The devices that give this.
pub fn devices_of<V: Drop>(alloc: Global, gives: Gives<'_>, vault: V) -> Result<Devices<V>, Fail>
    ensures lines { IfOk result (λ d. AreThere 16 d.lines.items) }
    ensures doors { IfOk result (λ d. AreThere 12 d.doors.items) }
    ensures vault { IfOk result (λ d. d.vault ≡ Some vault) }
{
    let lines = dialers(alloc, gives, false, LINES)?;
    let doors = dialers(alloc, gives, true, DOORS)?;
    Ok(Devices {
        lines,
        doors,
        vault: Some(vault),
    })
}

/// The files of the demo, by the names `d` and `s`, of which the reads fail that these words say.
pub fn files(alloc: Global, site: &str, failing_words: &str) -> Result<MemFiles, Fail> {
    let mut held = Vec::new(alloc);
    for (name, text) in [("d", DEFINITIONS), ("s", site)] {
        let name = Bytes::copy(alloc, name.as_bytes())?;
        let content = Bytes::of(lines(alloc, text)?);
        held.push((name, content))?;
    }
    Ok(MemFiles::new(held, failing(alloc, failing_words, "f")?))
}

/// A shelf with so many boxes of each kind.
pub fn shelf(alloc: Global, count: usize) -> Result<Shelf, Fail> {
    let mut shelf = Shelf::new(alloc);
    for _ in 0..count {
        put(&mut shelf, Box::new(alloc, Burst::blank(alloc))?)?;
        put(&mut shelf, Box::new(alloc, Fixed::blank(alloc))?)?;
        put(&mut shelf, Box::new(alloc, Length::blank(alloc))?)?;
        put(&mut shelf, Box::new(alloc, Terminated::blank(alloc))?)?;
        put(&mut shelf, Box::new(alloc, Preidentified::blank(alloc))?)?;
    }
    Ok(shelf)
}
