// What clients of a desk are answered.
use crate::desks::{Left, desk_over, hall_of};
use crate::sources::silence_over;
use cts_base::Bytes;
use cts_outside::{Dialed, Dialer, MemConnection, MemDialer, MemPiece};
use cts_rows::{as_text, bytes_by_number, debug_of, numbers};
use std::alloc::Global;
use std::sync::Wait;
use std::test::Fail;

/// What clients send to a desk's door, and what fails there.
#[derive(Clone, Copy)]
pub struct Asked<'a> {
    /// What clients send one after another, with `&` between them and `^` where none of their bytes is ready; each `;` is a line feed.
    pub texts: &'a str,
    /// How many bytes come at once at most.
    pub at_once: usize,
    /// The numbers of the door's calls that fail.
    pub failing: &'a str,
}

fn push_pieces(
    alloc: Global,
    pieces: &mut Vec<MemPiece>,
    bytes: &[u8],
    at_once: usize,
) -> Result<(), Fail> {
    for piece in bytes.chunks(at_once.max(1)) {
        pieces.push(MemPiece::Bytes(Bytes::copy(alloc, piece)?))?;
    }
    Ok(())
}

// A client is not ready at first, and has no byte ready after each text.
fn client(alloc: Global, texts: &str, at_once: usize) -> Result<MemConnection, Fail> {
    let mut pieces = Vec::new(alloc);
    for text in texts.split('^') {
        let bytes = bytes_by_number(alloc, text)?;
        push_pieces(alloc, &mut pieces, &bytes, at_once)?;
        pieces.push(MemPiece::Nothing)?;
    }
    Ok(MemConnection { later: 1, pieces })
}

fn clients(alloc: Global, asked: Asked<'_>) -> Result<Vec<MemConnection>, Fail> {
    let mut out = Vec::new(alloc);
    for texts in asked.texts.split('&') {
        out.push(client(alloc, texts, asked.at_once)?)?;
    }
    Ok(out)
}

// What was put to a client, in one line.
fn put_to(alloc: Global, door: &MemDialer, client: usize) -> Result<String, Fail> {
    match door.put_to(client) {
        Some(bytes) => {
            let text = as_text(bytes)?.replace(alloc, '\r', "")?;
            Ok(text.replace(alloc, '\n', ";")?)
        }
        None => Ok(String::new(alloc)),
    }
}

// What was put to so many clients, each with `&` after it.
fn puts_of(alloc: Global, door: &MemDialer, clients: usize) -> Result<String, Fail> {
    let mut out = String::new(alloc);
    for one in 0..clients {
        out.push_str(&put_to(alloc, door, one)?)?;
        out.push('&')?;
    }
    Ok(out)
}

// What was put to clients, and what the desk leaves.
fn shown(alloc: Global, door: &MemDialer, clients: usize, left: &Left) -> Result<String, Fail> {
    let mut out = puts_of(alloc, door, clients)?;
    let told = debug_of(alloc, &(left.why, left.fronts.as_slice(), left.entries))?;
    out.push_str(&told)?;
    Ok(out)
}

/// What is put to clients, with `;` for each line end and `&` after each client, and what the desk leaves.
pub fn answered<W: Wait>(rt: &W, alloc: Global, asked: Asked<'_>) -> Result<String, Fail> {
    let failing = numbers(alloc, asked.failing)?;
    let clients = clients(alloc, asked)?;
    let hall = hall_of(alloc, "")?;
    let mut door = MemDialer::new(alloc, clients, failing);
    let left = desk_over(rt, alloc, hall, &mut door)?;
    shown(alloc, &door, asked.texts.split('&').count(), &left)
}

/// The same over a door of which the first client is linked already when the desk begins.
pub fn answered_after_a_dial<W: Wait>(
    rt: &W,
    alloc: Global,
    asked: Asked<'_>,
) -> Result<String, Fail> {
    let clients = clients(alloc, asked)?;
    let hall = hall_of(alloc, "")?;
    let mut door = MemDialer::new(alloc, clients, Vec::new(alloc));
    if let Dialed::Later = door.dial() {
        let _ = door.dial();
    }
    let left = desk_over(rt, alloc, hall, &mut door)?;
    shown(alloc, &door, asked.texts.split('&').count(), &left)
}

/// Why a desk ends for clients whose door does not fail, how many entries it leaves, and how many of them are later than the one before them.
pub fn entries_left<W: Wait>(rt: &W, alloc: Global, texts: &str) -> Result<String, Fail> {
    let asked = Asked {
        texts,
        at_once: 2_000_000,
        failing: "",
    };
    let clients = clients(alloc, asked)?;
    let hall = hall_of(alloc, "")?;
    let mut door = MemDialer::new(alloc, clients, Vec::new(alloc));
    let left = desk_over(rt, alloc, hall, &mut door)?;
    debug_of(alloc, &(left.why, left.entries, left.later))
}

/// What is put to clients by a desk whose source answers nothing, why it ends, and its fronts.
pub fn answered_silently<W: Wait>(rt: &W, alloc: Global, texts: &str) -> Result<String, Fail> {
    let asked = Asked {
        texts,
        at_once: 2_000_000,
        failing: "",
    };
    let clients = clients(alloc, asked)?;
    let hall = hall_of(alloc, "")?;
    let mut door = MemDialer::new(alloc, clients, Vec::new(alloc));
    let (why, fronts) = silence_over(rt, alloc, hall, &mut door)?;
    let mut out = puts_of(alloc, &door, texts.split('&').count())?;
    out.push_str(&debug_of(alloc, &(why, fronts.as_slice()))?)?;
    Ok(out)
}

/// The same in short: of what is put to a client, the status of each response.
pub fn in_short(alloc: Global, answered: &str) -> Result<String, Fail> {
    let (put, left) = answered.rsplit_once('&').unwrap_or((answered, ""));
    let mut out = String::new(alloc);
    for texts in put.split('&') {
        for text in texts.split("HTTP/1.1 ").skip(1) {
            out.push_str(text.split(' ').next().unwrap_or(""))?;
            out.push(' ')?;
        }
        out.push('&')?;
    }
    out.push_str(left)?;
    Ok(out)
}
