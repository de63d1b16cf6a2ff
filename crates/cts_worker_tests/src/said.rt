// What is told of lines: their entries in short, and what was put to their peers.
use crate::ticking::FIRST_SECOND;
use cts_base::{Bytes, Memory};
use cts_entry::{Entry, What};
use cts_outside::MemDialer;
use cts_table::Hall;
use cts_trace::lend;
use std::alloc::Global;

/// Each entry of a maker in short: O for Opened, P for a packet and its length, with a * where it was stored, C for Closed and why, the bytes that the first stage held, and
/// how many packets were not posted and how many entries for the peer not put; K for a command and its interface, number and bytes, U for an Unrouted entry,
/// why it is one and its bytes; S for Stop and E for Ended. A `!` stands at the end where the clock did not go on from entry to entry.
pub fn said(alloc: Global, hall: &Hall, by: u32) -> Result<String, Memory> {
    let mut text = String::new(alloc);
    let mut least = FIRST_SECOND;
    for n in 0..hall.count() {
        let entry = lend(hall, n);
        if entry.by == by {
            tell(&mut text, &word(alloc, &entry.what)?)?;
            least = least_after(entry, least);
        }
    }
    if least == u32::MAX {
        text.push('!')?;
    }
    Ok(text)
}

/// The least second of the next entry, by that of this one: a later one than that of an Opened, and no earlier one than that of any other. It is the greatest of
/// all where this entry is too early. Opened and Closed have a time of the clock; any other that shows none of it, as a packet that brings its own, is left out.
fn least_after(entry: &Entry, least: u32) -> u32 {
    let second = entry.time.seconds;
    let of_clock = matches!(entry.what, What::Opened | What::Closed { .. });
    if second < FIRST_SECOND && !of_clock {
        return least;
    }
    if second < least {
        return u32::MAX;
    }
    match entry.what {
        What::Opened => second.saturating_add(1),
        _ => second,
    }
}

/// Appends a word and a blank.
fn tell(text: &mut String, word: &str) -> Result<(), Memory> {
    text.push_str(word)?;
    Ok(text.push(' ')?)
}

fn word(alloc: Global, what: &What) -> Result<String, Memory> {
    match what {
        What::Opened => Ok("O".to_string(alloc)?),
        What::Packet { stored, bytes, .. } => packet(alloc, *stored, bytes),
        What::Closed {
            why,
            loss,
            unposted,
            unsent,
        } => Ok(format!(in alloc; "C{why:?}:{}:{unposted}:{unsent}", loss.held[0])?),
        What::Stop => Ok("S".to_string(alloc)?),
        What::Ended => Ok("E".to_string(alloc)?),
        _ => sent(alloc, what),
    }
}

/// A packet by its length, with a `*` where it was stored.
fn packet(alloc: Global, stored: bool, bytes: &Bytes) -> Result<String, Memory> {
    let mark = if stored { "*" } else { "" };
    Ok(format!(in alloc; "P{}{mark}", bytes.as_slice().len())?)
}

/// What a slot took.
fn sent(alloc: Global, what: &What) -> Result<String, Memory> {
    match what {
        What::Command {
            interface,
            command,
            bytes,
        } => with_digits(alloc, format!(in alloc; "K{interface}:{command}:")?, bytes),
        What::Unrouted { why, bytes } => with_digits(alloc, format!(in alloc; "U{why:?}:")?, bytes),
        _ => Ok("?".to_string(alloc)?),
    }
}

/// A text with these bytes in digits after it.
fn with_digits(alloc: Global, mut text: String, bytes: &Bytes) -> Result<String, Memory> {
    text.push_str(&hex::encode(alloc, bytes.as_slice())?)?;
    Ok(text)
}

/// Appends the bytes that were put to each connection, in digits, with a blank before each; `-` where none were.
pub fn tell_puts(
    alloc: Global,
    dialer: &MemDialer,
    connections: u64,
    text: &mut String,
) -> Result<(), Memory> {
    for connection in 0..connections {
        text.push(' ')?;
        text.push_str(&put_to(alloc, dialer, connection)?)?;
    }
    Ok(())
}

fn put_to(alloc: Global, dialer: &MemDialer, connection: u64) -> Result<String, Memory> {
    match dialer.put_to(connection as usize) {
        Some(bytes) if !bytes.is_empty() => Ok(hex::encode(alloc, bytes)?),
        _ => Ok("-".to_string(alloc)?),
    }
}
