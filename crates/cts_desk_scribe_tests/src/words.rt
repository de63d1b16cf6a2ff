// Entries, from text.
use cts_base::{Bytes, Name};
use cts_def::{Ident, Loss, Time};
use cts_entry::{Entry, What, Why};
use cts_rows::bytes_of;
use std::alloc::Global;
use std::test::Fail;

const LOSS: Loss = Loss {
    held: [0; 4],
    skipped: 0,
    empty: 0,
};

// An entry of the moment 100.250000: what it is, its maker, the number of its packet or command, and its bytes; `stored` is a packet that was stored. A command has the number of its interface.
fn entry_of(alloc: Global, word: &str) -> Result<Entry, Fail> {
    let mut parts = word.splitn(3, ':');
    let what = parts.next().unwrap_or("");
    let by = parts.next().unwrap_or("").parse::<u32>().unwrap_or(0);
    let time = Time {
        seconds: 100,
        micros: 250_000,
    };
    let what = what_of(alloc, what, parts.next().unwrap_or(""))?;
    Ok(Entry { by, time, what })
}

/// The entries of these words.
pub fn entries_of(alloc: Global, words: &str) -> Result<Vec<Entry>, Fail> {
    let mut entries = Vec::new(alloc);
    for word in words.split_ascii_whitespace() {
        push_entry(alloc, &mut entries, word)?;
    }
    Ok(entries)
}

fn push_entry(alloc: Global, entries: &mut Vec<Entry>, word: &str) -> Result<(), Fail> {
    Ok(entries.push(entry_of(alloc, word)?)?)
}

fn what_of(alloc: Global, what: &str, rest: &str) -> Result<What, Fail> {
    match what {
        "open" => Ok(What::Opened),
        "close" => Ok(closed()),
        "stop" => Ok(What::Stop),
        "end" => Ok(What::Ended),
        "set" => Ok(What::LimitsSetIs {
            set: Name::read(alloc, rest.as_bytes())?,
        }),
        _ => with_bytes(alloc, what, rest),
    }
}

/// A connection was closed by its peer.
pub fn closed() -> What {
    What::Closed {
        why: Why::PeerEnded,
        loss: LOSS,
        unposted: 0,
        unsent: 0,
    }
}

fn with_bytes(alloc: Global, what: &str, rest: &str) -> Result<What, Fail> {
    let (number, digits) = rest.split_once(':').unwrap_or((rest, ""));
    let bytes = Bytes::of(bytes_of(alloc, digits)?);
    if what == "packet" || what == "stored" {
        return Ok(What::Packet {
            ident: ident_of(number),
            stored: what == "stored",
            bytes,
        });
    }
    with_number(what, number.parse::<u32>()?, bytes)
}

fn ident_of(number: &str) -> Ident {
    match number.parse::<u32>() {
        Ok(number) => Ident::Known(number),
        Err(_) => Ident::Unknown,
    }
}

fn with_number(what: &str, number: u32, bytes: Bytes) -> Result<What, Fail> {
    match what {
        "inject" => Ok(What::Injected {
            packet: number,
            bytes,
        }),
        "command" => Ok(What::Command {
            interface: number,
            command: number,
            bytes,
        }),
        _ => Err(Fail::new("no such entry")),
    }
}
