// The events of an entry.
ghost use Rattle.std.specs.Prelude.{◌≡◌, ◌≤◌, ◌<◌, ◌^◌, ◌++◌, ◌∷◌, IfOk, OnOk, length};
ghost use Rattle.byteorder.specs.Endian.{big_bytes};
ghost use Rattle.cts_framing.specs.Layouts.{flag_bytes, flags_of, has_flags};
ghost use Rattle.cts_log.specs.Logged.{entry_bytes};
ghost use Rattle.cts_log.specs.Reading.{logged};
ghost use Rattle.cts_play.specs.Pieces.{ArePieces};

use crate::pieces::pieces_of;
use byteorder::{BigEndian, ByteOrder};
use cts_base::{Bytes, Memory};
use cts_entry::Event;
use cts_log::LogEntry;
use std::alloc::Global;

// The greatest piece.
const PIECE_LIMIT: usize = 65_536;

/// The entry, laid out as in a log of this layout, as pieces of the interface that plays it. The names have at most 255 bytes each and
/// the bytes are fewer than 2^32, as in each entry that a reader of logs lends.
///
/// # Errors
///
/// `Memory`.
pub fn play_events(alloc: Global, entry: &LogEntry<'_>, layout: u32) -> Result<Vec<Event>, Memory>
    requires target { length entry.now.target.now ≤ 255 }
    requires packet { length entry.now.packet.now ≤ 255 }
    requires bytes { length entry.now.bytes.now < 2 ^ 32 }
    ensures { IfOk result (λ events. ArePieces 0 65536 (entry_bytes (has_flags layout) (logged entry.now)) events.items) }
{
    let laid = lay_out(alloc, entry, layout)?;
    pieces_of(alloc, 0, laid.as_slice(), PIECE_LIMIT)
}

// The entry as it is laid out in a log.
fn lay_out(alloc: Global, entry: &LogEntry<'_>, layout: u32) -> Result<Bytes, Memory>
    requires target { length entry.now.target.now ≤ 255 }
    requires packet { length entry.now.packet.now ≤ 255 }
    requires bytes { length entry.now.bytes.now < 2 ^ 32 }
    ensures { IfOk result (λ bytes. bytes ≡ entry_bytes (has_flags layout) (logged entry.now)) }
{
    let mut out = Vec::new(alloc);
    put_flags(&mut out, layout, entry.stored)?;
    put_number(&mut out, entry.time.seconds)?;
    put_number(&mut out, entry.time.micros)?;
    put_name(&mut out, entry.target)?;
    put_name(&mut out, entry.packet)?;
    put_number(&mut out, entry.bytes.len() as u32)?;
    out.extend_from_slice(entry.bytes)?;
    Ok(Bytes::of(out))
}

// The byte of flags, where heads have one.
fn put_flags(out: &mut Vec<u8>, layout: u32, stored: bool) -> Result<(), Memory>
    ensures { OnOk result (out.new.items ≡ out.old.items ++ flag_bytes (has_flags layout) stored) }
{
    if layout != 4 {
        return Ok(());
    }
    out.push(flags_of(stored))?;
    Ok(())
}

fn flags_of(stored: bool) -> u8
    ensures { result ≡ flags_of stored }
{
    if stored { 128 } else { 0 }
}

// A number of four bytes, the high one first.
fn put_number(out: &mut Vec<u8>, number: u32) -> Result<(), Memory>
    ensures { OnOk result (out.new.items ≡ out.old.items ++ big_bytes 4 number) }
{
    let mut bytes = [0; 4];
    BigEndian::write_u32(&mut bytes, number);
    out.extend_from_slice(&bytes)?;
    Ok(())
}

// A name after its length.
fn put_name(out: &mut Vec<u8>, name: &[u8]) -> Result<(), Memory>
    requires { length name.now ≤ 255 }
    ensures { OnOk result (out.new.items ≡ out.old.items ++ (length name.now ∷ name.now)) }
{
    out.push(name.len() as u8)?;
    out.extend_from_slice(name)?;
    Ok(())
}
