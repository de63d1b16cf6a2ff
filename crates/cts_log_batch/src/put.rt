// How an entry of a log is put with names that are lent, so that none is copied for it.
ghost use Rattle.std.specs.Prelude.{◌≡◌, ◌<◌, ◌≤◌, ◌∷◌, ◌++◌, ◌^◌, OnOk, length};
ghost use Rattle.byteorder.specs.Endian.{big_bytes};
ghost use Rattle.cts_encode.specs.Spellings.{head_in};
ghost use Rattle.cts_framing.specs.Layouts.{flag_bytes, has_flags};
ghost use Rattle.cts_log.specs.Logged.{laid_out};
ghost use Rattle.cts_trace.specs.Routing.{heading_of};

use byteorder::{BigEndian, ByteOrder};
use cts_base::Memory;
use cts_def::Time;

/// Puts an entry of this layout, 2 or 4, with this time, these names, this flag and these bytes.
pub(crate) fn put_entry(
    time: Time,
    target: &[u8],
    name: &[u8],
    stored: bool,
    bytes: &[u8],
    layout: u32,
    out: &mut Vec<u8>,
) -> Result<(), Memory>
    requires target { length target.now ≤ 255 }
    requires name { length name.now ≤ 255 }
    requires counted { length bytes.now < 2 ^ 32 }
    ensures { OnOk result (out.new.items ≡ out.old.items ++ laid_out (has_flags layout)
        (heading_of (target.now, name.now) stored time) bytes.now) }
{
    out.reserve(15 + target.len() + name.len() + bytes.len())?;
    put_flags(stored, layout, out)?;
    put_number(time.seconds, out)?;
    put_number(time.micros, out)?;
    put_name(target, out)?;
    put_name(name, out)?;
    put_number(bytes.len() as u32, out)?;
    out.extend_from_slice(bytes)?;
    Ok(())
}

// The flags, where the layout has them.
fn put_flags(stored: bool, layout: u32, out: &mut Vec<u8>) -> Result<(), Memory>
    ensures { OnOk result (out.new.items ≡ out.old.items ++ flag_bytes (has_flags layout) stored) }
{
    if layout == 4 {
        out.push(if stored { 128 } else { 0 })?;
    }
    Ok(())
}

// A number of four bytes, the high one first.
fn put_number(number: u32, out: &mut Vec<u8>) -> Result<(), Memory>
    ensures { OnOk result (out.new.items ≡ out.old.items ++ big_bytes 4 number) }
{
    let mut bytes = [0; 4];
    BigEndian::write_u32(&mut bytes, number);
    out.extend_from_slice(&bytes)?;
    Ok(())
}

// A name after its length.
fn put_name(name: &[u8], out: &mut Vec<u8>) -> Result<(), Memory>
    requires { length name.now ≤ 255 }
    ensures { OnOk result (out.new.items ≡ out.old.items ++ (length name.now ∷ name.now)) }
{
    out.push(name.len() as u8)?;
    out.extend_from_slice(name)?;
    Ok(())
}
