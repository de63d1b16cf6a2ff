// Bytes at the end of a Vec that has room for them.
ghost use Rattle.std.specs.Prelude.{◌≡◌, ◌≤◌, ◌+◌, ◌++◌, [], ◌∷◌, length, replicate, vec_len, vec_capacity};
ghost use Rattle.byteorder.specs.Endian.{big_bytes};
ghost use Rattle.cts_framing.specs.Heads.{head_bytes};
ghost use Rattle.cts_framing.specs.Layouts.{flag_bytes, flag_len, has_flags};
ghost use Rattle.cts_encode.specs.Spellings.{head_for, head_in, heading_of};

use byteorder::{BigEndian, ByteOrder};
use cts_def::Label;

/// Puts the bytes.
pub(crate) fn put_bytes(out: &mut Vec<u8>, bytes: &[u8])
    requires { vec_len out.old + length bytes.now ≤ vec_capacity out.old }
    ensures items { out.new.items ≡ out.old.items ++ bytes.now }
    ensures capacity { vec_capacity out.old ≤ vec_capacity out.new }
{
    let _ = out.extend_from_slice(bytes);
}

/// Puts zero bytes.
pub(crate) fn put_zeros(out: &mut Vec<u8>, count: usize)
    requires { vec_len out.old + count ≤ vec_capacity out.old }
    ensures items { out.new.items ≡ out.old.items ++ replicate count 0 }
    ensures capacity { vec_capacity out.old ≤ vec_capacity out.new }
{
    let _ = out.resize(out.len() + count, 0);
}

/// Puts a number of four bytes, the high one first.
fn put_u32(out: &mut Vec<u8>, number: u32)
    requires { vec_len out.old + 4 ≤ vec_capacity out.old }
    ensures items { out.new.items ≡ out.old.items ++ big_bytes 4 number }
    ensures capacity { vec_capacity out.old ≤ vec_capacity out.new }
{
    let mut bytes = [0; 4];
    BigEndian::write_u32(&mut bytes, number);
    put_bytes(out, &bytes);
}

/// Puts a name of at most 255 bytes, after its length.
fn put_name(out: &mut Vec<u8>, name: &[u8])
    requires few { length name.now ≤ 255 }
    requires room { vec_len out.old + 1 + length name.now ≤ vec_capacity out.old }
    ensures items { out.new.items ≡ out.old.items ++ (length name.now ∷ name.now) }
    ensures capacity { vec_capacity out.old ≤ vec_capacity out.new }
{
    put_bytes(out, &[name.len() as u8]);
    put_bytes(out, name);
}

/// How many bytes of flags a head of this layout has.
fn flag_len(layout: u32) -> usize
    ensures { result ≡ flag_len (has_flags layout) }
{
    if layout == 4 { 1 } else { 0 }
}

/// How many bytes a head of this layout with this label has.
pub(crate) fn head_len(label: &Label, layout: u32) -> usize
    ensures value { result ≡ flag_len (has_flags layout) + (14 + length label.now.target + length label.now.packet) }
    ensures target { length label.now.target ≤ 255 }
    ensures packet { length label.now.packet ≤ 255 }
    ensures few { flag_len (has_flags layout) ≤ 1 }
{
    flag_len(layout) + (14 + label.target.as_slice().len() + label.packet.as_slice().len())
}

/// Puts a head.
pub(crate) fn put_head(out: &mut Vec<u8>, label: &Label, count: u32, layout: u32)
    requires { vec_len out.old + (flag_len (has_flags layout) + (14 + length label.now.target + length label.now.packet)) ≤ vec_capacity out.old }
    ensures items { out.new.items ≡ out.old.items ++ head_in (has_flags layout) (heading_of label.now) count }
    ensures capacity { vec_capacity out.old ≤ vec_capacity out.new }
{
    put_flags(out, label.stored, layout);
    put_plain_head(out, label, count);
}

/// Puts the flags, where the layout has them.
fn put_flags(out: &mut Vec<u8>, stored: bool, layout: u32)
    requires { vec_len out.old + flag_len (has_flags layout) ≤ vec_capacity out.old }
    ensures items { out.new.items ≡ out.old.items ++ flag_bytes (has_flags layout) stored }
    ensures capacity { vec_capacity out.old ≤ vec_capacity out.new }
{
    if layout == 4 {
        put_bytes(out, &[if stored { 128 } else { 0 }]);
    }
}

/// Puts a head without flags.
fn put_plain_head(out: &mut Vec<u8>, label: &Label, count: u32)
    requires { vec_len out.old + (14 + length label.now.target + length label.now.packet) ≤ vec_capacity out.old }
    ensures items { out.new.items ≡ out.old.items ++ head_bytes (head_for (heading_of label.now) count) }
    ensures capacity { vec_capacity out.old ≤ vec_capacity out.new }
{
    put_u32(out, label.time.seconds);
    put_u32(out, label.time.micros);
    put_name(out, label.target.as_slice());
    put_name(out, label.packet.as_slice());
    put_u32(out, count);
}
