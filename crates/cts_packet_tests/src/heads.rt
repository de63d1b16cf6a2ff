// Heads that are written and read.
use crate::labels::{label_of, marked, name_text};
use cts_def::{Label, Time};
use cts_encode::{Head, encode_head, read_head};
use cts_rows::{Answers, cut, digits_of, number, part, rows_end_so, same};
use std::alloc::Global;
use std::test::Fail;

const LAST_MOMENT: Time = Time {
    seconds: 4_294_967_295,
    micros: 999_999,
};

/// Appends the head of a label in a layout, and of so many bytes.
fn push_head(label: &Label, count: u32, layout: u32, out: &mut Vec<u8>) -> Result<(), Fail> {
    Ok(encode_head(label, count, layout, out)?)
}

/// A layout, whether the packet was stored, and its head after a byte 78.
const WRITTEN: &str = "\
2 false|78ffffffff000f423f014e024e4e00000102
2 true|78ffffffff000f423f014e024e4e00000102
4 false|7800ffffffff000f423f014e024e4e00000102
4 true|7880ffffffff000f423f014e024e4e00000102";

struct Written;

impl Answers for Written {
    fn answer(alloc: Global, asked: &str) -> Result<String, Fail> {
        let label = marked(alloc, LAST_MOMENT, "N", "NN", part(asked, 1) == "true")?;
        let mut out = b"x".to_vec(alloc)?;
        push_head(&label, 258, number(asked, 0)?, &mut out)?;
        digits_of(alloc, &out)
    }
}

#[test]
fn a_head_is_written_in_big_endian(rt: HostRuntime) -> Result<(), Fail> {
    rows_end_so::<Written>(rt.alloc(), WRITTEN)
}

/// What is read of heads with names of these lengths.
const HEADS: &str = "\
*1|*1|4294967295 999999 9 10 11 12 16 4294967295
*4|*2|4294967295 999999 9 13 14 16 20 4294967295
*255|*1|4294967295 999999 9 264 265 266 270 4294967295
*1|*255|4294967295 999999 9 10 11 266 270 4294967295
*255|*255|4294967295 999999 9 264 265 520 524 4294967295";

/// What is read of a head with names of a row's lengths, of which no part is read.
struct Heads;

impl Answers for Heads {
    fn answer(alloc: Global, asked: &str) -> Result<String, Fail> {
        let (target, packet) = cut(asked, '|')?;
        let target = name_text(alloc, target)?;
        let packet = name_text(alloc, packet)?;
        let label = label_of(alloc, LAST_MOMENT, target.as_str(), packet.as_str())?;
        head_text(alloc, read_again(alloc, &label, 2)?)
    }
}

/// What is read of the head of a label in a layout.
fn read_again(alloc: Global, label: &Label, layout: u32) -> Result<Head, Fail> {
    let mut out = Vec::new(alloc);
    push_head(label, 4_294_967_295, layout, &mut out)?;
    if part_is_read(&out, layout) {
        return Err(Fail::new("a part of a head is read"));
    }
    match read_head(&out, layout) {
        Some(head) => Ok(head),
        None => Err(Fail::new("no head")),
    }
}

/// The time, where both names stand, the place after the head, and how many bytes follow.
fn head_text(alloc: Global, head: Head) -> Result<String, Fail> {
    let (target, packet) = (head.target, head.packet);
    Ok(format!(in alloc;
        "{} {} {} {} {} {} {} {}",
        head.time.seconds,
        head.time.micros,
        target.0,
        target.1,
        packet.0,
        packet.1,
        head.begin,
        head.count
    )?)
}

fn part_is_read(bytes: &[u8], layout: u32) -> bool {
    for count in 0..bytes.len() {
        if read_head(&bytes[..count], layout).is_some() {
            return true;
        }
    }
    false
}

#[test]
fn heads_are_read_whole_or_not(rt: HostRuntime) -> Result<(), Fail> {
    rows_end_so::<Heads>(rt.alloc(), HEADS)
}

/// A layout, whether the packet was stored, the lengths of names, and the flags and the rest of what is read of the head.
const FLAGS: &str = "\
2 true *1 *2|0 4294967295 999999 9 10 11 13 17 4294967295
4 true *1 *2|128 4294967295 999999 10 11 12 14 18 4294967295
4 false *4 *2|0 4294967295 999999 10 14 15 17 21 4294967295
4 true *255 *255|128 4294967295 999999 10 265 266 521 525 4294967295";

struct Flags;

impl Answers for Flags {
    fn answer(alloc: Global, asked: &str) -> Result<String, Fail> {
        let target = name_text(alloc, part(asked, 2))?;
        let packet = name_text(alloc, part(asked, 3))?;
        let stored = part(asked, 1) == "true";
        let label = marked(alloc, LAST_MOMENT, target.as_str(), packet.as_str(), stored)?;
        let head = read_again(alloc, &label, number(asked, 0)?)?;
        flags_and_head(alloc, head)
    }
}

fn flags_and_head(alloc: Global, head: Head) -> Result<String, Fail> {
    let rest = head_text(alloc, head)?;
    Ok(format!(in alloc; "{} {rest}", head.flags)?)
}

#[test]
fn heads_of_layout_4_have_flags(rt: HostRuntime) -> Result<(), Fail> {
    rows_end_so::<Flags>(rt.alloc(), FLAGS)
}
