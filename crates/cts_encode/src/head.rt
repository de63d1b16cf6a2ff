// Heads of preidentified frames and of log entries.
ghost use Rattle.std.specs.Prelude.{◌≡◌, ◌++◌, OnOk, OnErr, false};
ghost use Rattle.cts_encode.specs.HeadSpans.{ReadsHead};
ghost use Rattle.cts_framing.specs.Layouts.{has_flags};
ghost use Rattle.cts_encode.specs.Spellings.{head_in, heading_of};

use crate::put::{head_len, put_head};
use byteorder::{BigEndian, ByteOrder};
use cts_base::Memory;
use cts_def::{Label, Time};

/// A head that was read: its time and flags, the spans of its names, the place after it and the count of the bytes that follow.
#[derive(Clone, Copy, Debug, PartialEq, Eq)]
pub struct Head {
    /// The packet's time.
    pub time: Time,
    /// The flags of layout 4, 0 in layout 2.
    pub flags: u8,
    /// Where the target's name stands.
    pub target: (usize, usize),
    /// Where the packet's name stands.
    pub packet: (usize, usize),
    /// The place after the head.
    pub begin: usize,
    /// How many bytes follow.
    pub count: u32,
}

/// The head of this layout, 2 or 4, at the beginning of the bytes, if they hold it whole, whatever its flags are.
pub fn read_head(bytes: &[u8], layout: u32) -> Option<Head>
    ensures { ReadsHead (has_flags layout) bytes.now result }
{
    if layout != 4 {
        return plain_head(bytes);
    }
    let (flags, rest) = bytes.split_first()?;
    let head = plain_head(rest)?;
    Some(Head {
        time: head.time,
        flags: *flags,
        target: (1 + head.target.0, 1 + head.target.1),
        packet: (1 + head.packet.0, 1 + head.packet.1),
        begin: 1 + head.begin,
        count: head.count,
    })
}

// The head without flags.
fn plain_head(bytes: &[u8]) -> Option<Head>
    ensures { ReadsHead false bytes.now result }
{
    if bytes.len() < 9 {
        return None;
    }
    let target_end = 9 + bytes[8] as usize;
    if bytes.len() <= target_end {
        return None;
    }
    let packet_end = target_end + 1 + bytes[target_end] as usize;
    if bytes.len() < packet_end + 4 {
        return None;
    }
    Some(Head {
        time: Time {
            seconds: BigEndian::read_u32(bytes),
            micros: BigEndian::read_u32(&bytes[4..]),
        },
        flags: 0,
        target: (9, target_end),
        packet: (target_end + 1, packet_end),
        begin: packet_end + 4,
        count: BigEndian::read_u32(&bytes[packet_end..]),
    })
}

/// Appends a head of this layout, 2 or 4, with the label's time, names and flags, and the count. In layout 2 there are no flags.
///
/// # Errors
///
/// `Memory`, and then nothing was appended.
pub fn encode_head(label: &Label, count: u32, layout: u32, out: &mut Vec<u8>) -> Result<(), Memory>
    ensures ok { OnOk result (out.new.items ≡ out.old.items ++ head_in (has_flags layout) (heading_of label.now) count) }
    ensures err { OnErr result (out.new.items ≡ out.old.items) }
{
    out.reserve(head_len(label, layout))?;
    put_head(out, label, count, layout);
    Ok(())
}
