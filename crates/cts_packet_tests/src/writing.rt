// What chains write, and what they read again of it.
ghost use Rattle.cts_chain.specs.Shapes.{IsChain, IsIdle};

use crate::chains::feed;
use crate::labels::{bytes_in, label_of, marked, name_text, shown};
use crate::shelves::chain_of;
use cts_chain::{Chain, ChainStep, Chained};
use cts_def::{Label, Time};
use cts_rows::{Answers, bytes_of, cut, debug_of, part, rows_end_so};
use std::alloc::Global;
use std::test::Fail;

/// Protocols, bytes, and the frames in which they are put after a byte ee, or why they are not, and what then stands there.
const WRITTEN: &str = "\
BURST 1 nil true;PROTOCOL WRITE BURST 2 0xaa true|07|ee00aa0007
BURST;PROTOCOL WRITE TERMINATED 0x0a 0x0a|07|ee070a
TERMINATED 0x0a 0x0a;PROTOCOL READ LENGTH 0 8 0 1|0a|HoldsTermination ee
BURST 0 0xaabb true|07|NoPlace ee
BURST 3 0xaabb true|07|eeaabb0007
BURST 1 nil true||ee00
TERMINATED 0x0a 0x0a|41|ee410a
TERMINATED 0x0d0a 0x0d0a|41|ee410d0a
TERMINATED 0x0d0a 0x0d0a|410d|ee410d0d0a
TERMINATED 0x0d0a 0x0d0a|0d0a41|HoldsTermination ee
TERMINATED 0x0a0a 0x0a0a|410a|HoldsTermination ee
TERMINATED 0x0d0a 0x0d0a true 2 0x1acf true|41|ee1acf410d0a
TERMINATED 0x0a 0x0a true 0 0x1acffc true|41|NoPlace ee
TERMINATED 0x0a 0x0a true 0 0x1acffc true|0a|HoldsTermination ee
LENGTH 0 16 0 1|6162|ee6162
LENGTH 0 16 0 1 BIG_ENDIAN 0 nil nil true|61|NoPlace ee
LENGTH 0 8 0 1 BIG_ENDIAN 1 nil nil true|6162|ee036162
LENGTH 16 16 2 2 BIG_ENDIAN 4 0x1acf 4 true|61626364|ee1acf000361626364
LENGTH 16 16 2 2 BIG_ENDIAN 4 0x1acf 4 true|616263|NoPlace ee
LENGTH 16 16 2 2 BIG_ENDIAN 4 0x1acf 4 true|6162636465666768|LengthTooLarge ee
PREIDENTIFIED 0xc0 3|7778797a|LengthTooLarge ee
PREIDENTIFIED 0xc0 4|7778797a|eec0000000050000000606544152474554065041434b4554000000047778797a
PREIDENTIFIED 0xc0 3 4|7778797a|LengthTooLarge ee
PREIDENTIFIED 0xc0 4 4|7778797a|eec000000000050000000606544152474554065041434b4554000000047778797a";

/// The greatest frames, and one byte more.
const GREATEST: &str = "\
TERMINATED 0x0a 0x0a|*1048575|1048577
TERMINATED 0x0a 0x0a|*1048576|LengthTooLarge ee
LENGTH 0 32 0 1 BIG_ENDIAN 4 nil nil true|*1048572|1048577
LENGTH 0 32 0 1 BIG_ENDIAN 4 nil nil true|*1048573|LengthTooLarge ee
LENGTH 0 8 0 1 BIG_ENDIAN 1 nil nil true|*254|256
LENGTH 0 8 0 1 BIG_ENDIAN 1 nil nil true|*255|LengthTooLarge ee
LENGTH 0 16 0 1 BIG_ENDIAN 2 nil nil true|*65533|65536
LENGTH 0 16 0 1 BIG_ENDIAN 2 nil nil true|*65534|LengthTooLarge ee
PREIDENTIFIED|*1048550|1048577
PREIDENTIFIED|*1048551|LengthTooLarge ee
PREIDENTIFIED nil nil 4|*1048549|1048577
PREIDENTIFIED nil nil 4|*1048550|LengthTooLarge ee";

/// What the chain of a row's protocols writes of its bytes.
struct Written;

impl Answers for Written {
    fn answer(alloc: Global, asked: &str) -> Result<String, Fail> {
        let (protocols, bytes) = cut(asked, '|')?;
        let bytes = bytes_in(alloc, bytes)?;
        let chain = chain_of(alloc, protocols)?;
        written_by(alloc, &chain, &bytes)
    }
}

#[test]
fn the_last_protocol_writes_first(rt: HostRuntime) -> Result<(), Fail> {
    rows_end_so::<Written>(rt.alloc(), WRITTEN)
}

#[test]
fn greatest_frames_are_written(rt: HostRuntime) -> Result<(), Fail> {
    rows_end_so::<Written>(rt.alloc(), GREATEST)
}

/// What the chain writes after a byte ee, with its refusal in front where it has one.
fn written_by(alloc: Global, chain: &Chain, bytes: &[u8]) -> Result<String, Fail>
    requires { IsChain (⟦<Chain as Chained>⟧.shape chain.now) }
{
    let label = label_of(alloc, MOMENT, "TARGET", "PACKET")?;
    written_with(alloc, chain, &label, bytes)
}

fn written_with(alloc: Global, chain: &Chain, label: &Label, bytes: &[u8]) -> Result<String, Fail>
    requires { IsChain (⟦<Chain as Chained>⟧.shape chain.now) }
{
    let mut out = bytes_of(alloc, "ee")?;
    let refusal = refusal_of(alloc, chain, label, bytes, &mut out)?;
    let out = shown(alloc, &out)?;
    Ok(format!(in alloc; "{refusal}{out}")?)
}

/// Appends what the chain writes, and answers its refusal with a blank, or nothing.
fn refusal_of(
    alloc: Global,
    chain: &Chain,
    label: &Label,
    bytes: &[u8],
    out: &mut Vec<u8>,
) -> Result<String, Fail>
    requires { IsChain (⟦<Chain as Chained>⟧.shape chain.now) }
{
    match chain.encode(label, bytes, out) {
        Ok(()) => Ok(String::new(alloc)),
        Err(fault) => Ok(format!(in alloc; "{fault:?} ")?),
    }
}

const MOMENT: Time = Time {
    seconds: 5,
    micros: 6,
};

/// The names of a target and a packet, bytes, and what they bring along through a frame: the time, and whether the bytes and the
/// names are the same. A head with the names of the last row has 270 bytes, the pattern two: the greatest frame.
const AGAIN: &str = "\
TARGET|PACKET|07|5 6 true true true
T|*255|07|5 6 true true true
*255|P|*1048304|5 6 true true true";

/// What a packet brings along that was written with a row's names and bytes, and read again.
struct Again;

impl Answers for Again {
    fn answer(alloc: Global, asked: &str) -> Result<String, Fail> {
        let (target, rest) = cut(asked, '|')?;
        let (packet, bytes) = cut(rest, '|')?;
        let target = name_text(alloc, target)?;
        let packet = name_text(alloc, packet)?;
        let bytes = bytes_in(alloc, bytes)?;
        told_again(alloc, target.as_str(), packet.as_str(), &bytes)
    }
}

#[test]
fn a_packet_brings_its_time_and_names(rt: HostRuntime) -> Result<(), Fail> {
    rows_end_so::<Again>(rt.alloc(), AGAIN)
}

fn told_again(alloc: Global, target: &str, packet: &str, bytes: &[u8]) -> Result<String, Fail> {
    let mut chain = chain_of(alloc, "PREIDENTIFIED 0xabcd")?;
    told_by(alloc, &mut chain, target, packet, bytes)
}

fn told_by(
    alloc: Global,
    chain: &mut Chain,
    target: &str,
    packet: &str,
    bytes: &[u8],
) -> Result<String, Fail>
    requires { IsIdle (⟦<Chain as Chained>⟧.shape chain.old) }
{
    let frame = frame_of(alloc, chain, target, packet, bytes)?;
    feed(chain, &frame)?;
    read_again(alloc, chain, target, packet, bytes)
}

/// What the chain writes of bytes with these names.
fn frame_of(
    alloc: Global,
    chain: &Chain,
    target: &str,
    packet: &str,
    bytes: &[u8],
) -> Result<Vec<u8>, Fail>
    requires { IsChain (⟦<Chain as Chained>⟧.shape chain.now) }
{
    let label = label_of(alloc, MOMENT, target, packet)?;
    let mut out = Vec::new(alloc);
    write(chain, &label, bytes, &mut out)?;
    Ok(out)
}

fn write(chain: &Chain, label: &Label, bytes: &[u8], out: &mut Vec<u8>) -> Result<(), Fail>
    requires { IsChain (⟦<Chain as Chained>⟧.shape chain.now) }
{
    Ok(chain.encode(label, bytes, out)?)
}

/// The time of the next packet, and whether its bytes and its names are these.
fn read_again(
    alloc: Global,
    chain: &mut Chain,
    target: &str,
    packet: &str,
    bytes: &[u8],
) -> Result<String, Fail>
    requires { IsChain (⟦<Chain as Chained>⟧.shape chain.old) }
{
    let ChainStep::Packet(Some(time)) = chain.next() else {
        return Err(Fail::new("no packet"));
    };
    let same = chain.packet_bytes() == bytes;
    let Some((of_target, of_packet)) = chain.packet_names() else {
        return Err(Fail::new("no names"));
    };
    let same_target = of_target == target.as_bytes();
    let same_packet = of_packet == packet.as_bytes();
    Ok(format!(in alloc;
        "{} {} {same} {same_target} {same_packet}",
        time.seconds, time.micros
    )?)
}

/// A layout, whether a packet was stored, and whether it is told to be after it was written in that layout and read again.
const STORED: &str = "\
2 false|false
2 true|false
4 false|false
4 true|true";

struct Stored;

impl Answers for Stored {
    fn answer(alloc: Global, asked: &str) -> Result<String, Fail> {
        let protocols = format!(in alloc; "PREIDENTIFIED nil nil {}", part(asked, 0))?;
        let label = marked(alloc, MOMENT, "T", "A", part(asked, 1) == "true")?;
        let mut chain = chain_of(alloc, protocols.as_str())?;
        stored_again(alloc, &mut chain, &label)
    }
}

#[test]
fn a_packet_says_whether_it_was_stored(rt: HostRuntime) -> Result<(), Fail> {
    rows_end_so::<Stored>(rt.alloc(), STORED)
}

/// Whether the chain's packet is told to be stored, which it writes with this label and reads again.
fn stored_again(alloc: Global, chain: &mut Chain, label: &Label) -> Result<String, Fail>
    requires { IsIdle (⟦<Chain as Chained>⟧.shape chain.old) }
{
    let mut frame = Vec::new(alloc);
    write(chain, label, b"x", &mut frame)?;
    feed(chain, &frame)?;
    stored_next(alloc, chain)
}

fn stored_next(alloc: Global, chain: &mut Chain) -> Result<String, Fail>
    requires { IsChain (⟦<Chain as Chained>⟧.shape chain.old) }
{
    let ChainStep::Packet(_) = chain.next() else {
        return Err(Fail::new("no packet"));
    };
    debug_of(alloc, &chain.packet_stored())
}
