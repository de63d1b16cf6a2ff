// What chains give of pieces, however these are cut.
ghost use Rattle.std.specs.Prelude.{OnOk};
ghost use Rattle.cts_chain.specs.Shapes.{IsChain, IsIdle};

use crate::labels::{bytes_in, shown};
use crate::shelves::chain_of;
use cts_chain::{Chain, ChainStep, Chained};
use cts_rows::{Answers, cut, pieces_of, rows_end_so, same};
use std::alloc::Global;
use std::test::Fail;

/// Protocols, pieces, and the packets that they give; then the last answer, what is held, skipped and empty.
const ROWS: &str = "\
LENGTH 16 16 0 1 BIG_ENDIAN 0 0x1acf|001a1a cf0006aabb|1acf0006aabb More [0, 0, 0, 0] 2 0
TERMINATED 0x0d0a 0x0d0a|41420d 0a 0d0a|4142 More [0, 0, 0, 0] 0 1
TERMINATED 0x0a 0x0a;PROTOCOL READ LENGTH 0 8 0 1|03110a220a|031122 More [0, 0, 0, 0] 0 0
TERMINATED 0x0a 0x0a;PROTOCOL READ LENGTH 0 8 0 1|05110a22|More [1, 2, 0, 0] 0 0
LENGTH 0 16 0 1||More [0, 0, 0, 0] 0 0
LENGTH 0 16 0 1|00|More [1, 0, 0, 0] 0 0
LENGTH 0 16 0 1|0004aabb0005cc|0004aabb More [3, 0, 0, 0] 0 0
LENGTH 0 16 0 1|00020002000307|0002 0002 000307 More [0, 0, 0, 0] 0 0
LENGTH 0 16 0 1|00020000|0002 Bad { stage: 1, cause: Short(0) } [2, 0, 0, 0] 0 0
LENGTH 0 16 0 1|0003aa00|0003aa More [1, 0, 0, 0] 0 0
LENGTH 0 16 0 1 BIG_ENDIAN 0 nil 5|0006aabb|Bad { stage: 1, cause: OverMax(6) } [4, 0, 0, 0] 0 0
LENGTH 16 16 0 1 BIG_ENDIAN 0 0x1acf|0000 001a001a|More [1, 0, 0, 0] 5 0
PREIDENTIFIED nil 3|0000000000000000000000000004|Bad { stage: 1, cause: OverMax(4) } [14, 0, 0, 0] 0 0
PREIDENTIFIED|0000000000000000000000100000|Bad { stage: 1, cause: TooLong } [14, 0, 0, 0] 0 0
BURST|0102|0102 More [0, 0, 0, 0] 0 0
BURST|01 02|01 02 More [0, 0, 0, 0] 0 0
FIXED 1|0105 06010708 02|010506 010708 02 More [0, 0, 0, 0] 0 0
FIXED 1 0 nil true false true|01050602 01|010506 Bad { stage: 1, cause: UnknownStart } [2, 0, 0, 0] 0 0
FIXED 1 2 0x1acf|ff1acf0105061a cf0107081acf021a|010506 010708 02 More [1, 0, 0, 0] 1 0
LENGTH 0 32 0 1|00100000|More [4, 0, 0, 0] 0 0
LENGTH 0 64 0 65535|ffffffffffffffff|Bad { stage: 1, cause: TooLong } [8, 0, 0, 0] 0 0
LENGTH 0 8 -1 1|00|Bad { stage: 1, cause: Short(-1) } [1, 0, 0, 0] 0 0
LENGTH 0 8 0 1 BIG_ENDIAN 0 nil 5|06|Bad { stage: 1, cause: OverMax(6) } [1, 0, 0, 0] 0 0
PREIDENTIFIED|00000000000000000000ffffffff|Bad { stage: 1, cause: TooLong } [14, 0, 0, 0] 0 0
LENGTH 0 32 0 1|00100001|Bad { stage: 1, cause: TooLong } [4, 0, 0, 0] 0 0
LENGTH 0 16 0 1|0004aabb0001 ff|0004aabb Bad { stage: 1, cause: Short(1) } [3, 0, 0, 0] 0 0
TERMINATED 0x0a 0x0a;PROTOCOL READ LENGTH 0 8 0 1|000a020a01|Bad { stage: 2, cause: Short(0) } [1, 2, 0, 0] 0 0
PREIDENTIFIED nil 3 2|0000000000000000000000000004|Bad { stage: 1, cause: OverMax(4) } [14, 0, 0, 0] 0 0
PREIDENTIFIED nil nil 4|80000000640003d09004494e53540248530000000401900001 00000000640003d09004494e53540248530000000401900001 41|01900001 01900001 Bad { stage: 1, cause: Flags(65) } [1, 0, 0, 0] 0 0
PREIDENTIFIED 0xc0 3 4|ffc0 81|Bad { stage: 1, cause: Flags(129) } [2, 0, 0, 0] 1 0
PREIDENTIFIED nil 3 4|800000000000000000000000000004|Bad { stage: 1, cause: OverMax(4) } [15, 0, 0, 0] 0 0
PREIDENTIFIED nil 3 4|010000000000000000000000000004|Bad { stage: 1, cause: Flags(1) } [15, 0, 0, 0] 0 0
PREIDENTIFIED nil nil 4|000000000000000000000000100000|Bad { stage: 1, cause: TooLong } [15, 0, 0, 0] 0 0";

/// The same of frames at the limit of 1,048,576 bytes, and one past it.
const GREATEST: &str = "\
LENGTH 0 32 0 1|00100000 *1048572 |1048576 More [0, 0, 0, 0] 0 0
LENGTH 0 32 0 1|00100000 *1048571 |More [1048575, 0, 0, 0] 0 0
TERMINATED 0x0a 0x0a| *1048575 |More [1048575, 0, 0, 0] 0 0
TERMINATED 0x0a 0x0a| *1048575 41|Bad { stage: 1, cause: TooLong } [1048576, 0, 0, 0] 0 0
TERMINATED 0x0a 0x0a| *1048575 0a|1048575 More [0, 0, 0, 0] 0 0
TERMINATED 0x0a 0x0a| *1048576 0a|Bad { stage: 1, cause: TooLong } [1048577, 0, 0, 0] 0 0
BURST| *1048576 |1048576 More [0, 0, 0, 0] 0 0
BURST| *1048577 |Bad { stage: 1, cause: TooLong } [1048577, 0, 0, 0] 0 0
FIXED 1 1048573| *1048576 |010101 More [0, 0, 0, 0] 0 0
FIXED 1 1048574| *1048575 |Bad { stage: 1, cause: TooLong } [1048575, 0, 0, 0] 0 0
PREIDENTIFIED|00000000000000000000000ffff2 *1048562 |1048562 More [0, 0, 0, 0] 0 0
PREIDENTIFIED|00000000000000000000000ffff3 *1048562 |Bad { stage: 1, cause: TooLong } [1048576, 0, 0, 0] 0 0
PREIDENTIFIED nil nil 4|8000000000000000000000000ffff1 *1048561 |1048561 More [0, 0, 0, 0] 0 0
PREIDENTIFIED nil nil 4|8000000000000000000000000ffff2 *1048561 |Bad { stage: 1, cause: TooLong } [1048576, 0, 0, 0] 0 0";

/// What the chain of a row's protocols gives of its pieces.
struct Told;

impl Answers for Told {
    fn answer(alloc: Global, asked: &str) -> Result<String, Fail> {
        let (protocols, pieces) = cut(asked, '|')?;
        told_by(alloc, protocols, pieces)
    }
}

#[test]
fn packets_answers_and_losses(rt: HostRuntime) -> Result<(), Fail> {
    rows_end_so::<Told>(rt.alloc(), ROWS)
}

#[test]
fn greatest_frames(rt: HostRuntime) -> Result<(), Fail> {
    rows_end_so::<Told>(rt.alloc(), GREATEST)
}

/// What a chain of these protocols gives of the pieces between blanks, and what is lost at its reset.
fn told_by(alloc: Global, protocols: &str, pieces: &str) -> Result<String, Fail> {
    let pieces = pieces.split(' ').collect::<Vec<&str>>(alloc)?;
    let mut chain = chain_of(alloc, protocols)?;
    told_of_pieces(alloc, &mut chain, pieces.as_slice())
}

/// What a chain gives of the pieces, and what is lost at its reset.
pub fn told_of_pieces(alloc: Global, chain: &mut Chain, pieces: &[&str]) -> Result<String, Fail>
    requires { IsIdle (⟦<Chain as Chained>⟧.shape chain.old) }
{
    let mut out = String::new(alloc);
    let last = feed_all(alloc, chain, pieces, &mut out)?;
    let loss = lost(alloc, chain)?;
    Ok(format!(in alloc; "{out}{last:?} {loss}")?)
}

/// What the chain held, skipped and dropped as empty, which its reset gives up.
fn lost(alloc: Global, chain: &mut Chain) -> Result<String, Fail>
    requires { IsIdle (⟦<Chain as Chained>⟧.shape chain.old) }
{
    let loss = chain.reset();
    Ok(format!(in alloc; "{:?} {} {}", loss.held, loss.skipped, loss.empty)?)
}

/// Feeds the pieces one after another, appends the packets that they give, and answers why there are no more after the last one.
fn feed_all(
    alloc: Global,
    chain: &mut Chain,
    pieces: &[&str],
    out: &mut String,
) -> Result<ChainStep, Fail>
    requires { IsIdle (⟦<Chain as Chained>⟧.shape chain.old) }
    ensures { OnOk result (IsIdle (⟦<Chain as Chained>⟧.shape chain.new)) }
{
    let [piece, rest @ ..] = pieces else {
        return Ok(ChainStep::More);
    };
    let last = feed_one(alloc, chain, piece, out)?;
    if rest.is_empty() {
        return Ok(last);
    }
    feed_all(alloc, chain, rest, out)
}

/// Feeds a piece, appends the packets that the chain gives, and answers why there are no more.
fn feed_one(
    alloc: Global,
    chain: &mut Chain,
    piece: &str,
    out: &mut String,
) -> Result<ChainStep, Fail>
    requires { IsIdle (⟦<Chain as Chained>⟧.shape chain.old) }
    ensures { OnOk result (IsIdle (⟦<Chain as Chained>⟧.shape chain.new)) }
{
    feed(chain, &bytes_in(alloc, piece)?)?;
    drain(alloc, chain, out, 100)
}

/// Feeds a piece.
pub fn feed(chain: &mut Chain, piece: &[u8]) -> Result<(), Fail>
    requires { IsIdle (⟦<Chain as Chained>⟧.shape chain.old) }
    ensures { OnOk result (IsChain (⟦<Chain as Chained>⟧.shape chain.new)) }
{
    Ok(chain.feed(piece)?)
}

/// Appends the packets that the chain gives, at most so many, and answers why there are no more.
fn drain(alloc: Global, chain: &mut Chain, out: &mut String, most: u32) -> Result<ChainStep, Fail>
    requires { IsChain (⟦<Chain as Chained>⟧.shape chain.old) }
    ensures { OnOk result (IsIdle (⟦<Chain as Chained>⟧.shape chain.new)) }
{
    if most == 0 {
        return Err(Fail::new("no end"));
    }
    match chain.next() {
        ChainStep::Packet(_) => {
            append(alloc, chain.packet_bytes(), out)?;
            drain(alloc, chain, out, most - 1)
        }
        ChainStep::More => Ok(ChainStep::More),
        ChainStep::Bad { stage, cause } => Ok(ChainStep::Bad { stage, cause }),
    }
}

/// Appends a packet and a blank.
fn append(alloc: Global, packet: &[u8], out: &mut String) -> Result<(), Fail> {
    let packet = shown(alloc, packet)?;
    out.push_str(packet.as_str())?;
    Ok(out.push(' ')?)
}

/// Protocols, a short connection, and what it gives however it is cut into pieces: bytes before a pattern, a pattern that
/// overlaps itself, terminations, frames without bytes, an error, and the first bytes of a next frame.
const CONNECTIONS: &str = "\
LENGTH 16 16 0 1 BIG_ENDIAN 0 0x1acf|001a1acf0005aa1a|1acf0005aa More [1, 0, 0, 0] 2 0
LENGTH 0 8 0 1|0304050100|030405 01 Bad { stage: 1, cause: Short(0) } [1, 0, 0, 0] 0 0
TERMINATED 0x0d0a 0x0d0a|41420d0a0d0a0d|4142 More [1, 0, 0, 0] 0 1
TERMINATED 0x0a 0x0a true 2 0xaaaa|00aaaaaa0aaa|aa More [1, 0, 0, 0] 1 0
TERMINATED 0x0a0a 0x0a0a;PROTOCOL READ LENGTH 0 8 0 1|03110a0a220a0a|031122 More [0, 0, 0, 0] 0 0
FIXED 1 2 0x1acf|ff1acf0105061a|010506 More [1, 0, 0, 0] 1 0
FIXED 1 0 nil true false true|0105060201|010506 Bad { stage: 1, cause: UnknownStart } [2, 0, 0, 0] 0 0";

#[test]
fn all_cuts_of_a_connection_give_the_same(rt: HostRuntime) -> Result<(), Fail> {
    for row in CONNECTIONS.split('\n') {
        all_cuts_hold(rt.alloc(), row)?;
    }
    Ok(())
}

/// All ways to cut the row's connection after its first seven bytes give the same.
fn all_cuts_hold(alloc: Global, row: &str) -> Result<(), Fail> {
    for cuts in 0..128 {
        cuts_hold(alloc, row, cuts)?;
    }
    Ok(())
}

/// The row's connection gives what it should where it is cut after byte `k` for each bit `k` of `cuts` that is set.
fn cuts_hold(alloc: Global, row: &str, cuts: u32) -> Result<(), Fail> {
    let (protocols, rest) = cut(row, '|')?;
    let (bytes, wanted) = cut(rest, '|')?;
    let pieces = pieces_of(alloc, bytes, cuts)?;
    let told = told_by(alloc, protocols, pieces.as_str())?;
    same(told.as_str(), wanted, pieces.as_str())
}

/// A head, a packet, and the first byte of a next head.
const HEAD: &str =
    "PREIDENTIFIED 0xc0|c0000000050000000601540150000000027778c0|7778 More [1, 0, 0, 0] 0 0";

/// The same with flags.
const FLAGS: &str =
    "PREIDENTIFIED 0xc0 nil 4|c080000000050000000601540150000000027778c0|7778 More [1, 0, 0, 0] 0 0";

#[test]
fn a_head_may_be_cut_at_each_byte(rt: HostRuntime) -> Result<(), Fail> {
    each_cut_holds(rt.alloc(), HEAD)?;
    each_cut_holds(rt.alloc(), FLAGS)
}

/// The row's connection gives what it should where it is cut after one of its first 20 bytes.
fn each_cut_holds(alloc: Global, row: &str) -> Result<(), Fail> {
    let mut cuts: u32 = 1;
    for _ in 0..20 {
        cuts_hold(alloc, row, cuts)?;
        cuts = cuts.saturating_mul(2);
    }
    Ok(())
}
