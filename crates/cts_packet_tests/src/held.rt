// What a protocol holds after what it gave: the bytes that may still matter, and no others.
ghost use Rattle.std.specs.Prelude.{◌≡◌, true, IfOk, OnOk};

use crate::labels::{bytes_in, shown, site_with};
use crate::shelves::interface_of;
use cts_def::{ProtoSpec, ProtoUse, Site};
use cts_proto::{Protocol, Step};
use cts_rows::{Answers, cut, rows_end_so};
use cts_stream::Length;
use std::alloc::Global;
use std::test::Fail;

/// A LENGTH, pieces, and after each piece what is given, then `More` or the error, and what is held.
const ROWS: &str = "\
LENGTH 16 16 0 1 BIG_ENDIAN 0 0x1acf|001a1a|More 1a;
LENGTH 16 16 0 1 BIG_ENDIAN 0 0x1acf|001a1a cf0006aabb|More 1a;1acf0006aabb More ;
LENGTH 16 16 0 1 BIG_ENDIAN 0 0x1acf|1acf0005aa1acf 0004ff|1acf0005aa More 1acf;1acf0004 More ;
LENGTH 0 8 0 1|0301|More 0301;
LENGTH 0 8 0 1|020100aa bb|0201 Bad(Short(0)) 00aa;Bad(Short(0)) 00aabb;";

/// What a row's protocol gives of its pieces, and holds.
struct Told;

impl Answers for Told {
    fn answer(alloc: Global, asked: &str) -> Result<String, Fail> {
        let (protocol, pieces) = cut(asked, '|')?;
        let site = site_with(alloc, protocol)?;
        told_of_site(alloc, &site, pieces)
    }
}

#[test]
fn what_is_left_is_held(rt: HostRuntime) -> Result<(), Fail> {
    rows_end_so::<Told>(rt.alloc(), ROWS)
}

fn told_of_site(alloc: Global, site: &Site, pieces: &str) -> Result<String, Fail> {
    let [used] = interface_of(site)?.chain.as_slice() else {
        return Err(Fail::new("not one protocol"));
    };
    told_of_pieces(alloc, used, pieces)
}

/// What a LENGTH gives of the pieces between blanks, and holds after each of them.
fn told_of_pieces(alloc: Global, used: &ProtoUse, pieces: &str) -> Result<String, Fail> {
    let mut protocol = configured(alloc, used)?;
    let pieces = pieces.split(' ').collect::<Vec<&str>>(alloc)?;
    let mut out = String::new(alloc);
    feed_all(alloc, &mut protocol, pieces.as_slice(), &mut out)?;
    Ok(out)
}

/// A LENGTH with these parameters.
fn configured(alloc: Global, used: &ProtoUse) -> Result<Length, Fail>
    ensures configured { IfOk result (λ p. (⟦<Length as Protocol>⟧.meaning p).configured ≡ true) }
    ensures drained { IfOk result (λ p. (⟦<Length as Protocol>⟧.meaning p).drained ≡ true) }
{
    let ProtoSpec::Length { .. } = &used.spec else {
        return Err(Fail::new("no LENGTH"));
    };
    let mut protocol = Length::blank(alloc);
    protocol.configure(used.spec.copied()?);
    Ok(protocol)
}

fn feed_all<P: Protocol>(
    alloc: Global,
    protocol: &mut P,
    pieces: &[&str],
    out: &mut String,
) -> Result<(), Fail>
    requires configured { (P.meaning protocol.old).configured ≡ true }
    requires drained { (P.meaning protocol.old).drained ≡ true }
{
    let [piece, rest @ ..] = pieces else {
        return Ok(());
    };
    feed_one(protocol, &bytes_in(alloc, piece)?)?;
    drain(alloc, protocol, out, 100)?;
    show(alloc, protocol.held(), out, ';')?;
    feed_all(alloc, protocol, rest, out)
}

/// Takes a piece, for which it makes room.
fn feed_one<P: Protocol>(protocol: &mut P, piece: &[u8]) -> Result<(), Fail>
    requires configured { (P.meaning protocol.old).configured ≡ true }
    requires drained { (P.meaning protocol.old).drained ≡ true }
    ensures configured { OnOk result ((P.meaning protocol.new).configured ≡ true) }
{
    protocol.reserve(piece.len())?;
    protocol.feed(piece);
    Ok(())
}

/// Appends what the protocol gives, at most so often, and why there is no more.
fn drain<P: Protocol>(
    alloc: Global,
    protocol: &mut P,
    out: &mut String,
    most: u32,
) -> Result<(), Fail>
    requires configured { (P.meaning protocol.old).configured ≡ true }
    ensures configured { OnOk result ((P.meaning protocol.new).configured ≡ true) }
    ensures drained { OnOk result ((P.meaning protocol.new).drained ≡ true) }
{
    if most == 0 {
        return Err(Fail::new("no end"));
    }
    match protocol.next() {
        Step::Frame { start, end, .. } => {
            show(alloc, &protocol.held()[start..end], out, ' ')?;
            drain(alloc, protocol, out, most - 1)
        }
        Step::More => Ok(out.push_str("More ")?),
        Step::Bad(cause) => {
            let text = format!(in alloc; "Bad({cause:?}) ")?;
            Ok(out.push_str(text.as_str())?)
        }
    }
}

/// Appends bytes, and a mark after them.
fn show(alloc: Global, bytes: &[u8], out: &mut String, mark: char) -> Result<(), Fail> {
    let text = shown(alloc, bytes)?;
    out.push_str(text.as_str())?;
    Ok(out.push(mark)?)
}
