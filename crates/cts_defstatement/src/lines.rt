// What the words of a statement say.
ghost use Rattle.std.specs.Prelude.{◌≡◌, IfOk, IsTrue, map};
ghost use Rattle.cts_base.specs.Names.{is_name};
ghost use Rattle.cts_reader.specs.Words.{word_at};
ghost use Rattle.cts_defstatement.specs.Lines.{packet_line, green_in, limits_line, state_def, segment, AreNames, line_of};
ghost use Rattle.cts_defstatement.specs.Numbers.{decimal};

use crate::fixed::{color_of, order_of, overflow_of};
use crate::items::{parameter, telemetry_item};
use crate::numbers::{decimal, persistence, whole};
use crate::texts::name;
use crate::words::{is_same, rest};
use crate::{Detail, Keyword, LimitsLine, Line, PacketKind, PacketLine};
use cts_base::{Bytes, Decimal, List, Memory, in_upper_case};
use cts_bits::Order;
use cts_def::{Limits, Segment, StateDef};
use cts_reader::word_at;
use std::alloc::Global;

fn packet_line(alloc: Global, kind: PacketKind, words: &[Bytes]) -> Result<PacketLine, Memory>
    requires target { IsTrue (is_name (word_at words.now 0)) }
    requires name { IsTrue (is_name (word_at words.now 1)) }
    ensures { IfOk result (λ l. l ≡ packet_line kind words.now) }
{
    Ok(PacketLine {
        kind,
        target: name(alloc, word_at(words, 0))?,
        name: name(alloc, word_at(words, 1))?,
        order: order_of(word_at(words, 2)).unwrap_or(Order::Big),
    })
}

fn state_def(alloc: Global, words: &[Bytes]) -> Result<StateDef, Memory>
    ensures { IfOk result (λ s. s ≡ state_def words.now) }
{
    Ok(StateDef {
        name: in_upper_case(alloc, word_at(words, 0))?,
        value: whole(word_at(words, 1)),
        color: color_of(word_at(words, 2)),
        hazardous: is_same(word_at(words, 2), b"HAZARDOUS"),
    })
}

// The pair of green limits, if there is one.
fn green_in(words: &[Bytes]) -> Option<(Decimal, Decimal)>
    ensures { result ≡ green_in words.now }
{
    if 9 <= words.len() {
        Some((decimal(word_at(words, 7)), decimal(word_at(words, 8))))
    } else {
        None
    }
}

fn limits_line(alloc: Global, words: &[Bytes]) -> Result<LimitsLine, Memory>
    requires { IsTrue (is_name (word_at words.now 0)) }
    ensures { IfOk result (λ l. l ≡ limits_line words.now) }
{
    Ok(LimitsLine {
        set: name(alloc, word_at(words, 0))?,
        persistence: persistence(word_at(words, 1)),
        enabled: is_same(word_at(words, 2), b"ENABLED"),
        limits: Limits {
            red_low: decimal(word_at(words, 3)),
            yellow_low: decimal(word_at(words, 4)),
            yellow_high: decimal(word_at(words, 5)),
            red_high: decimal(word_at(words, 6)),
            green: green_in(words),
        },
    })
}

fn decimals(alloc: Global, words: &[Bytes]) -> Result<List<Decimal>, Memory>
    ensures { IfOk result (λ l. l ≡ map decimal words.now) }
{
    let mut held = Vec::new(alloc);
    for word in words {
        held.push(decimal(word.as_slice()))?;
    }
    Ok(List::of(held))
}

fn segment(alloc: Global, words: &[Bytes]) -> Result<Segment, Memory>
    ensures { IfOk result (λ s. s ≡ segment words.now) }
{
    Ok(Segment {
        bound: decimal(word_at(words, 0)),
        coefficients: decimals(alloc, rest(words))?,
    })
}

// A copy of the word at a place.
fn copied(alloc: Global, words: &[Bytes], at: usize) -> Result<Bytes, Memory>
    ensures { IfOk result (λ b. b ≡ word_at words.now at) }
{
    Bytes::copy(alloc, word_at(words, at))
}

/// What the words after a keyword say.
pub(crate) fn line_of(alloc: Global, keyword: Keyword, words: &[Bytes]) -> Result<Line, Memory>
    requires { AreNames keyword words.now }
    ensures { IfOk result (λ l. l ≡ line_of keyword words.now) }
{
    Ok(match keyword {
        Keyword::Command => Line::Packet(packet_line(alloc, PacketKind::Command, words)?),
        Keyword::Telemetry => Line::Packet(packet_line(alloc, PacketKind::Telemetry, words)?),
        Keyword::Item { append, id } => Line::Item(telemetry_item(alloc, append, id, words)?),
        Keyword::Parameter { append, id } => Line::Item(parameter(alloc, append, id, words)?),
        Keyword::State => Line::Detail(Detail::State(state_def(alloc, words)?)),
        Keyword::Limits => Line::Detail(Detail::Limits(limits_line(alloc, words)?)),
        Keyword::Poly => Line::Detail(Detail::Poly(decimals(alloc, words)?)),
        Keyword::Segment => Line::Detail(Detail::Segment(segment(alloc, words)?)),
        Keyword::Units => Line::Detail(Detail::Units(
            copied(alloc, words, 0)?,
            copied(alloc, words, 1)?,
        )),
        Keyword::Format => Line::Detail(Detail::Format(copied(alloc, words, 0)?)),
        Keyword::Overflow => Line::Detail(Detail::Overflow(overflow_of(word_at(words, 0)))),
        Keyword::Required => Line::Detail(Detail::Required),
        Keyword::Hazardous => Line::Hazardous,
        Keyword::Meta | Keyword::AllowShort => Line::NoEffect,
    })
}
