//! The event that a line says.

ghost use Rattle.std.specs.Prelude.{◌≡◌, IfOk};
ghost use Rattle.cts_entry.specs.declared.event.Event.TheVariants.{Piece as PieceFrom};
ghost use Rattle.cts_scriptread.specs.Makers.{both};
ghost use Rattle.cts_scriptread.specs.Words.{piece_of};
ghost use Rattle.cts_scriptread.specs.Events.{call_in, drain_in, event_of, finish_in, opens_in, piece_in, stop_in, time_in, write_in};

use crate::form::Keyword;
use crate::makers::{interface_named, maker_named, slot_named};
use crate::words::{count_of, is_log, number_of, piece_of, why_of};
use cts_base::{Bytes, Memory};
use cts_def::{Site, Time};
use cts_entry::Event;
use std::alloc::Global;

/// The event that the words after a keyword say, if they are those of a line.
pub(crate) fn event_of(
    alloc: Global,
    site: &Site,
    keyword: Keyword,
    words: &[Bytes],
) -> Result<Option<Event>, Memory>
    ensures { IfOk result (λ event. event ≡ event_of site.now keyword words.now) }
{
    match keyword {
        Keyword::Time => Ok(time_in(words)),
        Keyword::Open => Ok(opens_in(site, words)),
        Keyword::Bytes => piece_in(alloc, site, words),
        Keyword::Close => Ok(finish_in(site, words)),
        Keyword::Write => Ok(write_in(site, words)),
        Keyword::Call => call_in(alloc, words),
        Keyword::Drain => Ok(drain_in(site, words)),
        Keyword::Stop => Ok(stop_in(words)),
    }
}

fn time_in(words: &[Bytes]) -> Option<Event>
    ensures { result ≡ time_in words.now }
{
    match words {
        [seconds, micros] => {
            let seconds = number_of(seconds.as_slice())?;
            let micros = number_of(micros.as_slice())?;
            Some(Event::SetTime(Time { seconds, micros }))
        }
        _ => None,
    }
}

fn opens_in(site: &Site, words: &[Bytes]) -> Option<Event>
    ensures { result ≡ opens_in site.now words.now }
{
    match words {
        [who] => {
            let by = maker_named(site, who.as_slice())?;
            Some(Event::Opens(by))
        }
        _ => None,
    }
}

fn piece_in(alloc: Global, site: &Site, words: &[Bytes]) -> Result<Option<Event>, Memory>
    ensures { IfOk result (λ event. event ≡ piece_in site.now words.now) }
{
    match words {
        [who, digits] => piece_of_maker(
            alloc,
            maker_named(site, who.as_slice()),
            digits.as_slice(),
        ),
        _ => Ok(None),
    }
}

fn piece_of_maker(alloc: Global, maker: Option<u32>, digits: &[u8]) -> Result<Option<Event>, Memory>
    ensures { IfOk result (λ event. event ≡ both PieceFrom maker (piece_of digits.now)) }
{
    let Some(by) = maker else {
        return Ok(None);
    };
    match piece_of(alloc, digits)? {
        Some(piece) => Ok(Some(Event::Piece(by, piece))),
        None => Ok(None),
    }
}

fn finish_in(site: &Site, words: &[Bytes]) -> Option<Event>
    ensures { result ≡ finish_in site.now words.now }
{
    match words {
        [who, why] => {
            let by = maker_named(site, who.as_slice())?;
            let why = why_of(why.as_slice())?;
            Some(Event::Finish(by, why))
        }
        _ => None,
    }
}

fn write_in(site: &Site, words: &[Bytes]) -> Option<Event>
    ensures { result ≡ write_in site.now words.now }
{
    match words {
        [interface, count] => {
            let interface = interface_named(site, interface.as_slice())?;
            let count = count_of(count.as_slice())?;
            Some(Event::Write(interface, count))
        }
        _ => None,
    }
}

fn call_in(alloc: Global, words: &[Bytes]) -> Result<Option<Event>, Memory>
    ensures { IfOk result (λ event. event ≡ call_in words.now) }
{
    match words {
        [desk, text] => {
            match number_of(desk.as_slice()) {
                Some(desk) => {
                    let text = Bytes::copy(alloc, text.as_slice())?;
                    Ok(Some(Event::Call(desk, text)))
                }
                None => Ok(None),
            }
        }
        _ => Ok(None),
    }
}

fn drain_in(site: &Site, words: &[Bytes]) -> Option<Event>
    ensures { result ≡ drain_in site.now words.now }
{
    match words {
        [who, count] => {
            let count = count_of(count.as_slice())?;
            if is_log(who.as_slice()) {
                return Some(Event::DrainLog(count));
            }
            let slot = slot_named(site, who.as_slice())?;
            Some(Event::DrainSlot(slot, count))
        }
        _ => None,
    }
}

fn stop_in(words: &[Bytes]) -> Option<Event>
    ensures { result ≡ stop_in words.now }
{
    match words {
        [] => Some(Event::Stop),
        _ => None,
    }
}
