// What one choice makes happen.
ghost use Rattle.std.specs.Prelude.{◌≡◌, ◌<◌, ◌++◌, ◌∷◌, [], take, drop, nat_le, if◌then◌else◌, OnOk};
ghost use Rattle.cts_entry.specs.declared.event.Event.TheVariants.{Opens, Piece, Finish, Write, Call};
ghost use Rattle.cts_entry.specs.declared.why.Why.TheVariants.{PeerEnded};
ghost use Rattle.cts_rehearsal.specs.Generated.{events_of, frame, frame_cut, look_up, order, text_line};

use crate::bodies::{look_up, order};
use crate::pieces::{frame, text_line};
use cts_base::{Bytes, Memory};
use cts_entry::{Event, Why};
use std::alloc::Global;

/// The interfaces of the demo's site, and the first slot of its router.
pub(crate) const INST: u32 = 0;

pub(crate) const AUX: u32 = 1;

pub(crate) const OUT: u32 = 16;

/// The events of a choice, after those that stand.
pub(crate) fn put_choice(alloc: Global, events: &mut Vec<Event>, choice: u64) -> Result<(), Memory>
    ensures { OnOk result (events.new.items ≡ events.old.items ++ events_of choice) }
{
    match choice % 8 {
        0..=3 => put_frame(alloc, events, choice),
        4 => put_line(alloc, events, choice),
        5 => put_look_up(alloc, events),
        6 => put_order(alloc, events, choice / 8 % 12),
        _ => put_again(events),
    }
}

// A frame in two pieces.
fn put_frame(alloc: Global, events: &mut Vec<Event>, choice: u64) -> Result<(), Memory>
    ensures { OnOk result (events.new.items ≡ events.old.items
        ++ (Piece 0 (take (frame_cut choice) (frame choice)) ∷ Piece 0 (drop (frame_cut choice) (frame choice)) ∷ [])) }
{
    let bytes = frame(choice);
    let cut = 1 + (choice / 1_048_576 % 5) as usize;
    events.push(Event::Piece(INST, Bytes::copy(alloc, &bytes[..cut])?))?;
    events.push(Event::Piece(INST, Bytes::copy(alloc, &bytes[cut..])?))?;
    Ok(())
}

// A line of text.
fn put_line(alloc: Global, events: &mut Vec<Event>, choice: u64) -> Result<(), Memory>
    ensures { OnOk result (events.new.items ≡ events.old.items ++ (Piece 1 (text_line choice) ∷ [])) }
{
    events.push(Event::Piece(AUX, text_line(alloc, choice)?))?;
    Ok(())
}

// A client asks for a value.
fn put_look_up(alloc: Global, events: &mut Vec<Event>) -> Result<(), Memory>
    ensures { OnOk result (events.new.items ≡ events.old.items ++ (Call 0 look_up ∷ [])) }
{
    events.push(Event::Call(0, look_up(alloc)?))?;
    Ok(())
}

// A client sends a command, which is written where it is not refused.
fn put_order(alloc: Global, events: &mut Vec<Event>, duration: u64) -> Result<(), Memory>
    requires { duration < 20 }
    ensures { OnOk result (events.new.items ≡ events.old.items ++ (Call 0 (order duration) ∷ (if nat_le duration 10 then Write 0 1 ∷ [] else []))) }
{
    events.push(Event::Call(0, order(alloc, duration)?))?;
    if duration <= 10 {
        events.push(Event::Write(INST, 1))?;
    }
    Ok(())
}

// The device ends its connection, and is connected again.
fn put_again(events: &mut Vec<Event>) -> Result<(), Memory>
    ensures { OnOk result (events.new.items ≡ events.old.items ++ (Finish 0 PeerEnded ∷ Opens 0 ∷ [])) }
{
    events.push(Event::Finish(INST, Why::PeerEnded))?;
    events.push(Event::Opens(INST))?;
    Ok(())
}
