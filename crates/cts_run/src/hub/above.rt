// The world above: the events of a script, of which nothing is put but what a slot puts on its connections.
ghost use Rattle.std.specs.Prelude.{◌≡◌, ◌==◌, ◌++◌, [], drop, unwrap_or, if◌then◌else◌, OnOk};
ghost use Rattle.cts_core.specs.States.{State, opening};
ghost use Rattle.cts_core_laws.specs.Told.{put_for};
ghost use Rattle.cts_def.specs.Sites.{SiteData};
ghost use Rattle.cts_entry.specs.Histories.{connects_maker, latest};
ghost use Rattle.cts_run.specs.Hub.{RunsAbove, StepsAbove, held_after, put_while};
ghost use Rattle.cts_run.specs.Phases.{answer_seen};
ghost use Rattle.cts_run.specs.Story.{Stands, site_told};

use crate::file_name::FileName;
use crate::halt::Halt;
use crate::replay::event_halt;
use crate::story::Story;
use cts_base::{Bytes, Memory};
use cts_chain::Framer;
use cts_entry::{Effect, Entry, Event, Stands, What};
use cts_trace::lend;
use std::alloc::Global;

/// Does the events of a script, and gives what a slot put on its last connection.
pub(crate) fn run_above<'a, C: Framer>(
    alloc: Global,
    script: &FileName<'a>,
    slot: u32,
    events: &[(u32, Event)],
    story: &mut Story<C>,
) -> Result<Bytes, Halt<'a>>
    requires { Stands (site_told story.old) opening story.old }
    ensures { RunsAbove (site_told story.old) script.now slot events.now result story.new }
{
    let mut held = Vec::new(alloc);
    let mut live = false;
    let mut left = events;
    'events: while let Some((next, after)) = left.split_first() {
        match do_above(script, next.0, &next.1, slot, live, &mut held, story) {
            Ok(now) => {
                live = now;
                left = after;
            }
            Err(halt) => return Err(halt),
        }
    }
    Ok(Bytes::of(held))
}

// Does the event of this line. It gives whether the slot's connection stands then, and the bytes are those of its last one.
fn do_above<'a, C: Framer>(
    script: &FileName<'a>,
    line: u32,
    event: &Event,
    slot: u32,
    live: bool,
    held: &mut Vec<u8>,
    story: &mut Story<C>,
) -> Result<bool, Halt<'a>>
    requires { (site : SiteData) × (s : State) × Stands site s story.old }
    ensures { (site : SiteData) (s : State) → Stands site s story.old
        → StepsAbove site s script.now line event.now slot live held.old.items result held.new.items story.new }
{
    let before = story.count();
    match story.step(event) {
        Ok(effect) => {
            let kept = keep_put(slot, live, &effect, held);
            drop(effect);
            match kept {
                Ok(()) => Ok(turn(story.hall(), before as u64, slot, live, held)),
                Err(Memory) => Err(Halt::Memory),
            }
        }
        Err(fault) => Err(event_halt(script, line, fault)),
    }
}

// Keeps what an event put for the slot, while its connection stands.
fn keep_put(slot: u32, live: bool, effect: &Effect, held: &mut Vec<u8>) -> Result<(), Memory>
    ensures { OnOk result (held.new.items ≡ held.old.items ++ put_while live slot effect.now) }
{
    if !live {
        return Ok(());
    }
    let put = put_for(slot, effect);
    held.extend_from_slice(put)?;
    Ok(())
}

// What an event put for a slot or an interface.
fn put_for(maker: u32, effect: &Effect) -> &[u8]
    ensures { result.now ≡ put_for maker effect.now }
{
    match effect {
        Effect::Written { interface, bytes } => those_of(*interface, maker, bytes),
        Effect::Routed { slot, bytes } => those_of(*slot, maker, bytes),
        _ => b"",
    }
}

// The bytes, where they are for this maker.
fn those_of(by: u32, maker: u32, bytes: &Bytes) -> &[u8]
    ensures { result.now ≡ if by == maker then bytes.now else [] }
{
    if by == maker { bytes.as_slice() } else { b"" }
}

// Whether a maker's connection stands after the entries from a place on. One that is opened has put nothing yet.
fn turn<H: Stands>(history: &H, from: u64, maker: u32, live: bool, held: &mut Vec<u8>) -> bool
    ensures live { result ≡ unwrap_or (latest (connects_maker maker) (drop from (H.list history.now))) live }
    ensures held { held.new.items ≡ held_after (latest (connects_maker maker) (drop from (H.list history.now))) held.old.items }
{
    match latest_turn(history, from, maker) {
        None => live,
        Some(true) => {
            held.clear();
            true
        }
        Some(false) => false,
    }
}

// Whether the last of the entries from a place on that opens or ends a maker's connection opens it.
fn latest_turn<H: Stands>(history: &H, from: u64, maker: u32) -> Option<bool>
    ensures { result ≡ latest (connects_maker maker) (drop from (H.list history.now)) }
{
    let mut found = None;
    for n in from..history.count() {
        found = connects(lend(history, n), maker).or(found);
    }
    found
}

// Whether an entry opens a maker's connection, or ends it.
fn connects(entry: &Entry, maker: u32) -> Option<bool>
    ensures { result ≡ connects_maker maker entry.now }
{
    if entry.by != maker {
        return None;
    }
    match &entry.what {
        What::Opened => Some(true),
        What::Closed { .. } => Some(false),
        _ => None,
    }
}
