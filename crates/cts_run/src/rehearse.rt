// The room of `rehearse`: the events that are made from a number, in the world of the demo's site.
ghost use Rattle.std.specs.Prelude.{◌≡◌, ◌++◌, ℕ, [], List, Option, IfOk};
ghost use Rattle.cts_core.specs.States.{opening};
ghost use Rattle.cts_def.specs.Sites.{SiteData};
ghost use Rattle.cts_entry.specs.declared.event.Event.{Event as AnEvent};
ghost use Rattle.cts_outside.specs.Seen.{FilesSeen, VaultSeen};
ghost use Rattle.cts_run.specs.Acts.{outside};
ghost use Rattle.cts_run.specs.Command.{LeavesShelf, Performs};
ghost use Rattle.cts_run.specs.Demo.{definitions_name, demo_files, site_name};
ghost use Rattle.cts_run.specs.Phases.{FileCounts};
ghost use Rattle.cts_run.specs.Putting.{SinkCounts, VaultCounts};
ghost use Rattle.cts_run.specs.Rehearsal.{GoesOn, IsFar, IsSummary, Rehearses, rehearsal_name};
ghost use Rattle.cts_run.specs.Story.{Stands, site_told};
ghost use Rattle.cts_run.specs.declared.words.Command.TheVariants.{Rehearse};

pub mod counting;

use crate::demo::{DemoFiles, definitions_name, site_name};
use crate::file_name::FileName;
use crate::halt::Halt;
use crate::load::load_site;
use crate::putting::{put_answer, put_text};
use crate::replay::{begin, event_halt};
use crate::story::Story;
use counting::{commands_in, packets_in, refusals};
use cts_base::{Bytes, Memory};
use cts_chain::Framer;
use cts_connection::Supplier;
use cts_entry::{Effect, Event};
use cts_outside::Sink;
use cts_rehearsal::{Rehearsal, Tally, summary};
use std::alloc::Global;

/// Does the events that are made from a number, choice by choice, in the world of the demo's site, whose chains take their boxes
/// from the shelf. The summary is put when all are done.
pub fn rehearse<'a, C: Framer, B: Supplier<C>, O: Sink>(
    alloc: Global,
    number: u32,
    shelf: &mut B,
    out: &mut O,
) -> Result<(), Halt<'a>>
    ensures files { (files : FilesSeen) → FileCounts result files files }
    ensures sink { SinkCounts result (O.seen out.old) (O.seen out.new) }
    ensures vault { (vault : VaultSeen) → VaultCounts result vault vault }
    ensures performs { (files : List ℕ → Option (List ℕ)) (vault : VaultSeen) → Performs (B.stock shelf.old) files (Rehearse number) result
        (outside (O.seen out.old) vault) (outside (O.seen out.new) vault) }
    ensures boxes { LeavesShelf demo_files definitions_name site_name result (B.stock shelf.old) (B.stock shelf.new) }
{
    let mut files = DemoFiles;
    match load_site(alloc, &mut files, &definitions_name(), &site_name()) {
        Ok((plan, _digest)) => match begin::<C, B>(alloc, plan, shelf) {
            Ok(mut story) => {
                let done = rehearse_in(alloc, number, &mut story, out);
                drop(story);
                done
            }
            Err(halt) => Err(halt),
        },
        Err(halt) => Err(halt),
    }
}

// Does the events in a story in which nothing has happened, and puts the summary.
fn rehearse_in<'a, C: Framer, O: Sink>(
    alloc: Global,
    number: u32,
    story: &mut Story<C>,
    out: &mut O,
) -> Result<(), Halt<'a>>
    requires { Stands (site_told story.old) opening story.old }
    ensures { (vault : VaultSeen) → Rehearses (site_told story.old) number result (outside (O.seen out.old) vault) (outside (O.seen out.new) vault) }
{
    match do_choices(alloc, number, story) {
        Ok(refused) => end_rehearsal(alloc, refused, story, out),
        Err(halt) => Err(halt),
    }
}

// Does the events choice by choice, and counts the replies that refuse.
fn do_choices<'a, C: Framer>(
    alloc: Global,
    number: u32,
    story: &mut Story<C>,
) -> Result<u64, Halt<'a>>
    requires { Stands (site_told story.old) opening story.old }
    ensures { GoesOn (site_told story.old) number [] result story.new }
{
    let mut rehearsal = Rehearsal::new(number as u64);
    let mut refused = 0;
    'choices: while let Some(events) = rehearsal.next_events(alloc)? {
        match do_choice(&events, refused, story) {
            Ok(now) => refused = now,
            Err(halt) => return Err(halt),
        }
    }
    Ok(refused)
}

// Does the events of a choice.
fn do_choice<'a, C: Framer>(
    events: &[Event],
    before: u64,
    story: &mut Story<C>,
) -> Result<u64, Halt<'a>>
    requires { (site : SiteData) × (n : ℕ) × (more : List AnEvent) × IsFar site n (events.now ++ more) before story.old }
    ensures { (site : SiteData) (n : ℕ) (more : List AnEvent) → IsFar site n (events.now ++ more) before story.old → GoesOn site n more result story.new }
{
    let mut refused = before;
    let mut left = events;
    'events: while let Some((event, after)) = left.split_first() {
        match story.step(event) {
            Ok(effect) => {
                refused += refusals(&effect);
                drop(effect);
                left = after;
            }
            Err(fault) => return Err(event_halt(&rehearsal_name(), 0, fault)),
        }
    }
    Ok(refused)
}

// Ends a rehearsal whose events are all done: the summary is put.
fn end_rehearsal<'a, C: Framer, O: Sink>(
    alloc: Global,
    refused: u64,
    story: &mut Story<C>,
    out: &mut O,
) -> Result<(), Halt<'a>>
    requires { (site : SiteData) × (n : ℕ) × IsFar site n [] refused story.old }
    ensures { (site : SiteData) (n : ℕ) (vault : VaultSeen) → IsFar site n [] refused story.old → Rehearses site n result
        (outside (O.seen out.old) vault) (outside (O.seen out.new) vault) }
{
    match told_summary(alloc, refused, story) {
        Ok(text) => {
            let done = put_text(out, text.as_slice());
            drop(text);
            put_answer(done)
        }
        Err(Memory) => Err(Halt::Memory),
    }
}

// The summary of the history, of whose log of packets nothing was drained before.
fn told_summary<C: Framer>(
    alloc: Global,
    refused: u64,
    story: &mut Story<C>,
) -> Result<Bytes, Memory>
    requires { (site : SiteData) × (n : ℕ) × IsFar site n [] refused story.old }
    ensures { (site : SiteData) (n : ℕ) → IsFar site n [] refused story.old → IfOk result (λ b. IsSummary site n b) }
{
    let entries = story.count();
    let events = story.limits_events(alloc)?;
    let packets = packets_in(story.hall());
    let commands = commands_in(story.hall());
    match story.drain() {
        Ok(Effect::Logged { tlm, .. }) => {
            let tally = Tally {
                packets,
                commands,
                refused,
                log: tlm,
            };
            summary(alloc, entries as u64, events as u64, &tally)
        }
        _ => Err(Memory),
    }
}

// The name of a rehearsal, by which a refusal would tell of it.
fn rehearsal_name() -> FileName<'static>
    ensures { result ≡ rehearsal_name }
{
    FileName::of("rehearsal")
}
