// The room of `play`: the packets of a log, in the world of the site that plays it.
ghost use Rattle.std.specs.Prelude.{◌≡◌, false, ◌≤◌, ◌<◌, ◌^◌, ◌++◌, ◌∷◌, [], length, map, IfSome, List, MatchOption, None, option_to_list, Some};
ghost use Rattle.cts_core.specs.States.{State, opening};
ghost use Rattle.cts_def.specs.Sites.{SiteData};
ghost use Rattle.cts_entry.specs.declared.event.Event.{Event as AnEvent};
ghost use Rattle.cts_entry.specs.declared.event.Event.TheVariants.{Finish, Opens as Opening, SetTime as Setting};
ghost use Rattle.cts_framing.specs.Layouts.{has_flags};
ghost use Rattle.cts_log.specs.Files.{flagged_of, kind_of, layout_of};
ghost use Rattle.cts_log.specs.Reading.{HasRead, logged};
ghost use Rattle.cts_log.specs.declared.kind.LogKind.TheVariants.{Tlm};
ghost use Rattle.cts_outside.specs.Seen.{VaultSeen};
ghost use Rattle.cts_play.specs.Played.{played};
ghost use Rattle.cts_run.specs.Acts.{Outside, outside};
ghost use Rattle.cts_run.specs.Command.{CommandKeeps, CommandLeaves, Performs, ShelfBy};
ghost use Rattle.cts_run.specs.Phases.{FileCounts};
ghost use Rattle.cts_run.specs.Play.{IsPlaying, Plays, PlaysEnd, PlaysEntry, PlaysLog, fault_over, later_time, packets_halt, put_over};
ghost use Rattle.cts_run.specs.Playing.{LeavesPlay, PerformsPlay, PutsPlay};
ghost use Rattle.cts_run.specs.Putting.{SinkCounts, VaultCounts};
ghost use Rattle.cts_run.specs.Start.{short_kind};
ghost use Rattle.cts_run.specs.Story.{Stands, site_told};
ghost use Rattle.cts_run.specs.declared.halt.Halt.TheVariants.{LogRefused};
ghost use Rattle.cts_run.specs.declared.words.Command.TheVariants.{Play};

use crate::file_name::FileName;
use crate::halt::Halt;
use crate::load::file::read_file;
use crate::load::load_site;
use crate::putting::{Undone, put_answer, put_text};
use crate::replay::{begin, put_end};
use crate::story::Story;
use cts_base::Memory;
use cts_chain::Framer;
use cts_connection::Supplier;
use cts_core::{World, WorldFault};
use cts_def::{Site, Time};
use cts_entry::{Event, Why};
use cts_ident_laws::names_are_kept;
use cts_log::{LogEntry, LogFault, LogKind, LogReader};
use cts_outside::{Files, Sink};
use cts_play::{play_events, play_site};
use std::alloc::Global;

// The greatest log that is taken.
const LOG_LIMIT: u64 = 1_073_741_824;

/// Reads definitions and a site, looks whether the shelf has the box of the chain that plays a log, reads the log, and does its entries as
/// events of the interface that plays them. The text of each event is put when it is done. It halts where the file is no log of packets,
/// before anything is put, and where it ends otherwise than with a whole entry; else `END n` is put.
pub fn play<'a, C: Framer, B: Supplier<C>, F: Files, O: Sink>(
    alloc: Global,
    definitions: &FileName<'a>,
    site: &FileName<'a>,
    log: &FileName<'a>,
    shelf: &mut B,
    files: &mut F,
    out: &mut O,
) -> Result<(), Halt<'a>>
    ensures stays { (F.seen files.new).told ≡ (F.seen files.old).told }
    ensures files { FileCounts result (F.seen files.old) (F.seen files.new) }
    ensures sink { SinkCounts result (O.seen out.old) (O.seen out.new) }
    ensures vault { (vault : VaultSeen) → VaultCounts result vault vault }
    ensures performs { (vault : VaultSeen) → IfSome (F.seen files.old).told (λ all. Performs (B.stock shelf.old) all
        (Play definitions.now site.now log.now) result (outside (O.seen out.old) vault) (outside (O.seen out.new) vault)) }
    ensures boxes { IfSome (F.seen files.old).told (λ all. CommandLeaves all (Play definitions.now site.now log.now) result
        (B.stock shelf.old) (B.stock shelf.new)) }
    ensures keeps { IfSome (F.seen files.old).told (λ all. CommandKeeps all (Play definitions.now site.now log.now) result) }
{
    match load_site(alloc, files, definitions, site) {
        Ok((plan, _digest)) => {
            names_are_kept(&plan.definitions);
            match play_site(alloc, plan, 2) {
                Ok(first) => play_on::<C, B, F, O>(alloc, first, log, shelf, files, out),
                Err(Memory) => Err(Halt::Memory),
            }
        }
        Err(halt) => Err(halt),
    }
}

// Looks at the shelf, and then reads the log and plays it. The site that plays logs of layout 2 needs the same box as that of layout 4.
fn play_on<'a, C: Framer, B: Supplier<C>, F: Files, O: Sink>(
    alloc: Global,
    first: Site,
    log: &FileName<'a>,
    shelf: &mut B,
    files: &mut F,
    out: &mut O,
) -> Result<(), Halt<'a>>
    requires { (site : SiteData) × (first ≡ played 2 site) }
    ensures stays { (F.seen files.new).told ≡ (F.seen files.old).told }
    ensures files { FileCounts result (F.seen files.old) (F.seen files.new) }
    ensures sink { SinkCounts result (O.seen out.old) (O.seen out.new) }
    ensures vault { (vault : VaultSeen) → VaultCounts result vault vault }
    ensures performs { (site : SiteData) (vault : VaultSeen) → first ≡ played 2 site → IfSome (F.seen files.old).told
        (λ all. PerformsPlay (B.stock shelf.old) all site log.now result (outside (O.seen out.old) vault) (outside (O.seen out.new) vault)) }
    ensures boxes { (site : SiteData) → first ≡ played 2 site → IfSome (F.seen files.old).told
        (λ all. LeavesPlay all site log.now result (B.stock shelf.old) (B.stock shelf.new)) }
{
    match World::<C>::shortage(&first, shelf) {
        Some(fault) => Err(Halt::from(fault)),
        None => play_read::<C, B, F, O>(alloc, first, log, shelf, files, out),
    }
}

// Reads the log and plays it, where the shelf has the box.
fn play_read<'a, C: Framer, B: Supplier<C>, F: Files, O: Sink>(
    alloc: Global,
    first: Site,
    log: &FileName<'a>,
    shelf: &mut B,
    files: &mut F,
    out: &mut O,
) -> Result<(), Halt<'a>>
    requires short { short_kind (B.stock shelf.old) first ≡ None }
    requires site { (site : SiteData) × (first ≡ played 2 site) }
    ensures stays { (F.seen files.new).told ≡ (F.seen files.old).told }
    ensures files { FileCounts result (F.seen files.old) (F.seen files.new) }
    ensures sink { SinkCounts result (O.seen out.old) (O.seen out.new) }
    ensures vault { (vault : VaultSeen) → VaultCounts result vault vault }
    ensures performs { (site : SiteData) (vault : VaultSeen) → first ≡ played 2 site → IfSome (F.seen files.old).told
        (λ all. PerformsPlay (B.stock shelf.old) all site log.now result (outside (O.seen out.old) vault) (outside (O.seen out.new) vault)) }
    ensures boxes { (site : SiteData) → first ≡ played 2 site → IfSome (F.seen files.old).told
        (λ all. LeavesPlay all site log.now result (B.stock shelf.old) (B.stock shelf.new)) }
{
    let large = Halt::LogRefused { place: LOG_LIMIT };
    match read_file(alloc, files, log, LOG_LIMIT as usize, large) {
        Ok(bytes) => {
            let done = play_file::<C, B, O>(alloc, first, bytes.as_slice(), shelf, out);
            drop(bytes);
            done
        }
        Err(halt) => Err(halt),
    }
}

// Plays a log in bytes.
fn play_file<'a, C: Framer, B: Supplier<C>, O: Sink>(
    alloc: Global,
    first: Site,
    file: &[u8],
    shelf: &mut B,
    out: &mut O,
) -> Result<(), Halt<'a>>
    requires { short_kind (B.stock shelf.old) first ≡ None }
    ensures plays { (site : SiteData) (vault : VaultSeen) → first ≡ played 2 site → PutsPlay site file.now result
        (outside (O.seen out.old) vault) (outside (O.seen out.new) vault) }
    ensures boxes { (site : SiteData) → first ≡ played 2 site → ShelfBy (played 2 site) (packets_halt (kind_of file.now)) result
        (B.stock shelf.old) (B.stock shelf.new) }
{
    let mut reader = LogReader::new(file);
    match packets_layout(&reader) {
        Some(layout) => play_packets::<C, B, O>(alloc, first, layout, &mut reader, shelf, out),
        None => Err(Halt::LogRefused { place: 0 }),
    }
}

// The layout of a log of packets; none of a file that is no such log.
fn packets_layout(reader: &LogReader<'_>) -> Option<u32>
    ensures { MatchOption result (packets_halt (kind_of reader.now.file) ≡ Some (LogRefused 0))
        (λ layout. (kind_of reader.now.file ≡ Some Tlm) × (layout ≡ layout_of (flagged_of reader.now.file))) }
{
    match reader.kind() {
        Some(LogKind::Tlm) => reader.layout(),
        Some(LogKind::Cmd) => None,
        None => None,
    }
}

// Plays a log of packets of this layout.
fn play_packets<'a, C: Framer, B: Supplier<C>, O: Sink>(
    alloc: Global,
    first: Site,
    layout: u32,
    reader: &mut LogReader<'_>,
    shelf: &mut B,
    out: &mut O,
) -> Result<(), Halt<'a>>
    requires short { short_kind (B.stock shelf.old) first ≡ None }
    requires kind { kind_of reader.old.file ≡ Some Tlm }
    requires layout { layout ≡ layout_of (flagged_of reader.old.file) }
    requires read { HasRead reader.old [] }
    ensures plays { (site : SiteData) (vault : VaultSeen) → first ≡ played 2 site → PutsPlay site reader.old.file result
        (outside (O.seen out.old) vault) (outside (O.seen out.new) vault) }
    ensures boxes { (site : SiteData) → first ≡ played 2 site → ShelfBy (played 2 site) None result (B.stock shelf.old) (B.stock shelf.new) }
{
    match play_site(alloc, first, layout) {
        Ok(site) => match begin::<C, B>(alloc, site, shelf) {
            Ok(mut story) => {
                let done = play_log(alloc, layout, reader, &mut story, out);
                drop(story);
                done
            }
            Err(halt) => Err(halt),
        },
        Err(Memory) => Err(Halt::Memory),
    }
}

// Plays the entries of a log of packets in a story in which nothing has happened.
fn play_log<'a, C: Framer, O: Sink>(
    alloc: Global,
    layout: u32,
    reader: &mut LogReader<'_>,
    story: &mut Story<C>,
    out: &mut O,
) -> Result<(), Halt<'a>>
    requires stands { Stands (site_told story.old) opening story.old }
    requires layout { layout ≡ layout_of (flagged_of reader.old.file) }
    requires read { HasRead reader.old [] }
    ensures { (vault : VaultSeen) → PlaysLog (site_told story.old) reader.old.file result (outside (O.seen out.old) vault)
        (outside (O.seen out.new) vault) }
{
    match do_made(alloc, Event::Opens(0), false, story, out) {
        Ok(over) => play_entries(alloc, layout, reader, over, story, out),
        Err(halt) => Err(halt),
    }
}

// Plays the entries, and then ends the playback. What follows a chain that has failed is read, but not played.
fn play_entries<'a, C: Framer, O: Sink>(
    alloc: Global,
    layout: u32,
    reader: &mut LogReader<'_>,
    opened: bool,
    story: &mut Story<C>,
    out: &mut O,
) -> Result<(), Halt<'a>>
    requires layout { layout ≡ layout_of (flagged_of reader.old.file) }
    requires read { HasRead reader.old [] }
    requires plays { (site : SiteData) × (old : Outside) × (vault : VaultSeen) × IsPlaying site (Opening 0 ∷ []) opened story.old old
        (outside (O.seen out.old) vault) }
    ensures { (site : SiteData) (old : Outside) (vault : VaultSeen) → IsPlaying site (Opening 0 ∷ []) opened story.old old
        (outside (O.seen out.old) vault) → PlaysLog site reader.old.file result old (outside (O.seen out.new) vault) }
{
    let mut over = opened;
    let mut last = None;
    loop {
        match reader.next() {
            Ok(Some(entry)) => {
                last = later_time(last, entry.time);
                match play_entry(alloc, &entry, layout, over, story, out) {
                    Ok(now) => over = now,
                    Err(halt) => return Err(halt),
                }
            }
            Ok(None) => return end_play(alloc, last, over, story, out),
            Err(LogFault::BadHead) => return Err(Halt::LogRefused { place: 0 }),
            Err(LogFault::Cut { place }) => return Err(Halt::LogRefused { place }),
        }
    }
}

// The last time to which a clock can be set, with one more.
fn later_time(last: Option<Time>, time: Time) -> Option<Time>
    ensures { result ≡ later_time last time }
{
    if time.micros < 1_000_000 {
        Some(time)
    } else {
        last
    }
}

// Does the events of an entry, if the connection is not over. It gives whether it is over then.
fn play_entry<'a, C: Framer, O: Sink>(
    alloc: Global,
    entry: &LogEntry<'_>,
    layout: u32,
    over: bool,
    story: &mut Story<C>,
    out: &mut O,
) -> Result<bool, Halt<'a>>
    requires target { length entry.now.target.now ≤ 255 }
    requires packet { length entry.now.packet.now ≤ 255 }
    requires bytes { length entry.now.bytes.now < 2 ^ 32 }
    requires plays { (site : SiteData) × (events : List AnEvent) × (old : Outside) × (vault : VaultSeen) × IsPlaying site events over story.old old
        (outside (O.seen out.old) vault) }
    ensures { (site : SiteData) (events : List AnEvent) (old : Outside) (vault : VaultSeen) → IsPlaying site events over story.old old
        (outside (O.seen out.old) vault)
        → PlaysEntry (has_flags layout) (logged entry.now) site events result story.new old (outside (O.seen out.new) vault) }
{
    if over {
        return Ok(true);
    }
    match play_events(alloc, entry, layout) {
        Ok(events) => {
            let done = do_events(alloc, events.as_slice(), story, out);
            drop(events);
            done
        }
        Err(Memory) => Err(Halt::Memory),
    }
}

/// Does events one after another, until the connection is over.
pub(crate) fn do_events<'a, C: Framer, O: Sink>(
    alloc: Global,
    events: &[Event],
    story: &mut Story<C>,
    out: &mut O,
) -> Result<bool, Halt<'a>>
    requires { (site : SiteData) × (before : List AnEvent) × (old : Outside) × (vault : VaultSeen) × IsPlaying site before false story.old old
        (outside (O.seen out.old) vault) }
    ensures { (site : SiteData) (before : List AnEvent) (old : Outside) (vault : VaultSeen) → IsPlaying site before false story.old old
        (outside (O.seen out.old) vault) → Plays site (before ++ events.now) result story.new old (outside (O.seen out.new) vault) }
{
    let mut over = false;
    let mut left = events;
    'events: while let Some((event, after)) = left.split_first() {
        match do_event(alloc, event, over, story, out) {
            Ok(now) => {
                over = now;
                left = after;
            }
            Err(halt) => return Err(halt),
        }
    }
    Ok(over)
}

/// Does an event that is made for this.
pub(crate) fn do_made<'a, C: Framer, O: Sink>(
    alloc: Global,
    event: Event,
    over: bool,
    story: &mut Story<C>,
    out: &mut O,
) -> Result<bool, Halt<'a>>
    requires { (site : SiteData) × (s : State) × Stands site s story.old }
    ensures { (site : SiteData) (before : List AnEvent) (old : Outside) (vault : VaultSeen) → IsPlaying site before over story.old old
        (outside (O.seen out.old) vault) → Plays site (before ++ event ∷ []) result story.new old (outside (O.seen out.new) vault) }
{
    let done = do_event(alloc, &event, over, story, out);
    drop(event);
    done
}

// Does an event, if the connection is not over. It gives whether it is over then.
fn do_event<'a, C: Framer, O: Sink>(
    alloc: Global,
    event: &Event,
    over: bool,
    story: &mut Story<C>,
    out: &mut O,
) -> Result<bool, Halt<'a>>
    requires { (site : SiteData) × (s : State) × Stands site s story.old }
    ensures { (site : SiteData) (before : List AnEvent) (old : Outside) (vault : VaultSeen) → IsPlaying site before over story.old old
        (outside (O.seen out.old) vault) → Plays site (before ++ event.now ∷ []) result story.new old (outside (O.seen out.new) vault) }
{
    if over {
        return Ok(true);
    }
    tell_event(alloc, event, story, out)
}

// Does an event and puts its text in one piece, if it has any. One that is not enabled ends the connection: its chain has failed.
fn tell_event<'a, C: Framer, O: Sink>(
    alloc: Global,
    event: &Event,
    story: &mut Story<C>,
    out: &mut O,
) -> Result<bool, Halt<'a>>
    requires { (site : SiteData) × (s : State) × Stands site s story.old }
    ensures { (site : SiteData) (before : List AnEvent) (old : Outside) (vault : VaultSeen) → IsPlaying site before false story.old old
        (outside (O.seen out.old) vault) → Plays site (before ++ event.now ∷ []) result story.new old (outside (O.seen out.new) vault) }
{
    match story.tell(alloc, event) {
        Ok((text, effect)) => {
            let done = put_text(out, text.as_slice());
            drop(text);
            drop(effect);
            put_over(done)
        }
        Err(fault) => fault_over(fault),
    }
}

// Where the text of an event was put, the connection is not over.
fn put_over<'a>(done: Result<(), Undone>) -> Result<bool, Halt<'a>>
    ensures { result ≡ put_over done }
{
    match done {
        Ok(()) => Ok(false),
        Err(why) => Err(Halt::from(why)),
    }
}

// Where an event was not done.
fn fault_over<'a>(fault: WorldFault) -> Result<bool, Halt<'a>>
    ensures { result ≡ fault_over fault }
{
    match fault {
        WorldFault::NotEnabled => Ok(true),
        WorldFault::Full { entries, bytes } => Err(Halt::HistoryFull { entries, bytes }),
        WorldFault::Memory => Err(Halt::Memory),
    }
}

// Sets the clock, ends the connection, and puts the number of entries.
fn end_play<'a, C: Framer, O: Sink>(
    alloc: Global,
    last: Option<Time>,
    over: bool,
    story: &mut Story<C>,
    out: &mut O,
) -> Result<(), Halt<'a>>
    requires { (site : SiteData) × (before : List AnEvent) × (old : Outside) × (vault : VaultSeen) × IsPlaying site before over story.old old
        (outside (O.seen out.old) vault) }
    ensures { (site : SiteData) (before : List AnEvent) (old : Outside) (vault : VaultSeen) → IsPlaying site before over story.old old
        (outside (O.seen out.old) vault) → PlaysEnd site before (option_to_list last) result old (outside (O.seen out.new) vault) }
{
    match set_time(alloc, last, over, story, out) {
        Ok(set) => match do_made(alloc, Event::Finish(0, Why::PeerEnded), set, story, out) {
            Ok(_) => put_answer(put_end(alloc, story.count(), out)),
            Err(halt) => Err(halt),
        },
        Err(halt) => Err(halt),
    }
}

// Sets the clock, if there is a time.
fn set_time<'a, C: Framer, O: Sink>(
    alloc: Global,
    time: Option<Time>,
    over: bool,
    story: &mut Story<C>,
    out: &mut O,
) -> Result<bool, Halt<'a>>
    requires { (site : SiteData) × (s : State) × Stands site s story.old }
    ensures { (site : SiteData) (before : List AnEvent) (old : Outside) (vault : VaultSeen) → IsPlaying site before over story.old old
        (outside (O.seen out.old) vault)
        → Plays site (before ++ map Setting (option_to_list time)) result story.new old (outside (O.seen out.new) vault) }
{
    match time {
        Some(time) => do_made(alloc, Event::SetTime(time), over, story, out),
        None => Ok(over),
    }
}
