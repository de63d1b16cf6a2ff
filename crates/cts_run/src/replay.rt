// The room of `replay`: the events of a script, one after another, in the world of a site.
ghost use Rattle.std.specs.Prelude.{◌≡◌, ◌∷◌, ◌++◌, [], IfSome, OnErr, OnOk};
ghost use Rattle.cts_chain.specs.Builds.{Taken};
ghost use Rattle.cts_connection.specs.LineChains.{line_uses};
ghost use Rattle.cts_core.specs.States.{State, opening};
ghost use Rattle.cts_def.specs.Sites.{SiteData};
ghost use Rattle.cts_run.specs.Acts.{DoesActs, TakesNoMemory, outside, puts, syncs};
ghost use Rattle.cts_run.specs.Command.{LeavesShelf, Performs, PerformsScript};
ghost use Rattle.cts_run.specs.Lines.{end_line};
ghost use Rattle.cts_run.specs.Phases.{FileCounts, Gives};
ghost use Rattle.cts_run.specs.Putting.{PutsText, SinkCounts, VaultCounts};
ghost use Rattle.cts_run.specs.Replay.{DoesEvent, DoesEvents, EndsAfter, Replays, event_halt, log_acts};
ghost use Rattle.cts_run.specs.Start.{shelf_phase};
ghost use Rattle.cts_run.specs.Story.{Stands, site_told};
ghost use Rattle.cts_run.specs.declared.words.Command.TheVariants.{Replay};

use crate::digest::Digest;
use crate::file_name::FileName;
use crate::halt::cause::Cause;
use crate::halt::file_kind::FileKind;
use crate::halt::{Halt, lines};
use crate::keeping::{begin_logs, keep, sync_both};
use crate::load::load_site;
use crate::load::script::load_script;
use crate::putting::{Undone, put_answer, put_text};
use crate::story::Story;
use cts_chain::Framer;
use cts_connection::Supplier;
use cts_core::WorldFault;
use cts_def::Site;
use cts_entry::{Effect, Event};
use cts_outside::{Files, Sink, Vault};
use std::alloc::Global;

/// Reads definitions and a site, takes the boxes of the site's chains from the shelf, reads the script, and does its events in
/// order. Both logs get their heads before the first event, what each event gives them, and at the end the rest of the history;
/// then they are synced. The text of each event is put when it is done, and `END n` when all are.
pub fn replay<'a, C: Framer, B: Supplier<C>, F: Files, O: Sink, V: Vault>(
    alloc: Global,
    definitions: &FileName<'a>,
    site: &FileName<'a>,
    script: &FileName<'a>,
    shelf: &mut B,
    files: &mut F,
    out: &mut O,
    vault: &mut V,
) -> Result<(), Halt<'a>>
    ensures stays { (F.seen files.new).told ≡ (F.seen files.old).told }
    ensures files { FileCounts result (F.seen files.old) (F.seen files.new) }
    ensures sink { SinkCounts result (O.seen out.old) (O.seen out.new) }
    ensures vault { VaultCounts result (V.seen vault.old) (V.seen vault.new) }
    ensures performs { IfSome (F.seen files.old).told (λ all. Performs (B.stock shelf.old) all (Replay definitions.now site.now script.now) result
        (outside (O.seen out.old) (V.seen vault.old)) (outside (O.seen out.new) (V.seen vault.new))) }
    ensures boxes { IfSome (F.seen files.old).told (λ all. LeavesShelf all definitions.now site.now result (B.stock shelf.old) (B.stock shelf.new)) }
{
    match load_site(alloc, files, definitions, site) {
        Ok((plan, digest)) => match begin::<C, B>(alloc, plan, shelf) {
            Ok(mut story) => {
                let done = replay_script(alloc, script, &digest, &mut story, files, out, vault);
                drop(story);
                done
            }
            Err(halt) => Err(halt),
        },
        Err(halt) => Err(halt),
    }
}

/// Begins the story of a site.
pub fn begin<'a, C: Framer, B: Supplier<C>>(
    alloc: Global,
    site: Site,
    shelf: &mut B,
) -> Result<Story<C>, Halt<'a>>
    ensures gives { Gives (shelf_phase (B.stock shelf.old) site ∷ []) (Stands site opening) result }
    ensures taken { OnOk result (Taken (B.stock shelf.old) (line_uses site) (B.stock shelf.new)) }
    ensures kept { OnErr result (B.stock shelf.new ≡ B.stock shelf.old) }
{
    match Story::begin(alloc, site, shelf) {
        Ok(story) => Ok(story),
        Err(why) => Err(Halt::from(why)),
    }
}

// Reads the script and does its events in a story in which nothing has happened.
fn replay_script<'a, C: Framer, F: Files, O: Sink, V: Vault>(
    alloc: Global,
    script: &FileName<'a>,
    digest: &Digest,
    story: &mut Story<C>,
    files: &mut F,
    out: &mut O,
    vault: &mut V,
) -> Result<(), Halt<'a>>
    requires { Stands (site_told story.old) opening story.old }
    ensures stays { (F.seen files.new).told ≡ (F.seen files.old).told }
    ensures files { FileCounts result (F.seen files.old) (F.seen files.new) }
    ensures sink { SinkCounts result (O.seen out.old) (O.seen out.new) }
    ensures vault { VaultCounts result (V.seen vault.old) (V.seen vault.new) }
    ensures performs { IfSome (F.seen files.old).told (λ all. PerformsScript all digest.now (site_told story.old) script.now result
        (outside (O.seen out.old) (V.seen vault.old)) (outside (O.seen out.new) (V.seen vault.new))) }
{
    match load_script(alloc, files, script, story.site()) {
        Ok(events) => {
            let done = do_script(alloc, script, digest, &events, story, out, vault);
            drop(events);
            done
        }
        Err(halt) => Err(halt),
    }
}

// Begins the logs, and does the events of a script.
fn do_script<'a, C: Framer, O: Sink, V: Vault>(
    alloc: Global,
    script: &FileName<'a>,
    digest: &Digest,
    events: &[(u32, Event)],
    story: &mut Story<C>,
    out: &mut O,
    vault: &mut V,
) -> Result<(), Halt<'a>>
    requires { Stands (site_told story.old) opening story.old }
    ensures { Replays digest.now (site_told story.old) script.now events.now result (outside (O.seen out.old) (V.seen vault.old))
        (outside (O.seen out.new) (V.seen vault.new)) }
{
    match begin_logs(alloc, story.site(), digest, vault) {
        Ok(()) => do_events(alloc, script, events, story, out, vault),
        Err(why) => Err(Halt::from(why)),
    }
}

// Does the events, and ends the replay.
fn do_events<'a, C: Framer, O: Sink, V: Vault>(
    alloc: Global,
    script: &FileName<'a>,
    events: &[(u32, Event)],
    story: &mut Story<C>,
    out: &mut O,
    vault: &mut V,
) -> Result<(), Halt<'a>>
    requires { Stands (site_told story.old) opening story.old }
    ensures { DoesEvents (site_told story.old) script.now events.now result (outside (O.seen out.old) (V.seen vault.old))
        (outside (O.seen out.new) (V.seen vault.new)) }
{
    let mut left = events;
    'events: while let Some((next, after)) = left.split_first() {
        match do_event(alloc, script, next.0, &next.1, story, out, vault) {
            Ok(()) => left = after,
            Err(halt) => return Err(halt),
        }
    }
    end_replay(alloc, story, out, vault)
}

// Does the event of this line. What it gives the logs is appended, and then its text is put in one piece, if it has any.
fn do_event<'a, C: Framer, O: Sink, V: Vault>(
    alloc: Global,
    script: &FileName<'a>,
    line: u32,
    event: &Event,
    story: &mut Story<C>,
    out: &mut O,
    vault: &mut V,
) -> Result<(), Halt<'a>>
    requires { (site : SiteData) × (s : State) × Stands site s story.old }
    ensures { (site : SiteData) (s : State) → Stands site s story.old → DoesEvent site s script.now line event.now result story.new
        (outside (O.seen out.old) (V.seen vault.old)) (outside (O.seen out.new) (V.seen vault.new)) }
{
    match story.tell(alloc, event) {
        Ok((text, effect)) => {
            let done = do_told(text.as_slice(), &effect, out, vault);
            drop(text);
            drop(effect);
            put_answer(done)
        }
        Err(fault) => Err(event_halt(script, line, fault)),
    }
}

// Does what an event told.
fn do_told<O: Sink, V: Vault>(
    text: &[u8],
    effect: &Effect,
    out: &mut O,
    vault: &mut V,
) -> Result<(), Undone>
    ensures done { DoesActs (log_acts effect.now ++ puts text.now) result (outside (O.seen out.old) (V.seen vault.old))
        (outside (O.seen out.new) (V.seen vault.new)) }
    ensures memory { TakesNoMemory result }
{
    match keep(vault, effect) {
        Ok(()) => put_text(out, text),
        Err(why) => Err(why),
    }
}

/// Why a replay halts at the event of this line.
pub(crate) fn event_halt<'a>(script: &FileName<'a>, line: u32, fault: WorldFault) -> Halt<'a>
    ensures { result ≡ event_halt script.now line fault }
{
    match fault {
        WorldFault::NotEnabled => Halt::Refused {
            name: script.again(),
            kind: FileKind::Script,
            line,
            cause: Cause::NotEnabled,
        },
        WorldFault::Full { entries, bytes } => Halt::HistoryFull { entries, bytes },
        WorldFault::Memory => Halt::Memory,
    }
}

// Ends a replay whose events are all done: the logs get the rest of the history, and then the number of entries is put.
fn end_replay<'a, C: Framer, O: Sink, V: Vault>(
    alloc: Global,
    story: &mut Story<C>,
    out: &mut O,
    vault: &mut V,
) -> Result<(), Halt<'a>>
    requires { (site : SiteData) × (s : State) × Stands site s story.old }
    ensures { (site : SiteData) (s : State) → Stands site s story.old → EndsAfter site s result (outside (O.seen out.old) (V.seen vault.old))
        (outside (O.seen out.new) (V.seen vault.new)) }
{
    let entries = story.count();
    match story.drain() {
        Ok(rest) => {
            let done = end_logs(alloc, &rest, entries, out, vault);
            drop(rest);
            put_answer(done)
        }
        Err(_) => Err(Halt::Memory),
    }
}

// Appends the rest to the logs, syncs them, and puts the number of entries.
fn end_logs<O: Sink, V: Vault>(
    alloc: Global,
    rest: &Effect,
    entries: usize,
    out: &mut O,
    vault: &mut V,
) -> Result<(), Undone>
    ensures { DoesActs (log_acts rest.now ++ (syncs ++ puts (end_line entries))) result (outside (O.seen out.old) (V.seen vault.old))
        (outside (O.seen out.new) (V.seen vault.new)) }
{
    match keep(vault, rest) {
        Ok(()) => match sync_both(vault) {
            Ok(()) => put_end(alloc, entries, out),
            Err(why) => Err(why),
        },
        Err(why) => Err(why),
    }
}

/// Puts the number of entries.
pub(crate) fn put_end<O: Sink>(alloc: Global, entries: usize, out: &mut O) -> Result<(), Undone>
    ensures { PutsText (end_line entries) result (O.seen out.old) (O.seen out.new) }
{
    let line = lines::end(alloc, entries as u64)?;
    put_text(out, &line)
}
