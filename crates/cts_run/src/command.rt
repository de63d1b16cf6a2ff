// The top call.
ghost use Rattle.std.specs.Prelude.{◌≡◌, false, map, IfSome, None, Some};
ghost use Rattle.cts_run.specs.Acts.{outside};
ghost use Rattle.cts_run.specs.Command.{Answers, CommandKeeps, CommandLeaves, Completes, IsCaused, Performs, ShelfAfter, keeps_logs, makes_world};
ghost use Rattle.cts_run.specs.Due.{AreDue, NoneRose};
ghost use Rattle.cts_run.specs.Lines.{usage_line};
ghost use Rattle.cts_run.specs.Phases.{FileCounts};
ghost use Rattle.cts_run.specs.Putting.{Printed, SinkCounts, VaultCounts};
ghost use Rattle.cts_run.specs.Rehearsed.{AnswersRehearsed, IsRehearsed};
ghost use Rattle.cts_run.specs.Words.{asked};

use crate::check::check;
use crate::dump::dump;
use crate::extract::extract;
use crate::halt::Halt;
use crate::halt::ending::{end, end_misused};
use crate::halt::status::Status;
use crate::hub::boxes::Counted;
use crate::hub::hub;
use crate::hub::sources::Sources;
use crate::play::play;
use crate::rehearse::rehearse;
use crate::replay::replay;
use crate::words::{Command, read_words};
use cts_chain::Framer;
use cts_outside::{Files, Sink, Vault};
use std::alloc::Global;

/// Runs one command: reads the files that its words name, does what it asks, puts what it prints, keeps
/// the packet logs, and answers how it ended.
///
/// The words are those after the program's name: `check DEFS SITE` reads definitions and a site, and
/// puts how much they have; `replay DEFS SITE SCRIPT` does the events of a script, and writes both packet logs to the vault;
/// `rehearse N` does the events that are made from a number from 1 to 1,000,000 in the world of the demo's site, and puts eight lines
/// of what they were; `dump LOG LOG ..` puts the entries of 1 to 64 log files with one head, each before the next one is read;
/// `extract DEFS LOG TARGET PACKET KIND ITEMS` puts columns of one; `play DEFS SITE LOG` brings the packets of one to an interface of the site
/// that plays it; `hub DEFS SITE SCRIPT SITE2 WHO NAME CUT` brings what the slot WHO of SITE put on its last connection, in the events of a
/// script, to the interface NAME of SITE2 in pieces of CUT bytes. Other words are `Usage`. The boxes of the protocols of all chains of a
/// site whose world is made are taken from the shelf, before a script is read. The program's chains and shelf are `Chain` of `cts_chain`
/// and `Shelf` of
/// `cts_proto`; it is written over any, since a function that is lent boxes may not make a world of them.
pub fn run<C: Framer, B: Counted<C>, F: Files, O: Sink, V: Vault>(
    alloc: Global,
    words: &[&str],
    shelf: &mut B,
    files: &mut F,
    out: &mut O,
    vault: &mut V,
) -> Status
    // Where the words fit no command.
    ensures usage { asked (map (λ w. w.now) words.now) ≡ None → result ≡ Status.Usage }
    // A fault comes only where its count rose in this call, and all is done only where none did. No count falls.
    ensures causes { IsCaused result (F.seen files.old) (F.seen files.new) (O.seen out.old) (O.seen out.new) (V.seen vault.old) (V.seen vault.new) }
    // The files stay.
    ensures stays { (F.seen files.new).told ≡ (F.seen files.old).told }
    // Where the words fit no command, the line that says which ones do, whatever the files are.
    ensures misused { asked (map (λ w. w.now) words.now) ≡ None → Printed (O.seen out.old) (O.seen out.new) usage_line }
    // A shelf that is short, a log that is refused and a word that names nothing are answered exactly where they are.
    ensures due { IfSome (F.seen files.old).told (λ all. AreDue (B.stock shelf.old) all (asked (map (λ w. w.now) words.now))
        (NoneRose (F.seen files.old) (F.seen files.new) (O.seen out.old) (O.seen out.new) (V.seen vault.old) (V.seen vault.new)) result) }
    // A command that makes no world leaves the shelf, and one that keeps no logs the vault.
    ensures untouched { makes_world (asked (map (λ w. w.now) words.now)) ≡ false → B.stock shelf.new ≡ B.stock shelf.old }
    ensures idle { keeps_logs (asked (map (λ w. w.now) words.now)) ≡ false → V.seen vault.new ≡ V.seen vault.old }
    // A replay, rehearsal or playback that halts before its world is made leaves it too; and else exactly the boxes of all chains of its site are gone.
    ensures boxes { IfSome (F.seen files.old).told (λ all. ShelfAfter all (asked (map (λ w. w.now) words.now)) result (B.stock shelf.old) (B.stock shelf.new)) }
    // The outcome that the boxes on the shelf and the content of the files have, and what was put and appended for it.
    ensures transcript { IfSome (F.seen files.old).told (λ all. Answers (B.stock shelf.old) all (asked (map (λ w. w.now) words.now)) result
        (outside (O.seen out.old) (V.seen vault.old)) (outside (O.seen out.new) (V.seen vault.new))) }
    // Where no count rose, the outcome's status comes, or want of memory.
    ensures complete { NoneRose (F.seen files.old) (F.seen files.new) (O.seen out.old) (O.seen out.new) (V.seen vault.old) (V.seen vault.new)
        → IfSome (F.seen files.old).told (λ all. Completes (B.stock shelf.old) all (asked (map (λ w. w.now) words.now)) result) }
    // Whatever the outside tells: a rehearsal for whose site the shelf has the boxes is done, but for want of memory and a fault of what is put. No
    // event of it is refused, and none finds the history full.
    ensures rehearsed { IsRehearsed (B.stock shelf.old) (asked (map (λ w. w.now) words.now)) result }
{
    match read_words(words) {
        Some(command) => {
            let done = perform::<C, B, F, O, V>(alloc, &command, shelf, files, out, vault);
            end(alloc, done, out)
        }
        None => end_misused(out),
    }
}

// Does a command in its room, until all is done or it halts.
fn perform<'a, C: Framer, B: Counted<C>, F: Files, O: Sink, V: Vault>(
    alloc: Global,
    command: &Command<'a>,
    shelf: &mut B,
    files: &mut F,
    out: &mut O,
    vault: &mut V,
) -> Result<(), Halt<'a>>
    ensures stays { (F.seen files.new).told ≡ (F.seen files.old).told }
    ensures files { FileCounts result (F.seen files.old) (F.seen files.new) }
    ensures sink { SinkCounts result (O.seen out.old) (O.seen out.new) }
    ensures vault { VaultCounts result (V.seen vault.old) (V.seen vault.new) }
    ensures performs { IfSome (F.seen files.old).told (λ all. Performs (B.stock shelf.old) all command.now result
        (outside (O.seen out.old) (V.seen vault.old)) (outside (O.seen out.new) (V.seen vault.new))) }
    ensures untouched { makes_world (Some command.now) ≡ false → B.stock shelf.new ≡ B.stock shelf.old }
    ensures idle { keeps_logs (Some command.now) ≡ false → V.seen vault.new ≡ V.seen vault.old }
    ensures boxes { IfSome (F.seen files.old).told (λ all. CommandLeaves all command.now result (B.stock shelf.old) (B.stock shelf.new)) }
    ensures keeps { IfSome (F.seen files.old).told (λ all. CommandKeeps all command.now result) }
    ensures rehearsed { AnswersRehearsed (B.stock shelf.old) command.now result }
{
    match command {
        Command::Check { definitions, site } => check(alloc, definitions, site, files, out),
        Command::Replay {
            definitions,
            site,
            script,
        } => replay::<C, B, F, O, V>(alloc, definitions, site, script, shelf, files, out, vault),
        Command::Rehearse { number } => rehearse::<C, B, O>(alloc, *number, shelf, out),
        Command::Dump { logs } => dump(alloc, logs, files, out),
        Command::Play {
            definitions,
            site,
            log,
        } => play::<C, B, F, O>(alloc, definitions, site, log, shelf, files, out),
        Command::Extract {
            definitions,
            log,
            wanted,
        } => extract(alloc, definitions, log, wanted, files, out),
        Command::Hub {
            definitions,
            site,
            script,
            below,
            tie,
        } => {
            let sources = Sources {
                definitions,
                site,
                script,
                below,
            };
            hub::<C, B, F, O>(alloc, &sources, tie, shelf, files, out)
        }
    }
}
