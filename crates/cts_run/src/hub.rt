// The room of `hub`: what a router of one site puts, as the bytes of an interface of another.
ghost use Rattle.std.specs.Prelude.{◌≡◌, ◌≤◌, IfSome, None};
ghost use Rattle.cts_core.specs.States.{opening};
ghost use Rattle.cts_outside.specs.Seen.{VaultSeen};
ghost use Rattle.cts_run.specs.Acts.{outside};
ghost use Rattle.cts_run.specs.Command.{CommandKeeps, CommandLeaves, Performs};
ghost use Rattle.cts_run.specs.Hub.{HubKept, IsTied, joint};
ghost use Rattle.cts_run.specs.Hubbing.{HandsDown, KeepsHub, KeepsScript, LeavesBoth, LeavesHub, LeavesMade, PerformsHub, PerformsScriptBelow, PerformsWorlds};
ghost use Rattle.cts_run.specs.Phases.{FileCounts};
ghost use Rattle.cts_run.specs.Putting.{SinkCounts, VaultCounts};
ghost use Rattle.cts_run.specs.Start.{short_kind};
ghost use Rattle.cts_run.specs.Story.{Stands, site_told};
ghost use Rattle.cts_run.specs.declared.words.Command.TheVariants.{Hub as AHub};

pub mod above;
pub mod below;
pub mod boxes;
pub mod ends;
pub mod sources;
pub mod tying;

use crate::file_name::FileName;
use crate::halt::Halt;
use crate::load::load_pair;
use crate::load::script::load_script;
use crate::replay::begin;
use crate::story::Story;
use crate::tie::Tie;
use above::run_above;
use below::run_below;
use boxes::{Counted, shortage};
use cts_chain::Framer;
use cts_def::Site;
use cts_entry::Event;
use cts_outside::{Files, Sink};
use cts_play_laws::times_are_short;
use sources::Sources;
use std::alloc::Global;
use tying::{Tied, tie_both};

/// Reads definitions and two sites over them, ties a slot of the one to an interface of the other, takes the boxes of both worlds, and
/// does the events of a script in the world above. Nothing of these is put: what the slot put on its last connection is brought to the
/// interface below in pieces, and the text of each event below is put, and `END n` at the end.
pub fn hub<'a, C: Framer, B: Counted<C>, F: Files, O: Sink>(
    alloc: Global,
    sources: &Sources<'_, 'a>,
    tie: &Tie<'a>,
    shelf: &mut B,
    files: &mut F,
    out: &mut O,
) -> Result<(), Halt<'a>>
    ensures stays { (F.seen files.new).told ≡ (F.seen files.old).told }
    ensures files { FileCounts result (F.seen files.old) (F.seen files.new) }
    ensures sink { SinkCounts result (O.seen out.old) (O.seen out.new) }
    ensures vault { (vault : VaultSeen) → VaultCounts result vault vault }
    ensures performs { (vault : VaultSeen) → IfSome (F.seen files.old).told (λ all. Performs (B.stock shelf.old) all
        (AHub sources.now.definitions.now sources.now.site.now sources.now.script.now sources.now.below.now tie.now) result
        (outside (O.seen out.old) vault) (outside (O.seen out.new) vault)) }
    ensures boxes { IfSome (F.seen files.old).told (λ all. CommandLeaves all
        (AHub sources.now.definitions.now sources.now.site.now sources.now.script.now sources.now.below.now tie.now) result
        (B.stock shelf.old) (B.stock shelf.new)) }
    ensures keeps { IfSome (F.seen files.old).told (λ all. CommandKeeps all
        (AHub sources.now.definitions.now sources.now.site.now sources.now.script.now sources.now.below.now tie.now) result) }
{
    match load_pair(
        alloc,
        files,
        sources.definitions,
        sources.site,
        sources.below,
    ) {
        Ok((above, below)) => hub_sites::<C, B, F, O>(
            alloc,
            above,
            below,
            sources.script,
            tie,
            shelf,
            files,
            out,
        ),
        Err(halt) => Err(halt),
    }
}

// The same of two sites over the same definitions.
fn hub_sites<'a, C: Framer, B: Counted<C>, F: Files, O: Sink>(
    alloc: Global,
    above: Site,
    below: Site,
    script: &FileName<'a>,
    tie: &Tie<'a>,
    shelf: &mut B,
    files: &mut F,
    out: &mut O,
) -> Result<(), Halt<'a>>
    requires { above.definitions ≡ below.definitions }
    ensures stays { (F.seen files.new).told ≡ (F.seen files.old).told }
    ensures files { FileCounts result (F.seen files.old) (F.seen files.new) }
    ensures sink { SinkCounts result (O.seen out.old) (O.seen out.new) }
    ensures vault { (vault : VaultSeen) → VaultCounts result vault vault }
    ensures performs { (vault : VaultSeen) → IfSome (F.seen files.old).told (λ all. PerformsHub (B.stock shelf.old) all above below script.now tie.now result
        (outside (O.seen out.old) vault) (outside (O.seen out.new) vault)) }
    ensures boxes { LeavesHub above below tie.now result (B.stock shelf.old) (B.stock shelf.new) }
    ensures keeps { IfSome (F.seen files.old).told (λ all. KeepsHub all above below script.now tie.now result) }
{
    match tie_both(&above, &below, tie) {
        Ok(tied) => hub_worlds::<C, B, F, O>(alloc, above, below, &tied, script, shelf, files, out),
        Err(halt) => Err(halt),
    }
}

// Looks at the shelf, and then does the script.
fn hub_worlds<'a, C: Framer, B: Counted<C>, F: Files, O: Sink>(
    alloc: Global,
    above: Site,
    below: Site,
    tied: &Tied,
    script: &FileName<'a>,
    shelf: &mut B,
    files: &mut F,
    out: &mut O,
) -> Result<(), Halt<'a>>
    requires hub { tied.now.hub ≡ tied.now.ends.interface }
    requires least { 1 ≤ tied.now.ends.cut }
    requires most { tied.now.ends.cut ≤ 65536 }
    requires both { IsTied above below tied.now.ends }
    ensures stays { (F.seen files.new).told ≡ (F.seen files.old).told }
    ensures files { FileCounts result (F.seen files.old) (F.seen files.new) }
    ensures sink { SinkCounts result (O.seen out.old) (O.seen out.new) }
    ensures vault { (vault : VaultSeen) → VaultCounts result vault vault }
    ensures performs { (vault : VaultSeen) → IfSome (F.seen files.old).told (λ all. PerformsWorlds (B.stock shelf.old) all above below
        tied.now.ends script.now result (outside (O.seen out.old) vault) (outside (O.seen out.new) vault)) }
    ensures boxes { LeavesBoth above below result (B.stock shelf.old) (B.stock shelf.new) }
    ensures keeps { IfSome (F.seen files.old).told (λ all. KeepsScript all above below tied.now.ends script.now result) }
{
    match shortage::<C, B>(&above, &below, shelf) {
        Some(halt) => Err(halt),
        None => begin_both::<C, B, F, O>(alloc, above, below, tied, script, shelf, files, out),
    }
}

// Takes the boxes of both worlds, where the shelf has them, and does the script.
fn begin_both<'a, C: Framer, B: Counted<C>, F: Files, O: Sink>(
    alloc: Global,
    above: Site,
    below: Site,
    tied: &Tied,
    script: &FileName<'a>,
    shelf: &mut B,
    files: &mut F,
    out: &mut O,
) -> Result<(), Halt<'a>>
    requires short { short_kind (B.stock shelf.old) (joint above below) ≡ None }
    requires hub { tied.now.hub ≡ tied.now.ends.interface }
    requires least { 1 ≤ tied.now.ends.cut }
    requires most { tied.now.ends.cut ≤ 65536 }
    requires both { IsTied above below tied.now.ends }
    ensures stays { (F.seen files.new).told ≡ (F.seen files.old).told }
    ensures files { FileCounts result (F.seen files.old) (F.seen files.new) }
    ensures sink { SinkCounts result (O.seen out.old) (O.seen out.new) }
    ensures vault { (vault : VaultSeen) → VaultCounts result vault vault }
    ensures performs { (vault : VaultSeen) → IfSome (F.seen files.old).told (λ all. PerformsScriptBelow all above below tied.now.ends script.now result
        (outside (O.seen out.old) vault) (outside (O.seen out.new) vault)) }
    ensures boxes { LeavesMade above below result (B.stock shelf.old) (B.stock shelf.new) }
    ensures keeps { IfSome (F.seen files.old).told (λ all. KeepsScript all above below tied.now.ends script.now result) }
{
    match begin::<C, B>(alloc, above, shelf) {
        Ok(mut upper) => match begin::<C, B>(alloc, below, shelf) {
            Ok(mut lower) => {
                let done = hub_script(alloc, tied, script, &mut upper, &mut lower, files, out);
                drop((upper, lower));
                done
            }
            Err(halt) => {
                drop(upper);
                Err(halt)
            }
        },
        Err(halt) => Err(halt),
    }
}

// Reads the script and does its events above, and brings what the slot put to the world below.
fn hub_script<'a, C: Framer, F: Files, O: Sink>(
    alloc: Global,
    tied: &Tied,
    script: &FileName<'a>,
    upper: &mut Story<C>,
    lower: &mut Story<C>,
    files: &mut F,
    out: &mut O,
) -> Result<(), Halt<'a>>
    requires upper { Stands (site_told upper.old) opening upper.old }
    requires lower { Stands (site_told lower.old) opening lower.old }
    requires hub { tied.now.hub ≡ tied.now.ends.interface }
    requires least { 1 ≤ tied.now.ends.cut }
    requires most { tied.now.ends.cut ≤ 65536 }
    ensures stays { (F.seen files.new).told ≡ (F.seen files.old).told }
    ensures files { FileCounts result (F.seen files.old) (F.seen files.new) }
    ensures sink { SinkCounts result (O.seen out.old) (O.seen out.new) }
    ensures vault { (vault : VaultSeen) → VaultCounts result vault vault }
    ensures performs { (vault : VaultSeen) → IfSome (F.seen files.old).told (λ all. PerformsScriptBelow all
        (site_told upper.old) (site_told lower.old) tied.now.ends script.now result (outside (O.seen out.old) vault) (outside (O.seen out.new) vault)) }
    ensures keeps { IsTied (site_told upper.old) (site_told lower.old) tied.now.ends
        → IfSome (F.seen files.old).told (λ all. KeepsScript all (site_told upper.old) (site_told lower.old) tied.now.ends script.now result) }
{
    match load_script(alloc, files, script, upper.site()) {
        Ok(events) => {
            let done = hand_on(alloc, tied, script, &events, upper, lower, out);
            drop(events);
            done
        }
        Err(halt) => Err(halt),
    }
}

// Does the events above, and brings what the slot put to the world below.
fn hand_on<'a, C: Framer, O: Sink>(
    alloc: Global,
    tied: &Tied,
    script: &FileName<'a>,
    events: &[(u32, Event)],
    upper: &mut Story<C>,
    lower: &mut Story<C>,
    out: &mut O,
) -> Result<(), Halt<'a>>
    requires upper { Stands (site_told upper.old) opening upper.old }
    requires lower { Stands (site_told lower.old) opening lower.old }
    requires hub { tied.now.hub ≡ tied.now.ends.interface }
    requires least { 1 ≤ tied.now.ends.cut }
    requires most { tied.now.ends.cut ≤ 65536 }
    ensures done { (vault : VaultSeen) → HandsDown (site_told upper.old) (site_told lower.old) script.now events.now tied.now.ends result
        (outside (O.seen out.old) vault) (outside (O.seen out.new) vault) }
    ensures keeps { IsTied (site_told upper.old) (site_told lower.old) tied.now.ends
        → HubKept (site_told upper.old) (site_told lower.old) events.now tied.now.ends result }
{
    match run_above(alloc, script, tied.ends.slot, events, upper) {
        Ok(bytes) => {
            times_are_short(upper.hall());
            let done = run_below(alloc, &tied.hub, tied.ends, bytes.as_slice(), lower, out);
            drop(bytes);
            done
        }
        Err(halt) => Err(halt),
    }
}
