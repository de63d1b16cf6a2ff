// What a publisher does in one hold of the turn: it takes in what is new, and appends nothing.
ghost use Rattle.std.specs.Prelude.{◌≡◌, ◌≤◌, [], length, true, IfOk};
ghost use mathlib.Core.List.{IsPrefix};
ghost use Rattle.cts_publisher.specs.Publishing.{SeesSo, publisher};
ghost use Rattle.cts_snap.specs.Copies.{FitsIn};
ghost use Rattle.cts_turn.specs.Lists.{has};
ghost use Rattle.cts_turn.specs.Passes.{IsPassOf, view};
ghost use Rattle.cts_worker.specs.Followed.{Follows};
ghost use Rattle.cts_worker.specs.Grounds.{ground};
ghost use Rattle.cts_worker.specs.Holds.{Hold};

use crate::sight::Sight;
use cts_base::Memory;
use cts_snap::{Grounds, Replicates, SnapWriter};
use cts_table::Hall;
use cts_trace::lend;
use cts_turn::{Pass, Turn};
use cts_worker::Progress;
use std::sync::Wait;

/// The number under which a publisher has its pass. It makes no entry.
const PUBLISHER: u32 = 29;

/// The most entries that are taken in in one hold, so that the other workers need not wait long for the turn.
const MOST_TAKEN: u64 = 256;

// Follows the entries of the hall up to this number.
fn follow_to(hall: &Hall, until: u64, from: Progress) -> Progress
    requires follows { Follows from hall.now.entries }
    requires within { until ≤ length hall.now.entries }
    ensures follows { Follows result hall.now.entries }
    ensures place { until ≤ result.place }
{
    hall.is_kept();
    let mut progress = from;
    'entries: while progress.place < until {
        let entry = lend(hall, progress.place);
        progress.follow(entry);
    }
    progress
}

// Takes in what is new in the hall.
fn see<J: Grounds, T: Replicates<J>, R: Wait + Drop>(
    hall: &Hall,
    writer: &mut SnapWriter<J, T, R>,
    progress: &mut Progress,
) -> Result<Sight, Memory>
    requires fits { FitsIn hall.now.basis J.basis }
    requires begins { IsPrefix writer.old.list hall.now.entries }
    requires follows { Follows progress.old hall.now.entries }
    ensures seen { IsPrefix writer.old.list writer.new.list }
    ensures begins { IsPrefix writer.new.list hall.now.entries }
    ensures follows { Follows progress.new hall.now.entries }
    ensures sight { IfOk result (λ s. SeesSo hall.now.basis.site hall.now.entries writer.new s) }
{
    hall.is_kept();
    writer.take_in(hall, MOST_TAKEN)?;
    let taken = writer.waiting();
    let next = follow_to(hall, taken, *progress);
    *progress = next;
    if taken < hall.count() {
        return Ok(Sight::More);
    }
    if progress.have_ended(hall.site(), PUBLISHER) {
        return Ok(Sight::Over);
    }
    Ok(Sight::Still)
}

/// Takes in what is new in a hold that appends nothing.
pub(crate) fn look<W: Wait, J: Grounds, T: Replicates<J>, R: Wait + Drop>(
    rt: &W,
    turn: &Turn<Hall>,
    pass: Pass<Hall>,
    writer: &mut SnapWriter<J, T, R>,
    progress: &mut Progress,
) -> (Pass<Hall>, Result<Sight, Memory>)
    requires pass { IsPassOf turn.now pass }
    requires by { has publisher (view pass).makers ≡ true }
    requires fits { FitsIn (ground turn.now) J.basis }
    requires begins { IsPrefix writer.old.list (view pass).seen }
    requires follows { Follows progress.old (view pass).seen }
    ensures pass { IsPassOf turn.now result.0 }
    ensures hold { Hold publisher (view pass) (view result.0) [] }
    ensures seen { IsPrefix writer.old.list writer.new.list }
    ensures begins { IsPrefix writer.new.list (view result.0).seen }
    ensures follows { Follows progress.new (view result.0).seen }
    ensures sight { IfOk result.1 (λ s. SeesSo (ground turn.now).site (view result.0).seen writer.new s) }
{
    let held = turn.enter(rt, pass);
    let sight = see(held.state(), writer, progress);
    (turn.leave(held), sight)
}
