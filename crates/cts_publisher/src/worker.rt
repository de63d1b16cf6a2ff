// The worker that publishes.
ghost use Rattle.std.specs.Prelude.{◌≡◌, true, IfSome};
ghost use mathlib.Core.List.{IsPrefix};
ghost use Rattle.cts_publisher.specs.Publishing.{EndsSo, publisher};
ghost use Rattle.cts_publisher.specs.declared.ending.PublisherWhy.TheVariants.{Cancelled as IsCancelled};
ghost use Rattle.cts_snap.specs.Copies.{FitsIn};
ghost use Rattle.cts_trace.specs.Makers.{of_maker};
ghost use Rattle.cts_turn.specs.Lists.{has};
ghost use Rattle.cts_turn.specs.Passes.{IsPassOf, view};
ghost use Rattle.cts_worker.specs.Followed.{Follows};
ghost use Rattle.cts_worker.specs.Grounds.{ground};
ghost use Rattle.cts_worker.specs.Holds.{Onward};

use crate::ending::{PublisherEnd, PublisherWhy};
use crate::looking::look;
use crate::sight::Sight;
use cts_snap::{Grounds, Replicates, SnapWriter};
use cts_table::Hall;
use cts_turn::{Pass, Turn};
use cts_worker::{Progress, nap};
use std::sync::Wait;

/// How many milliseconds a publisher sleeps where nothing was new: so few that a reply from a snapshot is hardly older than its request.
const NAP: u64 = 5;

// One look, and a publication outside of it. Says why the publisher ends, if it does.
fn round<W: Wait, J: Grounds, T: Replicates<J>, R: Wait + Drop>(
    rt: &W,
    turn: &Turn<Hall>,
    pass: Pass<Hall>,
    writer: &mut SnapWriter<J, T, R>,
    progress: &mut Progress,
) -> (Pass<Hall>, Option<PublisherWhy>)
    requires pass { IsPassOf turn.now pass }
    requires by { has publisher (view pass).makers ≡ true }
    requires fits { FitsIn (ground turn.now) J.basis }
    requires begins { IsPrefix writer.old.list (view pass).seen }
    requires follows { Follows progress.old (view pass).seen }
    ensures pass { IsPassOf turn.now result.0 }
    ensures onward { Onward (view pass) (view result.0) }
    ensures own { of_maker publisher (view result.0).seen ≡ of_maker publisher (view pass).seen }
    ensures seen { IsPrefix writer.old.list writer.new.list }
    ensures begins { IsPrefix writer.new.list (view result.0).seen }
    ensures follows { Follows progress.new (view result.0).seen }
    ensures ends { IfSome result.1 (λ why. EndsSo (ground turn.now).site (view result.0).seen writer.new why) }
{
    let (pass, sight) = look(rt, turn, pass, writer, progress);
    let Ok(sight) = sight else {
        return (pass, Some(PublisherWhy::NoMemory));
    };
    if writer.show().is_err() {
        return (pass, Some(PublisherWhy::NoMemory));
    }
    match sight {
        Sight::More => (pass, None),
        Sight::Still => {
            nap(rt, NAP);
            (pass, None)
        }
        Sight::Over => (pass, Some(PublisherWhy::Ended)),
    }
}

/// The worker that publishes what comes to the one history.
#[derive(Clone, Copy, Debug)]
pub struct Publisher;

impl Publisher {
    /// Publishes what comes to the history, until every worker has ended and all that stands is published, or no memory is found. It looks at the history
    /// in holds of the turn, publishes outside of them, and appends nothing. It waits for the turn, for those who read, and a few milliseconds where
    /// nothing is new.
    pub fn run<W: Wait, J: Grounds, T: Replicates<J>, R: Wait + Drop>(
        rt: &W,
        turn: &Turn<Hall>,
        mut pass: Pass<Hall>,
        writer: &mut SnapWriter<J, T, R>,
    ) -> PublisherEnd
        requires pass { IsPassOf turn.now pass }
        requires by { has publisher (view pass).makers ≡ true }
        requires fits { FitsIn (ground turn.now) J.basis }
        requires begins { IsPrefix writer.old.list (view pass).seen }
        ensures pass { IsPassOf turn.now result.pass }
        ensures onward { Onward (view pass) (view result.pass) }
        ensures own { of_maker publisher (view result.pass).seen ≡ of_maker publisher (view pass).seen }
        ensures grows { IsPrefix writer.old.list writer.new.list }
        ensures list { IsPrefix writer.new.list (view result.pass).seen }
        ensures published { IsPrefix writer.new.published (view result.pass).seen }
        ensures ends { EndsSo (ground turn.now).site (view result.pass).seen writer.new result.why }
    {
        let mut progress = Progress::begin();
        'looks: for _ in rt.forever() {
            let (next, end) = round(rt, turn, pass, writer, &mut progress);
            pass = next;
            if let Some(why) = end {
                writer.is_writing();
                return PublisherEnd { pass, why };
            }
        }
        unreachable!()
    }

    /// Ends a publisher that was not started: gives back its pass. Nothing is published.
    pub fn cancel(pass: Pass<Hall>) -> PublisherEnd
        ensures pass { result.pass ≡ pass }
        ensures why { result.why ≡ IsCancelled }
    {
        PublisherEnd {
            pass,
            why: PublisherWhy::Cancelled,
        }
    }
}
