// The publisher, with the writer that is lent to it.
ghost use Rattle.std.specs.Prelude.{◌≡◌, [], ◌∷◌};
ghost use Rattle.cts_publisher.specs.declared.ending.PublisherWhy.TheVariants.{Cancelled};
ghost use Rattle.cts_snap_server.specs.Publishers.{MayPublish, OwesPublisher};
ghost use Rattle.cts_trace.specs.Makers.{of_maker};
ghost use Rattle.cts_turn.specs.Passes.{IsPassOf, view};
ghost use Rattle.cts_worker.specs.Grounds.{ground};
ghost use Rattle.cts_worker.specs.Holds.{Onward};

use cts_publisher::{Publisher, PublisherEnd, PublisherWhy};
use cts_snap::{Grounds, Replicates, SnapWriter};
use cts_table::Hall;
use cts_turn::{Pass, Turn};
use std::sync::Wait;

/// Runs the publisher.
pub fn run_publisher<W: Wait, J: Grounds, T: Replicates<J>, R: Wait + Drop>(
    rt: &W,
    turn: &Turn<Hall>,
    by: u32,
    pass: Pass<Hall>,
    writer: &mut SnapWriter<J, T, R>,
) -> (Pass<Hall>, PublisherWhy)
    requires pass { IsPassOf turn.now pass }
    requires makers { (view pass).makers ≡ by ∷ [] }
    requires new { of_maker by (view pass).seen ≡ [] }
    requires can { MayPublish (ground turn.now) J.basis by writer.old }
    ensures pass { IsPassOf turn.now result.0 }
    ensures onward { Onward (view pass) (view result.0) }
    ensures owes { OwesPublisher (ground turn.now).site (view result.0).seen writer.new result.1 }
    ensures worked { result.1 ≡ Cancelled → ⊥ }
{
    let _by = by;
    let end = Publisher::run(rt, turn, pass, writer);
    let PublisherEnd { pass, why } = end;
    (pass, why)
}

/// Ends a publisher that was not started. It waits for nobody.
pub fn cancel_publisher<J: Grounds, T: Replicates<J>, R: Wait + Drop>(
    turn: &Turn<Hall>,
    by: u32,
    pass: Pass<Hall>,
    writer: &SnapWriter<J, T, R>,
) -> (Pass<Hall>, PublisherWhy)
    requires pass { IsPassOf turn.now pass }
    requires makers { (view pass).makers ≡ by ∷ [] }
    requires new { of_maker by (view pass).seen ≡ [] }
    requires can { MayPublish (ground turn.now) J.basis by writer.now }
    ensures pass { IsPassOf turn.now result.0 }
    ensures onward { Onward (view pass) (view result.0) }
    ensures owes { OwesPublisher (ground turn.now).site (view result.0).seen writer.now result.1 }
    ensures cancelled { result.1 ≡ Cancelled }
{
    let _turn = turn;
    let _by = by;
    let _writer = writer;
    let end = Publisher::cancel(pass);
    let PublisherEnd { pass, why } = end;
    (pass, why)
}
