// A box of the tests' own, which passes each call on and tells how many bytes are held after each `next`.
ghost use Rattle.std.specs.Prelude.{IfOk};
ghost use Rattle.cts_chain.specs.Shapes.{IsIdle};

use crate::chains::told_of_pieces;
use crate::labels::site_with;
use crate::shelves::{chain_over, put};
use cts_base::Memory;
use cts_chain::{Chain, Chained};
use cts_def::{Kind, Label, ProtoSpec};
use cts_proto::{EncodeFault, Given, Protocol, Shelf, Step};
use cts_rows::same;
use cts_stream::{Length, Terminated};
use std::alloc::Global;
use std::sync::Arc;
use std::sync::atomic::{AtomicU64, Ordering};
use std::test::Fail;

/// A protocol, and how many bytes it held after the last `next`.
#[derive(Drop)]
struct Watched<P: Protocol> {
    inner: P,
    left: Arc<AtomicU64, Global>,
}

impl<P: Protocol> Protocol for Watched<P> {
    ghost meaning = { λ w. P.meaning w.inner };

    ghost buffer = { λ w. P.buffer w.inner };

    fn kind(&self) -> Kind {
        self.inner.kind()
    }

    fn configure(&mut self, spec: ProtoSpec) {
        self.inner.configure(spec)
    }

    fn reset(&mut self) -> Given {
        self.inner.reset()
    }

    fn reserve(&mut self, bytes: usize) -> Result<(), Memory> {
        self.inner.reserve(bytes)
    }

    fn feed(&mut self, piece: &[u8]) {
        self.inner.feed(piece)
    }

    fn next(&mut self) -> Step {
        let step = self.inner.next();
        let left = self.inner.held().len() as u64;
        self.left.store(left, Ordering::SeqCst);
        step
    }

    fn held(&self) -> &[u8] {
        self.inner.held()
    }

    fn encode(&self, label: &Label, bytes: &[u8], out: &mut Vec<u8>) -> Result<(), EncodeFault> {
        self.inner.encode(label, bytes, out)
    }
}

const TWO: &str = "TERMINATED 0x0a 0x0a;PROTOCOL READ LENGTH 0 8 0 1";

/// Puts a box of TERMINATED on the shelf, which is watched.
fn put_terminated(
    alloc: Global,
    shelf: &mut Shelf,
    left: &Arc<AtomicU64, Global>,
) -> Result<(), Fail> {
    let watched = Watched {
        inner: Terminated::blank(alloc),
        left: Arc::try_clone(left)?,
    };
    put(shelf, Box::new(alloc, watched)?)
}

/// The same of LENGTH.
fn put_length(alloc: Global, shelf: &mut Shelf, left: &Arc<AtomicU64, Global>) -> Result<(), Fail> {
    let watched = Watched {
        inner: Length::blank(alloc),
        left: Arc::try_clone(left)?,
    };
    put(shelf, Box::new(alloc, watched)?)
}

/// The chain of a shelf's two boxes.
fn chain_of_two(alloc: Global, shelf: &mut Shelf) -> Result<Chain, Fail>
    ensures { IfOk result (λ chain. IsIdle (⟦<Chain as Chained>⟧.shape chain)) }
{
    let site = site_with(alloc, TWO)?;
    chain_over(alloc, shelf, &site)
}

/// What the chain of a shelf's two boxes gives of one piece.
fn told_over(alloc: Global, shelf: &mut Shelf, piece: &str) -> Result<String, Fail> {
    let mut chain = chain_of_two(alloc, shelf)?;
    told_of_pieces(alloc, &mut chain, &[piece])
}

/// The same of boxes that are watched.
fn told_of_both(
    alloc: Global,
    below: &Arc<AtomicU64, Global>,
    above: &Arc<AtomicU64, Global>,
    piece: &str,
) -> Result<String, Fail> {
    let mut shelf = Shelf::new(alloc);
    put_terminated(alloc, &mut shelf, below)?;
    put_length(alloc, &mut shelf, above)?;
    told_over(alloc, &mut shelf, piece)
}

#[test]
fn each_stage_holds_what_is_left_there(rt: HostRuntime) -> Result<(), Fail> {
    let below = Arc::new(rt.alloc(), AtomicU64::new(9))?;
    let above = Arc::new(rt.alloc(), AtomicU64::new(9))?;
    let told = told_of_both(rt.alloc(), &below, &above, "0311")?;
    assert!(rt; below.load(Ordering::SeqCst) == 2);
    assert!(rt; above.load(Ordering::SeqCst) == 0);
    same(told.as_str(), "More [2, 0, 0, 0] 0 0", "0311")
}
