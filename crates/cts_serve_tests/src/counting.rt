// A box of the tests' own: it passes each call on, and counts those of `next`.
use crate::shelves::{put, without_length};
use crate::table::{SITE, said_over};
use cts_base::Memory;
use cts_def::{Kind, Label, ProtoSpec};
use cts_proto::{EncodeFault, Given, Protocol, Shelf, Step};
use cts_rows::same;
use cts_stream::Length;
use std::alloc::Global;
use std::sync::Arc;
use std::sync::atomic::{AtomicU64, Ordering};
use std::test::Fail;

// A LENGTH, and how often it was asked for its next output.
#[derive(Drop)]
struct Counting {
    inner: Length,
    calls: Arc<AtomicU64, Global>,
}

impl Protocol for Counting {
    ghost meaning = { λ p. ⟦<Length as Protocol>⟧.meaning p.inner };

    ghost buffer = { λ p. ⟦<Length as Protocol>⟧.buffer p.inner };

    fn kind(&self) -> Kind {
        self.inner.kind()
    }

    fn configure(&mut self, spec: ProtoSpec) {
        self.inner.configure(spec)
    }

    fn reset(&mut self) -> Given {
        self.inner.reset()
    }

    fn reserve(&mut self, bytes: usize) -> Result<(), Memory> {
        self.inner.reserve(bytes)
    }

    fn feed(&mut self, piece: &[u8]) {
        self.inner.feed(piece)
    }

    fn next(&mut self) -> Step {
        let _ = self.calls.fetch_add(1, Ordering::SeqCst);
        self.inner.next()
    }

    fn held(&self) -> &[u8] {
        self.inner.held()
    }

    fn encode(&self, label: &Label, bytes: &[u8], out: &mut Vec<u8>) -> Result<(), EncodeFault> {
        self.inner.encode(label, bytes, out)
    }
}

/// Puts a box on a shelf that counts there.
fn put_counting(
    alloc: Global,
    shelf: &mut Shelf,
    calls: &Arc<AtomicU64, Global>,
) -> Result<(), Fail> {
    let counting = Counting {
        inner: Length::blank(alloc),
        calls: Arc::try_clone(calls)?,
    };
    put(shelf, Box::new(alloc, counting)?)
}

const SCRIPT: &str = "OPEN I;BYTES I 0004AABB";

/// How a replay ends over a shelf whose one box of LENGTH counts there.
fn said_of_counting(alloc: Global, calls: &Arc<AtomicU64, Global>) -> Result<String, Fail> {
    let mut shelf = without_length(alloc)?;
    put_counting(alloc, &mut shelf, calls)?;
    said_over(alloc, &mut shelf, "replay d s c", "", SITE, SCRIPT)
}

// The boxes of the shelf do the cutting.
#[test]
fn the_box_on_the_shelf_cuts_what_comes(rt: HostRuntime) -> Result<(), Fail> {
    let calls = Arc::new(rt.alloc(), AtomicU64::new(0))?;
    let found = said_of_counting(rt.alloc(), &calls)?;
    let wanted = "Ok 0 0.000000 I OPENED;1 0.000000 I PACKET UNKNOWN UNKNOWN 0004aabb;END 2;";
    assert!(rt; calls.load(Ordering::SeqCst) > 0);
    same(found.as_str(), wanted, SCRIPT)
}
