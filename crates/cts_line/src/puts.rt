// Puts of what the last look saw.
ghost use Rattle.std.specs.Prelude.{◌≡◌, ◌≤◌, ◌+◌, ℕ, List, length, true};
ghost use Rattle.cts_entry.specs.declared.entry.Entry.{Entry};
ghost use Rattle.cts_proto.specs.Meaning.{Meaning};
ghost use Rattle.cts_entry.specs.Room.{Capacity};
ghost use Rattle.cts_trace.specs.Routing.{Routing};
ghost use Rattle.cts_worker.specs.Counts.{RoseIf};
ghost use Rattle.cts_line.specs.Ending.{fails};
ghost use Rattle.cts_line.specs.Putting.{PutCause, PutsOne, is_write};
ghost use Rattle.cts_line.specs.Talks.{Talks, after, Caught, Puts};
ghost use Rattle.cts_line.specs.Telling.{Retells, SomeLine, since};

use cts_base::Bytes;
use cts_entry::Why;
use cts_outside::Dialer;

/// How a put of one spelling ended.
#[derive(Clone, Copy)]
pub(crate) enum PutEnd {
    /// It was put whole.
    Whole,
    /// There is none, since it was refused.
    Refused,
    /// The put failed.
    Fault,
}

/// Puts a spelling, if it has one.
pub(crate) fn put_one<D: Dialer>(dialer: &mut D, spelling: &Option<Bytes>) -> PutEnd
    requires { (D.seen dialer.old).linked ≡ true }
    ensures content { PutsOne (D.seen dialer.old).told (D.seen dialer.new).told spelling.now result }
    ensures linked { (D.seen dialer.new).linked ≡ true }
    ensures cause { PutCause result (D.seen dialer.old).faults (D.seen dialer.new).faults }
    ensures dials { (D.seen dialer.new).failed_dials ≡ (D.seen dialer.old).failed_dials }
    ensures finished { (D.seen dialer.new).finished ≡ (D.seen dialer.old).finished }
{
    match spelling {
        None => PutEnd::Refused,
        Some(bytes) => match dialer.put(bytes.as_slice()) {
            Ok(()) => PutEnd::Whole,
            Err(_) => PutEnd::Fault,
        },
    }
}

/// Puts these spellings in order. Says how many of them were not put whole, and why the connection has to be closed, if it has to be.
pub(crate) fn put_all<D: Dialer>(
    dialer: &mut D,
    spellings: &[Option<Bytes>],
) -> (usize, Option<Why>)
    requires linked { (D.seen dialer.old).linked ≡ true }
    ensures linked { (D.seen dialer.new).linked ≡ true }
    ensures few { result.0 ≤ length spellings.now }
    ensures write { is_write result.1 ≡ true }
    ensures cause { RoseIf (fails result.1) (D.seen dialer.old).faults (D.seen dialer.new).faults }
    ensures dials { (D.seen dialer.new).failed_dials ≡ (D.seen dialer.old).failed_dials }
    ensures finished { (D.seen dialer.new).finished ≡ (D.seen dialer.old).finished }
    ensures retells { Retells (D.seen dialer.old).told (D.seen dialer.new).told }
    ensures talks { (g : Routing) (room : Capacity) (m place unsent : ℕ) (stages : List Meaning) (found : List ℕ) (history : List Entry) (k : ℕ)
        → Talks g room m (Puts spellings.now) stages place unsent found history (since k (D.seen dialer.old).told)
        → Talks g room m (after Caught result.1) stages place (unsent + result.0) found history (since k (D.seen dialer.new).told) }
    ensures some { (g : Routing) (room : Capacity) (m place unsent : ℕ) (stages : List Meaning) (found : List ℕ) (history : List Entry)
        → SomeLine (λ told. Talks g room m (Puts spellings.now) stages place unsent found history told)
        → SomeLine (λ told. Talks g room m (after Caught result.1) stages place (unsent + result.0) found history told) }
{
    let mut left = spellings;
    let mut unsent = 0;
    'puts: while let Some((first, rest)) = left.split_first() {
        match put_one(dialer, first) {
            PutEnd::Whole => {}
            PutEnd::Refused => unsent += 1,
            PutEnd::Fault => return (unsent + left.len(), Some(Why::WriteFault)),
        }
        left = rest;
    }
    (unsent, None)
}
