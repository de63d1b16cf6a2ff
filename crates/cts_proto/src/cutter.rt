// The one body that cuts for all protocols.
ghost use Rattle.std.specs.Prelude.{◌≡◌, ℕ, ◌+◌, ◌-◌, ◌^◌, ◌≤◌, ◌<◌, List, [], ◌∷◌, ◌++◌, length, drop, true, OnOk, OnErr, None, IsTrue};
ghost use Rattle.cts_def.specs.Protocols.{SpecData, kind_of, spec_data, is_sound_spec};
ghost use Rattle.cts_proto.specs.Founds.{StampFits};
ghost use Rattle.cts_proto.specs.Meaning.{LendsFew, Meaning, Steps, Unset};
ghost use Rattle.cts_framing.specs.Rows.{framing_of};
ghost use Rattle.cts_proto.specs.Stores.{Looked, left, meaning_of, moved_stamp as moved_by};

use crate::gap::first_place;
use crate::protocol::Protocol;
use crate::search::{Search, sync_of};
use crate::step::{Found, Given, Stamp, Step};
use crate::store::Store;
use cts_base::Memory;
use cts_def::{Kind, Label, ProtoSpec};
use cts_encode::{EncodeFault, encode};
use std::alloc::Global;

/// A protocol that cuts what it is fed by a search.
#[derive(Drop)]
pub struct Cutter<S: Search> {
    search: S,
    spec: ProtoSpec,
    store: Store,
    ghost sound: { store.configured ≡ true → IsTrue (is_sound_spec (spec_data spec)) },
    ghost of_its_kind: { kind_of (spec_data spec) ≡ S.mine },
    ghost looked: { Looked (framing_of (spec_data spec)) store },
}

impl<S: Search> Cutter<S> {
    /// One that is not configured and holds nothing. It takes no memory.
    pub fn blank(alloc: Global) -> Cutter<S>
        ensures unset { Unset (⟦<Cutter<S> as Protocol>⟧.meaning result) }
        ensures held { ⟦<Cutter<S> as Protocol>⟧.buffer result ≡ [] }
        ensures kind { kind_of (⟦<Cutter<S> as Protocol>⟧.meaning result).spec ≡ S.mine }
    {
        Cutter {
            search: S::new(),
            spec: S::blank_spec(alloc),
            store: Store::blank(alloc),
        }
    }
}

impl<S: Search> Protocol for Cutter<S> {
    ghost use Rattle.cts_proto.specs.Stores.{meaning_of};

    ghost meaning = { λ c. meaning_of (spec_data c.spec) c.store };

    ghost buffer = { λ c. c.store.bytes.items };

    fn kind(&self) -> Kind {
        self.search.kind()
    }

    fn configure(&mut self, spec: ProtoSpec) {
        self.spec = spec;
        self.store.clear();
    }

    fn reset(&mut self) -> Given {
        let given = self.store.given();
        self.store.clear();
        given
    }

    fn reserve(&mut self, bytes: usize) -> Result<(), Memory> {
        self.store.reserve(bytes)
    }

    fn feed(&mut self, piece: &[u8]) {
        self.store.feed(piece);
    }

    fn next(&mut self) -> Step {
        next_of(&self.search, &self.spec, &mut self.store)
    }

    fn held(&self) -> &[u8] {
        &self.store.bytes
    }

    fn encode(&self, label: &Label, bytes: &[u8], out: &mut Vec<u8>) -> Result<(), EncodeFault> {
        encode(&self.spec, label, bytes, out)
    }
}

/// The next output that is not empty, or why there is none.
fn next_of<S: Search>(search: &S, spec: &ProtoSpec, store: &mut Store) -> Step
    requires kind { kind_of (spec_data spec.now) ≡ S.mine }
    requires sound { IsTrue (is_sound_spec (spec_data spec.now)) }
    requires configured { store.old.configured ≡ true }
    requires looked { Looked (framing_of (spec_data spec.now)) store.old }
    ensures step { Steps (meaning_of (spec_data spec.now) store.old) result (meaning_of (spec_data spec.now) store.new) store.new.bytes.items }
    ensures few { LendsFew result (spec_data spec.now) store.new.bytes.items }
    ensures looked { Looked (framing_of (spec_data spec.now)) store.new }
{
    loop {
        let gap = first_place(sync_of(spec), store.left());
        store.skip(gap);
        match search.find(spec, store.left(), store.seen) {
            Found::Frame {
                len,
                start,
                end,
                stamp,
            } => {
                let begin = store.begin;
                if start < end {
                    store.take(len);
                    return Step::Frame {
                        start: begin + start,
                        end: begin + end,
                        stamp: moved_stamp(stamp, begin),
                    };
                }
                store.take_empty(len);
            }
            Found::Nothing => {
                store.stop(None);
                return Step::More;
            }
            Found::Fault(cause) => {
                store.stop(Some(cause));
                return Step::Bad(cause);
            }
        }
    }
}

/// The spans of a stamp, further on.
fn moved_stamp(stamp: Option<Stamp>, by: usize) -> Option<Stamp>
    requires { (n : ℕ) × (by + n < 2 ^ 64) × StampFits n stamp }
    ensures { result ≡ moved_by by stamp }
{
    match stamp {
        None => None,
        Some(stamp) => Some(Stamp {
            time: stamp.time,
            target: (by + stamp.target.0, by + stamp.target.1),
            packet: (by + stamp.packet.0, by + stamp.packet.1),
            stored: stamp.stored,
        }),
    }
}
