// Packets that are appended to a hall, each in a hold of its own.
ghost use Rattle.std.specs.Prelude.{◌≡◌, ℕ, true, ◌∷◌, ◌++◌, [], MatchBool};
ghost use Rattle.cts_entry.specs.Histories.{is_connected};
ghost use Rattle.cts_entry.specs.Workers.{is_interface};
ghost use Rattle.cts_turn.specs.Lists.{has, of};
ghost use Rattle.cts_turn.specs.Passes.{IsPassOf, basis_of, view};
ghost use Rattle.cts_worker_tests.specs.Added.{entry_at};

use cts_base::Bytes;
use cts_def::{Ident, Time};
use cts_entry::Stands;
use cts_table::Hall;
use cts_turn::{Pass, Turn};
use std::sync::Wait;

/// Appends an unknown packet without bytes, where there is room, and says whether it did.
fn append(hall: &mut Hall, by: u32, seconds: u32, bytes: Bytes) -> bool
    requires line { is_interface hall.old.basis.site by ≡ true }
    requires open { is_connected by hall.old.entries ≡ true }
    requires none { bytes ≡ [] }
    ensures basis { hall.new.basis ≡ hall.old.basis }
    ensures entries { MatchBool result
        (hall.new.entries ≡ hall.old.entries ++ entry_at by seconds ∷ [])
        (hall.new.entries ≡ hall.old.entries) }
{
    hall.is_kept();
    match hall.room(1, 0) {
        Ok(()) => {}
        Err(_) => return false,
    }
    hall.packet(
        by,
        Time { seconds, micros: 0 },
        Ident::Unknown,
        false,
        bytes,
    );
    true
}

/// Appends one packet of an interface that is connected in a hold, where there is room, and says whether it did.
pub fn add_packet<R: Wait>(
    rt: &R,
    turn: &Turn<Hall>,
    pass: Pass<Hall>,
    by: u32,
    seconds: u32,
    bytes: Bytes,
) -> (Pass<Hall>, bool)
    requires pass { IsPassOf turn.now pass }
    requires by { has by (view pass).makers ≡ true }
    requires line { is_interface (basis_of ⟦<Hall as Stands>⟧.basis turn.now).site by ≡ true }
    requires open { is_connected by (view pass).seen ≡ true }
    requires none { bytes ≡ [] }
    ensures pass { IsPassOf turn.now result.0 }
    ensures makers { (view result.0).makers ≡ (view pass).makers }
    ensures own { MatchBool result.1
        (of (λ e. e.by) by (view result.0).seen ≡ of (λ e. e.by) by (view pass).seen ++ entry_at by seconds ∷ [])
        (of (λ e. e.by) by (view result.0).seen ≡ of (λ e. e.by) by (view pass).seen) }
{
    let mut held = turn.enter(rt, pass);
    let done = append(held.state_mut(), by, seconds, bytes);
    (turn.leave(held), done)
}
