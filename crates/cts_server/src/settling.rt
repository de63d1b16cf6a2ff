// What there is once the workers of a site have ended.
ghost use Rattle.std.specs.Prelude.{◌≡◌, ℕ, true};
ghost use Rattle.cts_scribe.specs.Laws.{StopsLeaveLogsOf};
ghost use Rattle.cts_server.specs.Homes.{FindHome, HaveCome};
ghost use Rattle.cts_table.specs.Keeping.{IsKept};
ghost use Rattle.cts_trace.specs.Makers.{of_maker};
ghost use Rattle.cts_turn.specs.Lists.{StartsWith, has};
ghost use Rattle.cts_turn.specs.Passes.{HasAll, IsPassOf, view};
ghost use Rattle.cts_worker.specs.Grounds.{ground};

use crate::Left;
use crate::notes::notes_back;
use crate::staging::Room;
use crate::worked::Worked;
use cts_base::List;
use cts_scribe::stops_leave_logs_of_halls;
use cts_table::{Hall, History};
use cts_turn::{Pass, Turn};

/// The history that stood in the turn, to which all passes came back. What a stop leaves of its logs with this digest is readable.
pub fn close(turn: Turn<Hall>, pass: Pass<Hall>, digest: &[u8; 16]) -> History
    requires pass { IsPassOf turn pass }
    requires all { HasAll (view pass).makers }
    ensures legal { IsKept (ground turn) result }
    ensures readable { StopsLeaveLogsOf (ground turn).site result digest.now }
    ensures seen { StartsWith result (view pass).seen }
    ensures own { (m : ℕ) → has m (view pass).makers ≡ true → of_maker m result ≡ of_maker m (view pass).seen }
{
    let hall = turn.close(pass);
    hall.is_kept();
    stops_leave_logs_of_halls(&hall, digest);
    hall.into_history()
}

/// What the workers left, as one, over the history that they made: each device comes back to its place.
pub fn settle<D: Drop, Q: Drop, V: Drop>(
    history: History,
    notes: Vec<Left<D, Q, V>>,
    room: Room,
    lines: &mut [Option<D>],
    slots: &mut [Option<Q>],
    desks: &mut [Option<Q>],
    vault: &mut Option<V>,
) -> Worked
    requires home { FindHome notes.items lines.old slots.old desks.old room }
    ensures came { HaveCome notes.items lines.old lines.new slots.old slots.new desks.old desks.new vault.old vault.new result }
    ensures history { result.history ≡ history }
{
    let Room { mut whys, mut left } = room;
    let scribe = notes_back(notes, lines, slots, desks, vault, &mut whys, &mut left);
    Worked {
        history,
        lines: List::of(whys),
        desks: List::of(left),
        scribe,
    }
}
