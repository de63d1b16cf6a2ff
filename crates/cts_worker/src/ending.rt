// The last entries of a worker, appended to a hall.
ghost use Rattle.std.specs.Prelude.{◌≡◌, ◌≤◌, ◌++◌, ◌∷◌, [], ◌&&◌, not, length, true, false};
ghost use Rattle.cts_entry.specs.declared.what.What.TheVariants.{Ended, Stop};
ghost use Rattle.cts_entry.specs.Histories.{is_connected, is_stopped};
ghost use Rattle.cts_entry.specs.Legal.{has_ended};
ghost use Rattle.cts_entry.specs.Workers.{is_worker};
ghost use Rattle.cts_table.specs.States.{added};
ghost use Rattle.cts_worker.specs.Lasts.{MayEnd, entry_of, last_entries, stop_if};

use cts_def::Time;
use cts_table::Hall;

/// Stops the server. No Stop may stand yet, and the worker may not have ended. It takes no memory.
pub fn stop(hall: &mut Hall, by: u32, time: Time)
    requires worker { is_worker hall.old.basis.site by ≡ true }
    requires going { is_stopped hall.old.entries ≡ false }
    requires active { has_ended by hall.old.entries ≡ false }
    ensures { hall.new ≡ added hall.old (entry_of by time Stop) }
{
    hall.stop(by, time);
}

// Stops the server, where the worker is to stop it and no Stop stands.
fn stop_unless(hall: &mut Hall, by: u32, time: Time, stops: bool)
    requires worker { is_worker hall.old.basis.site by ≡ true }
    requires active { has_ended by hall.old.entries ≡ false }
    ensures entries { hall.new.entries ≡ hall.old.entries ++ stop_if (stops && not (is_stopped hall.old.entries)) by time }
    ensures basis { hall.new.basis ≡ hall.old.basis }
{
    if stops && !hall.stopped() {
        stop(hall, by, time);
    }
}

// Says that the worker has ended.
fn say_ended(hall: &mut Hall, by: u32, time: Time)
    requires may { MayEnd hall.old.basis.site by hall.old.entries }
    ensures entries { hall.new.entries ≡ hall.old.entries ++ entry_of by time Ended ∷ [] }
    ensures basis { hall.new.basis ≡ hall.old.basis }
    ensures few { length hall.new.entries ≤ 8000065 }
{
    hall.is_kept();
    hall.end(by, time);
    hall.is_kept();
}

/// Appends the last entries of a worker.
pub(crate) fn end_in(hall: &mut Hall, by: u32, time: Time, stops: bool)
    requires may { MayEnd hall.old.basis.site by hall.old.entries }
    ensures entries { hall.new.entries ≡ hall.old.entries ++ last_entries stops by time hall.old.entries }
    ensures basis { hall.new.basis ≡ hall.old.basis }
    ensures few { length hall.new.entries ≤ 8000065 }
{
    stop_unless(hall, by, time, stops);
    say_ended(hall, by, time);
}
