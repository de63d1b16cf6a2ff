// Tasks that were not begun, of which the devices go back to their places.
ghost use Rattle.std.specs.Prelude.{◌≡◌, ◌≤◌, length, map};
ghost use Rattle.std.specs.List.{filter_map};
ghost use Rattle.cts_server.specs.Homes.{CameHome, last_of};
ghost use Rattle.cts_server.specs.Kinds.{the_desk, the_interface, the_scribe, the_slot};

use crate::places::put_next;
use crate::running::Task;
use crate::{ByKind, Work};

/// All devices come back to their places from tasks that were not begun: those of each kind to the first places, in the order of the tasks.
pub fn tasks_back<D: Drop, Q: Drop, V: Drop, C: Drop>(
    tasks: Vec<Task<Work<D, Q, V, C>>>,
    lines: &mut [Option<D>],
    slots: &mut [Option<Q>],
    desks: &mut [Option<Q>],
    vault: &mut Option<V>,
)
    requires lines { length (filter_map (λ t. the_interface t.work) tasks.items) ≤ length lines.old }
    requires slots { length (filter_map (λ t. the_slot t.work) tasks.items) ≤ length slots.old }
    requires desks { length (filter_map (λ t. the_desk t.work) tasks.items) ≤ length desks.old }
    ensures lines { CameHome (λ t. the_interface t.work) (λ l. l.device) tasks.items lines.old lines.new }
    ensures slots { CameHome (λ t. the_slot t.work) (λ l. l.device) tasks.items slots.old slots.new }
    ensures desks { CameHome (λ t. the_desk t.work) (λ d. d) tasks.items desks.old desks.new }
    ensures vault { vault.new ≡ last_of vault.old (map (λ v. v) (filter_map (λ t. the_scribe t.work) tasks.items)) }
{
    let mut line = 0;
    let mut slot = 0;
    let mut desk = 0;
    for task in tasks {
        match task.work {
            ByKind::Interface(work) => put_next(lines, &mut line, work.into_device()),
            ByKind::Slot(work) => put_next(slots, &mut slot, work.into_device()),
            ByKind::Desk(door) => put_next(desks, &mut desk, door),
            ByKind::Scribe(kept) => *vault = Some(kept),
        }
    }
}
