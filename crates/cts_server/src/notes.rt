// What a site's workers left, of which the devices go back to their places.
ghost use Rattle.std.specs.Prelude.{◌≡◌, ◌+◌, ◌≤◌, ◌++◌, IsSome, None, Some, length, map, vec_capacity, vec_len};
ghost use Rattle.std.specs.List.{filter_map};
ghost use Rattle.cts_server.specs.Homes.{CameHome, last_of};
ghost use Rattle.cts_server.specs.Kinds.{desk_note, line_why, the_desk, the_interface, the_scribe, the_slot};

use crate::places::put_next;
use crate::worked::DeskNote;
use crate::{ByKind, DeskLeft, Left, LineLeft, ScribeLeft};
use cts_line::LineWhy;
use cts_scribe::ScribeWhy;

/// All devices come back to their places, those of each kind to the first places in the order of the notes, and the rest of the notes is
/// kept; the answer is why the scribe ended.
pub(crate) fn notes_back<D: Drop, Q: Drop, V: Drop>(
    notes: Vec<Left<D, Q, V>>,
    lines: &mut [Option<D>],
    slots: &mut [Option<Q>],
    desks: &mut [Option<Q>],
    vault: &mut Option<V>,
    whys: &mut Vec<LineWhy>,
    left: &mut Vec<DeskNote>,
) -> ScribeWhy
    requires lines { length (filter_map the_interface notes.items) ≤ length lines.old }
    requires slots { length (filter_map the_slot notes.items) ≤ length slots.old }
    requires desks { length (filter_map the_desk notes.items) ≤ length desks.old }
    requires scribe { IsSome (last_of None (map (λ n. n.why) (filter_map the_scribe notes.items))) }
    requires whys { vec_len whys.old + length (filter_map line_why notes.items) ≤ vec_capacity whys.old }
    requires left { vec_len left.old + length (filter_map desk_note notes.items) ≤ vec_capacity left.old }
    ensures lines { CameHome the_interface (λ n. n.device) notes.items lines.old lines.new }
    ensures slots { CameHome the_slot (λ n. n.device) notes.items slots.old slots.new }
    ensures desks { CameHome the_desk (λ n. n.door) notes.items desks.old desks.new }
    ensures vault { vault.new ≡ last_of vault.old (map (λ n. n.vault) (filter_map the_scribe notes.items)) }
    ensures whys { whys.new.items ≡ whys.old.items ++ filter_map line_why notes.items }
    ensures left { left.new.items ≡ left.old.items ++ filter_map desk_note notes.items }
    ensures scribe { last_of None (map (λ n. n.why) (filter_map the_scribe notes.items)) ≡ Some result }
{
    let mut scribe = None;
    let mut line = 0;
    let mut slot = 0;
    let mut desk = 0;
    for note in notes {
        match note {
            ByKind::Interface(LineLeft { device, why }) => {
                put_next(lines, &mut line, device);
                whys.push_reserved(why);
            }
            ByKind::Slot(LineLeft { device, why }) => {
                put_next(slots, &mut slot, device);
                whys.push_reserved(why);
            }
            ByKind::Desk(
                DeskLeft {
                    door,
                    fronts,
                    why,
                    tied,
                },
            ) => {
                put_next(desks, &mut desk, door);
                left.push_reserved(DeskNote { fronts, why, tied });
            }
            ByKind::Scribe(ScribeLeft { vault: kept, why }) => {
                *vault = Some(kept);
                scribe = Some(why);
            }
        }
    }
    match scribe {
        Some(why) => why,
        None => unreachable!(),
    }
}
