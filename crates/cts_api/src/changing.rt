//! What changes limits: the entries that such calls append.

ghost use Rattle.std.specs.Prelude.{◌≤◌, IfOk, option_map};
ghost use Rattle.cts_def.specs.Items.{HasSoundLimits};
ghost use Rattle.cts_api.specs.Answers.{choose_answer, enable_answer, limits_given, new_set, set_limits_answer};
ghost use Rattle.cts_methods.specs.Seen.{item_name, limits_asked};
ghost use Rattle.cts_api.specs.Settling.{HasPersistence, IsPersistent};
ghost use Rattle.cts_api.specs.Telling.{Finds, point, Tells};

use crate::limits::known_set;
use crate::naming::item_at;
use crate::refusal::{Missing, Refusal};
use cts_base::{Bytes, Name, NameFault};
use cts_def::{Item, MOST_SETS};
use cts_entry::What;
use cts_methods::{ItemWords, LimitsWords};
use cts_monitor::is_watched;
use cts_table::{Hall, LimitsUsed};
use std::alloc::Global;

fn new_set(alloc: Global, name: Option<&[u8]>) -> Result<Name, Refusal>
    ensures { Tells (λ n. n) result (new_set (option_map (λ t. t.now) name.entry)) }
{
    let text = match name {
        Some(text) => text,
        None => b"CUSTOM",
    };
    match Name::read(alloc, text) {
        Ok(set) => Ok(set),
        Err(NameFault::BadName) => Err(Refusal::NoSuch(b"Unknown limits set")),
        Err(NameFault::Memory) => Err(Refusal::Memory),
    }
}

// An item's limits are sound: their persistence is at least 1.
fn recall_sound_limits(item: &Item)
    ensures { HasSoundLimits item.now item.now.limits }
{
    let _kind = item.kind;
}

// The entry of new limits of an item, by the limits that it has now.
fn limits_given(
    alloc: Global,
    hall: &Hall,
    packet: u32,
    item: u32,
    now: LimitsUsed,
    new: LimitsWords<'_>,
) -> Result<What, Refusal>
    ensures told { Tells (λ w. w) result (limits_given (point hall.now) packet item now (limits_asked new.entry)) }
    ensures persistent { HasPersistence new.entry.persistence → 1 ≤ now.persistence → IfOk result (λ w. IsPersistent w) }
{
    let set = new_set(alloc, new.set)?;
    if !new.limits.are_in_order() {
        return Err(Refusal::NotDone(Bytes::copy(alloc, b"Limits order")?));
    }
    if !hall.set_known(set.as_slice()) && hall.sets_known() as usize >= MOST_SETS {
        return Err(Refusal::NotDone(Bytes::copy(alloc, b"Too many sets")?));
    }
    Ok(What::SetLimits {
        packet,
        item,
        set,
        limits: new.limits,
        persistence: new.persistence.unwrap_or(now.persistence),
        enabled: new.enabled,
    })
}

/// The entry of new limits of an item.
///
/// # Errors
///
/// The first that holds: `NoSuch` with `Unknown target`, `Unknown packet`, `Unknown item`, `No limits`, `Unknown limits set` for a set that is no
/// name; `NotDone` with `Limits order`, or `Too many sets` for a set more than a server holds. `Memory` where none was found.
pub(crate) fn set_limits(
    alloc: Global,
    hall: &Hall,
    names: ItemWords<'_>,
    new: LimitsWords<'_>,
) -> Result<What, Refusal>
    ensures told { Tells (λ w. w) result (set_limits_answer (point hall.now) (item_name names.entry) (limits_asked new.entry)) }
    ensures persistent { HasPersistence new.entry.persistence → IfOk result (λ w. IsPersistent w) }
{
    let place = item_at(hall.site().definitions.telemetry.as_slice(), names)?;
    let (packet, item) = (place.packet as u32, place.item);
    hall.is_kept();
    recall_sound_limits(place.it);
    let Some(now) = hall.limits_of(packet, item, hall.limits_set().as_slice()) else {
        return Err(Refusal::NoSuch(b"No limits"));
    };
    limits_given(alloc, hall, packet, item, now, new)
}

/// The entry by which samples of an item are taken, or no longer.
///
/// # Errors
///
/// `NoSuch`: `Unknown target`, `Unknown packet`, `Unknown item`, `No limits` where it has no state colours either, the first that holds.
pub(crate) fn enable_limits(hall: &Hall, on: bool, names: ItemWords<'_>) -> Result<What, Missing>
    ensures told { Finds (λ w. w) result (enable_answer (point hall.now) on (item_name names.entry)) }
{
    let place = item_at(hall.site().definitions.telemetry.as_slice(), names)?;
    if !is_watched(place.it) {
        return Err(Missing {
            message: b"No limits",
        });
    }
    Ok(What::Enable {
        packet: place.packet as u32,
        item: place.item,
        enabled: on,
    })
}

/// The entry by which a known limits set is the current one.
///
/// # Errors
///
/// `NoSuch`: `Unknown limits set`. `Memory` where none was found.
pub(crate) fn choose_set(alloc: Global, hall: &Hall, name: &[u8]) -> Result<What, Refusal>
    ensures told { Tells (λ w. w) result (choose_answer (point hall.now) name.now) }
{
    let set = known_set(alloc, hall, name)?;
    Ok(What::LimitsSetIs { set })
}
