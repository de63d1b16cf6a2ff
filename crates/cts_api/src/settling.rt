//! How a call that is done ends: its entry stands after the history where there is room for it.

ghost use Rattle.std.specs.Prelude.{◌≡◌, ◌≢◌, if◌then◌else◌, IfOk, None, OnErr, option_map, true};
ghost use Rattle.cts_entry.specs.Histories.{bytes_for, entries_for};
ghost use Rattle.cts_table.specs.States.{fits, with_room};
ghost use Rattle.serde_json.specs.View.{view};
ghost use Rattle.cts_api.specs.Replies.{IsTextFor};
ghost use Rattle.cts_api.specs.Settling.{CanSayIt, HasRoom, Settled, text_by};

use crate::response::{Code, error_to, result_to};
use crate::sending::Done;
use cts_base::{Bytes, Memory};
use cts_def::Time;
use cts_entry::{Entry, What, bytes_for, entries_for};
use cts_table::{Hall, HallFault};
use serde_json::Value;
use std::alloc::Global;

/// The reply to a request.
#[derive(Drop)]
pub struct Answer {
    /// The text of the response; none where the request has no id.
    pub text: Option<Bytes>,
    /// How many entries it appended: none or one.
    pub appended: u64,
}

// Whether the history has room for an entry that says this, which is then made. Want of memory is answered only where it has.
fn has_room(hall: &mut Hall, what: &What) -> Result<bool, Memory>
    ensures fits { IfOk result (λ is. is ≡ fits hall.old (entries_for what.now) (bytes_for what.now)) }
    ensures room { IfOk result (λ is. hall.new ≡ (if is then with_room hall.old (entries_for what.now) (bytes_for what.now) else hall.old)) }
    ensures err { OnErr result (hall.new ≡ hall.old) }
    ensures memory { OnErr result (fits hall.old (entries_for what.now) (bytes_for what.now) ≡ true) }
{
    match hall.room(entries_for(what), bytes_for(what)) {
        Ok(()) => Ok(true),
        Err(HallFault::Full { .. }) => Ok(false),
        Err(HallFault::Memory) => Err(Memory),
    }
}

// The text of a call that is done: its result, or that the history is full.
fn text_for(
    alloc: Global,
    id: Option<&Value>,
    room: bool,
    value: Value,
) -> Result<Option<Bytes>, Memory>
    ensures text { IfOk result (λ t. IsTextFor (text_by (option_map (λ i. view i.now) id.entry) (view value) room) t) }
    ensures memory { OnErr result (option_map (λ i. view i.now) id.entry ≢ None) }
{
    if room {
        result_to(alloc, id, value)
    } else {
        error_to(alloc, id, Code::HistoryFull, b"History full")
    }
}

/// Appends what a call that is done says, and tells its result, or that the history is full. The text is made before the entry
/// is appended, so that nothing stands where no memory was found for it. Without an id no text is made: then want of memory is answered only
/// where the history has room.
pub(crate) fn settle(
    alloc: Global,
    hall: &mut Hall,
    by: u32,
    time: Time,
    id: Option<&Value>,
    done: Done,
) -> Result<Answer, Memory>
    requires may { CanSayIt hall.old by time done.what }
    ensures settled { Settled hall.old by time (option_map (λ i. view i.now) id.entry) (view done.result) done.what result hall.new }
    ensures memory { OnErr result (option_map (λ i. view i.now) id.entry ≡ None → HasRoom hall.old done.what) }
{
    hall.is_kept();
    let Done {
        result: value,
        what,
    } = done;
    let Some(what) = what else {
        let text = result_to(alloc, id, value)?;
        return Ok(Answer { text, appended: 0 });
    };
    let room = has_room(hall, &what)?;
    let text = text_for(alloc, id, room, value)?;
    if room {
        hall.append(Entry { by, time, what });
    }
    Ok(Answer {
        text,
        appended: u64::from(room),
    })
}
