//! Values that are put in place of a device.

ghost use Rattle.std.specs.Prelude.{◌≡◌, ℕ, List, option_map, Some};
ghost use Rattle.cts_cmd.specs.Builds.{AreBytes};
ghost use Rattle.serde_json.specs.View.{members_view};
ghost use Rattle.cts_api.specs.Answers.{inject_answer};
ghost use Rattle.cts_api.specs.Saying.{Said};
ghost use Rattle.cts_api.specs.Injecting.{IsInjectionRefused};
ghost use Rattle.cts_methods.specs.Kinds.{members_given};
ghost use Rattle.cts_methods.specs.Seen.{packet_name};
ghost use Rattle.cts_api.specs.Telling.{IsDoneBy, point};

use crate::commands::members_given;
use crate::naming::packet_at;
use crate::refusal::Refusal;
use crate::sending::{Done, before_drop, nothing};
use cts_cmd::{Refused, inject, refusal_text};
use cts_entry::What;
use cts_methods::PacketWords;
use cts_table::Hall;
use serde_json::{Map, Value};
use std::alloc::Global;

// How the refusal of an injection is told: an unknown item is named as such.
fn refusal_of(alloc: Global, refused: &Refused) -> Refusal
    ensures { IsInjectionRefused refused.now result }
{
    if let Refused::UnknownParameter(_) = refused {
        return Refusal::NoSuch(b"Unknown item");
    }
    match refusal_text(alloc, refused) {
        Ok(message) => Refusal::NotDone(message),
        Err(_) => Refusal::Memory,
    }
}

// Each number of a slice of bytes is a byte.
fn recall_bytes(bytes: &[u8])
    ensures { AreBytes bytes.now }
{
    let _len = bytes.len();
}

// The bytes that stand, if any, are bytes.
fn recall_current_bytes(current: Option<&[u8]>)
    ensures { (bytes : List ℕ) → option_map (λ t. t.now) current.entry ≡ Some bytes → AreBytes bytes }
{
    if let Some(bytes) = current {
        recall_bytes(bytes);
    }
}

/// The entry that puts raw values in place of a device: the current bytes of the packet, or zeros of its length, with the fields
/// written.
///
/// # Errors
///
/// The first that holds: `NoSuch` with `Unknown target`, `Unknown packet`, `Unknown item`; `NotDone` with `Wrong type: N` or
/// `Overflow: N`, of each the first member in the order of the names. `Memory` where none was found.
pub(crate) fn injection(
    alloc: Global,
    hall: &Hall,
    names: PacketWords<'_>,
    members: &Map<String, Value>,
) -> Result<Done, Refusal>
    ensures { IsDoneBy (point hall.now) (inject_answer (point hall.now) (packet_name names.entry) (members_given (members_view members.now.entries))) result }
{
    let (number, packet) = packet_at(hall.site().definitions.telemetry.as_slice(), names)?;
    let given = members_given(alloc, members)?;
    let current = hall.current(number as u32);
    recall_current_bytes(current);
    match inject(alloc, packet, current, given.as_slice()) {
        Ok(bytes) => Ok(Done {
            result: nothing(),
            what: Some(What::Injected {
                packet: number as u32,
                bytes,
            }),
        }),
        Err(why) => Err(before_drop(refusal_of(alloc, &why), why)),
    }
}
