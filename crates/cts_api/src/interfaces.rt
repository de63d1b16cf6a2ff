//! Interfaces by their names.

ghost use Rattle.std.specs.Prelude.{◌≡◌, IfOk, map};
ghost use Rattle.serde_json.specs.View.{view};
ghost use Rattle.cts_api.specs.Answers.{connection_text, interface_answer, interfaces_answer, names_of};
ghost use Rattle.cts_api.specs.Telling.{point, Tells};

use crate::naming::interface_place;
use crate::refusal::Refusal;
use crate::shown::text;
use cts_base::Memory;
use cts_def::Interface;
use cts_table::Hall;
use serde_json::Value;
use std::alloc::Global;

fn names_of(alloc: Global, interfaces: &[Interface]) -> Result<Vec<Value>, Memory>
    ensures { IfOk result (λ names. map view names.items ≡ names_of interfaces.now) }
{
    let mut names = Vec::new(alloc);
    for interface in interfaces {
        names.push(text(alloc, interface.name.as_slice())?)?;
    }
    Ok(names)
}

/// The names of all interfaces, in order of the site.
///
/// # Errors
///
/// `Memory` where none was found.
pub(crate) fn interface_names(alloc: Global, hall: &Hall) -> Result<Value, Refusal>
    ensures { Tells view result (interfaces_answer (point hall.now)) }
{
    let interfaces = hall.site().interfaces.as_slice();
    Ok(Value::Array(names_of(alloc, interfaces)?))
}

fn connection_text(connected: bool) -> &'static [u8]
    ensures { result.now ≡ connection_text connected }
{
    if connected {
        b"CONNECTED"
    } else {
        b"DISCONNECTED"
    }
}

/// Whether an interface is connected: `CONNECTED` or `DISCONNECTED`.
///
/// # Errors
///
/// `NoSuch`: `Unknown interface`. `Memory` where none was found.
pub(crate) fn interface_state(alloc: Global, hall: &Hall, name: &[u8]) -> Result<Value, Refusal>
    ensures { Tells view result (interface_answer (point hall.now) name.now) }
{
    let Some(place) = interface_place(hall.site().interfaces.as_slice(), name) else {
        return Err(Refusal::NoSuch(b"Unknown interface"));
    };
    Ok(text(alloc, connection_text(hall.connected(place as u32)))?)
}
