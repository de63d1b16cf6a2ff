//! Commands: the entry that sends one; and the entry that stops the server.

ghost use Rattle.std.specs.Prelude.{◌≡◌, ◌++◌, codes, IfOk, Ok};
ghost use Rattle.cts_api.specs.Answers.{request_answer, routed, stop_answer};
ghost use Rattle.cts_api.specs.Telling.{IsChecked, IsDoneBy, point, Tells};
ghost use Rattle.cts_table.specs.Routes.{route_of};
ghost use Rattle.serde_json.specs.Data.{null};
ghost use Rattle.serde_json.specs.View.{view};

use crate::commands::command_row;
use crate::refusal::Refusal;
use cts_base::{Bytes, Memory};
use cts_cmd::{Built, Checks, Request, build, refusal_text};
use cts_entry::What;
use cts_table::{Hall, NoRoute};
use serde_json::Value;
use std::alloc::Global;

/// What a call answers, and what the entry says that it appends.
#[derive(Drop)]
pub(crate) struct Done {
    /// The result.
    pub result: Value,
    /// What is appended, if anything.
    pub what: Option<What>,
}

/// What was made of a value that is needed no more. The value is let go here, in one place, since each place where a value of many
/// parts may be let go is proved field by field.
pub(crate) fn before_drop<R: Drop, T: Drop>(made: R, used: T) -> R
    ensures { result ≡ made }
{
    drop(used);
    made
}

// The command of a request, where no check fails.
fn checked(alloc: Global, hall: &Hall, checks: Checks, request: &Request) -> Result<Built, Refusal>
    ensures { IsChecked hall.now.basis.site.definitions checks request.now result }
{
    match build(alloc, &hall.site().definitions, request, checks) {
        Ok(built) => Ok(built),
        Err(refused) => match before_drop(refusal_text(alloc, &refused), refused) {
            Ok(message) => Err(Refusal::NotDone(message)),
            Err(_) => Err(Refusal::Memory),
        },
    }
}

fn not_connected(alloc: Global, name: &[u8]) -> Result<Bytes, Memory>
    ensures { IfOk result (λ text. text ≡ codes "Not connected: " ++ name.now) }
{
    let mut text = Vec::from_slice(alloc, b"Not connected: ")?;
    text.extend_from_slice(name)?;
    Ok(Bytes::of(text))
}

// The connected interface of a command.
fn routed(alloc: Global, hall: &Hall, command: u32) -> Result<u32, Refusal>
    ensures { Tells (λ n. n) result (routed hall.now.basis.site (route_of hall.now.basis.site hall.now.entries command)) }
{
    match hall.route(command) {
        Ok(interface) => Ok(interface),
        Err(NoRoute::NoInterface) => Err(Refusal::NotDone(Bytes::copy(alloc, b"No interface")?)),
        Err(NoRoute::NotConnected(interface)) => {
            let interfaces = hall.site().interfaces.as_slice();
            let name = match interfaces.get(interface as usize) {
                Some(interface) => interface.name.as_slice(),
                None => b"",
            };
            Err(Refusal::NotDone(not_connected(alloc, name)?))
        }
    }
}

/// A command that is sent: its names and what was given, and its entry.
///
/// # Errors
///
/// `NotDone` with the first that holds: what is said of the first check that fails (`cts_cmd::refusal_text`), `No interface`,
/// `Not connected: I`. `Memory` where none was found.
pub(crate) fn send(
    alloc: Global,
    hall: &Hall,
    checks: Checks,
    request: &Request,
) -> Result<Done, Refusal>
    ensures { IsDoneBy (point hall.now) (request_answer (point hall.now) checks request.now) result }
{
    let built = checked(alloc, hall, checks, request)?;
    let commands = hall.site().definitions.commands.as_slice();
    let Some(packet) = commands.get(built.command as usize) else {
        unreachable!();
    };
    let interface = routed(alloc, hall, built.command)?;
    let result = command_row(alloc, packet, request)?;
    let Built { command, bytes } = built;
    Ok(Done {
        result,
        what: Some(What::Command {
            interface,
            command,
            bytes,
        }),
    })
}

/// No result.
pub(crate) fn nothing() -> Value
    ensures { view result ≡ null }
{
    Value::Null
}

/// The entry that stops the server, where none stands.
pub(crate) fn stop(hall: &Hall) -> Done
    ensures { IsDoneBy (point hall.now) (stop_answer (point hall.now)) (Ok result) }
{
    if hall.stopped() {
        return Done {
            result: nothing(),
            what: None,
        };
    }
    Done {
        result: nothing(),
        what: Some(What::Stop),
    }
}
