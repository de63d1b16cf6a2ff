//! Commands: what is asked for, and the entry that sends it.

ghost use Rattle.std.specs.Prelude.{◌≡◌, IfOk, OnOk, option_map};
ghost use Rattle.std.specs.Str.Lossy.{utf8_lossy};
ghost use Rattle.cts_base.specs.Names.{in_upper_case};
ghost use Rattle.serde_json.specs.Data.{no_members, put};
ghost use Rattle.serde_json.specs.View.{members_view, view};
ghost use Rattle.cts_api.specs.Answers.{command_row};
ghost use Rattle.cts_methods.specs.Kinds.{given_in, members_given, or_else};
ghost use Rattle.cts_methods.specs.Seen.{order_data};
ghost use Rattle.cts_api.specs.Shown.{given, object_of};
ghost use Rattle.cts_api.specs.Telling.{IsRequestOf};

use crate::refusal::Refusal;
use crate::shown::{push_text, text, whole};
use cts_base::{Bytes, List, Memory, in_upper_case};
use cts_cmd::{Given, Request, TextFault, parse};
use cts_def::Packet;
use cts_methods::Order;
use serde_json::{Map, Value, put};
use std::alloc::Global;

fn given_in(alloc: Global, value: &Value) -> Result<Option<Given>, Memory>
    ensures { IfOk result (λ g. g ≡ given_in (view value.now)) }
{
    match value {
        Value::Number(number) => Ok(number.as_i128().map(Given::Whole)),
        Value::String(text) => Ok(Some(Given::Text(Bytes::copy(alloc, text.as_bytes())?))),
        _ => Ok(None),
    }
}

// What an object gives, in the order of its names.
pub(crate) fn members_given(
    alloc: Global,
    members: &Map<String, Value>,
) -> Result<Vec<(Bytes, Given)>, Memory>
    ensures { IfOk result (λ params. params.items ≡ members_given (members_view members.now.entries)) }
{
    let mut params = Vec::new(alloc);
    for (name, member) in members.iter() {
        if let Some(given) = given_in(alloc, member)? {
            params.push((Bytes::copy(alloc, name.as_bytes())?, given))?;
        }
    }
    Ok(params)
}

fn all_given(
    alloc: Global,
    members: Option<&Map<String, Value>>,
) -> Result<Vec<(Bytes, Given)>, Memory>
    ensures { IfOk result (λ params. params.items ≡ members_given (or_else no_members (option_map (λ m. members_view m.now.entries) members.entry))) }
{
    match members {
        Some(members) => members_given(alloc, members),
        None => Ok(Vec::new(alloc)),
    }
}

/// The request of a command as it is given.
///
/// # Errors
///
/// `BadParams` exactly where a text asks for no command. `Memory` where none was found.
pub(crate) fn request(alloc: Global, order: Order<'_>) -> Result<Request, Refusal>
    ensures { IsRequestOf (order_data order.entry) result }
{
    match order {
        Order::Text(text) => match parse(alloc, text) {
            Ok(request) => Ok(request),
            Err(TextFault::Refused { .. }) => Err(Refusal::BadParams),
            Err(TextFault::Memory) => Err(Refusal::Memory),
        },
        Order::Parts(names, members) => Ok(Request {
            target: Bytes::copy(alloc, names.target)?,
            command: Bytes::copy(alloc, names.packet)?,
            params: List::of(all_given(alloc, members)?),
        }),
    }
}

fn given(alloc: Global, held: &Given) -> Result<Value, Memory>
    ensures { IfOk result (λ v. view v ≡ given held.now) }
{
    match held {
        Given::Whole(number) => whole(alloc, *number),
        Given::Text(characters) => text(alloc, characters.as_slice()),
    }
}

// Puts what is given under this name, in upper case, with the members.
fn put_given(
    members: &mut Map<String, Value>,
    alloc: Global,
    name: &[u8],
    value: &Given,
) -> Result<(), Memory>
    ensures { OnOk result (members_view members.new.entries ≡ put (utf8_lossy (in_upper_case name.now)) (given value.now) (members_view members.old.entries)) }
{
    let name = in_upper_case(alloc, name)?;
    let name = String::from_utf8_lossy(alloc, name.as_slice())?;
    put(members, alloc, name.as_str(), given(alloc, value)?)?;
    Ok(())
}

fn object_of(alloc: Global, params: &[(Bytes, Given)]) -> Result<Map<String, Value>, Memory>
    ensures { IfOk result (λ members. members_view members.entries ≡ object_of params.now) }
{
    let mut members = Map::new(alloc);
    for (name, value) in params {
        put_given(&mut members, alloc, name.as_slice(), value)?;
    }
    Ok(members)
}

/// What is answered to a command that is sent: its names, and what was given by the names of its parameters.
pub(crate) fn command_row(
    alloc: Global,
    command: &Packet,
    request: &Request,
) -> Result<Value, Memory>
    ensures { IfOk result (λ v. view v ≡ command_row command.now request.now) }
{
    let mut row = Vec::new(alloc);
    push_text(&mut row, alloc, command.target.as_slice())?;
    push_text(&mut row, alloc, command.name.as_slice())?;
    row.push(Value::Object(object_of(alloc, request.params.as_slice())?))?;
    Ok(Value::Array(row))
}
