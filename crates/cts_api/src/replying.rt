//! Replies: what a desk answers to a body, and what it appends.

ghost use Rattle.std.specs.Prelude.{◌≡◌, ◌≤◌, false, IfOk, length, option_map, Some, true};
ghost use Rattle.serde_json.specs.Data.{null};
ghost use Rattle.serde_json.specs.View.{view};
ghost use Rattle.cts_def.specs.Most.{most_sets};
ghost use Rattle.cts_entry.specs.Legal.{has_ended};
ghost use Rattle.cts_entry.specs.Workers.{is_desk};
ghost use Rattle.cts_api.specs.Replied.{Answered, Replied};
ghost use Rattle.cts_api.specs.Replies.{error, IsTextFor, respond};
ghost use Rattle.cts_api.specs.Responding.{code_number, IsTold, RefusesWith, TellsFault};
ghost use Rattle.cts_api.specs.Settling.{CanEnd, Ends};

use crate::answering::asked;
use crate::refusal::Refusal;
use crate::response::{Code, error_to, refusal_to};
use crate::sending::{Done, before_drop, nothing};
use crate::settling::{Answer, settle};
use cts_base::Memory;
use cts_def::{Site, Time};
use cts_methods::{method_named, read_asking};
use cts_rpc::{Call, RpcFault, calls_are_whole, read};
use cts_table::Hall;
use serde_json::Value;
use std::alloc::Global;
use std::marker::Brand;
use std::sync::ledger::Blank;

/// A response with an error, which appends nothing.
pub(crate) fn error_answer(
    alloc: Global,
    id: Option<&Value>,
    code: Code,
    message: &[u8],
) -> Result<Answer, Memory>
    ensures none { IfOk result (λ a. a.appended ≡ 0) }
    ensures text { IfOk result (λ a. IsTextFor (respond (option_map (λ i. view i.now) id.entry) (error (code_number code) message.now)) a.text) }
{
    Ok(Answer {
        text: error_to(alloc, id, code, message)?,
        appended: 0,
    })
}

// A response to a body whose id is not known: null stands for it.
fn error_without_id(alloc: Global, code: Code, message: &[u8]) -> Result<Answer, Memory>
    ensures none { IfOk result (λ a. a.appended ≡ 0) }
    ensures text { IfOk result (λ a. IsTextFor (respond (Some null) (error (code_number code) message.now)) a.text) }
{
    error_answer(alloc, Some(&nothing()), code, message)
}

/// The response to a body that is no call, which appends nothing.
pub(crate) fn no_call(alloc: Global, fault: &RpcFault) -> Result<Answer, Memory>
    ensures none { IfOk result (λ a. a.appended ≡ 0) }
    ensures text { IfOk result (λ a. TellsFault fault.now a.text) }
{
    match fault {
        RpcFault::ParseError => error_without_id(alloc, Code::ParseError, b"Parse error"),
        RpcFault::InvalidRequest => error_without_id(
            alloc,
            Code::InvalidRequest,
            b"Invalid Request",
        ),
        RpcFault::InvalidParams { id } => {
            error_answer(alloc, id.as_ref(), Code::InvalidParams, b"Invalid params")
        }
        RpcFault::Memory => Err(Memory),
    }
}

/// A response to a call that is refused, which appends nothing.
pub(crate) fn refusal_told(
    alloc: Global,
    id: Option<&Value>,
    refusal: Refusal,
) -> Result<Answer, Memory>
    ensures none { IfOk result (λ a. a.appended ≡ 0) }
    ensures told { IfOk result (λ a. IsTold refusal) }
    ensures text { IfOk result (λ a. RefusesWith (option_map (λ i. view i.now) id.entry) refusal a.text) }
{
    Ok(Answer {
        text: refusal_to(alloc, id, refusal)?,
        appended: 0,
    })
}

// How a call ends: what is done is settled, and a refusal is told and appends nothing.
fn ended(
    alloc: Global,
    hall: &mut Hall,
    by: u32,
    time: Time,
    id: Option<&Value>,
    said: Result<Done, Refusal>,
) -> Result<Answer, Memory>
    requires may { CanEnd hall.old by time said }
    ensures { Ends hall.old by time (option_map (λ i. view i.now) id.entry) said result hall.new }
{
    match said {
        Ok(done) => settle(alloc, hall, by, time, id, done),
        Err(refusal) => refusal_told(alloc, id, refusal),
    }
}

// A site's definitions name no more limits sets than a server holds.
fn recall_few_sets(site: &Site)
    ensures { length site.now.definitions.set_names ≤ most_sets }
{
    let _packets = site.definitions.telemetry.as_slice();
}

/// The reply of a desk to a call: the text of its response, and its entry after the history. All checks come first, then whether
/// the history has room for the entry, and a refusal appends nothing. There is a text exactly where the call has an id, and it reads
/// back as the response, also where the id has a fraction.
///
/// # Errors
///
/// `Memory` where none was found; the entries are then as before.
pub fn answer(
    alloc: Global,
    hall: &mut Hall,
    by: u32,
    time: Time,
    call: &Call,
) -> Result<Answer, Memory>
    requires desk { is_desk hall.old.basis.site by ≡ true }
    requires active { has_ended by hall.old.entries ≡ false }
    ensures answered { Answered hall.old by time call.now result hall.new }
{
    let id = call.id.as_ref();
    let Some(method) = method_named(call.method.as_slice()) else {
        return error_answer(alloc, id, Code::MethodNotFound, b"Method not found");
    };
    let Some(asking) = read_asking(method, call.params.as_slice()) else {
        return error_answer(alloc, id, Code::InvalidParams, b"Invalid params");
    };
    hall.is_kept();
    recall_few_sets(hall.site());
    let said = asked::<Brand>(alloc, hall, asking, Blank::new(1));
    ended(alloc, hall, by, time, id, said)
}

/// The reply of a desk to the body of a request (JSON-RPC 2.0): the text of its response, none where the request has no id, and its
/// entry after the history. All checks come first, then whether the history has room for the entry, and a refusal appends
/// nothing.
///
/// # Errors
///
/// `Memory` where none was found; the entries are then as before.
pub fn reply(
    alloc: Global,
    hall: &mut Hall,
    by: u32,
    time: Time,
    body: &[u8],
) -> Result<Answer, Memory>
    requires desk { is_desk hall.old.basis.site by ≡ true }
    requires active { has_ended by hall.old.entries ≡ false }
    ensures replied { Replied hall.old by time body.now result hall.new }
{
    calls_are_whole();
    match read(alloc, body) {
        Ok(call) => before_drop(answer(alloc, hall, by, time, &call), call),
        Err(fault) => before_drop(no_call(alloc, &fault), fault),
    }
}
