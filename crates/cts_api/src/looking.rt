//! Looks: replies that append nothing, over a hall that is only lent.

ghost use Rattle.std.specs.Prelude.{◌≡◌, ℕ, IfOk, Ok, false, option_map};
ghost use Rattle.cts_def.specs.declared.time.Time.{Time as Moment};
ghost use Rattle.serde_json.specs.View.{view};
ghost use Rattle.cts_api.specs.declared.looked.Look.TheVariants.{Text};
ghost use Rattle.cts_api.specs.Looks.{AppendsNone, changes, Looks, LooksCall};
ghost use Rattle.cts_api.specs.Settling.{Ends};

use crate::answering::asked;
use crate::looked::Look;
use crate::refusal::Refusal;
use crate::replying::{error_answer, no_call, refusal_told};
use crate::response::{Code, result_to};
use crate::sending::{Done, before_drop};
use crate::settling::Answer;
use cts_base::Memory;
use cts_methods::{Method, method_named, read_asking};
use cts_rpc::{Call, calls_are_whole, read};
use cts_table::Hall;
use serde_json::Value;
use std::alloc::Global;
use std::marker::Brand;
use std::sync::ledger::Blank;

// Whether the method may append.
fn changes(method: Method) -> bool
    ensures { result ≡ changes method }
{
    match method {
        Method::Command { .. }
        | Method::SetLimits
        | Method::Enable(_)
        | Method::ChooseSet
        | Method::Inject
        | Method::Stop => true,
        Method::Value(_)
        | Method::Packet
        | Method::Received
        | Method::Sent
        | Method::Limits
        | Method::Set
        | Method::OutOfLimits
        | Method::Events
        | Method::Interfaces
        | Method::Interface => false,
    }
}

// The text of an answer.
fn text_of(answer: Answer) -> Look
    ensures { result ≡ Text answer.text }
{
    let Answer { text, appended: _ } = answer;
    Look::Text(text)
}

// How a call ends that appends nothing.
fn look_ended(
    alloc: Global,
    hall: &Hall,
    id: Option<&Value>,
    said: Result<Done, Refusal>,
) -> Result<Answer, Memory>
    requires none { AppendsNone said }
    ensures none { IfOk result (λ a. a.appended ≡ 0) }
    ensures ends { IfOk result (λ a. (by : ℕ) (time : Moment) → Ends hall.now by time (option_map (λ i. view i.now) id.entry) said (Ok a) hall.now) }
{
    hall.is_kept();
    match said {
        Ok(done) => {
            let Done { result, what } = done;
            drop(what);
            let text = result_to(alloc, id, result)?;
            Ok(Answer { text, appended: 0 })
        }
        Err(refusal) => refusal_told(alloc, id, refusal),
    }
}

// What a look gives for a call.
fn look_call(alloc: Global, hall: &Hall, call: &Call) -> Result<Look, Memory>
    ensures { IfOk result (λ l. LooksCall hall.now call.now l) }
{
    let id = call.id.as_ref();
    let Some(method) = method_named(call.method.as_slice()) else {
        let answer = error_answer(alloc, id, Code::MethodNotFound, b"Method not found")?;
        return Ok(text_of(answer));
    };
    if changes(method) {
        return Ok(Look::Appends);
    }
    let Some(asking) = read_asking(method, call.params.as_slice()) else {
        let answer = error_answer(alloc, id, Code::InvalidParams, b"Invalid params")?;
        return Ok(text_of(answer));
    };
    let said = asked::<Brand>(alloc, hall, asking, Blank::new(1));
    let answer = look_ended(alloc, hall, id, said)?;
    Ok(text_of(answer))
}

/// The text of the reply to the body of a request that appends nothing, whoever asks and when. `Appends` exactly where the body calls a
/// method that may append.
///
/// # Errors
///
/// `Memory` where none was found.
pub fn look(alloc: Global, hall: &Hall, body: &[u8]) -> Result<Look, Memory>
    ensures { IfOk result (λ l. Looks hall.now body.now l) }
{
    calls_are_whole();
    match read(alloc, body) {
        Ok(call) => before_drop(look_call(alloc, hall, &call), call),
        Err(fault) => {
            let answer = no_call(alloc, &fault)?;
            before_drop(Ok(text_of(answer)), fault)
        }
    }
}
