//! What a value that is a body's JSON asks.

ghost use Rattle.std.specs.Prelude.{◌≡◌, IfOk, option_map, true, codes};
ghost use Rattle.serde_json.specs.Find.{get};
ghost use Rattle.serde_json.specs.View.{view};
ghost use Rattle.cts_rpc.specs.Requests.{can_be_id, is_version, is_text, are_params, is_id, is_request, are_refused, asked, items_in, text_of, Says, IsTaken};

use crate::call::{Call, RpcFault};
use crate::fraction::any_fraction;
use cts_base::{Bytes, List, Memory};
use serde_json::Value;
use std::alloc::Global;

fn can_be_id(value: &Value) -> bool
    ensures { result ≡ can_be_id (view value.now) }
{
    match value {
        Value::Null | Value::String(_) => true,
        Value::Number(n) => !n.is_f64(),
        Value::Bool(_) | Value::Array(_) | Value::Object(_) => false,
    }
}

fn is_version(member: Option<&Value>) -> bool
    ensures { result ≡ is_version (option_map (λ v. view v.now) member.entry) }
{
    match member {
        Some(Value::String(text)) => text.as_str() == "2.0",
        _ => false,
    }
}

fn is_text(member: Option<&Value>) -> bool
    ensures { result ≡ is_text (option_map (λ v. view v.now) member.entry) }
{
    matches!(member, Some(Value::String(_)))
}

fn are_params(member: Option<&Value>) -> bool
    ensures { result ≡ are_params (option_map (λ v. view v.now) member.entry) }
{
    matches!(
        member,
        None | Some(Value::Array(_)) | Some(Value::Object(_))
    )
}

fn is_id(member: Option<&Value>) -> bool
    ensures { result ≡ is_id (option_map (λ v. view v.now) member.entry) }
{
    match member {
        Some(value) => can_be_id(value),
        None => true,
    }
}

// Whether a value is a request.
fn is_request(value: &Value) -> bool
    ensures { result ≡ is_request (view value.now) }
{
    is_version(value.get("jsonrpc"))
        && is_text(value.get("method"))
        && are_params(value.get("params"))
        && is_id(value.get("id"))
}

fn copied(id: Option<&Value>) -> Result<Option<Value>, Memory>
    ensures { IfOk result (λ o. option_map view o ≡ option_map (λ v. view v.now) id.entry) }
{
    match id {
        Some(value) => Ok(Some(value.clone()?)),
        None => Ok(None),
    }
}

fn method_of(alloc: Global, member: Option<&Value>) -> Result<Bytes, Memory>
    ensures { IfOk result (λ b. b ≡ text_of (option_map (λ v. view v.now) member.entry)) }
{
    match member {
        Some(Value::String(text)) => Bytes::copy(alloc, text.as_bytes()),
        _ => Ok(Bytes::of(Vec::new(alloc))),
    }
}

// The params, where they are none or in order and without a number that has a fraction.
fn accepted(alloc: Global, params: Option<Value>) -> Option<List<Value>>
    ensures { IsTaken result (option_map view params) }
{
    match params {
        None => Some(List::new(alloc)),
        Some(Value::Array(items)) => {
            if any_fraction(&items) {
                None
            } else {
                Some(List::of(items))
            }
        }
        Some(Value::Object(_)) => None,
        Some(_) => Some(List::new(alloc)),
    }
}

/// What a value asks.
pub(crate) fn request(alloc: Global, value: Value) -> Result<Call, RpcFault>
    ensures { Says result (asked (view value)) }
{
    let mut value = value;
    if !is_request(&value) {
        return Err(RpcFault::InvalidRequest);
    }
    let id = copied(value.get("id"))?;
    let method = method_of(alloc, value.get("method"))?;
    let params = match value.get_mut("params") {
        Some(member) => Some(member.take()),
        None => None,
    };
    match accepted(alloc, params) {
        Some(params) => Ok(Call { method, params, id }),
        None => Err(RpcFault::InvalidParams { id }),
    }
}
