//! The texts of responses.

ghost use Rattle.std.specs.Prelude.{◌≡◌, IfOk};
ghost use Rattle.std.specs.Str.Lossy.{utf8_lossy};
ghost use Rattle.serde_json.specs.View.{view};
ghost use Rattle.cts_rpc.specs.Replies.{IsTextOf, result_reply, error_reply};

use cts_base::{Bytes, Memory};
use serde_json::{Value, json};
use std::alloc::{AllocError, Global};

fn result_value(alloc: Global, id: &Value, value: Value) -> Result<Value, AllocError>
    ensures reply { IfOk result (λ v. view v ≡ result_reply (view id.now) (view value)) }
{
    json!(in alloc; {"id": id, "jsonrpc": "2.0", "result": value})
}

// The text of a value.
fn text_of(alloc: Global, value: &Value) -> Result<Bytes, Memory>
    ensures { IfOk result (λ b. IsTextOf b (view value.now)) }
{
    Ok(Bytes::of(value.to_vec(alloc)?))
}

/// The text of a response with a result (JSON-RPC 2.0, section 5): compact, with its members in order of name. It reads back as the
/// response, also where the id or the result has numbers with a fraction. `Memory` where none was found for it.
pub fn result_text(alloc: Global, id: &Value, value: Value) -> Result<Bytes, Memory>
    ensures text { IfOk result (λ b. IsTextOf b (result_reply (view id.now) (view value))) }
{
    let reply = result_value(alloc, id, value)?;
    text_of(alloc, &reply)
}

fn error_value(alloc: Global, id: &Value, code: i64, message: &str) -> Result<Value, AllocError>
    ensures reply { IfOk result (λ v. view v ≡ error_reply (view id.now) code message.now) }
{
    json!(in alloc; {"error": {"code": code, "message": message}, "id": id, "jsonrpc": "2.0"})
}

/// The text of a response with an error (JSON-RPC 2.0, section 5.1): compact, with its members in order of name. It reads back as the
/// response, also where the id has numbers with a fraction. What is no UTF-8 in the message is replaced, and what is stays as it is.
/// `Memory` where none was found for it.
pub fn error_text(alloc: Global, id: &Value, code: i64, message: &[u8]) -> Result<Bytes, Memory>
    ensures text { IfOk result (λ b. IsTextOf b (error_reply (view id.now) code (utf8_lossy message.now))) }
{
    let message = String::from_utf8_lossy(alloc, message)?;
    let reply = error_value(alloc, id, code, message.as_str())?;
    text_of(alloc, &reply)
}
