//! A body, read.

ghost use Rattle.std.specs.Prelude.{ℕ, List};
ghost use Rattle.cts_rpc.specs.Requests.{Outcome, IsOutcome, IsTrueOf, Says};

use crate::call::{Call, RpcFault};
use crate::request::request;
use serde_json::Value;
use std::alloc::Global;

/// What a body asks.
///
/// # Errors
///
/// Exactly as [`RpcFault`] says, in its order; params are refused before the method is looked at. Only want of memory is
/// not told by the body.
pub fn read(alloc: Global, body: &[u8]) -> Result<Call, RpcFault>
    // What the answer says is so.
    ensures so { IsTrueOf body.now result }

    // It says what is so, unless memory ran out: so each fault comes exactly where the body has it.
    ensures exact { (o : Outcome) → IsOutcome body.now o → Says result o }
{
    match Value::from_slice(alloc, body) {
        Ok(value) => request(alloc, value),
        Err(error) => Err(if error.is_memory() {
            RpcFault::Memory
        } else {
            RpcFault::ParseError
        }),
    }
}
