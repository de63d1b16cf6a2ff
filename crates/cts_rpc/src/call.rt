//! What a body asks, and why it asks nothing.

ghost use Rattle.std.specs.Prelude.{◌≡◌};
ghost use Rattle.cts_rpc.specs.declared.call.RpcFault.TheVariants.{Memory as NoMemory};

use cts_base::{Bytes, List, Memory};
use serde_json::Value;

/// A call (JSON-RPC 2.0, section 4).
#[derive(Drop)]
pub struct Call {
    /// The name of the method, which may be none that there is.
    pub method: Bytes,
    /// The params in their order, none where the body has none. No number in them has a fraction or an exponent.
    pub params: List<Value>,
    /// The id of the response: a text, a whole number or null. Without one no response is wanted.
    pub id: Option<Value>,
}

/// Why a body is no call (JSON-RPC 2.0, section 5.1).
#[derive(Drop)]
pub enum RpcFault {
    /// The body is no JSON: code -32700. The id of its response is null.
    ParseError,
    /// The JSON is no request: code -32600. It is no object, its `jsonrpc` is not `"2.0"`, its `method` is no text, its
    /// `params` are neither an array nor an object nor absent, or its `id` is no text, whole number or null. The id of its
    /// response is null.
    InvalidRequest,
    /// The params are an object, or have a number with a fraction or an exponent anywhere: code -32602. Without an id no
    /// response is wanted.
    InvalidParams {
        /// The id of the response.
        id: Option<Value>,
    },
    /// No memory was found.
    Memory,
}

impl From<Memory> for RpcFault {
    ghost from_gives = { λ _ e. e ≡ NoMemory };

    fn from(_: Memory) -> RpcFault {
        RpcFault::Memory
    }
}
