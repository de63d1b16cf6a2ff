//! The texts of responses.

ghost use Rattle.std.specs.Prelude.{◌≡◌, ◌≢◌, IfOk, None, OnErr, option_map};
ghost use Rattle.cts_rpc.specs.Replies.{result_reply};
ghost use Rattle.serde_json.specs.View.{view};
ghost use Rattle.cts_api.specs.Replies.{error, IsTextFor, respond};
ghost use Rattle.cts_api.specs.Responding.{code_number, IsTold, RefusesWith};

use crate::refusal::Refusal;
use cts_base::{Bytes, Memory};
use cts_rpc::{error_text, result_text};
use serde_json::Value;
use std::alloc::Global;

/// The codes of errors: those of JSON-RPC 2.0, and this server's own.
#[derive(Clone, Copy)]
pub(crate) enum Code {
    /// The body is no JSON.
    ParseError,
    /// The JSON is no request.
    InvalidRequest,
    /// There is no such method.
    MethodNotFound,
    /// The params have not the count or the kinds of the method, or a text asks for no command.
    InvalidParams,
    /// A name is unknown, or nothing stands under it yet.
    NoSuch,
    /// What is asked for cannot be done.
    NotDone,
    /// The history has no room for the entry.
    HistoryFull,
}

impl Code {
    fn number(self) -> i64
        ensures { result ≡ code_number self }
    {
        match self {
            Code::ParseError => -32700,
            Code::InvalidRequest => -32600,
            Code::MethodNotFound => -32601,
            Code::InvalidParams => -32602,
            Code::NoSuch => -32001,
            Code::NotDone => -32002,
            Code::HistoryFull => -32003,
        }
    }
}

/// The response with a result; none where the request has no id.
pub(crate) fn result_to(
    alloc: Global,
    id: Option<&Value>,
    value: Value,
) -> Result<Option<Bytes>, Memory>
    ensures text { IfOk result (λ t. IsTextFor (respond (option_map (λ i. view i.now) id.entry) (λ i. result_reply i (view value))) t) }
    ensures memory { OnErr result (option_map (λ i. view i.now) id.entry ≢ None) }
{
    match id {
        Some(id) => Ok(Some(result_text(alloc, id, value)?)),
        None => Ok(None),
    }
}

/// The response with an error; none where the request has no id.
pub(crate) fn error_to(
    alloc: Global,
    id: Option<&Value>,
    code: Code,
    message: &[u8],
) -> Result<Option<Bytes>, Memory>
    ensures text { IfOk result (λ t. IsTextFor (respond (option_map (λ i. view i.now) id.entry) (error (code_number code) message.now)) t) }
    ensures memory { OnErr result (option_map (λ i. view i.now) id.entry ≢ None) }
{
    match id {
        Some(id) => Ok(Some(error_text(alloc, id, code.number(), message)?)),
        None => Ok(None),
    }
}

/// The response to a call that is refused.
pub(crate) fn refusal_to(
    alloc: Global,
    id: Option<&Value>,
    refusal: Refusal,
) -> Result<Option<Bytes>, Memory>
    ensures told { IfOk result (λ t. IsTold refusal) }
    ensures text { IfOk result (λ t. RefusesWith (option_map (λ i. view i.now) id.entry) refusal t) }
{
    match refusal {
        Refusal::NoSuch(message) => error_to(alloc, id, Code::NoSuch, message),
        Refusal::NotDone(message) => error_to(alloc, id, Code::NotDone, message.as_slice()),
        Refusal::BadParams => error_to(alloc, id, Code::InvalidParams, b"Invalid params"),
        Refusal::Memory => Err(Memory),
    }
}
