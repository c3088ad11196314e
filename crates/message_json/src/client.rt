// Messages from a client, read.
ghost use Rattle.std.specs.Prelude.{◌≡◌, IfOk};
ghost use Rattle.serde_json.specs.View.{view};
ghost use Rattle.message_json.specs.Read.{hello_of, open_head_of, open_at_of, open_of, submit_of, close_of};

use crate::Message;
use crate::serial::{serial_of, wavelet_of};
use doc_items::Memory;
use json_fields::{has_members, text_at, version_at};
use serde_json::Value;
use std::alloc::Global;
use wavelet_json::ops_at;

/// A `hello`.
pub fn hello_of(alloc: Global, value: &Value) -> Result<Option<Message>, Memory>
    ensures { IfOk result (λ message. message ≡ hello_of (view value.now)) }
{
    if !has_members(value, 2) {
        return Ok(None);
    }
    let Some(user) = text_at(alloc, value, "user")? else {
        return Ok(None);
    };
    Ok(Some(Message::Hello { user }))
}

/// An `open` without a version.
pub fn open_head_of(alloc: Global, value: &Value) -> Result<Option<Message>, Memory>
    ensures { IfOk result (λ message. message ≡ open_head_of (view value.now)) }
{
    let Some(name) = wavelet_of(alloc, value)? else {
        return Ok(None);
    };
    Ok(Some(Message::OpenWavelet { name, at: None }))
}

/// An `open` with a version.
pub fn open_at_of(alloc: Global, value: &Value) -> Result<Option<Message>, Memory>
    ensures { IfOk result (λ message. message ≡ open_at_of (view value.now)) }
{
    let Some(name) = wavelet_of(alloc, value)? else {
        return Ok(None);
    };
    let Some(from) = version_at(alloc, value)? else {
        return Ok(None);
    };
    Ok(Some(Message::OpenWavelet {
        name,
        at: Some(from),
    }))
}

/// An `open`.
pub fn open_of(alloc: Global, value: &Value) -> Result<Option<Message>, Memory>
    ensures { IfOk result (λ message. message ≡ open_of (view value.now)) }
{
    if has_members(value, 2) {
        return open_head_of(alloc, value);
    }
    if has_members(value, 4) {
        return open_at_of(alloc, value);
    }
    Ok(None)
}

/// A `submit`.
pub fn submit_of(alloc: Global, value: &Value) -> Result<Option<Message>, Memory>
    ensures { IfOk result (λ message. message ≡ submit_of (view value.now)) }
{
    if !has_members(value, 7) {
        return Ok(None);
    }
    let Some(name) = wavelet_of(alloc, value)? else {
        return Ok(None);
    };
    let Some((client, number)) = serial_of(value) else {
        return Ok(None);
    };
    let Some(from) = version_at(alloc, value)? else {
        return Ok(None);
    };
    let Some(ops) = ops_at(alloc, value, "operations")? else {
        return Ok(None);
    };
    Ok(Some(Message::Submit {
        name,
        client,
        number,
        at: from,
        ops,
    }))
}

/// A `close`.
pub fn close_of(alloc: Global, value: &Value) -> Result<Option<Message>, Memory>
    ensures { IfOk result (λ message. message ≡ close_of (view value.now)) }
{
    if !has_members(value, 2) {
        return Ok(None);
    }
    let Some(name) = wavelet_of(alloc, value)? else {
        return Ok(None);
    };
    Ok(Some(Message::CloseWavelet { name }))
}
