// Messages to a client, read.
ghost use Rattle.std.specs.Prelude.{◌≡◌, IfOk};
ghost use Rattle.serde_json.specs.View.{view};
ghost use Rattle.message_json.specs.Read.{welcome_of, opened_of, snapshot_of, unopened_of, ack_of, refused_of, queued_of, update_of, closed_of, bad_of};

use crate::Message;
use crate::serial::{serial_of, wavelet_of};
use doc_items::Memory;
use json_fields::{count_at, has_members, id_at, text_at, version_at};
use serde_json::Value;
use snapshot_json::state_in;
use std::alloc::Global;
use wavelet_json::{bad_at, closed_at, normal_ops_at, refusal_in, unopened_in};
use wavelet_op::AppliedDelta;
use wavelet_state::Snapshot;

/// A `welcome`.
pub fn welcome_of(alloc: Global, value: &Value) -> Result<Option<Message>, Memory>
    ensures { IfOk result (λ message. message ≡ welcome_of (view value.now)) }
{
    if !has_members(value, 2) {
        return Ok(None);
    }
    let Some(user) = text_at(alloc, value, "user")? else {
        return Ok(None);
    };
    Ok(Some(Message::Welcome { user }))
}

/// An `opened`.
pub fn opened_of(alloc: Global, value: &Value) -> Result<Option<Message>, Memory>
    ensures { IfOk result (λ message. message ≡ opened_of (view value.now)) }
{
    if !has_members(value, 3) {
        return Ok(None);
    }
    let Some(name) = wavelet_of(alloc, value)? else {
        return Ok(None);
    };
    let Some(version) = count_at(value, "version") else {
        return Ok(None);
    };
    Ok(Some(Message::Opened { name, version }))
}

/// A `snapshot`.
pub fn snapshot_of(alloc: Global, value: &Value) -> Result<Option<Message>, Memory>
    ensures { IfOk result (λ message. message ≡ snapshot_of (view value.now)) }
{
    if !has_members(value, 7) {
        return Ok(None);
    }
    let Some(name) = wavelet_of(alloc, value)? else {
        return Ok(None);
    };
    let Some(from) = version_at(alloc, value)? else {
        return Ok(None);
    };
    let Some(inserted) = count_at(value, "inserted") else {
        return Ok(None);
    };
    let Some(state) = state_in(alloc, value)? else {
        return Ok(None);
    };
    Ok(Snapshot::new(name, from, inserted, state).map(Message::Snapshot))
}

/// An `unopened`.
pub fn unopened_of(alloc: Global, value: &Value) -> Result<Option<Message>, Memory>
    ensures { IfOk result (λ message. message ≡ unopened_of (view value.now)) }
{
    let Some(name) = wavelet_of(alloc, value)? else {
        return Ok(None);
    };
    let Some(reason) = unopened_in(alloc, value)? else {
        return Ok(None);
    };
    Ok(Some(Message::Unopened { name, reason }))
}

/// An `ack`.
pub fn ack_of(alloc: Global, value: &Value) -> Result<Option<Message>, Memory>
    ensures { IfOk result (λ message. message ≡ ack_of (view value.now)) }
{
    if !has_members(value, 7) {
        return Ok(None);
    }
    let Some(name) = wavelet_of(alloc, value)? else {
        return Ok(None);
    };
    let Some((client, number)) = serial_of(value) else {
        return Ok(None);
    };
    let Some(place) = count_at(value, "at") else {
        return Ok(None);
    };
    let Some(to) = version_at(alloc, value)? else {
        return Ok(None);
    };
    Ok(Some(Message::Ack {
        name,
        client,
        number,
        at: place,
        to,
    }))
}

/// A `refused`.
pub fn refused_of(alloc: Global, value: &Value) -> Result<Option<Message>, Memory>
    ensures { IfOk result (λ message. message ≡ refused_of (view value.now)) }
{
    let Some(name) = wavelet_of(alloc, value)? else {
        return Ok(None);
    };
    let Some((client, number)) = serial_of(value) else {
        return Ok(None);
    };
    let Some(verdict) = refusal_in(alloc, value, 4)? else {
        return Ok(None);
    };
    Ok(Some(Message::Refused {
        name,
        client,
        number,
        verdict,
    }))
}

/// A `queued`.
pub fn queued_of(alloc: Global, value: &Value) -> Result<Option<Message>, Memory>
    ensures { IfOk result (λ message. message ≡ queued_of (view value.now)) }
{
    if !has_members(value, 4) {
        return Ok(None);
    }
    let Some(name) = wavelet_of(alloc, value)? else {
        return Ok(None);
    };
    let Some((client, number)) = serial_of(value) else {
        return Ok(None);
    };
    Ok(Some(Message::Queued {
        name,
        client,
        number,
    }))
}

/// An `update`.
pub fn update_of(alloc: Global, value: &Value) -> Result<Option<Message>, Memory>
    ensures { IfOk result (λ message. message ≡ update_of (view value.now)) }
{
    if !has_members(value, 9) {
        return Ok(None);
    }
    let Some(name) = wavelet_of(alloc, value)? else {
        return Ok(None);
    };
    let Some(id) = id_at(alloc, value)? else {
        return Ok(None);
    };
    let Some(from) = version_at(alloc, value)? else {
        return Ok(None);
    };
    let Some(time) = count_at(value, "time") else {
        return Ok(None);
    };
    let Some(ops) = normal_ops_at(alloc, value, "operations")? else {
        return Ok(None);
    };
    let delta = AppliedDelta {
        id,
        from,
        time,
        ops,
    };
    Ok(Some(Message::Update { name, delta }))
}

/// A `closed`.
pub fn closed_of(alloc: Global, value: &Value) -> Result<Option<Message>, Memory>
    ensures { IfOk result (λ message. message ≡ closed_of (view value.now)) }
{
    if !has_members(value, 3) {
        return Ok(None);
    }
    let Some(name) = wavelet_of(alloc, value)? else {
        return Ok(None);
    };
    let Some(reason) = closed_at(value, "reason") else {
        return Ok(None);
    };
    Ok(Some(Message::Closed { name, reason }))
}

/// A `bad`.
pub fn bad_of(alloc: Global, value: &Value) -> Result<Option<Message>, Memory>
    ensures { IfOk result (λ message. message ≡ bad_of (view value.now)) }
{
    if !has_members(value, 2) {
        return Ok(None);
    }
    let Some(reason) = bad_at(value, "reason") else {
        return Ok(None);
    };
    Ok(Some(Message::Bad(reason)))
}
