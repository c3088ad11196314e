// Messages between domains, read.
ghost use Rattle.std.specs.Prelude.{◌≡◌, IfOk};
ghost use Rattle.serde_json.specs.View.{view};
ghost use Rattle.message_json.specs.Read.{peer_of, have_of, relay_of, applied_of, relayed_of, dropped_of};

use crate::Message;
use crate::serial::wavelet_of;
use doc_items::Memory;
use json_fields::{domain_at, has_members, id_at, version_at};
use serde_json::Value;
use std::alloc::Global;
use wavelet_json::{answer_at, delta_at, ops_at};
use wavelet_op::Submission;

/// A `peer`.
pub fn peer_of(alloc: Global, value: &Value) -> Result<Option<Message>, Memory>
    ensures { IfOk result (λ message. message ≡ peer_of (view value.now)) }
{
    if !has_members(value, 2) {
        return Ok(None);
    }
    let Some(domain) = domain_at(alloc, value, "domain")? else {
        return Ok(None);
    };
    Ok(Some(Message::Peer { domain }))
}

/// A `have`.
pub fn have_of(alloc: Global, value: &Value) -> Result<Option<Message>, Memory>
    ensures { IfOk result (λ message. message ≡ have_of (view value.now)) }
{
    if !has_members(value, 4) {
        return Ok(None);
    }
    let Some(name) = wavelet_of(alloc, value)? else {
        return Ok(None);
    };
    let Some(from) = version_at(alloc, value)? else {
        return Ok(None);
    };
    Ok(Some(Message::Have { name, at: from }))
}

/// A `relay`.
pub fn relay_of(alloc: Global, value: &Value) -> Result<Option<Message>, Memory>
    ensures { IfOk result (λ message. message ≡ relay_of (view value.now)) }
{
    if !has_members(value, 8) {
        return Ok(None);
    }
    let Some(name) = wavelet_of(alloc, value)? else {
        return Ok(None);
    };
    let Some(id) = id_at(alloc, value)? else {
        return Ok(None);
    };
    let Some(from) = version_at(alloc, value)? else {
        return Ok(None);
    };
    let Some(ops) = ops_at(alloc, value, "operations")? else {
        return Ok(None);
    };
    let submission = Submission { id, at: from, ops };
    Ok(Some(Message::Relay { name, submission }))
}

/// An `applied`.
pub fn applied_of(alloc: Global, value: &Value) -> Result<Option<Message>, Memory>
    ensures { IfOk result (λ message. message ≡ applied_of (view value.now)) }
{
    if !has_members(value, 5) {
        return Ok(None);
    }
    let Some(name) = wavelet_of(alloc, value)? else {
        return Ok(None);
    };
    let Some(delta) = delta_at(alloc, value)? else {
        return Ok(None);
    };
    Ok(Some(Message::Applied { name, delta }))
}

/// A `relayed`.
pub fn relayed_of(alloc: Global, value: &Value) -> Result<Option<Message>, Memory>
    ensures { IfOk result (λ message. message ≡ relayed_of (view value.now)) }
{
    if !has_members(value, 6) {
        return Ok(None);
    }
    let Some(name) = wavelet_of(alloc, value)? else {
        return Ok(None);
    };
    let Some(id) = id_at(alloc, value)? else {
        return Ok(None);
    };
    let Some(verdict) = answer_at(alloc, value, "verdict")? else {
        return Ok(None);
    };
    Ok(Some(Message::Relayed { name, id, verdict }))
}

/// A `dropped`.
pub fn dropped_of(alloc: Global, value: &Value) -> Result<Option<Message>, Memory>
    ensures { IfOk result (λ message. message ≡ dropped_of (view value.now)) }
{
    if !has_members(value, 2) {
        return Ok(None);
    }
    let Some(name) = wavelet_of(alloc, value)? else {
        return Ok(None);
    };
    Ok(Some(Message::Dropped { name }))
}
