// A message, by its kind.
ghost use Rattle.std.specs.Prelude.{◌≡◌, IfOk};
ghost use Rattle.serde_json.specs.View.{view};
ghost use Rattle.message_json.specs.Read.{between_named, to_client_named, message_named, message_of};

use crate::Message;
use crate::between::{applied_of, dropped_of, have_of, peer_of, relay_of, relayed_of};
use crate::client::{close_of, hello_of, open_of, submit_of};
use crate::server::{
    ack_of, bad_of, closed_of, opened_of, queued_of, refused_of, snapshot_of, unopened_of,
    update_of, welcome_of,
};
use doc_items::Memory;
use json_fields::str_at;
use serde_json::Value;
use std::alloc::Global;

fn between_named(alloc: Global, kind: &str, value: &Value) -> Result<Option<Message>, Memory>
    ensures { IfOk result (λ message. message ≡ between_named kind.now (view value.now)) }
{
    match kind {
        "peer" => peer_of(alloc, value),
        "have" => have_of(alloc, value),
        "relay" => relay_of(alloc, value),
        "applied" => applied_of(alloc, value),
        "relayed" => relayed_of(alloc, value),
        "dropped" => dropped_of(alloc, value),
        _ => Ok(None),
    }
}

fn to_client_named(alloc: Global, kind: &str, value: &Value) -> Result<Option<Message>, Memory>
    ensures { IfOk result (λ message. message ≡ to_client_named kind.now (view value.now)) }
{
    match kind {
        "welcome" => welcome_of(alloc, value),
        "opened" => opened_of(alloc, value),
        "snapshot" => snapshot_of(alloc, value),
        "unopened" => unopened_of(alloc, value),
        "ack" => ack_of(alloc, value),
        "refused" => refused_of(alloc, value),
        "queued" => queued_of(alloc, value),
        "update" => update_of(alloc, value),
        "closed" => closed_of(alloc, value),
        "bad" => bad_of(alloc, value),
        _ => between_named(alloc, kind, value),
    }
}

fn message_named(alloc: Global, kind: &str, value: &Value) -> Result<Option<Message>, Memory>
    ensures { IfOk result (λ message. message ≡ message_named kind.now (view value.now)) }
{
    match kind {
        "hello" => hello_of(alloc, value),
        "open" => open_of(alloc, value),
        "submit" => submit_of(alloc, value),
        "close" => close_of(alloc, value),
        _ => to_client_named(alloc, kind, value),
    }
}

/// The message that a value is; None exactly where it is none of the table: no object, of no kind, with a member that its kind
/// hasn't or without one that it has, with a text outside its grammar or a number out of range. The error is want of memory.
pub fn message_of(alloc: Global, value: &Value) -> Result<Option<Message>, Memory>
    ensures { IfOk result (λ message. message ≡ message_of (view value.now)) }
{
    match str_at(value, "type") {
        Some(kind) => message_named(alloc, kind, value),
        None => Ok(None),
    }
}
