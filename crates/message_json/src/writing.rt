// A message, written.
ghost use Rattle.std.specs.Prelude.{◌≡◌, IfOk};
ghost use Rattle.serde_json.specs.View.{view};
ghost use Rattle.message_json.specs.Back.{IsReadBack, InRange};
ghost use Rattle.message_json.specs.Write.{message_data, IsShort};

use crate::Message;
use crate::between_value::{applied_value, have_value, peer_value, relay_value, relayed_value};
use crate::client_value::{hello_value, named_value, open_at_value, submit_value, welcome_value};
use crate::server_value::{
    ack_value, bad_value, closed_value, opened_value, queued_value, snapshot_value, unopened_value,
    update_value, verdict_value,
};
use doc_items::Memory;
use serde_json::Value;
use std::alloc::Global;

/// The message as a value. What is written is read as the same message, where the numbers that the types don't bound are in range.
/// The error is want of memory.
#[tactic(auto, using(crate::proofs::Back::open_back, crate::proofs::Back::close_back, crate::proofs::Back::dropped_back))]
pub fn message_value(alloc: Global, message: &Message) -> Result<Value, Memory>
    requires { IsShort message.now }
    ensures value { IfOk result (λ v. view v ≡ message_data message.now) }
    ensures back { IfOk result (λ _. InRange message.now → IsReadBack message.now) }
{
    match message {
        Message::Hello { user } => hello_value(alloc, user),
        Message::OpenWavelet { name, at: None } => named_value(alloc, "open", name),
        Message::OpenWavelet {
            name,
            at: Some(from),
        } => open_at_value(alloc, name, from),
        Message::Submit {
            name,
            client,
            number,
            at,
            ops,
        } => { submit_value(alloc, name, *client, *number, at, ops) }
        Message::CloseWavelet { name } => named_value(alloc, "close", name),
        Message::Welcome { user } => welcome_value(alloc, user),
        Message::Opened { name, version } => opened_value(alloc, name, *version),
        Message::Snapshot(snapshot) => snapshot_value(alloc, snapshot),
        Message::Unopened { name, reason } => unopened_value(alloc, name, reason),
        Message::Ack {
            name,
            client,
            number,
            at,
            to,
        } => { ack_value(alloc, name, (*client, *number), *at, *to) }
        Message::Refused {
            name,
            client,
            number,
            verdict,
        } => { verdict_value(alloc, name, *client, *number, verdict) }
        Message::Queued {
            name,
            client,
            number,
        } => queued_value(alloc, name, *client, *number),
        Message::Update { name, delta } => update_value(alloc, name, delta),
        Message::Closed { name, reason } => closed_value(alloc, name, *reason),
        Message::Bad(reason) => bad_value(alloc, *reason),
        Message::Peer { domain } => peer_value(alloc, domain),
        Message::Have { name, at } => have_value(alloc, name, at),
        Message::Relay { name, submission } => relay_value(alloc, name, submission),
        Message::Applied { name, delta } => applied_value(alloc, name, delta),
        Message::Relayed { name, id, verdict } => relayed_value(alloc, name, id, verdict),
        Message::Dropped { name } => named_value(alloc, "dropped", name),
    }
}
