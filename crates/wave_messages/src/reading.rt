// A message, read from bytes.
ghost use Rattle.std.specs.Prelude.{◌≡◌, Ok, Err, IfOk, IfErr, option_map};
ghost use Rattle.serde_json.specs.View.{view};
ghost use Rattle.wave_messages.specs.declared.fault.Kind.{Kind};
ghost use Rattle.wave_messages.specs.Read.{is_kind_handed_in, is_handed_in, is_long, too_many, judged, data_of, read_of};

use crate::{Kind, MessageFault};
use doc_items::Memory;
use json_fields::str_at;
use message_json::{Message, message_of};
use serde_json::Value;
use std::alloc::{AllocError, Global};

/// The most bytes of a message from a client, and of a line.
pub const MAX_CLIENT: u64 = 1 << 20;

/// The most bytes of a message to a client, or between domains.
pub const MAX_PEER: u64 = 1 << 24;

fn is_kind_handed_in(kind: &str) -> bool
    ensures { result ≡ is_kind_handed_in kind.now }
{
    kind == "submit" || kind == "relay"
}

fn is_handed_in(value: &Value) -> bool
    ensures { result ≡ is_handed_in (view value.now) }
{
    match str_at(value, "type") {
        Some(kind) => is_kind_handed_in(kind),
        None => false,
    }
}

#[tactic(auto, using(crate::proofs::Lengths::long_items))]
fn is_long(value: &Value) -> bool
    ensures { result ≡ is_long (view value.now) }
{
    match value.get("operations").and_then(Value::as_array) {
        Some(list) => list.len() > 1000,
        None => false,
    }
}

/// The message that a value is. Refusals: `TooMany`, then `NotMessage`.
pub(crate) fn judged(alloc: Global, value: &Value) -> Result<Message, MessageFault>
    ensures ok { IfOk result (λ m. judged (view value.now) ≡ Ok m) }
    ensures refused { IfErr result (λ e. (k : Kind) → e ≡ MessageFault.BadMessage k → judged (view value.now) ≡ Err k) }
{
    if is_handed_in(value) && is_long(value) {
        return Err(MessageFault::BadMessage(Kind::TooMany));
    }
    match message_of(alloc, value)? {
        Some(message) => Ok(message),
        None => Err(MessageFault::BadMessage(Kind::NotMessage)),
    }
}

/// The value of a JSON text in UTF-8. The error is want of memory.
#[tactic(auto, using(crate::proofs::Texts::is_data, crate::proofs::Texts::no_data))]
pub(crate) fn data_of(alloc: Global, bytes: &[u8]) -> Result<Option<Value>, Memory>
    ensures { IfOk result (λ v. option_map view v ≡ data_of bytes.now) }
{
    match Value::from_slice(alloc, bytes) {
        Ok(value) => Ok(Some(value)),
        Err(error) => {
            if error.is_memory() {
                Err(AllocError)
            } else {
                Ok(None)
            }
        }
    }
}

/// The message that the bytes are. Refusals, in this order: `TooLong` exactly where they are more than the limit; `NotJson` exactly
/// where they are no JSON in UTF-8, or nested more than 127 deep; `TooMany` exactly where they are a `submit` or a `relay` whose
/// operations are an array of more than 1,000; `NotMessage` exactly where they are otherwise none of the table.
pub fn read(alloc: Global, bytes: &[u8], limit: u64) -> Result<Message, MessageFault>
    ensures ok { IfOk result (λ m. read_of bytes.now limit ≡ Ok m) }
    ensures refused { IfErr result (λ e. (k : Kind) → e ≡ MessageFault.BadMessage k → read_of bytes.now limit ≡ Err k) }
{
    if bytes.len() as u64 > limit {
        return Err(MessageFault::BadMessage(Kind::TooLong));
    }
    match data_of(alloc, bytes)? {
        Some(value) => judged(alloc, &value),
        None => Err(MessageFault::BadMessage(Kind::NotJson)),
    }
}
