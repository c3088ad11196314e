// Bytes and hashes, as base64.
ghost use Rattle.std.specs.Prelude.{◌≡◌, Some, IfOk, IfSome, option_map};
ghost use Rattle.base64.specs.Engines.{standard};
ghost use Rattle.base64.specs.GeneralPurpose.{encode_of, decoded_of};
ghost use Rattle.serde_json.specs.Find.{get, as_str};
ghost use Rattle.serde_json.specs.View.{view};
ghost use Rattle.json_fields.specs.Read.{in_member, bytes_of, hash_of};
ghost use Rattle.json_fields.specs.Write.{bytes_data};

use crate::members::str_at;
use base64::DecodeAllocError;
use base64::engine::general_purpose::STANDARD;
use doc_items::Memory;
use serde_json::Value;
use std::alloc::{AllocError, Global};

// The bytes whose base64 the text is.
#[tactic(auto, unfolding(base64::specs::GeneralPurpose::decoded_of))]
fn decoded(alloc: Global, text: &str) -> Result<Option<Vec<u8>>, Memory>
    ensures value { IfOk result (λ o. option_map (λ b. b.items) o ≡ decoded_of standard text.now) }
    ensures only { IfOk result (λ o. IfSome o (λ b. text.now ≡ encode_of standard b.items)) }
{
    match STANDARD.decode(alloc, text.as_bytes()) {
        Ok(bytes) => Ok(Some(bytes)),
        Err(DecodeAllocError::OutOfMemory) => Err(AllocError),
        Err(DecodeAllocError::DecodeError(_)) => Ok(None),
    }
}

/// The bytes whose base64 stands in the member of this name; None exactly where none stands there. Each list of bytes has one
/// spelling that is read, the one that is written. The error is want of memory.
pub fn bytes_at(alloc: Global, value: &Value, name: &str) -> Result<Option<Vec<u8>>, Memory>
    ensures value { IfOk result (λ o. option_map (λ b. b.items) o ≡ in_member bytes_of name.now (view value.now)) }
    ensures only { IfOk result (λ o. IfSome o (λ b. in_member as_str name.now (view value.now) ≡ Some (encode_of standard b.items))) }
{
    match str_at(value, name) {
        Some(text) => decoded(alloc, text),
        None => Ok(None),
    }
}

/// The hash in the member of this name, 32 bytes in base64; None exactly where none stands there. Each hash has one spelling that
/// is read. The error is want of memory.
pub fn hash_at(alloc: Global, value: &Value, name: &str) -> Result<Option<[u8; 32]>, Memory>
    ensures value { IfOk result (λ hash. hash ≡ in_member hash_of name.now (view value.now)) }
    ensures only { IfOk result (λ o. IfSome o (λ hash. in_member as_str name.now (view value.now) ≡ Some (encode_of standard hash))) }
{
    let Some(bytes) = bytes_at(alloc, value, name)? else {
        return Ok(None);
    };
    if bytes.len() != 32 {
        return Ok(None);
    }
    let mut hash = [0u8; 32];
    hash.copy_from_slice(bytes.as_slice());
    Ok(Some(hash))
}
