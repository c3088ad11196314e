// What is written.
ghost use Rattle.std.specs.Prelude.{◌≡◌, Some, IfOk, OnOk};
ghost use Rattle.serde_json.specs.Data.{string, put as put_data};
ghost use Rattle.serde_json.specs.View.{view, members_view};
ghost use Rattle.json_fields.specs.Read.{bytes_of, hash_of};
ghost use Rattle.json_fields.specs.Write.{bytes_data, count_data};

use base64::engine::general_purpose::STANDARD;
use doc_items::Memory;
use serde_json::{Map, Value, put};
use std::alloc::Global;

/// The text as a JSON string. The error is want of memory, here and below.
pub fn string_value(alloc: Global, text: &str) -> Result<Value, Memory>
    ensures { IfOk result (λ v. view v ≡ string text.now) }
{
    Ok(Value::String(String::from_str(alloc, text)?))
}

/// The bytes in base64, as they are read.
#[tactic(auto, unfolding(base64::specs::GeneralPurpose::decoded_of))]
pub fn bytes_value(alloc: Global, bytes: &[u8]) -> Result<Value, Memory>
    ensures value { IfOk result (λ v. view v ≡ bytes_data bytes.now) }
    ensures back { IfOk result (λ v. bytes_of (bytes_data bytes.now) ≡ Some bytes.now) }
{
    Ok(Value::String(STANDARD.encode(alloc, bytes)?))
}

/// The hash in base64, as it is read.
pub fn hash_value(alloc: Global, hash: &[u8; 32]) -> Result<Value, Memory>
    ensures value { IfOk result (λ v. view v ≡ bytes_data hash.now) }
    ensures back { IfOk result (λ v. hash_of (bytes_data hash.now) ≡ Some hash.now) }
{
    bytes_value(alloc, hash.as_slice())
}

/// Puts a number under this name among an object's members. After want of memory, here and below, the members are as they were or
/// have this one.
pub fn put_count(
    alloc: Global,
    members: &mut Map<String, Value>,
    name: &str,
    count: u64,
) -> Result<(), Memory>
    ensures { OnOk result (members_view members.new.entries ≡ put_data name.now (count_data count) (members_view members.old.entries)) }
{
    put(members, alloc, name, Value::from(count))
}

/// Puts a text under this name.
pub fn put_text(
    alloc: Global,
    members: &mut Map<String, Value>,
    name: &str,
    text: &str,
) -> Result<(), Memory>
    ensures { OnOk result (members_view members.new.entries ≡ put_data name.now (string text.now) (members_view members.old.entries)) }
{
    let text = string_value(alloc, text)?;
    put(members, alloc, name, text)
}
