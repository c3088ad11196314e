// The members of an object, and the numbers and texts that stand there.
ghost use Rattle.std.specs.Prelude.{◌≡◌, ◌≤◌, IfOk, IfSome, option_map};
ghost use Rattle.serde_json.specs.Find.{as_str};
ghost use Rattle.serde_json.specs.View.{view};
ghost use Rattle.doc_items.specs.Limits.{max_count};
ghost use Rattle.op_json.specs.Members.{member_count};
ghost use Rattle.op_json.specs.Read.{whole_number, text_of};
ghost use Rattle.json_fields.specs.Read.{has_members, in_member, within, count_of};

use doc_items::{MAX_COUNT, Memory, Text};
use serde_json::Value;
use std::alloc::Global;

// How many members an object has, and 0 for another value.
fn member_count(value: &Value) -> usize
    ensures { result ≡ member_count (view value.now) }
{
    match value.as_object() {
        Some(members) => members.len(),
        None => 0,
    }
}

/// Whether the value is an object of this many members.
pub fn has_members(value: &Value, count: usize) -> bool
    ensures { result ≡ has_members count (view value.now) }
{
    member_count(value) == count
}

/// The text in the member of this name; None exactly where the value is no object, has no such member, or what stands there is no
/// text.
pub fn str_at<'v>(value: &'v Value, name: &str) -> Option<&'v str>
    ensures { option_map (λ text. text.now) result ≡ in_member as_str name.now (view value.now) }
{
    value.get(name)?.as_str()
}

/// The text in the member of this name, copied. The error is want of memory.
pub fn text_at(alloc: Global, value: &Value, name: &str) -> Result<Option<Text>, Memory>
    ensures { IfOk result (λ text. text ≡ in_member text_of name.now (view value.now)) }
{
    match str_at(value, name) {
        Some(text) => Ok(Some(Text::from_str(alloc, text)?)),
        None => Ok(None),
    }
}

/// The number in the member of this name; None exactly where none stands there that is whole, written as digits alone, and at most
/// `bound`.
pub fn number_at(value: &Value, name: &str, bound: u64) -> Option<u64>
    ensures value { result ≡ in_member (λ d. within bound (whole_number d)) name.now (view value.now) }
    ensures bound { IfSome result (λ n. n ≤ bound) }
{
    let number = value.get(name)?.as_u64()?;
    if number <= bound { Some(number) } else { None }
}

/// The count in the member of this name, which is at most 2^53 - 1; None exactly where none stands there.
pub fn count_at(value: &Value, name: &str) -> Option<u64>
    ensures value { result ≡ in_member count_of name.now (view value.now) }
    ensures bound { IfSome result (λ n. n ≤ max_count) }
{
    number_at(value, name, MAX_COUNT)
}
