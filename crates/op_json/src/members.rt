// Objects with exactly some members.
ghost use Rattle.std.specs.Prelude.{◌≡◌, option_map};
ghost use Rattle.serde_json.specs.View.{view};
ghost use Rattle.op_json.specs.Members.{member_count, only_member, two_members, three_members};

use serde_json::Value;

// How many members an object has, and 0 for another value.
fn member_count(value: &Value) -> usize
    ensures { result ≡ member_count (view value.now) }
{
    match value.as_object() {
        Some(members) => members.len(),
        None => 0,
    }
}

// The name and the value of an object's one member.
pub(crate) fn only_member<'v>(value: &'v Value) -> Option<(&'v str, &'v Value)>
    ensures { option_map (λ m. (m.0.now, view m.1.now)) result ≡ only_member (view value.now) }
{
    let mut members = value.as_object()?.iter();
    let (name, inner) = members.next()?;
    match members.next() {
        Some(_) => None,
        None => Some((name.as_str(), inner)),
    }
}

// The values of an object's two members, where they have these names.
pub(crate) fn two_members<'v>(
    value: &'v Value,
    first: &str,
    second: &str,
) -> Option<(&'v Value, &'v Value)>
    ensures { option_map (λ m. (view m.0.now, view m.1.now)) result ≡ two_members first.now second.now (view value.now) }
{
    if member_count(value) != 2 {
        return None;
    }
    let one = value.get(first)?;
    let other = value.get(second)?;
    Some((one, other))
}

/// The values of an object's three members; None exactly where the value is no object with three members of these names.
pub fn three_members<'v>(
    value: &'v Value,
    first: &str,
    second: &str,
    third: &str,
) -> Option<(&'v Value, &'v Value, &'v Value)>
    ensures { option_map (λ m. (view m.0.now, view m.1.now, view m.2.now)) result
        ≡ three_members first.now second.now third.now (view value.now) }
{
    if member_count(value) != 3 {
        return None;
    }
    let one = value.get(first)?;
    let other = value.get(second)?;
    let last = value.get(third)?;
    Some((one, other, last))
}
