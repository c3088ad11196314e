// Attributes, read from lists of keys and values.
ghost use Rattle.std.specs.Prelude.{◌≡◌, IfOk, None, option_map};
ghost use Rattle.std.specs.Option.{option_copied};
ghost use Rattle.std.specs.FinMap.{empty};
ghost use Rattle.serde_json.specs.View.{view, items_view};
ghost use Rattle.op_json.specs.Read.{entry_of, attributes_from, attributes_of, element_of, replaced_of};

use crate::members::two_members;
use crate::scalar::text_of;
use doc_items::{Attributes, Memory, Text, is_next};
use serde_json::Value;
use std::alloc::Global;

// The key and the value of an entry.
fn entry_of(value: &Value) -> Option<(&str, &str)>
    ensures { option_map (λ e. (e.0.now, e.1.now)) result ≡ entry_of (view value.now) }
{
    let (key, text) = two_members(value, "key", "value")?;
    let key = key.as_str()?;
    let text = text.as_str()?;
    Some((key, text))
}

// The attributes that a value is.
pub fn attributes_of(alloc: Global, value: &Value) -> Result<Option<Attributes>, Memory>
    ensures { IfOk result (λ attributes. attributes ≡ attributes_of (view value.now)) }
{
    match value.as_array() {
        Some(list) => attributes_in(alloc, list.as_slice()),
        None => Ok(None),
    }
}

fn attributes_in(alloc: Global, list: &[Value]) -> Result<Option<Attributes>, Memory>
    ensures { IfOk result (λ attributes. attributes ≡ attributes_from empty None (items_view list.now)) }
{
    let mut attributes = Attributes::new(alloc);
    let mut last: Option<&str> = None;
    for value in list {
        let Some((key, text)) = entry_of(value) else {
            return Ok(None);
        };
        if !is_next(last, key) {
            return Ok(None);
        }
        attributes.set(alloc, key, Some(text))?;
        last = Some(key);
    }
    Ok(Some(attributes))
}

// The type and the attributes of an element's start.
pub fn element_of(alloc: Global, value: &Value) -> Result<Option<(Text, Attributes)>, Memory>
    ensures { IfOk result (λ element. element ≡ element_of (view value.now)) }
{
    let Some((attributes, kind)) = two_members(value, "attribute", "type") else {
        return Ok(None);
    };
    let Some(kind) = text_of(alloc, kind)? else {
        return Ok(None);
    };
    let Some(attributes) = attributes_of(alloc, attributes)? else {
        return Ok(None);
    };
    Ok(Some((kind, attributes)))
}

// The old attributes and the new ones.
pub fn replaced_of(alloc: Global, value: &Value) -> Result<Option<(Attributes, Attributes)>, Memory>
    ensures { IfOk result (λ replaced. replaced ≡ replaced_of (view value.now)) }
{
    let Some((new, old)) = two_members(value, "new_attribute", "old_attribute") else {
        return Ok(None);
    };
    let Some(old) = attributes_of(alloc, old)? else {
        return Ok(None);
    };
    let Some(new) = attributes_of(alloc, new)? else {
        return Ok(None);
    };
    Ok(Some((old, new)))
}
