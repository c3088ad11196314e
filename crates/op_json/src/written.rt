// What the members of components hold, as JSON.
ghost use Rattle.std.specs.Prelude.{◌≡◌, Some, IfOk};
ghost use Rattle.op_json.specs.Back.{IsReadBack, AreReadBack};
ghost use Rattle.op_json.specs.Read.{text_of, optional_text_of, change_of, boundary_of, element_of};
ghost use Rattle.serde_json.specs.Data.{string};
ghost use Rattle.serde_json.specs.View.{view};
ghost use Rattle.op_json.specs.Write.{text_data, optional_data, entry_data, attributes_data, change_data, list_data, boundary_data, element_data, replaced_data};

use doc_items::{Attributes, Boundary, Change, Memory, Text};
use serde_json::{Value, json};
use std::alloc::Global;

fn string_value(alloc: Global, text: &str) -> Result<Value, Memory>
    ensures { IfOk result (λ v. view v ≡ string text.now) }
{
    Ok(Value::String(String::from_str(alloc, text)?))
}

pub fn text_value(alloc: Global, text: &Text) -> Result<Value, Memory>
    ensures value { IfOk result (λ v. view v ≡ text_data text.now) }
    ensures back { IfOk result (λ v. IsReadBack text_of text_data text.now) }
{
    string_value(alloc, text.as_str())
}

#[tactic(auto, using(crate::proofs::Back::optional_back))]
fn optional_value(alloc: Global, text: &Option<Text>) -> Result<Value, Memory>
    ensures value { IfOk result (λ v. view v ≡ optional_data text.now) }
    ensures back { IfOk result (λ v. IsReadBack optional_text_of optional_data text.now) }
{
    match text {
        Some(text) => text_value(alloc, text),
        None => Ok(Value::Null),
    }
}

fn entry_value(alloc: Global, key: &str, text: &str) -> Result<Value, Memory>
    ensures { IfOk result (λ v. view v ≡ entry_data (key.now, text.now)) }
{
    let key = string_value(alloc, key)?;
    let text = string_value(alloc, text)?;
    json!(in alloc; {"key": key, "value": text})
}

fn attributes_value(alloc: Global, attributes: &Attributes) -> Result<Value, Memory>
    ensures { IfOk result (λ v. view v ≡ attributes_data attributes.now) }
{
    let mut list = Vec::new(alloc);
    for (key, text) in attributes.iter() {
        list.push(entry_value(alloc, key.as_str(), text.as_str())?)?;
    }
    Ok(Value::Array(list))
}

#[tactic(auto, using(crate::proofs::Back::change_back))]
fn change_value(alloc: Global, change: &Change) -> Result<Value, Memory>
    ensures value { IfOk result (λ v. view v ≡ change_data change.now) }
    ensures back { IfOk result (λ v. IsReadBack change_of change_data change.now) }
{
    let key = text_value(alloc, &change.key)?;
    let new = optional_value(alloc, &change.new)?;
    let old = optional_value(alloc, &change.old)?;
    json!(in alloc; {"key": key, "new": new, "old": old})
}

pub fn changes_value(alloc: Global, changes: &[Change]) -> Result<Value, Memory>
    ensures value { IfOk result (λ v. view v ≡ list_data change_data changes.now) }
    ensures back { IfOk result (λ v. AreReadBack change_of change_data changes.now) }
{
    let mut list = Vec::with_capacity(alloc, changes.len())?;
    for change in changes {
        list.push(change_value(alloc, change)?)?;
    }
    Ok(Value::Array(list))
}

fn keys_value(alloc: Global, keys: &[Text]) -> Result<Value, Memory>
    ensures value { IfOk result (λ v. view v ≡ list_data text_data keys.now) }
    ensures back { IfOk result (λ v. AreReadBack text_of text_data keys.now) }
{
    let mut list = Vec::with_capacity(alloc, keys.len())?;
    for key in keys {
        list.push(text_value(alloc, key)?)?;
    }
    Ok(Value::Array(list))
}

#[tactic(auto, using(crate::proofs::Back::boundary_back))]
pub fn boundary_value(alloc: Global, boundary: &Boundary) -> Result<Value, Memory>
    ensures value { IfOk result (λ v. view v ≡ boundary_data boundary.now) }
    ensures back { IfOk result (λ v. IsReadBack boundary_of boundary_data boundary.now) }
{
    let change = changes_value(alloc, boundary.change.as_slice())?;
    let end = keys_value(alloc, boundary.end.as_slice())?;
    json!(in alloc; {"change": change, "end": end})
}

#[tactic(auto, using(crate::proofs::Back::element_back))]
pub fn element_value(alloc: Global, kind: &Text, attributes: &Attributes) -> Result<Value, Memory>
    ensures value { IfOk result (λ v. view v ≡ element_data kind.now attributes.now) }
    ensures back { IfOk result (λ v. element_of (element_data kind.now attributes.now) ≡ Some (kind.now, attributes.now)) }
{
    let attribute = attributes_value(alloc, attributes)?;
    let kind = text_value(alloc, kind)?;
    json!(in alloc; {"attribute": attribute, "type": kind})
}

pub fn replaced_value(alloc: Global, old: &Attributes, new: &Attributes) -> Result<Value, Memory>
    ensures { IfOk result (λ v. view v ≡ replaced_data old.now new.now) }
{
    let new = attributes_value(alloc, new)?;
    let old = attributes_value(alloc, old)?;
    json!(in alloc; {"new_attribute": new, "old_attribute": old})
}
