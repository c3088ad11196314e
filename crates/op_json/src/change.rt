// Changes, and the boundaries where they begin and end.
ghost use Rattle.std.specs.Prelude.{◌≡◌, [], IfOk, option_map};
ghost use Rattle.serde_json.specs.View.{view, items_view};
ghost use Rattle.op_json.specs.Read.{text_of, list_from, change_of, changes_of, keys_of, boundary_of};

use crate::members::{three_members, two_members};
use crate::scalar::{optional_text_of, text_of};
use doc_items::{Boundary, Change, Changes, Keys, Memory};
use serde_json::Value;
use std::alloc::Global;

fn change_of(alloc: Global, value: &Value) -> Result<Option<Change>, Memory>
    ensures { IfOk result (λ change. change ≡ change_of (view value.now)) }
{
    let Some((key, new, old)) = three_members(value, "key", "new", "old") else {
        return Ok(None);
    };
    let Some(key) = text_of(alloc, key)? else {
        return Ok(None);
    };
    let Some(old) = optional_text_of(alloc, old)? else {
        return Ok(None);
    };
    let Some(new) = optional_text_of(alloc, new)? else {
        return Ok(None);
    };
    Ok(Some(Change { key, old, new }))
}

// The changes that a value is.
pub fn changes_of(alloc: Global, value: &Value) -> Result<Option<Changes>, Memory>
    ensures { IfOk result (λ changes. changes ≡ changes_of (view value.now)) }
{
    match value.as_array() {
        Some(list) => changes_in(alloc, list.as_slice()),
        None => Ok(None),
    }
}

fn changes_in(alloc: Global, list: &[Value]) -> Result<Option<Changes>, Memory>
    ensures { IfOk result (λ changes. changes ≡ list_from change_of [] (items_view list.now)) }
{
    let mut changes = Vec::with_capacity(alloc, list.len())?;
    for value in list {
        let Some(change) = change_of(alloc, value)? else {
            return Ok(None);
        };
        changes.push(change)?;
    }
    Ok(Some(Changes::from_vec(changes)))
}

fn keys_of(alloc: Global, value: &Value) -> Result<Option<Keys>, Memory>
    ensures { IfOk result (λ keys. keys ≡ keys_of (view value.now)) }
{
    match value.as_array() {
        Some(list) => keys_in(alloc, list.as_slice()),
        None => Ok(None),
    }
}

fn keys_in(alloc: Global, list: &[Value]) -> Result<Option<Keys>, Memory>
    ensures { IfOk result (λ keys. keys ≡ list_from text_of [] (items_view list.now)) }
{
    let mut keys = Vec::with_capacity(alloc, list.len())?;
    for value in list {
        let Some(key) = text_of(alloc, value)? else {
            return Ok(None);
        };
        keys.push(key)?;
    }
    Ok(Some(Keys::from_vec(keys)))
}

// The boundary that a value is.
pub fn boundary_of(alloc: Global, value: &Value) -> Result<Option<Boundary>, Memory>
    ensures { IfOk result (λ boundary. boundary ≡ boundary_of (view value.now)) }
{
    let Some((change, end)) = two_members(value, "change", "end") else {
        return Ok(None);
    };
    let Some(end) = keys_of(alloc, end)? else {
        return Ok(None);
    };
    let Some(change) = changes_of(alloc, change)? else {
        return Ok(None);
    };
    Ok(Some(Boundary { end, change }))
}
