// Each member of a message left out, doubled, of another type or out of range, and a member more.
use crate::Fault;
use crate::messages::written;
use doc_items::Memory;
use serde_json::Value;
use std::alloc::Global;
use test_disk_rows::put;
use wave_messages::MAX_PEER;

// No member of a message has such a value. The last one is one more than the greatest number.
const OTHERS: [&str; 5] = ["null", "true", "{}", "-1", "9007199254740992"];

fn value_of(alloc: Global, text: &str) -> Result<Value, Fault> {
    match Value::from_str(alloc, text) {
        Ok(value) => Ok(value),
        Err(_) => Err(Fault::BadRow),
    }
}

// The names of an object's members.
fn names(alloc: Global, text: &str) -> Result<Vec<String>, Fault> {
    let mut names = Vec::new(alloc);
    let value = value_of(alloc, text)?;
    if let Some(members) = value.as_object() {
        for (name, _) in members.iter() {
            names.push(name.clone()?)?;
        }
    }
    Ok(names)
}

// The object with a member more, in front of the others.
fn with_first(alloc: Global, text: &str, name: &str, value: &str) -> Result<String, Memory> {
    let rest = text.strip_prefix('{').unwrap_or(text);
    format!(in alloc; "{{\"{name}\":{value},{rest}")
}

// The object with a member more, after the others.
fn with_last(alloc: Global, text: &str, name: &str, value: &str) -> Result<String, Memory> {
    let rest = text.strip_suffix('}').unwrap_or(text);
    format!(in alloc; "{rest},\"{name}\":{value}}}")
}

// The object without one of its members.
fn without(alloc: Global, text: &str, name: &str) -> Result<String, Fault> {
    let mut value = value_of(alloc, text)?;
    if let Some(members) = value.as_object_mut() {
        members.remove(name);
    }
    Ok(value.to_string(alloc)?)
}

fn is_none(alloc: Global, text: &str) -> Result<bool, Fault> {
    let found = written(alloc, text.as_bytes(), MAX_PEER)?;
    Ok(found.as_str() == "bad NotMessage")
}

fn is_same(alloc: Global, text: &str, wanted: &str) -> Result<bool, Fault> {
    let found = written(alloc, text.as_bytes(), MAX_PEER)?;
    Ok(found.as_str() == wanted)
}

fn is_needed(alloc: Global, text: &str, name: &str) -> Result<bool, Fault> {
    let less = without(alloc, text, name)?;
    is_none(alloc, less.as_str())
}

fn is_none_with(alloc: Global, text: &str, name: &str, value: &str) -> Result<bool, Fault> {
    let other = with_last(alloc, text, name, value)?;
    is_none(alloc, other.as_str())
}

// Whether other values of the member make no message.
fn is_bound(alloc: Global, text: &str, name: &str) -> Result<bool, Fault> {
    for value in OTHERS.as_slice() {
        if !is_none_with(alloc, text, name, value)? {
            return Ok(false);
        }
    }
    Ok(true)
}

// Whether of a member that stands twice the last one counts.
fn may_be_twice(alloc: Global, text: &str, name: &str) -> Result<bool, Fault> {
    let twice = with_first(alloc, text, name, "null")?;
    is_same(alloc, twice.as_str(), text)
}

fn is_sound(alloc: Global, text: &str, name: &str) -> Result<bool, Fault> {
    Ok(
        is_needed(alloc, text, name)?
            && is_bound(alloc, text, name)?
            && may_be_twice(alloc, text, name)?,
    )
}

// The first member that isn't needed, or has another value, or doesn't count the last time.
fn first_loose(alloc: Global, text: &str, names: &[String]) -> Result<Option<usize>, Fault> {
    for (place, name) in names.iter().enumerate() {
        if !is_sound(alloc, text, name.as_str())? {
            return Ok(Some(place));
        }
    }
    Ok(None)
}

fn verdict(alloc: Global, text: &str) -> Result<&'static str, Fault> {
    if !is_same(alloc, text, text)? {
        return Ok("another");
    }
    let names = names(alloc, text)?;
    if first_loose(alloc, text, names.as_slice())?.is_some() {
        return Ok("loose");
    }
    Ok(if is_none_with(alloc, text, "more", "1")? {
        "itself"
    } else {
        "open"
    })
}

/// `message TEXT`: `itself` where it is a message that is written as it stands, each member is needed, none has another value, of two of
/// one name the last counts, and there is no member more.
pub(crate) fn message(alloc: Global, text: &str, out: &mut String) -> Result<(), Fault> {
    Ok(put(out, verdict(alloc, text)?)?)
}
