// What components hold, at the front of bytes, and the bytes after it.
ghost use Rattle.std.specs.Prelude.{[], None};
ghost use Rattle.std.specs.FinMap.{empty};
ghost use Rattle.op_codec.specs.Reading.{Gives, text_at, list_of, list_at, attribute_at, attributes_of, attributes_at, change_at, boundary_at, element_at, replaced_at};

use crate::CodecFault;
use crate::number::count_at;
use crate::text::{key_at, optional_at, text_at};
use doc_items::{Attributes, Boundary, Change, Changes, Keys, Text, is_next};
use std::alloc::Global;

// ---- attributes

#[tactic(auto, unfolding(crate::specs::Reading::attribute_at))]
fn attribute_at(bytes: &[u8]) -> Result<((&str, &str), &[u8]), CodecFault>
    ensures { Gives (λ r. ((r.0.0.now, r.0.1.now), r.1.now)) result (attribute_at bytes.now) }
{
    let (key, rest) = key_at(bytes)?;
    let (value, rest) = key_at(rest)?;
    Ok(((key, value), rest))
}

#[tactic(auto, using(crate::proofs::Loops::attributes_go_on, crate::proofs::Loops::attributes_fall, crate::proofs::Loops::attributes_break, crate::proofs::Loops::attributes_end))]
fn attributes_of(alloc: Global, count: u32, bytes: &[u8]) -> Result<(Attributes, &[u8]), CodecFault>
    ensures { Gives (λ r. (r.0, r.1.now)) result (attributes_of empty None count bytes.now) }
{
    let mut attributes = Attributes::new(alloc);
    let mut last: Option<&str> = None;
    let mut rest = bytes;
    let mut left = count;
    while left > 0 {
        let ((key, value), behind) = attribute_at(rest)?;
        if !is_next(last, key) {
            return Err(CodecFault::BadBytes);
        }
        attributes.set(alloc, key, Some(value))?;
        last = Some(key);
        rest = behind;
        left -= 1;
    }
    Ok((attributes, rest))
}

#[tactic(auto, unfolding(crate::specs::Reading::attributes_at))]
fn attributes_at(alloc: Global, bytes: &[u8]) -> Result<(Attributes, &[u8]), CodecFault>
    ensures { Gives (λ r. (r.0, r.1.now)) result (attributes_at bytes.now) }
{
    let (count, rest) = count_at(bytes)?;
    attributes_of(alloc, count, rest)
}

/// An element's type and attributes.
#[tactic(auto, unfolding(crate::specs::Reading::element_at))]
pub(crate) fn element_at(
    alloc: Global,
    bytes: &[u8],
) -> Result<((Text, Attributes), &[u8]), CodecFault>
    ensures { Gives (λ r. (r.0, r.1.now)) result (element_at bytes.now) }
{
    let (kind, rest) = text_at(alloc, bytes)?;
    let (attributes, rest) = attributes_at(alloc, rest)?;
    Ok(((kind, attributes), rest))
}

/// Old attributes and new ones.
#[tactic(auto, unfolding(crate::specs::Reading::replaced_at))]
pub(crate) fn replaced_at(
    alloc: Global,
    bytes: &[u8],
) -> Result<((Attributes, Attributes), &[u8]), CodecFault>
    ensures { Gives (λ r. (r.0, r.1.now)) result (replaced_at bytes.now) }
{
    let (old, rest) = attributes_at(alloc, bytes)?;
    let (new, rest) = attributes_at(alloc, rest)?;
    Ok(((old, new), rest))
}

// ---- changes

#[tactic(auto, unfolding(crate::specs::Reading::change_at))]
fn change_at(alloc: Global, bytes: &[u8]) -> Result<(Change, &[u8]), CodecFault>
    ensures { Gives (λ r. (r.0, r.1.now)) result (change_at bytes.now) }
{
    let (key, rest) = text_at(alloc, bytes)?;
    let (old, rest) = optional_at(alloc, rest)?;
    let (new, rest) = optional_at(alloc, rest)?;
    Ok((Change { key, old, new }, rest))
}

#[tactic(auto, using(crate::proofs::Loops::list_goes_on, crate::proofs::Loops::list_breaks, crate::proofs::Loops::list_ends))]
fn changes_of(alloc: Global, count: u32, bytes: &[u8]) -> Result<(Vec<Change>, &[u8]), CodecFault>
    ensures { Gives (λ r. (r.0.items, r.1.now)) result (list_of change_at [] count bytes.now) }
{
    let mut changes = Vec::new(alloc);
    let mut rest = bytes;
    let mut left = count;
    while left > 0 {
        let (change, behind) = change_at(alloc, rest)?;
        changes.push(change)?;
        rest = behind;
        left -= 1;
    }
    Ok((changes, rest))
}

#[tactic(auto, unfolding(crate::specs::Reading::list_at))]
pub(crate) fn changes_at(alloc: Global, bytes: &[u8]) -> Result<(Changes, &[u8]), CodecFault>
    ensures { Gives (λ r. (r.0, r.1.now)) result (list_at change_at bytes.now) }
{
    let (count, rest) = count_at(bytes)?;
    let (changes, rest) = changes_of(alloc, count, rest)?;
    Ok((Changes::from_vec(changes), rest))
}

// ---- boundaries

#[tactic(auto, using(crate::proofs::Loops::list_goes_on, crate::proofs::Loops::list_breaks, crate::proofs::Loops::list_ends))]
fn keys_of(alloc: Global, count: u32, bytes: &[u8]) -> Result<(Vec<Text>, &[u8]), CodecFault>
    ensures { Gives (λ r. (r.0.items, r.1.now)) result (list_of text_at [] count bytes.now) }
{
    let mut keys = Vec::new(alloc);
    let mut rest = bytes;
    let mut left = count;
    while left > 0 {
        let (key, behind) = text_at(alloc, rest)?;
        keys.push(key)?;
        rest = behind;
        left -= 1;
    }
    Ok((keys, rest))
}

#[tactic(auto, unfolding(crate::specs::Reading::list_at))]
fn keys_at(alloc: Global, bytes: &[u8]) -> Result<(Keys, &[u8]), CodecFault>
    ensures { Gives (λ r. (r.0, r.1.now)) result (list_at text_at bytes.now) }
{
    let (count, rest) = count_at(bytes)?;
    let (keys, rest) = keys_of(alloc, count, rest)?;
    Ok((Keys::from_vec(keys), rest))
}

/// The keys that end and the changes of a boundary.
#[tactic(auto, unfolding(crate::specs::Reading::boundary_at))]
pub(crate) fn boundary_at(alloc: Global, bytes: &[u8]) -> Result<(Boundary, &[u8]), CodecFault>
    ensures { Gives (λ r. (r.0, r.1.now)) result (boundary_at bytes.now) }
{
    let (end, rest) = keys_at(alloc, bytes)?;
    let (change, rest) = changes_at(alloc, rest)?;
    Ok((Boundary { end, change }, rest))
}
