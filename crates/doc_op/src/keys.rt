// The keys of a boundary or an update that a builder refuses.
ghost use Rattle.std.specs.Prelude.{◌≡◌, List, ℕ, None, IfOk};
ghost use Rattle.std.specs.Option.{option_copied};
ghost use Rattle.std.specs.Str.{encode_utf8_all};
ghost use Rattle.doc_items.specs.Changes.{ChangeSet, ascends, is_named};
ghost use Rattle.doc_op.specs.Refusals.{bad_end, bad_change, bad_key};
ghost use Rattle.doc_op.specs.Running.{on_at, Follows};

use crate::Component;
use crate::running::RunningKeys;
use doc_items::{Boundary, Change, Memory, Text};
use std::alloc::Global;

/// The first key of a component that doesn't ascend in its list, that ends without running, or that ends and changes.
pub(crate) fn bad_key<'a>(
    alloc: Global,
    running: &RunningKeys,
    component: &'a Component,
) -> Result<Option<&'a Text>, Memory>
    ensures { IfOk result (λ key. (u : ChangeSet) → Follows u running.now → option_copied key ≡ bad_key u component.now) }
{
    match component {
        Component::UpdateAttributes(changes) => {
            let ended = RunningKeys::new(alloc);
            Ok(bad_change(&ended, changes.as_slice()))
        }
        Component::AnnotationBoundary(boundary) => bad_key_of_boundary(alloc, running, boundary),
        Component::Retain(_) => Ok(None),
        Component::Characters(_) => Ok(None),
        Component::ElementStart { .. } => Ok(None),
        Component::ElementEnd => Ok(None),
        Component::DeleteCharacters(_) => Ok(None),
        Component::DeleteElementStart { .. } => Ok(None),
        Component::DeleteElementEnd => Ok(None),
        Component::ReplaceAttributes { .. } => Ok(None),
    }
}

fn bad_key_of_boundary<'a>(
    alloc: Global,
    running: &RunningKeys,
    boundary: &'a Boundary,
) -> Result<Option<&'a Text>, Memory>
    ensures { IfOk result (λ key. (u : ChangeSet) → Follows u running.now
        → option_copied key ≡ bad_key u (Component.AnnotationBoundary boundary.now)) }
{
    if let Some(key) = bad_end(running, boundary.end.as_slice()) {
        return Ok(Some(key));
    }
    let ended = ended_keys(alloc, boundary.end.as_slice())?;
    Ok(bad_change(&ended, boundary.change.as_slice()))
}

// The first key that doesn't ascend, or that doesn't run.
fn bad_end<'a>(running: &RunningKeys, ends: &'a [Text]) -> Option<&'a Text>
    ensures { (u : ChangeSet) → Follows u running.now → option_copied result ≡ bad_end u None ends.now }
{
    let mut last: Option<&Text> = None;
    for key in ends {
        if !ascends(last, key) || !running.runs(key.as_str()) {
            return Some(key);
        }
        last = Some(key);
    }
    None
}

// The first key that doesn't ascend, or that has ended.
fn bad_change<'a>(ended: &RunningKeys, changes: &'a [Change]) -> Option<&'a Text>
    ensures { (ends : List (List ℕ)) → ((k : List ℕ) → on_at ended.now (encode_utf8_all k) ≡ is_named ends k)
        → option_copied result ≡ bad_change ends None changes.now }
{
    let mut last: Option<&Text> = None;
    for change in changes {
        if !ascends(last, &change.key) || ended.runs(change.key.as_str()) {
            return Some(&change.key);
        }
        last = Some(&change.key);
    }
    None
}

fn ended_keys(alloc: Global, ends: &[Text]) -> Result<RunningKeys, Memory>
    ensures { IfOk result (λ ended. (k : List ℕ) → on_at ended (encode_utf8_all k) ≡ is_named ends.now k) }
{
    let mut ended = RunningKeys::new(alloc);
    for key in ends {
        ended.insert(alloc, key.as_str())?;
    }
    Ok(ended)
}

// Whether the key is the first of its list, or comes after the last in byte order.
fn ascends(last: Option<&Text>, key: &Text) -> bool
    ensures { result ≡ ascends (option_copied last.entry) key.now }
{
    match last {
        Some(last) => last.as_str() < key.as_str(),
        None => true,
    }
}
