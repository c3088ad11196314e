// One attribute of an element.
ghost use Rattle.std.specs.Prelude.{◌≡◌, ◌≢◌, ◌+◌, ◌-◌, ◌<◌, ◌≤◌, ◌∷◌, [], IfOk, IfErr, OnOk};
ghost use Rattle.std.specs.Option.{option_copied};
ghost use Rattle.doc_items.specs.Changes.{IsAscending, change_set, none_running};
ghost use Rattle.doc_items.specs.Limits.{max_count};
ghost use Rattle.doc_op.specs.Actions.{Keep, Update, actions};
ghost use Rattle.doc_op.specs.Normal.{normal_form};
ghost use Rattle.op_build.specs.Edits.{attributes_of, attributes_at, with_attribute};
ghost use Rattle.op_build.specs.Plans.{around, setting_attribute, IsEdit};
ghost use Rattle.op_build.specs.Refusals.{CanSet, IsSettingRefused};

use crate::one_change::one_change;
use crate::passage::{begun, ended};
use crate::{BuildFault, Items};
use change_view::ChangeView;
use doc_items::{Attributes, Changes, Content, Memory};
use doc_op::DocOp;
use std::alloc::Global;

/// The operation that sets one attribute of the element that starts at a place, or takes it away; its other attributes stay. It
/// is an update also where the value is there already. Refusal: `OutOfRange` where no element starts at the place.
pub fn set_attribute<D: Items>(
    alloc: Global,
    document: &D,
    place: u64,
    key: &str,
    value: Option<&str>,
) -> Result<DocOp, BuildFault>
    ensures edit { IfOk result (λ op. IsEdit op (setting_attribute (D.items document.now) place key.now (option_copied value.entry))
        (D.items document.now) (with_attribute (D.items document.now) place key.now (option_copied value.entry))) }
    ensures can { OnOk result (CanSet (D.items document.now) place) }
    ensures refused { IfErr result (λ e. IsSettingRefused e (D.items document.now) place) }
{
    let Some(attributes) = attributes_at(document, place) else {
        return Err(BuildFault::OutOfRange);
    };
    let changes = one_change(alloc, key, attributes.get(key), value)?;
    let op = updated(alloc, document.len(), place, &changes)?;
    Ok(op)
}

// The attributes of the element that starts at the place; None where none does.
fn attributes_at<D: Items>(document: &D, place: u64) -> Option<&Attributes>
    ensures { option_copied result ≡ attributes_at (D.items document.now) place }
{
    match document.item(place) {
        Some(item) => attributes_of(&item.content),
        None => None,
    }
}

fn attributes_of(content: &Content) -> Option<&Attributes>
    ensures { option_copied result ≡ attributes_of content.now }
{
    match content {
        Content::Character(_) => None,
        Content::Start {
            kind: _,
            attributes,
        } => Some(attributes),
        Content::End => None,
    }
}

// The operation that updates the element's start in a document of so many items.
fn updated(alloc: Global, total: u64, place: u64, changes: &Changes) -> Result<DocOp, Memory>
    requires place { place < total }
    requires room { total ≤ max_count }
    requires ascending { IsAscending changes.now }
    requires some { change_set changes.now ≢ none_running }
    ensures acts { IfOk result
        (λ op. actions op ≡ around place (Keep none_running (Update (change_set changes.now)) ∷ []) (total - (place + 1))) }
    ensures normal { IfOk result (λ op. op ≡ normal_form (actions op)) }
{
    let none = ChangeView::empty(alloc);
    let view = ChangeView::of(alloc, changes)?;
    let mut out = begun(alloc, place)?;
    out.update(alloc, &none, &view)?;
    ended(alloc, out, total - (place + 1))
}
