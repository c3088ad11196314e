// An element at a place.
ghost use Rattle.std.specs.Prelude.{◌≡◌, ◌+◌, ◌-◌, ◌≤◌, ◌∷◌, [], map, IfOk, IfErr, OnOk};
ghost use Rattle.std.specs.Str.{chars};
ghost use Rattle.doc_items.specs.Limits.{max_count};
ghost use Rattle.doc_items.specs.declared.item.Content.TheVariants.{Start, End};
ghost use Rattle.doc_op.specs.Actions.{insertion, actions};
ghost use Rattle.doc_op.specs.Normal.{normal_form};
ghost use Rattle.op_build.specs.Edits.{with_element};
ghost use Rattle.op_build.specs.Plans.{around, adding_element, IsEdit};
ghost use Rattle.op_build.specs.Refusals.{CanInsert, IsInsertingRefused};

use crate::passage::{begun, ended};
use crate::place::{check_room, left_changes};
use crate::{BuildFault, Items};
use change_view::ChangeView;
use doc_items::{Attributes, Memory, Text};
use doc_op::{ContentRun, DocOp};
use std::alloc::Global;

/// The operation that inserts an element's start and its end at a place, both with the annotations of the item left of it, or
/// none at place 0. Refusals, in this order: `OutOfRange` where the place is after the last item, `CountTooLarge` where the
/// items and these two exceed `MAX_COUNT`.
pub fn insert_element<D: Items>(
    alloc: Global,
    document: &D,
    place: u64,
    kind: &str,
    attributes: &Attributes,
) -> Result<DocOp, BuildFault>
    ensures edit { IfOk result (λ op. IsEdit op (adding_element (D.items document.now) place (chars kind.now) attributes.now)
        (D.items document.now) (with_element (D.items document.now) place (chars kind.now) attributes.now)) }
    ensures can { OnOk result (CanInsert (D.items document.now) place 2) }
    ensures refused { IfErr result (λ e. IsInsertingRefused e (D.items document.now) place 2) }
{
    check_room(document, place, 2)?;
    let kind = Text::from_str(alloc, kind)?;
    let notes = left_changes(alloc, document, place)?;
    let op = inserted_element(alloc, document.len(), place, &kind, attributes, &notes)?;
    Ok(op)
}

// The operation that inserts the element in a document of so many items.
fn inserted_element(
    alloc: Global,
    total: u64,
    place: u64,
    kind: &Text,
    attributes: &Attributes,
    notes: &ChangeView<'_>,
) -> Result<DocOp, Memory>
    requires place { place ≤ total }
    requires room { total + 2 ≤ max_count }
    ensures acts { IfOk result
        (λ op. actions op ≡ around place (map (insertion notes.now) (Start kind.now attributes.now ∷ End ∷ [])) (total - place)) }
    ensures normal { IfOk result (λ op. op ≡ normal_form (actions op)) }
{
    let mut out = begun(alloc, place)?;
    out.insert(alloc, ContentRun::Start { kind, attributes }, notes)?;
    out.insert(alloc, ContentRun::End, notes)?;
    ended(alloc, out, total - place)
}
