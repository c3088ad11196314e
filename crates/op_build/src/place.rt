// Places and ranges of a document.
ghost use Rattle.std.specs.Prelude.{◌≡◌, ◌+◌, ◌-◌, ◌<◌, ◌≤◌, ◌∷◌, length, IfOk, IfErr, OnOk};
ghost use Rattle.change_view.specs.Sets.{from_absent};
ghost use Rattle.op_build.specs.Edits.{left_notes, range};
ghost use Rattle.op_build.specs.Refusals.{CanInsert, IsInsertingRefused, CanAnnotate, IsAnnotatingRefused};

use crate::{BuildFault, Items};
use change_view::ChangeView;
use doc_items::{Item, MAX_COUNT, Memory};
use std::alloc::Global;

/// Refuses where so many items can't be inserted at the place.
pub(crate) fn check_room<D: Items>(document: &D, place: u64, count: u64) -> Result<(), BuildFault>
    ensures can { OnOk result (CanInsert (D.items document.now) place count) }
    ensures refused { IfErr result (λ e. IsInsertingRefused e (D.items document.now) place count) }
{
    let length = document.len();
    if count == 0 {
        return Err(BuildFault::ZeroCount);
    }
    if place > length {
        return Err(BuildFault::OutOfRange);
    }
    if count > MAX_COUNT - length {
        return Err(BuildFault::CountTooLarge);
    }
    Ok(())
}

/// The annotations of the item left of the place, each as absent before.
pub(crate) fn left_changes<D: Items>(
    alloc: Global,
    document: &D,
    place: u64,
) -> Result<ChangeView<'_>, Memory>
    ensures { IfOk result (λ v. v ≡ from_absent (left_notes (D.items document.now) place)) }
{
    if place == 0 {
        return Ok(ChangeView::empty(alloc));
    }
    match document.item(place - 1) {
        Some(item) => ChangeView::of_map(alloc, &item.notes),
        None => Ok(ChangeView::empty(alloc)),
    }
}

/// Refuses where a range has no items, or isn't in the document.
pub(crate) fn check_range<D: Items>(document: &D, from: u64, count: u64) -> Result<(), BuildFault>
    ensures can { OnOk result (CanAnnotate (D.items document.now) from count) }
    ensures refused { IfErr result (λ e. IsAnnotatingRefused e (D.items document.now) from count) }
{
    let length = document.len();
    if count == 0 {
        return Err(BuildFault::ZeroCount);
    }
    if from > length || count > length - from {
        return Err(BuildFault::OutOfRange);
    }
    Ok(())
}

/// The first item of a range.
pub(crate) fn first_of<D: Items>(document: &D, from: u64, count: u64) -> &Item
    requires some { 0 < count }
    requires inside { from + count ≤ length (D.items document.now) }
    ensures { range (D.items document.now) from count ≡ result.now ∷ range (D.items document.now) (from + 1) (count - 1) }
{
    match document.item(from) {
        Some(item) => item,
        None => unreachable!(),
    }
}
