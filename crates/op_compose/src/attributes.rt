// Two changes of one element's attributes, one after the other.
ghost use Rattle.std.specs.Prelude.{◌≡◌, ◌<◌, length, replicate, ◌&&◌, ◌++◌, ◌∷◌, [], IfOk, OnOk};
ghost use Rattle.doc_items.specs.Changes.{IsAscending, change_set};
ghost use Rattle.doc_op.specs.Actions.{Keep, Update};
ghost use Rattle.doc_op.specs.Runs.{part_change, IsFitPart};
ghost use Rattle.op_compose.specs.Chains.{follows, attributes_follow, attributes_then};
ghost use Rattle.op_runs.specs.Kept.{kept_change, IsFitKept};
ghost use Rattle.op_runs.specs.Rooms.{HasRoomFor};

use crate::back::{agree_back, put_back};
use change_view::{ChangeView, Rule, Test};
use doc_items::{Changes, Memory};
use doc_op::{AttributePart, NormalBuilder};
use op_runs::{Kept, agree, put, write_kept, write_part};
use std::alloc::Global;

/// Whether items that stay in the first operation can stay in the second, under the running changes `w` and `u`.
pub(crate) fn follow(
    alloc: Global,
    x: Kept<'_>,
    w: &ChangeView<'_>,
    y: Kept<'_>,
    u: &ChangeView<'_>,
) -> Result<bool, Memory>
    requires fit_x { IsFitKept x }
    requires fit_y { IsFitKept y }
    ensures { IfOk result (λ t. t ≡ (follows w.now u.now && attributes_follow (kept_change x.entry.part) (kept_change y.entry.part))) }
{
    let running = w.passes(u, Test::NewIsOld);
    let attributes = attributes_follow(alloc, x, y)?;
    Ok(running && attributes)
}

fn attributes_follow(alloc: Global, x: Kept<'_>, y: Kept<'_>) -> Result<bool, Memory>
    requires fit_x { IsFitKept x }
    requires fit_y { IsFitKept y }
    ensures { IfOk result (λ t. t ≡ attributes_follow (kept_change x.entry.part) (kept_change y.entry.part)) }
{
    match x.part {
        None => Ok(true),
        Some(first) => match y.part {
            None => Ok(true),
            Some(second) => parts_follow(alloc, first, second),
        },
    }
}

fn parts_follow(
    alloc: Global,
    first: AttributePart<'_>,
    second: AttributePart<'_>,
) -> Result<bool, Memory>
    requires fit_first { IsFitPart first }
    requires fit_second { IsFitPart second }
    ensures { IfOk result (λ t. t ≡ attributes_follow (part_change first.entry) (part_change second.entry)) }
{
    match first {
        AttributePart::Update(changes) => follows_update(alloc, changes, second),
        AttributePart::Replace { old: _, new } => Ok(agree(second, new)),
    }
}

fn follows_update(
    alloc: Global,
    changes: &Changes,
    second: AttributePart<'_>,
) -> Result<bool, Memory>
    requires some { 0 < length changes.now }
    requires ascending { IsAscending changes.now }
    requires fit { IsFitPart second }
    ensures { IfOk result (λ t. t ≡ attributes_follow (Update (change_set changes.now)) (part_change second.entry)) }
{
    match second {
        AttributePart::Update(others) => {
            let before = ChangeView::of(alloc, changes)?;
            let behind = ChangeView::of(alloc, others)?;
            Ok(before.passes(&behind, Test::NewIsOld))
        }
        AttributePart::Replace { old, new: _ } => {
            agree_back(alloc, AttributePart::Update(changes), old)
        }
    }
}

/// Writes items that stay in both operations.
pub(crate) fn write_then<'a>(
    out: &mut NormalBuilder,
    alloc: Global,
    running: &ChangeView<'_>,
    x: Kept<'a>,
    y: Kept<'a>,
) -> Result<(), Memory>
    requires fit_x { IsFitKept x }
    requires fit_y { IsFitKept y }
    requires same { x.count ≡ y.count }
    requires room { HasRoomFor out.old x.count }
    ensures { OnOk result (out.new ≡ out.old
        ++ replicate x.entry.count (Keep running.now (attributes_then (kept_change x.entry.part) (kept_change y.entry.part)))) }
{
    match x.part {
        None => write_kept(out, alloc, running, y),
        Some(first) => match y.part {
            None => write_part(out, alloc, running, first),
            Some(second) => write_parts_then(out, alloc, running, first, second),
        },
    }
}

// Writes two changes as one.
fn write_parts_then<'a>(
    out: &mut NormalBuilder,
    alloc: Global,
    running: &ChangeView<'_>,
    first: AttributePart<'a>,
    second: AttributePart<'a>,
) -> Result<(), Memory>
    requires fit_first { IsFitPart first }
    requires fit_second { IsFitPart second }
    requires room { HasRoomFor out.old 1 }
    ensures { OnOk result (out.new ≡ out.old ++ Keep running.now (attributes_then (part_change first.entry) (part_change second.entry))
        ∷ []) }
{
    match first {
        AttributePart::Update(changes) => write_update_then(out, alloc, running, changes, second),
        AttributePart::Replace { old, new } => {
            let end = put(alloc, second, new)?;
            out.replace(alloc, running, old, &end)
        }
    }
}

fn write_update_then<'a>(
    out: &mut NormalBuilder,
    alloc: Global,
    running: &ChangeView<'_>,
    changes: &'a Changes,
    second: AttributePart<'a>,
) -> Result<(), Memory>
    requires some { 0 < length changes.now }
    requires ascending { IsAscending changes.now }
    requires fit { IsFitPart second }
    requires room { HasRoomFor out.old 1 }
    ensures { OnOk result (out.new ≡ out.old
        ++ Keep running.now (attributes_then (Update (change_set changes.now)) (part_change second.entry)) ∷ []) }
{
    match second {
        AttributePart::Update(others) => {
            let before = ChangeView::of(alloc, changes)?;
            let behind = ChangeView::of(alloc, others)?;
            let both = before.merged(alloc, &behind, Rule::Then)?;
            out.update(alloc, running, &both)
        }
        AttributePart::Replace { old, new } => {
            let start = put_back(alloc, AttributePart::Update(changes), old)?;
            out.replace(alloc, running, &start, new)
        }
    }
}
