// Two changes of one element's attributes.
ghost use Rattle.std.specs.Prelude.{◌≡◌, ◌<◌, length, replicate, ◌&&◌, ◌++◌, ◌∷◌, [], IfOk, OnOk};
ghost use Rattle.doc_items.specs.Changes.{IsAscending, change_set};
ghost use Rattle.doc_op.specs.Actions.{Keep, Update};
ghost use Rattle.doc_op.specs.Runs.{part_change, IsFitPart};
ghost use Rattle.op_transform.specs.Crossing.{cross, attributes_cross, attributes_over, attributes_under, update_if_any};
ghost use Rattle.op_runs.specs.Kept.{kept_change, IsFitKept};
ghost use Rattle.op_runs.specs.Rooms.{HasRoomFor};
ghost use Rattle.op_transform.specs.Walks.{HasRoomForOne};

use change_view::{ChangeView, Rule, Test};
use doc_items::{Attributes, Changes, Memory};
use doc_op::{AttributePart, NormalBuilder};
use op_runs::{Kept, agree, put, write_kept, write_part};
use std::alloc::Global;

/// Whether items can stay in both ways, under the running changes `u` and `w`.
pub(crate) fn cross<'a>(
    alloc: Global,
    a: Kept<'_>,
    u: &ChangeView<'a>,
    b: Kept<'_>,
    w: &ChangeView<'a>,
) -> Result<bool, Memory>
    requires fit_a { IsFitKept a }
    requires fit_b { IsFitKept b }
    ensures { IfOk result (λ t. t ≡ (cross u.now w.now && attributes_cross (kept_change a.entry.part) (kept_change b.entry.part))) }
{
    let running = u.passes(w, Test::SameOld);
    let attributes = attributes_cross(alloc, a, b)?;
    Ok(running && attributes)
}

fn attributes_cross(alloc: Global, a: Kept<'_>, b: Kept<'_>) -> Result<bool, Memory>
    requires fit_a { IsFitKept a }
    requires fit_b { IsFitKept b }
    ensures { IfOk result (λ t. t ≡ attributes_cross (kept_change a.entry.part) (kept_change b.entry.part)) }
{
    match a.part {
        None => Ok(true),
        Some(mine) => match b.part {
            None => Ok(true),
            Some(theirs) => parts_cross(alloc, mine, theirs),
        },
    }
}

fn parts_cross(alloc: Global, a: AttributePart<'_>, b: AttributePart<'_>) -> Result<bool, Memory>
    requires fit_a { IsFitPart a }
    requires fit_b { IsFitPart b }
    ensures { IfOk result (λ t. t ≡ attributes_cross (part_change a.entry) (part_change b.entry)) }
{
    match a {
        AttributePart::Update(changes) => update_crosses(alloc, changes, b),
        AttributePart::Replace { old, new: _ } => Ok(agree(b, old)),
    }
}

fn update_crosses(alloc: Global, changes: &Changes, b: AttributePart<'_>) -> Result<bool, Memory>
    requires ascending { IsAscending changes.now }
    requires fit { IsFitPart b }
    ensures { IfOk result (λ t. t ≡ attributes_cross (Update (change_set changes.now)) (part_change b.entry)) }
{
    match b {
        AttributePart::Update(others) => {
            let mine = ChangeView::of(alloc, changes)?;
            let theirs = ChangeView::of(alloc, others)?;
            Ok(mine.passes(&theirs, Test::SameOld))
        }
        AttributePart::Replace { old, new: _ } => Ok(changes.agrees(old)),
    }
}

/// Writes what the later operation keeps, `a`, where the earlier one keeps `b`.
pub(crate) fn write_over<'a>(
    out: &mut NormalBuilder,
    alloc: Global,
    running: &ChangeView<'_>,
    a: Kept<'a>,
    b: Kept<'a>,
) -> Result<(), Memory>
    requires fit_a { IsFitKept a }
    requires fit_b { IsFitKept b }
    requires room { HasRoomFor out.old a.count }
    ensures { OnOk result (out.new ≡ out.old
        ++ replicate a.entry.count (Keep running.now (attributes_over (kept_change a.entry.part) (kept_change b.entry.part)))) }
{
    match a.part {
        None => out.keep(alloc, a.count, running),
        Some(mine) => match b.part {
            None => write_part(out, alloc, running, mine),
            Some(theirs) => write_part_over(out, alloc, running, mine, theirs),
        },
    }
}

// Writes the later change `a` for the element that the earlier change `b` gives.
fn write_part_over<'a>(
    out: &mut NormalBuilder,
    alloc: Global,
    running: &ChangeView<'_>,
    a: AttributePart<'a>,
    b: AttributePart<'a>,
) -> Result<(), Memory>
    requires fit_a { IsFitPart a }
    requires fit_b { IsFitPart b }
    requires room { HasRoomForOne out.old }
    ensures { OnOk result (out.new ≡ out.old ++ Keep running.now (attributes_over (part_change a.entry) (part_change b.entry)) ∷ []) }
{
    match a {
        AttributePart::Update(changes) => write_update_over(out, alloc, running, changes, b),
        AttributePart::Replace { old, new } => {
            let start = put(alloc, b, old)?;
            out.replace(alloc, running, &start, new)
        }
    }
}

fn write_update_over<'a>(
    out: &mut NormalBuilder,
    alloc: Global,
    running: &ChangeView<'_>,
    changes: &'a Changes,
    b: AttributePart<'a>,
) -> Result<(), Memory>
    requires some { 0 < length changes.now }
    requires ascending { IsAscending changes.now }
    requires fit { IsFitPart b }
    requires room { HasRoomForOne out.old }
    ensures { OnOk result (out.new ≡ out.old ++ Keep running.now (attributes_over (Update (change_set changes.now)) (part_change b.entry))
        ∷ []) }
{
    let mine = ChangeView::of(alloc, changes)?;
    match b {
        AttributePart::Update(others) => {
            let theirs = ChangeView::of(alloc, others)?;
            let over = mine.merged(alloc, &theirs, Rule::Over)?;
            out.update(alloc, running, &over)
        }
        AttributePart::Replace { old: _, new } => {
            let over = mine.start_at(alloc, new)?;
            out.update(alloc, running, &over)
        }
    }
}

/// Writes what the earlier operation keeps, `b`, where the later one keeps `a`.
pub(crate) fn write_under<'a>(
    out: &mut NormalBuilder,
    alloc: Global,
    running: &ChangeView<'_>,
    b: Kept<'a>,
    a: Kept<'a>,
) -> Result<(), Memory>
    requires fit_b { IsFitKept b }
    requires fit_a { IsFitKept a }
    requires room { HasRoomFor out.old b.count }
    ensures { OnOk result (out.new ≡ out.old
        ++ replicate b.entry.count (Keep running.now (attributes_under (kept_change b.entry.part) (kept_change a.entry.part)))) }
{
    match a.part {
        None => write_kept(out, alloc, running, b),
        Some(mine) => match b.part {
            None => out.keep(alloc, b.count, running),
            Some(theirs) => write_part_under(out, alloc, running, theirs, mine),
        },
    }
}

// Writes the earlier change `b` for the element that the later change `a` gives.
fn write_part_under<'a>(
    out: &mut NormalBuilder,
    alloc: Global,
    running: &ChangeView<'_>,
    b: AttributePart<'a>,
    a: AttributePart<'a>,
) -> Result<(), Memory>
    requires fit_b { IsFitPart b }
    requires fit_a { IsFitPart a }
    requires room { HasRoomForOne out.old }
    ensures { OnOk result (out.new ≡ out.old ++ Keep running.now (attributes_under (part_change b.entry) (part_change a.entry)) ∷ []) }
{
    match a {
        AttributePart::Update(changes) => write_under_update(out, alloc, running, b, changes),
        AttributePart::Replace { .. } => out.keep(alloc, 1, running),
    }
}

fn write_under_update<'a>(
    out: &mut NormalBuilder,
    alloc: Global,
    running: &ChangeView<'_>,
    b: AttributePart<'a>,
    changes: &'a Changes,
) -> Result<(), Memory>
    requires fit { IsFitPart b }
    requires ascending { IsAscending changes.now }
    requires room { HasRoomForOne out.old }
    ensures { OnOk result (out.new ≡ out.old ++ Keep running.now (attributes_under (part_change b.entry) (Update (change_set changes.now)))
        ∷ []) }
{
    let mine = ChangeView::of(alloc, changes)?;
    match b {
        AttributePart::Update(others) => {
            let theirs = ChangeView::of(alloc, others)?;
            let rest = theirs.merged(alloc, &mine, Rule::Under)?;
            write_update_if_any(out, alloc, running, &rest)
        }
        AttributePart::Replace { old, new } => {
            let start = mine.put_on(alloc, old)?;
            let end = mine.put_on(alloc, new)?;
            out.replace(alloc, running, &start, &end)
        }
    }
}

// Writes an update; none where no key changes.
fn write_update_if_any(
    out: &mut NormalBuilder,
    alloc: Global,
    running: &ChangeView<'_>,
    changes: &ChangeView<'_>,
) -> Result<(), Memory>
    requires room { HasRoomForOne out.old }
    ensures { OnOk result (out.new ≡ out.old ++ Keep running.now (update_if_any changes.now) ∷ []) }
{
    if changes.is_empty() {
        out.keep(alloc, 1, running)
    } else {
        out.update(alloc, running, changes)
    }
}
