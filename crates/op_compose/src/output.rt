// Runs of one operation that the other changes.
ghost use Rattle.std.specs.Prelude.{◌≡◌, ◌≤◌, length, IfOk, OnOk};
ghost use Rattle.doc_op.specs.Actions.{Unchanged};
ghost use Rattle.doc_op.specs.Runs.{contents, part_change, IsFitPart};
ghost use Rattle.op_runs.specs.Kept.{kept_change, IsFitKept};
ghost use Rattle.op_runs.specs.Rooms.{HasRoomFor};
ghost use Rattle.op_compose.specs.Weaves.{IsInsertedAfter, IsDeletedBefore};

use crate::back::{agree_back, put_back};
use change_view::{ChangeView, Rule, Test};
use doc_items::Memory;
use doc_op::{AttributePart, ContentRun, NormalBuilder};
use op_runs::{Kept, agree, put};
use std::alloc::Global;

/// Writes a run that the first operation inserts under `w` and the second keeps under `u`; false where they don't agree.
pub(crate) fn insert_after<'a>(
    out: &mut NormalBuilder,
    alloc: Global,
    run: ContentRun<'_>,
    w: &ChangeView<'a>,
    kept: Kept<'_>,
    u: &ChangeView<'a>,
) -> Result<bool, Memory>
    requires fit { IsFitKept kept }
    requires same { kept.count ≡ length (contents run) }
    requires room { HasRoomFor out.old (length (contents run)) }
    ensures { IfOk result (λ t. IsInsertedAfter t w.now u.now (kept_change kept.entry.part) (contents run.entry) out.old out.new) }
{
    match kept.part {
        None => insert_same(out, alloc, run, w, u),
        Some(part) => insert_changed(out, alloc, run, w, part, u),
    }
}

// The run's contents stay as they are.
#[tactic(auto, using(op_runs::proofs::Runs::all_unchanged, op_runs::proofs::Runs::put_all_unchanged))]
fn insert_same<'a>(
    out: &mut NormalBuilder,
    alloc: Global,
    run: ContentRun<'_>,
    w: &ChangeView<'a>,
    u: &ChangeView<'a>,
) -> Result<bool, Memory>
    requires room { HasRoomFor out.old (length (contents run)) }
    ensures { IfOk result (λ t. IsInsertedAfter t w.now u.now Unchanged (contents run.entry) out.old out.new) }
{
    if !w.passes(u, Test::OldIsThere) {
        return Ok(false);
    }
    let both = w.merged(alloc, u, Rule::Second)?;
    out.insert(alloc, run, &both)?;
    Ok(true)
}

// The run is an element's start whose attributes change.
fn insert_changed<'a>(
    out: &mut NormalBuilder,
    alloc: Global,
    run: ContentRun<'_>,
    w: &ChangeView<'a>,
    part: AttributePart<'_>,
    u: &ChangeView<'a>,
) -> Result<bool, Memory>
    requires one { length (contents run) ≡ 1 }
    requires fit { IsFitPart part }
    requires room { HasRoomFor out.old (length (contents run)) }
    ensures { IfOk result (λ t. IsInsertedAfter t w.now u.now (part_change part.entry) (contents run.entry) out.old out.new) }
{
    match run {
        ContentRun::Start { kind, attributes } => {
            if !agree(part, attributes) {
                return Ok(false);
            }
            let after = put(alloc, part, attributes)?;
            let start = ContentRun::Start {
                kind,
                attributes: &after,
            };
            insert_same(out, alloc, start, w, u)
        }
        ContentRun::Characters(_) => Ok(false),
        ContentRun::End => Ok(false),
    }
}

/// Writes a run that the second operation deletes under `u` where the first keeps it under `w`; false where they don't agree.
pub(crate) fn delete_before<'a>(
    out: &mut NormalBuilder,
    alloc: Global,
    run: ContentRun<'_>,
    u: &ChangeView<'a>,
    kept: Kept<'_>,
    w: &ChangeView<'a>,
) -> Result<bool, Memory>
    requires fit { IsFitKept kept }
    requires same { kept.count ≡ length (contents run) }
    requires room { HasRoomFor out.old (length (contents run)) }
    ensures { IfOk result (λ t. IsDeletedBefore t u.now w.now (kept_change kept.entry.part) (contents run.entry) out.old out.new) }
{
    match kept.part {
        None => delete_same(out, alloc, run, u, w),
        Some(part) => delete_changed(out, alloc, run, u, part, w),
    }
}

// The run's contents are before as they are after.
#[tactic(auto, using(op_runs::proofs::Runs::all_unchanged, op_runs::proofs::Runs::put_all_unchanged))]
fn delete_same<'a>(
    out: &mut NormalBuilder,
    alloc: Global,
    run: ContentRun<'_>,
    u: &ChangeView<'a>,
    w: &ChangeView<'a>,
) -> Result<bool, Memory>
    requires room { HasRoomFor out.old (length (contents run)) }
    ensures { IfOk result (λ t. IsDeletedBefore t u.now w.now Unchanged (contents run.entry) out.old out.new) }
{
    if !w.passes(u, Test::NewIsOld) {
        return Ok(false);
    }
    let both = u.merged(alloc, w, Rule::Second)?;
    out.delete(alloc, run, &both)?;
    Ok(true)
}

// The run is an element's start whose attributes change before.
fn delete_changed<'a>(
    out: &mut NormalBuilder,
    alloc: Global,
    run: ContentRun<'_>,
    u: &ChangeView<'a>,
    part: AttributePart<'_>,
    w: &ChangeView<'a>,
) -> Result<bool, Memory>
    requires one { length (contents run) ≡ 1 }
    requires fit { IsFitPart part }
    requires room { HasRoomFor out.old (length (contents run)) }
    ensures { IfOk result (λ t. IsDeletedBefore t u.now w.now (part_change part.entry) (contents run.entry) out.old out.new) }
{
    match run {
        ContentRun::Start { kind, attributes } => {
            if !agree_back(alloc, part, attributes)? {
                return Ok(false);
            }
            let before = put_back(alloc, part, attributes)?;
            let start = ContentRun::Start {
                kind,
                attributes: &before,
            };
            delete_same(out, alloc, start, u, w)
        }
        ContentRun::Characters(_) => Ok(false),
        ContentRun::End => Ok(false),
    }
}
