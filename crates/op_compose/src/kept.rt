// Items that stay in both operations.
ghost use Rattle.std.specs.Prelude.{◌≡◌, ◌<◌, Some, IfOk, IfSome};
ghost use Rattle.change_view.specs.declared.rule.Test.TheVariants.{NewIsOld};
ghost use Rattle.change_table.specs.Keys.{AgreeBut, PassBut};
ghost use Rattle.change_table.specs.Joints.{together};
ghost use Rattle.doc_op.specs.Actions.{Unchanged};
ghost use Rattle.doc_op.specs.Normal.{shown_last};
ghost use Rattle.op_runs.specs.Kept.{kept_change, IsFitKept};
ghost use Rattle.op_runs.specs.Rooms.{HasRoomFor};
ghost use Rattle.op_compose.specs.Weaves.{IsInStepBut, IsKeptTwice};

use crate::attributes::{follow, write_then};
use change_table::{Joint, Touched};
use change_view::Test;
use doc_items::{Memory, Text};
use doc_op::NormalBuilder;
use op_runs::Kept;
use std::alloc::Global;

/// Writes items that stay in both operations, under the changes of a joint, which differ from those that were shown last at the
/// touched keys at most; false where they don't agree.
pub(crate) fn write_both<'a>(
    out: &mut NormalBuilder,
    alloc: Global,
    x: Kept<'a>,
    y: Kept<'a>,
    joint: Joint<'a>,
    touched: &Touched,
) -> Result<bool, Memory>
    requires fit_x { IsFitKept x }
    requires fit_y { IsFitKept y }
    requires same { x.count ≡ y.count }
    requires room { HasRoomFor out.old x.count }
    requires in_step { IsInStepBut touched.now (shown_last out.old) (together joint) joint.first.now joint.second.now }
    ensures { IfOk result (λ t.
        IsKeptTwice t joint.entry (kept_change x.entry.part) (kept_change y.entry.part) x.entry.count out.old out.new) }
{
    match compared(x, y, touched) {
        Some(keys) => write_plain(out, alloc, x.count, joint, keys),
        None => write_whole(out, alloc, x, y, joint),
    }
}

// The keys that are looked at; None where all are, since attributes change or any key may differ.
fn compared<'a>(x: Kept<'_>, y: Kept<'_>, touched: &'a Touched) -> Option<&'a [Text]>
    ensures plain_x { IfSome result (λ _. kept_change x.entry.part ≡ Unchanged) }
    ensures plain_y { IfSome result (λ _. kept_change y.entry.part ≡ Unchanged) }
    ensures keys { IfSome result (λ keys. touched.now ≡ Some keys.now) }
{
    if x.part.is_some() || y.part.is_some() {
        return None;
    }
    touched.keys()
}

// Items stay as they are, and only these keys are looked at, however many changes run.
fn write_plain(
    out: &mut NormalBuilder,
    alloc: Global,
    count: u64,
    joint: Joint<'_>,
    keys: &[Text],
) -> Result<bool, Memory>
    requires some { 0 < count }
    requires room { HasRoomFor out.old count }
    requires shown { AgreeBut keys.now (shown_last out.old) (together joint) }
    requires passed { PassBut keys.now NewIsOld joint.first.now joint.second.now }
    ensures { IfOk result (λ t. IsKeptTwice t joint.entry Unchanged Unchanged count out.old out.new) }
{
    if !joint.passes(Test::NewIsOld, keys) {
        return Ok(false);
    }
    out.keep_joint(alloc, count, joint, keys)?;
    Ok(true)
}

// All changes of both are looked at.
fn write_whole<'a>(
    out: &mut NormalBuilder,
    alloc: Global,
    x: Kept<'a>,
    y: Kept<'a>,
    joint: Joint<'a>,
) -> Result<bool, Memory>
    requires fit_x { IsFitKept x }
    requires fit_y { IsFitKept y }
    requires same { x.count ≡ y.count }
    requires room { HasRoomFor out.old x.count }
    ensures { IfOk result (λ t.
        IsKeptTwice t joint.entry (kept_change x.entry.part) (kept_change y.entry.part) x.entry.count out.old out.new) }
{
    let w = joint.first.view(alloc)?;
    let u = joint.second.view(alloc)?;
    if !follow(alloc, x, &w, y, &u)? {
        return Ok(false);
    }
    let both = w.merged(alloc, &u, joint.rule)?;
    write_then(out, alloc, &both, x, y)?;
    Ok(true)
}
