ghost use Rattle.std.specs.Prelude.{◌≡◌, ◌++◌, ◌∷◌, [], replicate, OnOk};
ghost use Rattle.doc_op.specs.Actions.{Keep};
ghost use Rattle.doc_op.specs.Runs.{part_change, IsFitPart};
ghost use Rattle.op_runs.specs.Kept.{kept_change, IsFitKept};
ghost use Rattle.op_runs.specs.Rooms.{HasRoomFor};

use crate::Kept;
use change_view::ChangeView;
use doc_items::Memory;
use doc_op::{AttributePart, NormalBuilder};
use std::alloc::Global;

/// Writes a change of an element's attributes as it is, under the running changes. After want of memory the builder has no actions.
pub fn write_part(
    out: &mut NormalBuilder,
    alloc: Global,
    running: &ChangeView<'_>,
    part: AttributePart<'_>,
) -> Result<(), Memory>
    requires fit { IsFitPart part }
    requires room { HasRoomFor out.old 1 }
    ensures { OnOk result (out.new ≡ out.old ++ Keep running.now (part_change part.entry) ∷ []) }
{
    match part {
        AttributePart::Update(changes) => {
            let view = ChangeView::of(alloc, changes)?;
            out.update(alloc, running, &view)
        }
        AttributePart::Replace { old, new } => out.replace(alloc, running, old, new),
    }
}

/// Writes items that stay as one operation has them, under the running changes. After want of memory the builder has no actions.
pub fn write_kept(
    out: &mut NormalBuilder,
    alloc: Global,
    running: &ChangeView<'_>,
    kept: Kept<'_>,
) -> Result<(), Memory>
    requires fit { IsFitKept kept }
    requires room { HasRoomFor out.old kept.count }
    ensures { OnOk result (out.new ≡ out.old ++ replicate kept.entry.count (Keep running.now (kept_change kept.entry.part))) }
{
    match kept.part {
        None => out.keep(alloc, kept.count, running),
        Some(part) => write_part(out, alloc, running, part),
    }
}
