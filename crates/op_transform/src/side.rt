// One of the two operations: what comes of it so far.
ghost use Rattle.std.specs.Prelude.{◌≡◌, ◌<◌, ◌^◌, length, IfOk};
ghost use Rattle.doc_op.specs.Actions.{Unchanged};
ghost use Rattle.doc_op.specs.Runs.{contents, part_change, IsFitPart};
ghost use Rattle.op_runs.specs.Kept.{kept_change, IsFitKept};
ghost use Rattle.op_runs.specs.Rooms.{HasRoomFor};
ghost use Rattle.op_transform.specs.Walks.{IsInserted, IsDeletedBehind};

use crate::depth::level;
use change_table::ChangeTable;
use change_view::{ChangeView, Rule, Test};
use doc_items::Memory;
use doc_op::{AttributePart, ContentRun, NormalBuilder};
use op_runs::{Kept, agree, put};
use std::alloc::Global;

/// What comes of an operation, and how many deleted elements it has open.
#[derive(Drop)]
pub(crate) struct Side {
    pub out: NormalBuilder,
    pub depth: u64,
}

/// The operation `mine` inserts the run: where `other` has a deleted element open, it deletes what is inserted.
pub(crate) fn insert(
    alloc: Global,
    mine: &mut Side,
    other: &mut Side,
    run: ContentRun<'_>,
    changes: &ChangeView<'_>,
) -> Result<(), Memory>
    requires mine_room { HasRoomFor mine.old.out (length (contents run)) }
    requires other_room { HasRoomFor other.old.out (length (contents run)) }
    ensures { IfOk result (λ _. IsInserted changes.now (contents run.entry) mine.old other.old mine.new other.new) }
{
    if other.depth == 0 {
        mine.out.insert(alloc, run, changes)?;
        other.out.keep(alloc, run.len(), &ChangeView::empty(alloc))
    } else {
        let names = changes.inserted(alloc)?.turned(alloc)?;
        other.out.delete(alloc, run, &names)
    }
}

impl Side {
    /// Deletes the run where the other operation keeps it under these changes, if they agree; or answers false.
    pub fn delete(
        &mut self,
        alloc: Global,
        run: ContentRun<'_>,
        names: &ChangeTable,
        kept: Kept<'_>,
        changes: &ChangeTable,
    ) -> Result<bool, Memory>
        requires same { kept.count ≡ length (contents run) }
        requires fit { IsFitKept kept }
        requires room { HasRoomFor self.old.out (length (contents run)) }
        requires depth { self.old.depth < 2 ^ 63 }
        ensures { IfOk result (λ t. IsDeletedBehind t names.now changes.now (kept_change kept.entry.part)
            (contents run.entry) self.old self.new) }
    {
        let names = names.view(alloc)?;
        let changes = changes.view(alloc)?;
        match kept.part {
            None => self.delete_after(alloc, run, &names, &changes),
            Some(part) => self.delete_changed(alloc, run, &names, part, &changes),
        }
    }

    // Deletes the run after the running changes of the other operation, if they agree with the names; or answers false.
    #[tactic(auto, using(op_runs::proofs::Runs::all_unchanged, op_runs::proofs::Runs::put_all_unchanged))]
    fn delete_after<'a>(
        &mut self,
        alloc: Global,
        run: ContentRun<'_>,
        names: &ChangeView<'a>,
        changes: &ChangeView<'a>,
    ) -> Result<bool, Memory>
        requires room { HasRoomFor self.old.out (length (contents run)) }
        requires depth { self.old.depth < 2 ^ 63 }
        ensures { IfOk result (λ t. IsDeletedBehind t names.now changes.now Unchanged (contents run.entry) self.old self.new) }
    {
        if !names.passes(changes, Test::SameOld) {
            return Ok(false);
        }
        let behind = names.merged(alloc, changes, Rule::SecondTurned)?;
        self.out.delete(alloc, run, &behind)?;
        self.depth = level(run, self.depth);
        Ok(true)
    }

    // Deletes the element's start whose attributes the other operation changes, if they agree; or answers false.
    fn delete_changed<'a>(
        &mut self,
        alloc: Global,
        run: ContentRun<'_>,
        names: &ChangeView<'a>,
        part: AttributePart<'_>,
        changes: &ChangeView<'a>,
    ) -> Result<bool, Memory>
        requires one { length (contents run) ≡ 1 }
        requires fit { IsFitPart part }
        requires room { HasRoomFor self.old.out (length (contents run)) }
        requires depth { self.old.depth < 2 ^ 63 }
        ensures { IfOk result (λ t. IsDeletedBehind t names.now changes.now (part_change part.entry)
            (contents run.entry) self.old self.new) }
    {
        match run {
            ContentRun::Start { kind, attributes } => {
                if !agree(part, attributes) {
                    return Ok(false);
                }
                let after = put(alloc, part, attributes)?;
                let start = ContentRun::Start {
                    kind,
                    attributes: &after,
                };
                self.delete_after(alloc, start, names, changes)
            }
            ContentRun::Characters(_) => Ok(false),
            ContentRun::End => Ok(false),
        }
    }
}
