// The inverse of an operation, made run by run as a walk goes over the operation.
ghost use Rattle.std.specs.Prelude.{◌≡◌, ◌≤◌, ◌+◌, ◌++◌, ◌∷◌, [], length, map, replicate, take, drop, IfOk, OnOk};
ghost use Rattle.doc_items.specs.Limits.{max_count};
ghost use Rattle.doc_items.specs.Changes.{back};
ghost use Rattle.change_view.specs.Sets.{as_inserted};
ghost use Rattle.doc_op.specs.Actions.{Keep, Ins, keep, deletion, actions};
ghost use Rattle.doc_op.specs.Cursors.{left};
ghost use Rattle.doc_op.specs.Lengths.{input_len, output_len};
ghost use Rattle.doc_op.specs.Normal.{normal_form};
ghost use Rattle.doc_op.specs.Runs.{contents, part_change, IsFitPart};
ghost use Rattle.op_compose.specs.Chains.{attributes_back};
ghost use Rattle.op_invert.specs.Walks.{items_of, HasRoom, Undone};

use crate::items::{Items, at_most};
use crate::putting::put_items;
use change_view::ChangeView;
use doc_items::Memory;
use doc_op::{AttributePart, ContentRun, Cursor, DocOp, Head, NormalBuilder};
use std::alloc::Global;

/// The inverse so far, and how many items of the document are passed.
#[derive(Drop)]
pub(crate) struct Reversal {
    pub out: NormalBuilder,
    pub place: u64,
}

impl Reversal {
    /// Nothing is undone yet.
    pub fn new(alloc: Global) -> Reversal
        ensures out { result.out ≡ [] }
        ensures place { result.place ≡ 0 }
    {
        Reversal {
            out: NormalBuilder::new(alloc),
            place: 0,
        }
    }

    /// Undoes the run at which the cursor stands, and answers its length, which is 0 where nothing is left.
    pub fn undo(
        &mut self,
        alloc: Global,
        items: Items<'_>,
        cursor: &Cursor<'_>,
    ) -> Result<u64, Memory>
        requires room { HasRoom (items_of items) self.old cursor.now.front }
        requires bound { length (items_of items) ≤ max_count }
        ensures undone { IfOk result (λ _. Undone (items_of items.entry) cursor.now.front self.old self.new) }
        ensures count { IfOk result (λ count. count ≡ length cursor.now.front) }
        ensures end { IfOk result (λ count. count ≡ 0 → left cursor.now ≡ []) }
    {
        let changes = cursor.running().view(alloc)?;
        match cursor.head() {
            Head::Keep(count) => {
                self.keep(alloc, count, &changes)?;
                Ok(count)
            }
            Head::Change(part) => {
                self.change_back(alloc, part, &changes)?;
                Ok(1)
            }
            Head::Insert(run) => {
                self.delete(alloc, run, &changes)?;
                Ok(run.len())
            }
            Head::Delete(run) => {
                self.put_back(alloc, items, run.len())?;
                Ok(run.len())
            }
            Head::Nothing => Ok(0),
        }
    }

    // Items that stay are changed back.
    fn keep(&mut self, alloc: Global, count: u64, changes: &ChangeView<'_>) -> Result<(), Memory>
        requires place { self.old.place + count ≤ max_count }
        requires input { input_len self.old.out + count ≤ max_count }
        requires output { output_len self.old.out + count ≤ max_count }
        ensures out { OnOk result (self.new.out ≡ self.old.out ++ replicate count (keep (back changes.now))) }
        ensures place { OnOk result (self.new.place ≡ self.old.place + count) }
    {
        let turned = changes.turned(alloc)?;
        self.out.keep(alloc, count, &turned)?;
        self.place += count;
        Ok(())
    }

    // An element's start that stays gets its attributes back.
    fn change_back(
        &mut self,
        alloc: Global,
        part: AttributePart<'_>,
        changes: &ChangeView<'_>,
    ) -> Result<(), Memory>
        requires fit { IsFitPart part }
        requires place { self.old.place + 1 ≤ max_count }
        requires input { input_len self.old.out + 1 ≤ max_count }
        requires output { output_len self.old.out + 1 ≤ max_count }
        ensures out { OnOk result (self.new.out ≡ self.old.out ++ Keep (back changes.now) (attributes_back (part_change part.entry)) ∷ []) }
        ensures place { OnOk result (self.new.place ≡ self.old.place + 1) }
    {
        let turned = changes.turned(alloc)?;
        write_back(alloc, &mut self.out, part, &turned)?;
        self.place += 1;
        Ok(())
    }

    // What is inserted is deleted, with all its annotations named.
    fn delete(
        &mut self,
        alloc: Global,
        run: ContentRun<'_>,
        changes: &ChangeView<'_>,
    ) -> Result<(), Memory>
        requires { input_len self.old.out + length (contents run) ≤ max_count }
        ensures out { OnOk result (self.new.out ≡ self.old.out ++ map (deletion (back (as_inserted changes.now))) (contents run.entry)) }
        ensures place { self.new.place ≡ self.old.place }
    {
        let named = changes.inserted(alloc)?.turned(alloc)?;
        self.out.delete(alloc, run, &named)?;
        Ok(())
    }

    // The next items, which are deleted, are inserted as they are, piece by piece.
    fn put_back(&mut self, alloc: Global, items: Items<'_>, count: u64) -> Result<(), Memory>
        requires place { self.old.place + count ≤ length (items_of items) }
        requires bound { length (items_of items) ≤ max_count }
        requires output { output_len self.old.out + count ≤ max_count }
        ensures out { OnOk result (self.new.out ≡ self.old.out ++ map Ins (take count (drop self.old.place (items_of items.entry)))) }
        ensures place { OnOk result (self.new.place ≡ self.old.place + count) }
    {
        let mut left = count;
        while left > 0 {
            let next = at_most(items.run(self.place), left);
            put_items(alloc, &mut self.out, next)?;
            self.place += next.len() as u64;
            left -= next.len() as u64;
        }
        Ok(())
    }

    /// The operation of what is undone.
    pub fn finish(self, alloc: Global) -> Result<DocOp, Memory>
        ensures is { IfOk result (λ op. actions op ≡ self.out) }
        ensures normal { IfOk result (λ op. op ≡ normal_form self.out) }
    {
        self.out.finish(alloc)
    }
}

// Writes that an element's start stays under the changes, and that its attributes change back.
fn write_back(
    alloc: Global,
    out: &mut NormalBuilder,
    part: AttributePart<'_>,
    changes: &ChangeView<'_>,
) -> Result<(), Memory>
    requires fit { IsFitPart part }
    requires input { input_len out.old + 1 ≤ max_count }
    requires output { output_len out.old + 1 ≤ max_count }
    ensures { OnOk result (out.new ≡ out.old ++ Keep changes.now (attributes_back (part_change part.entry)) ∷ []) }
{
    match part {
        AttributePart::Update(updates) => {
            let updates = ChangeView::of(alloc, updates)?;
            let turned = updates.turned(alloc)?;
            out.update(alloc, changes, &turned)?;
            Ok(())
        }
        AttributePart::Replace { old, new } => {
            out.replace(alloc, changes, new, old)?;
            Ok(())
        }
    }
}
