// An operation in normal form, as it is written from the runs of another.
ghost use Rattle.std.specs.Prelude.{◌≡◌, ◌≤◌, ◌<◌, ◌+◌, ◌++◌, ◌∷◌, [], Some, None, map, replicate, drop, length, IfOk, IfSome, OnOk};
ghost use Rattle.std.specs.Option.{option_copied};
ghost use Rattle.doc_items.specs.Limits.{max_count};
ghost use Rattle.doc_items.specs.Changes.{ChangeSet};
ghost use Rattle.change_view.specs.Sets.{joined};
ghost use Rattle.change_table.specs.Joints.{together};
ghost use Rattle.change_table.specs.Keys.{Touches};
ghost use Rattle.doc_op.specs.Actions.{Keep, keep, insertion, deletion, actions};
ghost use Rattle.doc_op.specs.Cursors.{left};
ghost use Rattle.doc_op.specs.Known.{shown_by, IsKnown, IsUpToDate};
ghost use Rattle.doc_op.specs.Lengths.{input_len, output_len};
ghost use Rattle.doc_op.specs.Normal.{normal_form};
ghost use Rattle.doc_op.specs.Runs.{contents, part_change, IsFitPart};
ghost use Rattle.doc_op.specs.declared.normal_output.Kind.TheVariants.{Kept, Inserted, Deleted};

use crate::{AttributePart, ContentRun, Cursor, DocOp, Head, NormalBuilder};
use change_table::{ChangeTable, Joint, RunningChanges, Touched};
use change_view::{ChangeView, Rule};
use doc_items::{Memory, Text};
use std::alloc::Global;

/// What becomes of the items of a run, which decides what is shown of the changes that run.
#[derive(Clone, Copy, PartialEq, Eq)]
pub(crate) enum Kind {
    Kept,
    Inserted,
    Deleted,
}

impl Kind {
    // The rule that makes of the running changes those that are shown over a run of this kind.
    #[tactic(auto, using(crate::proofs::UpToDate::shown_rules))]
    fn rule(self) -> Rule
        ensures { (u : ChangeSet) → joined result u u ≡ shown_by self u }
    {
        match self {
            Kind::Kept => Rule::Second,
            Kind::Inserted => Rule::Inserted,
            Kind::Deleted => Rule::Deleted,
        }
    }

    // What is shown of the running changes over a run of this kind.
    fn joint<'a>(self, running: &'a ChangeTable) -> Joint<'a>
        ensures { together result ≡ shown_by self running.entry.now }
    {
        Joint {
            first: running,
            second: running,
            rule: self.rule(),
        }
    }

    // Notes the keys at which a run of this kind shows something else than what runs.
    fn add_to(
        self,
        alloc: Global,
        running: &RunningChanges,
        touched: &mut Touched,
    ) -> Result<(), Memory>
        ensures { OnOk result (Touches touched.old running.now touched.new (shown_by self running.now)) }
    {
        match self {
            Kind::Kept => Ok(()),
            Kind::Inserted => running.add_inserted(alloc, touched),
            Kind::Deleted => running.add_deleted(alloc, touched),
        }
    }
}

/// A builder that takes runs, a kind of runs, and the keys at which something else was shown over the last run than one of this kind
/// would show now.
pub(crate) struct NormalOutput {
    builder: NormalBuilder,
    kind: Kind,
    touched: Touched,
}

impl Drop for NormalOutput {
    fn drop(self) {
        let NormalOutput {
            builder: _builder,
            kind: _,
            touched: _touched,
        } = self;
    }
}

// So many items stay.
fn keep_run(
    alloc: Global,
    out: &mut NormalBuilder,
    count: u64,
    running: &ChangeTable,
    keys: Option<&[Text]>,
) -> Result<(), Memory>
    requires some { 0 < count }
    requires known { IsKnown (option_copied keys) out.old (shown_by Kept running.now) }
    requires input { input_len out.old + count ≤ max_count }
    requires output { output_len out.old + count ≤ max_count }
    ensures { OnOk result (out.new ≡ out.old ++ replicate count (keep running.now)) }
{
    match keys {
        Some(keys) => {
            out.keep_joint(alloc, count, Kind::Kept.joint(running), keys)?;
            Ok(())
        }
        None => {
            out.keep(alloc, count, &running.view(alloc)?)?;
            Ok(())
        }
    }
}

// The run is inserted.
fn insert_run(
    alloc: Global,
    out: &mut NormalBuilder,
    run: ContentRun<'_>,
    running: &ChangeTable,
    keys: Option<&[Text]>,
) -> Result<(), Memory>
    requires some { 0 < length (contents run) }
    requires known { IsKnown (option_copied keys) out.old (shown_by Inserted running.now) }
    requires output { output_len out.old + length (contents run) ≤ max_count }
    ensures { OnOk result (out.new ≡ out.old ++ map (insertion running.now) (contents run.entry)) }
{
    match keys {
        Some(keys) => {
            out.insert_joint(alloc, run, Kind::Inserted.joint(running), keys)?;
            Ok(())
        }
        None => {
            out.insert(alloc, run, &running.view(alloc)?)?;
            Ok(())
        }
    }
}

// The run is deleted.
fn delete_run(
    alloc: Global,
    out: &mut NormalBuilder,
    run: ContentRun<'_>,
    running: &ChangeTable,
    keys: Option<&[Text]>,
) -> Result<(), Memory>
    requires some { 0 < length (contents run) }
    requires known { IsKnown (option_copied keys) out.old (shown_by Deleted running.now) }
    requires input { input_len out.old + length (contents run) ≤ max_count }
    ensures { OnOk result (out.new ≡ out.old ++ map (deletion running.now) (contents run.entry)) }
{
    match keys {
        Some(keys) => {
            out.delete_joint(alloc, run, Kind::Deleted.joint(running), keys)?;
            Ok(())
        }
        None => {
            out.delete(alloc, run, &running.view(alloc)?)?;
            Ok(())
        }
    }
}

// An element's start stays, and its attributes change.
fn change_item(
    alloc: Global,
    out: &mut NormalBuilder,
    part: AttributePart<'_>,
    running: &ChangeTable,
) -> Result<(), Memory>
    requires fit { IsFitPart part }
    requires input { input_len out.old + 1 ≤ max_count }
    requires output { output_len out.old + 1 ≤ max_count }
    ensures { OnOk result (out.new ≡ out.old ++ Keep running.now (part_change part.entry) ∷ []) }
{
    let changes = running.view(alloc)?;
    match part {
        AttributePart::Update(updates) => {
            let updates = ChangeView::of(alloc, updates)?;
            out.update(alloc, &changes, &updates)?;
            Ok(())
        }
        AttributePart::Replace { old, new } => {
            out.replace(alloc, &changes, old, new)?;
            Ok(())
        }
    }
}

impl NormalOutput {
    /// An output without actions.
    pub fn new(alloc: Global) -> NormalOutput
        ensures builder { result.builder ≡ [] }
        ensures touched { result.touched ≡ None }
    {
        NormalOutput {
            builder: NormalBuilder::new(alloc),
            kind: Kind::Kept,
            touched: Touched::any(),
        }
    }

    // The last run was of this kind, and nothing started or ended since.
    fn note(&mut self, alloc: Global, kind: Kind)
        ensures builder { self.new.builder ≡ self.old.builder }
        ensures kind { self.new.kind ≡ kind }
        ensures touched { self.new.touched ≡ Some [] }
    {
        self.kind = kind;
        self.touched.clear(alloc);
    }

    // The run to come is of this kind. Notes the keys at which it shows something else than one of the last kind.
    fn turn(&mut self, alloc: Global, running: &RunningChanges, kind: Kind) -> Result<(), Memory>
        requires known { IsUpToDate self.old running.now }
        ensures known { OnOk result (IsKnown self.new.touched self.new.builder (shown_by kind running.now)) }
        ensures builder { self.new.builder ≡ self.old.builder }
    {
        if self.kind == kind {
            return Ok(());
        }
        self.kind.add_to(alloc, running, &mut self.touched)?;
        kind.add_to(alloc, running, &mut self.touched)?;
        Ok(())
    }

    /// Takes the run at which the cursor stands, and gives its length, which is 0 where nothing is left.
    pub fn add(&mut self, alloc: Global, cursor: &Cursor<'_>) -> Result<u64, Memory>
        requires known { IsUpToDate self.old cursor.now.under }
        requires input { input_len self.old.builder + input_len cursor.now.front ≤ max_count }
        requires output { output_len self.old.builder + output_len cursor.now.front ≤ max_count }
        ensures known { IfOk result (λ _. IsUpToDate self.new cursor.now.under) }
        ensures added { IfOk result (λ _. self.new.builder ≡ self.old.builder ++ cursor.now.front) }
        ensures count { IfOk result (λ count. count ≡ length cursor.now.front) }
        ensures end { IfOk result (λ count. count ≡ 0 → left cursor.now ≡ []) }
    {
        match cursor.head() {
            Head::Keep(count) => {
                self.turn(alloc, cursor.running_changes(), Kind::Kept)?;
                let keys = self.touched.keys();
                keep_run(alloc, &mut self.builder, count, cursor.running(), keys)?;
                self.note(alloc, Kind::Kept);
                Ok(count)
            }
            Head::Change(part) => {
                change_item(alloc, &mut self.builder, part, cursor.running())?;
                self.note(alloc, Kind::Kept);
                Ok(1)
            }
            Head::Insert(run) => {
                self.turn(alloc, cursor.running_changes(), Kind::Inserted)?;
                let keys = self.touched.keys();
                insert_run(alloc, &mut self.builder, run, cursor.running(), keys)?;
                self.note(alloc, Kind::Inserted);
                Ok(run.len())
            }
            Head::Delete(run) => {
                self.turn(alloc, cursor.running_changes(), Kind::Deleted)?;
                let keys = self.touched.keys();
                delete_run(alloc, &mut self.builder, run, cursor.running(), keys)?;
                self.note(alloc, Kind::Deleted);
                Ok(run.len())
            }
            Head::Nothing => Ok(0),
        }
    }

    /// Goes past so many actions of the run.
    pub fn pass(&mut self, alloc: Global, cursor: &mut Cursor<'_>, count: u64) -> Result<(), Memory>
        requires some { 0 < count }
        requires fits { count ≤ length cursor.old.front }
        requires known { IsUpToDate self.old cursor.old.under }
        ensures known { OnOk result (IsUpToDate self.new cursor.new.under) }
        ensures left { OnOk result (left cursor.new ≡ drop count (left cursor.old)) }
        ensures builder { self.new.builder ≡ self.old.builder }
    {
        cursor.skip(alloc, count, &mut self.touched)?;
        Ok(())
    }

    /// The operation of the actions that were taken.
    pub fn finish(self, alloc: Global) -> Result<DocOp, Memory>
        ensures normal { IfOk result (λ op. op ≡ normal_form self.builder) }
        ensures actions { IfOk result (λ op. actions op ≡ self.builder) }
    {
        let NormalOutput {
            builder,
            kind: _,
            touched: _touched,
        } = self;
        builder.finish(alloc)
    }
}
