ghost use Rattle.std.specs.Prelude.{◌≡◌, ◌≢◌, ◌&&◌, ◌+◌, ◌≤◌, ◌<◌, ◌++◌, ◌∷◌, [], map, replicate, length, IfOk, IfSome, OnOk, OnErr};
ghost use Rattle.doc_items.specs.Limits.{max_count};
ghost use Rattle.doc_items.specs.Changes.{ChangeSet, Fits, none_running, after_boundary};
ghost use Rattle.change_view.specs.Sets.{as_inserted, as_deleted};
ghost use Rattle.change_table.specs.Keys.{AgreeBut};
ghost use Rattle.change_table.specs.Joints.{together, IsTurn};
ghost use Rattle.doc_op.specs.Actions.{Keep, Update, Replace, keep, insertion, deletion, actions, running, component_actions};
ghost use Rattle.doc_op.specs.Refusals.{component_len};
ghost use Rattle.doc_op.specs.Outputs.{open_component, more_component, shut, shown_changes, IsReady, IsTurnOf, IsFull, IsSpelling, IsLone, IsSettled};
ghost use Rattle.doc_op.specs.Lengths.{input_len, output_len};
ghost use Rattle.doc_op.specs.Normal.{normal_form, shown_last};
ghost use Rattle.doc_op.specs.Runs.{contents};

use crate::open::{More, Open, closed, pushed};
use crate::shown_changes::Shown;
use crate::{Component, ContentRun, DocOp};
use change_table::{ChangeTable, Joint};
use change_view::ChangeView;
use doc_items::{Attributes, Boundary, Memory, Text};
use std::alloc::{AllocError, Global};
use std::marker::Model;
use std::mem;

/// The most keys that end or change at the boundaries of an operation that is made here. Each takes a few bytes of its spelling, so an
/// operation with more is longer than a delta may be.
const MOST_CHANGES: usize = 1 << 20;

/// Makes an operation in normal form, run by run. It is seen as the actions that it took. After want of memory it has none. An operation
/// whose boundaries have more than 2^20 keys counts as one for which there is no memory: a few bytes may ask for very many of them.
pub struct NormalBuilder {
    // The components that are done, the changes that run after them, and the last component.
    done: DocOp,
    written: ChangeTable,
    last: Open,
    // How many keys end or change at the boundaries.
    changes: usize,
}

impl Drop for NormalBuilder {
    fn drop(self) {
        let NormalBuilder {
            done: _done,
            written: _written,
            last: _last,
            changes: _,
        } = self;
    }
}

impl Model for NormalBuilder {
    ghost use Rattle.std.specs.Prelude.{List, ◌++◌};
    ghost use Rattle.std.specs.Coded.{coded_list};
    ghost use Rattle.doc_op.specs.Actions.{Action, actions};
    ghost use Rattle.doc_op.specs.Codes.{action_code};
    ghost use Rattle.doc_op.specs.Outputs.{open_component, shut, IsOpenNormal};

    ghost Value = { List Action };

    ghost coded = { coded_list action_code };

    ghost view = { λ b. actions (b.done ++ shut (open_component b.last)) };

    ghost invariant = { λ b. IsOpenNormal (actions (b.done ++ shut (open_component b.last))) b.done (open_component b.last)
        b.written };
}

// How many keys end or change with those of a boundary more. They are refused where they are too many.
fn counted(changes: usize, turn: &Option<Boundary>) -> Result<usize, Memory> {
    let Some(boundary) = turn else {
        return Ok(changes);
    };
    let more = boundary.end.as_slice().len();
    let changes = changes.saturating_add(more);
    let more = boundary.change.as_slice().len();
    let changes = changes.saturating_add(more);
    if changes > MOST_CHANGES {
        return Err(AllocError);
    }
    Ok(changes)
}

// The components with the last, which grows no more, and after them the boundary, if there is one; and what runs then.
fn settled(
    alloc: Global,
    done: DocOp,
    last: Open,
    written: ChangeTable,
    turn: Option<Boundary>,
) -> Result<(DocOp, ChangeTable), Memory>
    requires runs { running done ≡ written }
    requires turn { IfSome turn (IsTurnOf written) }
    requires full { IsFull (open_component last) }
    requires input { input_len (actions (done ++ shut (open_component last))) ≤ max_count }
    requires output { output_len (actions (done ++ shut (open_component last))) ≤ max_count }
    ensures settled { IfOk result (λ r. (w : ChangeSet) → IsTurn turn written w → IsSettled done (open_component last) written w r.0) }
    ensures written { IfOk result (λ r. (w : ChangeSet) → IsTurn turn written w → r.1 ≡ w) }
{
    let done = closed(alloc, done, last)?;
    match turn {
        Some(boundary) => turned(alloc, done, written, boundary),
        None => Ok((done, written)),
    }
}

// The components with a boundary more, and what runs after it.
#[tactic(auto, using(crate::proofs::Outputs::boundary_value))]
fn turned(
    alloc: Global,
    done: DocOp,
    mut written: ChangeTable,
    boundary: Boundary,
) -> Result<(DocOp, ChangeTable), Memory>
    requires runs { running done ≡ written }
    requires some { 0 < component_len (Component.AnnotationBoundary boundary) }
    requires fits { Fits written boundary }
    requires input { input_len (actions done) ≤ max_count }
    requires output { output_len (actions done) ≤ max_count }
    ensures value { IfOk result (λ r. r.0 ≡ done ++ Component.AnnotationBoundary boundary ∷ []) }
    ensures written { IfOk result (λ r. r.1 ≡ after_boundary written boundary) }
    ensures runs { IfOk result (λ r. running r.0 ≡ after_boundary written boundary) }
    ensures acts { IfOk result (λ r. actions r.0 ≡ actions done) }
{
    written.step(alloc, &boundary)?;
    let done = pushed(done, Component::AnnotationBoundary(boundary))?;
    Ok((done, written))
}

impl NormalBuilder {
    /// A builder without actions.
    pub fn new(alloc: Global) -> NormalBuilder
        ensures { result ≡ [] }
    {
        NormalBuilder {
            done: DocOp::new(alloc),
            written: ChangeTable::new(alloc),
            last: Open::Nothing,
            changes: 0,
        }
    }

    // The builder as it was, which leaves one without actions.
    fn take(&mut self, alloc: Global) -> NormalBuilder
        ensures taken { result ≡ self.old }
        ensures input { input_len result ≤ max_count }
        ensures output { output_len result ≤ max_count }
        ensures left { self.new ≡ [] }
    {
        // For the proof: what a builder keeps of itself.
        let _ = &self.done;
        mem::replace(self, NormalBuilder::new(alloc))
    }

    // With a component that may go on with the last.
    fn put(
        self,
        alloc: Global,
        more: More<'_>,
        shown: Shown<'_, '_>,
    ) -> Result<NormalBuilder, Memory>
        requires some { 0 < component_len (more_component more) }
        requires ready { IsReady shown (shown_last self) }
        requires spelled { IsSpelling (shown_changes shown) (more_component more) }
        requires input { input_len (self ++ component_actions (shown_changes shown) (more_component more)) ≤ max_count }
        requires output { output_len (self ++ component_actions (shown_changes shown) (more_component more)) ≤ max_count }
        ensures { IfOk result (λ b. b ≡ self ++ component_actions (shown_changes shown.entry) (more_component more.entry)) }
    {
        let NormalBuilder {
            done,
            written,
            last,
            changes,
        } = self;
        let turn = shown.turn_from(alloc, &written)?;
        if turn.is_none() && last.is_joined_by(more) {
            let last = last.joined(more)?;
            return Ok(NormalBuilder {
                done,
                written,
                last,
                changes,
            });
        }
        let changes = counted(changes, &turn)?;
        let (done, written) = settled(alloc, done, last, written, turn)?;
        let last = more.to_open(alloc)?;
        Ok(NormalBuilder {
            done,
            written,
            last,
            changes,
        })
    }

    // With a component that joins no other.
    fn put_lone(
        self,
        alloc: Global,
        component: Component,
        shown: Shown<'_, '_>,
    ) -> Result<NormalBuilder, Memory>
        requires ready { IsReady shown (shown_last self) }
        requires lone { IsLone (shown_changes shown) component }
        requires input { input_len (self ++ component_actions (shown_changes shown) component) ≤ max_count }
        requires output { output_len (self ++ component_actions (shown_changes shown) component) ≤ max_count }
        ensures { IfOk result (λ b. b ≡ self ++ component_actions (shown_changes shown.entry) component) }
    {
        let NormalBuilder {
            done,
            written,
            last,
            changes,
        } = self;
        let turn = shown.turn_from(alloc, &written)?;
        let changes = counted(changes, &turn)?;
        let (done, written) = settled(alloc, done, last, written, turn)?;
        let done = pushed(done, component)?;
        Ok(NormalBuilder {
            done,
            written,
            last: Open::Nothing,
            changes,
        })
    }

    // With a run that is inserted, over which these changes are shown.
    fn put_inserted(
        self,
        alloc: Global,
        run: ContentRun<'_>,
        shown: Shown<'_, '_>,
    ) -> Result<NormalBuilder, Memory>
        requires ready { IsReady shown (shown_last self) }
        requires shown { as_inserted (shown_changes shown) ≡ shown_changes shown }
        requires some { 0 < length (contents run) }
        requires input { input_len (self ++ map (insertion (shown_changes shown)) (contents run)) ≤ max_count }
        requires output { output_len (self ++ map (insertion (shown_changes shown)) (contents run)) ≤ max_count }
        ensures { IfOk result (λ b. b ≡ self ++ map (insertion (shown_changes shown.entry)) (contents run.entry)) }
    {
        match run {
            ContentRun::Characters(text) => self.put(alloc, More::Characters(text), shown),
            ContentRun::Start { kind, attributes } => {
                let kind = kind.copy(alloc)?;
                let attributes = attributes.copy()?;
                self.put_lone(alloc, Component::ElementStart { kind, attributes }, shown)
            }
            ContentRun::End => self.put_lone(alloc, Component::ElementEnd, shown),
        }
    }

    // With a run that is deleted, over which these changes are shown.
    fn put_deleted(
        self,
        alloc: Global,
        run: ContentRun<'_>,
        shown: Shown<'_, '_>,
    ) -> Result<NormalBuilder, Memory>
        requires ready { IsReady shown (shown_last self) }
        requires shown { as_deleted (shown_changes shown) ≡ shown_changes shown }
        requires some { 0 < length (contents run) }
        requires input { input_len (self ++ map (deletion (shown_changes shown)) (contents run)) ≤ max_count }
        requires output { output_len (self ++ map (deletion (shown_changes shown)) (contents run)) ≤ max_count }
        ensures { IfOk result (λ b. b ≡ self ++ map (deletion (shown_changes shown.entry)) (contents run.entry)) }
    {
        match run {
            ContentRun::Characters(text) => self.put(alloc, More::DeleteCharacters(text), shown),
            ContentRun::Start { kind, attributes } => {
                let kind = kind.copy(alloc)?;
                let attributes = attributes.copy()?;
                self.put_lone(
                    alloc,
                    Component::DeleteElementStart { kind, attributes },
                    shown,
                )
            }
            ContentRun::End => self.put_lone(alloc, Component::DeleteElementEnd, shown),
        }
    }

    /// So many items stay, under these changes.
    pub fn keep(
        &mut self,
        alloc: Global,
        count: u64,
        changes: &ChangeView<'_>,
    ) -> Result<(), Memory>
        requires input { input_len self.old + count ≤ max_count }
        requires output { output_len self.old + count ≤ max_count }
        ensures added { OnOk result (self.new ≡ self.old ++ replicate count (keep changes.now)) }
        ensures emptied { OnErr result (self.new ≡ []) }
    {
        if count == 0 {
            return Ok(());
        }
        let builder = self.take(alloc);
        *self = builder.put(alloc, More::Retain(count), Shown::Listed(changes))?;
        Ok(())
    }

    /// So many items stay, under the changes that two tables show together. They are those that ran last at each key but `keys`, at
    /// which alone they are compared.
    pub fn keep_joint(
        &mut self,
        alloc: Global,
        count: u64,
        joint: Joint<'_>,
        keys: &[Text],
    ) -> Result<(), Memory>
        requires some { 0 < count }
        requires ready { AgreeBut keys.now (shown_last self.old) (together joint) }
        requires input { input_len self.old + count ≤ max_count }
        requires output { output_len self.old + count ≤ max_count }
        ensures added { OnOk result (self.new ≡ self.old ++ replicate count (keep (together joint.entry))) }
        ensures emptied { OnErr result (self.new ≡ []) }
    {
        let builder = self.take(alloc);
        *self = builder.put(alloc, More::Retain(count), Shown::Joint { joint, keys })?;
        Ok(())
    }

    /// An element's start stays under these changes, and some of its attributes change.
    pub fn update(
        &mut self,
        alloc: Global,
        changes: &ChangeView<'_>,
        updates: &ChangeView<'_>,
    ) -> Result<(), Memory>
        requires spelled { updates.now ≢ none_running }
        requires input { input_len self.old + 1 ≤ max_count }
        requires output { output_len self.old + 1 ≤ max_count }
        ensures added { OnOk result (self.new ≡ self.old ++ Keep changes.now (Update updates.now) ∷ []) }
        ensures emptied { OnErr result (self.new ≡ []) }
    {
        let builder = self.take(alloc);
        let component = Component::UpdateAttributes(updates.to_changes(alloc)?);
        *self = builder.put_lone(alloc, component, Shown::Listed(changes))?;
        Ok(())
    }

    /// An element's start stays under these changes, and its attributes, which are `old`, become `new`.
    pub fn replace(
        &mut self,
        alloc: Global,
        changes: &ChangeView<'_>,
        old: &Attributes,
        new: &Attributes,
    ) -> Result<(), Memory>
        requires input { input_len self.old + 1 ≤ max_count }
        requires output { output_len self.old + 1 ≤ max_count }
        ensures added { OnOk result (self.new ≡ self.old ++ Keep changes.now (Replace old.now new.now) ∷ []) }
        ensures emptied { OnErr result (self.new ≡ []) }
    {
        let builder = self.take(alloc);
        let old = old.copy()?;
        let new = new.copy()?;
        let component = Component::ReplaceAttributes { old, new };
        *self = builder.put_lone(alloc, component, Shown::Listed(changes))?;
        Ok(())
    }

    /// The run is inserted, with the new values of these changes.
    pub fn insert(
        &mut self,
        alloc: Global,
        run: ContentRun<'_>,
        changes: &ChangeView<'_>,
    ) -> Result<(), Memory>
        requires { output_len self.old + length (contents run) ≤ max_count }
        ensures added { OnOk result (self.new ≡ self.old ++ map (insertion changes.now) (contents run.entry)) }
        ensures emptied { OnErr result (self.new ≡ []) }
    {
        if run.len() == 0 {
            return Ok(());
        }
        let builder = self.take(alloc);
        let shown = changes.inserted(alloc)?;
        *self = builder.put_inserted(alloc, run, Shown::Listed(&shown))?;
        Ok(())
    }

    /// The run is inserted under the changes that two tables show together, each from absent to a new value. They are those that ran
    /// last at each key but `keys`, at which alone they are compared.
    pub fn insert_joint(
        &mut self,
        alloc: Global,
        run: ContentRun<'_>,
        joint: Joint<'_>,
        keys: &[Text],
    ) -> Result<(), Memory>
        requires some { 0 < length (contents run) }
        requires shown { as_inserted (together joint) ≡ together joint }
        requires ready { AgreeBut keys.now (shown_last self.old) (together joint) }
        requires output { output_len self.old + length (contents run) ≤ max_count }
        ensures added { OnOk result (self.new ≡ self.old ++ map (insertion (together joint.entry)) (contents run.entry)) }
        ensures emptied { OnErr result (self.new ≡ []) }
    {
        let builder = self.take(alloc);
        *self = builder.put_inserted(alloc, run, Shown::Joint { joint, keys })?;
        Ok(())
    }

    /// The run is deleted, with the old values of these changes.
    pub fn delete(
        &mut self,
        alloc: Global,
        run: ContentRun<'_>,
        changes: &ChangeView<'_>,
    ) -> Result<(), Memory>
        requires { input_len self.old + length (contents run) ≤ max_count }
        ensures added { OnOk result (self.new ≡ self.old ++ map (deletion changes.now) (contents run.entry)) }
        ensures emptied { OnErr result (self.new ≡ []) }
    {
        if run.len() == 0 {
            return Ok(());
        }
        let builder = self.take(alloc);
        let shown = changes.deleted(alloc)?;
        *self = builder.put_deleted(alloc, run, Shown::Listed(&shown))?;
        Ok(())
    }

    /// The run is deleted under the changes that two tables show together, each from an old value to absent. They are those that ran
    /// last at each key but `keys`, at which alone they are compared.
    pub fn delete_joint(
        &mut self,
        alloc: Global,
        run: ContentRun<'_>,
        joint: Joint<'_>,
        keys: &[Text],
    ) -> Result<(), Memory>
        requires some { 0 < length (contents run) }
        requires shown { as_deleted (together joint) ≡ together joint }
        requires ready { AgreeBut keys.now (shown_last self.old) (together joint) }
        requires input { input_len self.old + length (contents run) ≤ max_count }
        ensures added { OnOk result (self.new ≡ self.old ++ map (deletion (together joint.entry)) (contents run.entry)) }
        ensures emptied { OnErr result (self.new ≡ []) }
    {
        let builder = self.take(alloc);
        *self = builder.put_deleted(alloc, run, Shown::Joint { joint, keys })?;
        Ok(())
    }

    /// The operation of these actions, which is their normal form.
    pub fn finish(self, alloc: Global) -> Result<DocOp, Memory>
        ensures normal { IfOk result (λ op. op ≡ normal_form self) }
        ensures actions { IfOk result (λ op. actions op ≡ self) }
    {
        let NormalBuilder {
            done,
            written,
            last,
            changes: _,
        } = self;
        let turn = written.turn_to(alloc, &ChangeView::empty(alloc))?;
        let (done, _written) = settled(alloc, done, last, written, turn)?;
        Ok(done)
    }
}
