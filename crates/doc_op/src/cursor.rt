ghost use Rattle.std.specs.Prelude.{◌≡◌, ◌<◌, ◌≤◌, [], length, map, drop, IfOk, OnOk};
ghost use Rattle.doc_items.specs.declared.item.Content.TheVariants.{Character};
ghost use Rattle.doc_op.specs.Runs.{contents};
ghost use Rattle.doc_items.specs.Changes.{ChangeSet};
ghost use Rattle.change_table.specs.Keys.{Touches};
ghost use Rattle.doc_op.specs.Actions.{actions, actions_from, component_actions};
ghost use Rattle.doc_op.specs.Cursors.{IsSoundFrom, IsPast, head_text};

use crate::{AttributePart, Component, ContentRun, DocOp, Head};
use change_table::{ChangeTable, RunningChanges, Touched};
use doc_items::Memory;
use std::alloc::Global;
use std::marker::Model;

/// A walk over the actions of an operation, run by run, seen as the changes that run and the actions that are left: those of
/// the run at which it stands, and those after it.
#[derive(Drop)]
pub struct Cursor<'a> {
    // The components that are left, of the first of which `used` actions are passed.
    rest: &'a [Component],
    used: u64,
    // The number of actions of the first, and its characters.
    len: u64,
    text: Vec<char>,
    running: RunningChanges,
}

impl<'a> Model for Cursor<'a> {
    ghost use Rattle.doc_op.specs.Cursors.{Way, way_code, way, IsSoundFrom, IsHead};

    ghost Value = { Way };

    ghost coded = { way_code };

    ghost view = { λ c. way c.running c.rest.now c.used };

    ghost invariant = { λ c. IsSoundFrom c.running c.rest.now
        × IsHead c.running c.rest.now c.used c.len c.text.items };
}

// What is left of a text.
fn characters(text: &[char], used: u64) -> ContentRun<'_>
    requires { used ≤ length text.now }
    ensures { contents result ≡ map Character (drop used text.now) }
{
    ContentRun::Characters(&text[used as usize..])
}

// Goes past the boundaries at the front of an operation's components.
fn past_boundaries<'a>(
    alloc: Global,
    running: &mut RunningChanges,
    touched: &mut Touched,
    components: &'a [Component],
) -> Result<&'a [Component], Memory>
    requires { IsSoundFrom running.old components.now }
    ensures sound { IfOk result (λ cs. IsSoundFrom running.new cs.now) }
    ensures same { IfOk result (λ cs. actions_from running.new cs.now ≡ actions_from running.old components.entry.now) }
    ensures past { IfOk result (λ cs. IsPast cs.now) }
    ensures touched { IfOk result (λ _. Touches touched.old running.old touched.new running.new) }
{
    let mut rest = components;
    while let Some(Component::AnnotationBoundary(boundary)) = rest.first() {
        running.step(alloc, boundary)?;
        touched.add(alloc, boundary)?;
        rest = &rest[1..];
    }
    Ok(rest)
}

// The characters of a component.
fn chars_of(alloc: Global, component: &Component) -> Result<Vec<char>, Memory>
    ensures { IfOk result (λ v. v.items ≡ head_text component.now) }
{
    match component {
        Component::Characters(text) => text.to_chars(alloc),
        Component::DeleteCharacters(text) => text.to_chars(alloc),
        Component::Retain(_) => Ok(Vec::new(alloc)),
        Component::ElementStart { .. } => Ok(Vec::new(alloc)),
        Component::ElementEnd => Ok(Vec::new(alloc)),
        Component::DeleteElementStart { .. } => Ok(Vec::new(alloc)),
        Component::DeleteElementEnd => Ok(Vec::new(alloc)),
        Component::ReplaceAttributes { .. } => Ok(Vec::new(alloc)),
        Component::UpdateAttributes(_) => Ok(Vec::new(alloc)),
        Component::AnnotationBoundary(_) => Ok(Vec::new(alloc)),
    }
}

// The number of actions of a component, which has this text.
fn count_of(component: &Component, text: &[char]) -> u64
    requires { text.now ≡ head_text component.now }
    ensures { (u : ChangeSet) → result ≡ length (component_actions u component.now) }
{
    match component {
        Component::Retain(count) => *count,
        Component::Characters(_) => text.len() as u64,
        Component::DeleteCharacters(_) => text.len() as u64,
        Component::ElementStart { .. } => 1,
        Component::ElementEnd => 1,
        Component::DeleteElementStart { .. } => 1,
        Component::DeleteElementEnd => 1,
        Component::ReplaceAttributes { .. } => 1,
        Component::UpdateAttributes(_) => 1,
        Component::AnnotationBoundary(_) => 0,
    }
}

impl<'a> Cursor<'a> {
    ghost use Rattle.doc_op.specs.Cursors.{left};
    ghost use Rattle.doc_op.specs.Runs.{head_actions, IsFitHead, IsEnd};

    /// A cursor before all actions of an operation.
    pub fn new(alloc: Global, op: &'a DocOp) -> Result<Cursor<'a>, Memory>
        ensures { IfOk result (λ c. left c ≡ actions op.now) }
    {
        let mut cursor = Cursor {
            rest: &[],
            used: 0,
            len: 0,
            text: Vec::new(alloc),
            running: RunningChanges::new(alloc),
        };
        cursor.enter(alloc, op.as_slice(), &mut Touched::any())?;
        Ok(cursor)
    }

    /// Goes past so many actions of the run, and notes the keys at which changes start or end on the way. After want of memory nothing
    /// is left.
    pub fn skip(&mut self, alloc: Global, count: u64, touched: &mut Touched) -> Result<(), Memory>
        requires some { 0 < count }
        requires fits { count ≤ length self.old.front }
        ensures left { OnOk result (left self.new ≡ drop count (left self.old)) }
        ensures touched { OnOk result (Touches touched.old self.old.under touched.new self.new.under) }
    {
        let used = self.used + count;
        if used < self.len {
            self.used = used;
            return Ok(());
        }
        let behind = &self.rest[1..];
        self.enter(alloc, behind, touched)
    }

    // Goes to the first of these components that has actions.
    fn enter(
        &mut self,
        alloc: Global,
        components: &'a [Component],
        touched: &mut Touched,
    ) -> Result<(), Memory>
        requires { IsSoundFrom self.old.under components.now }
        ensures left { OnOk result (left self.new ≡ actions_from self.old.under components.entry.now) }
        ensures touched { OnOk result (Touches touched.old self.old.under touched.new self.new.under) }
    {
        self.rest = &[];
        let rest = past_boundaries(alloc, &mut self.running, touched, components)?;
        let Some(first) = rest.first() else {
            return Ok(());
        };
        let text = chars_of(alloc, first)?;
        self.len = count_of(first, text.as_slice());
        self.text = text;
        self.used = 0;
        self.rest = rest;
        Ok(())
    }

    /// The run at which the cursor stands, under the running changes; `Nothing` exactly where no action is left.
    #[tactic(auto, using(crate::proofs::Cursors::text_left, crate::proofs::Cursors::kept_left))]
    pub fn head(&self) -> Head<'_>
        ensures front { head_actions self.now.under result ≡ self.now.front }
        ensures fit { IsFitHead result }
        ensures end { IsEnd result (left self.now) }
    {
        let Some(first) = self.rest.first() else {
            return Head::Nothing;
        };
        match first {
            Component::Retain(count) => Head::Keep(*count - self.used),
            Component::Characters(_) => Head::Insert(characters(self.text.as_slice(), self.used)),
            Component::ElementStart { kind, attributes } => {
                Head::Insert(ContentRun::Start { kind, attributes })
            }
            Component::ElementEnd => Head::Insert(ContentRun::End),
            Component::DeleteCharacters(_) => Head::Delete(characters(
                self.text.as_slice(),
                self.used,
            )),
            Component::DeleteElementStart { kind, attributes } => {
                Head::Delete(ContentRun::Start { kind, attributes })
            }
            Component::DeleteElementEnd => Head::Delete(ContentRun::End),
            Component::ReplaceAttributes { old, new } => {
                Head::Change(AttributePart::Replace { old, new })
            }
            Component::UpdateAttributes(changes) => Head::Change(AttributePart::Update(changes)),
            Component::AnnotationBoundary(_) => unreachable!(),
        }
    }

    /// The running changes.
    pub fn running(&self) -> &ChangeTable
        ensures { result.now ≡ self.now.under }
    {
        self.running.table()
    }

    /// The running changes, with those that an insertion or a deletion shows otherwise.
    pub(crate) fn running_changes(&self) -> &RunningChanges
        ensures { result.now ≡ self.now.under }
    {
        &self.running
    }
}
