ghost use Rattle.std.specs.Prelude.{◌≡◌, ◌++◌, ◌∷◌, [], List, map, replicate, OnOk, IfOk};
ghost use Rattle.doc_items.specs.Changes.{change_set, put};
ghost use Rattle.doc_items.specs.declared.item.Content.TheVariants.{Character, Start};
ghost use Rattle.doc_op.specs.Actions.{Action, keep, insertion, deletion, component_actions, new_values};
ghost use Rattle.op_validity.specs.Sources.{ahead};
ghost use Rattle.op_validity.specs.Walks.{Gives, IsNoted, demand_action, with_left};

use crate::demand::Demand;
use crate::noted::Noted;
use crate::source::Source;
use doc_items::{Attributes, Changes, Content, Item, Memory, Notes, Text};
use doc_op::Component;
use std::alloc::Global;

/// The items that are left of a document to which an operation applies, and those made so far of the others.
#[derive(Drop)]
pub(crate) struct Rebuild<'a> {
    pub rest: Source<'a>,
    pub items: Vec<Item>,
}

impl Rebuild<'_> {
    /// Does what a component says with the items that it takes.
    pub fn step(
        &mut self,
        alloc: Global,
        running: &Changes,
        component: &Component,
    ) -> Result<(), Memory>
        ensures { OnOk result ((more : List Action)
            → Gives (ahead self.old.rest) self.old.items.items (component_actions (change_set running.now) component.now ++ more)
            (ahead self.new.rest) self.new.items.items more) }
    {
        match component {
            Component::Retain(count) => self.keep(alloc, running, *count),
            Component::Characters(text) => self.insert_text(alloc, running, text),
            Component::ElementStart { kind, attributes } => {
                self.insert_start(alloc, running, kind, attributes)
            }
            Component::ElementEnd => self.insert(alloc, running, Content::End),
            Component::DeleteCharacters(text) => self.delete(alloc, running, text),
            Component::DeleteElementStart { kind, attributes } => {
                self.give(
                    alloc,
                    running,
                    &mut None,
                    Demand::Start { kind, attributes },
                )
            }
            Component::DeleteElementEnd => self.give(alloc, running, &mut None, Demand::End),
            Component::ReplaceAttributes { old, new } => {
                self.give(alloc, running, &mut None, Demand::Replace { old, new })
            }
            Component::UpdateAttributes(changes) => {
                self.give(alloc, running, &mut None, Demand::Update(changes))
            }
            Component::AnnotationBoundary(_) => Ok(()),
        }
    }

    #[tactic(auto, using(crate::proofs::Gives::starts))]
    fn keep(&mut self, alloc: Global, running: &Changes, count: u64) -> Result<(), Memory>
        ensures { OnOk result ((more : List Action)
            → Gives (ahead self.old.rest) self.old.items.items (replicate count (keep (change_set running.now)) ++ more)
            (ahead self.new.rest) self.new.items.items more) }
    {
        let mut last = None;
        let mut left = count;
        while left > 0 {
            self.give(alloc, running, &mut last, Demand::Keep)?;
            left -= 1;
        }
        Ok(())
    }

    fn delete(&mut self, alloc: Global, running: &Changes, text: &Text) -> Result<(), Memory>
        ensures { OnOk result ((more : List Action)
            → Gives (ahead self.old.rest) self.old.items.items (map (λ c. deletion (change_set running.now) (Character c)) text.now ++ more)
            (ahead self.new.rest) self.new.items.items more) }
    {
        let chars = text.to_chars(alloc)?;
        self.delete_each(alloc, running, chars.as_slice())?;
        Ok(())
    }

    #[tactic(auto, using(crate::proofs::Gives::starts))]
    fn delete_each(
        &mut self,
        alloc: Global,
        running: &Changes,
        chars: &[char],
    ) -> Result<(), Memory>
        ensures { OnOk result ((more : List Action)
            → Gives (ahead self.old.rest) self.old.items.items
            (map (λ c. deletion (change_set running.now) (Character c)) chars.now ++ more)
            (ahead self.new.rest) self.new.items.items more) }
    {
        for c in chars {
            self.give(alloc, running, &mut None, Demand::Character(*c))?;
        }
        Ok(())
    }

    fn insert_text(&mut self, alloc: Global, running: &Changes, text: &Text) -> Result<(), Memory>
        ensures { OnOk result ((more : List Action)
            → Gives (ahead self.old.rest) self.old.items.items
            (map (λ c. insertion (change_set running.now) (Character c)) text.now ++ more)
            (ahead self.new.rest) self.new.items.items more) }
    {
        let chars = text.to_chars(alloc)?;
        self.insert_each(alloc, running, chars.as_slice())?;
        Ok(())
    }

    #[tactic(auto, using(crate::proofs::Gives::starts))]
    fn insert_each(
        &mut self,
        alloc: Global,
        running: &Changes,
        chars: &[char],
    ) -> Result<(), Memory>
        ensures { OnOk result ((more : List Action)
            → Gives (ahead self.old.rest) self.old.items.items
            (map (λ c. insertion (change_set running.now) (Character c)) chars.now ++ more)
            (ahead self.new.rest) self.new.items.items more) }
    {
        let notes = new_notes(alloc, running)?;
        for c in chars {
            self.push_new(running, Content::Character(*c), notes.copy()?)?;
        }
        Ok(())
    }

    fn insert_start(
        &mut self,
        alloc: Global,
        running: &Changes,
        kind: &Text,
        attributes: &Attributes,
    ) -> Result<(), Memory>
        ensures { OnOk result ((more : List Action)
            → Gives (ahead self.old.rest) self.old.items.items (insertion (change_set running.now) (Start kind.now attributes.now) ∷ more)
            (ahead self.new.rest) self.new.items.items more) }
    {
        let kind = kind.copy(alloc)?;
        let attributes = attributes.copy()?;
        self.insert(alloc, running, Content::Start { kind, attributes })?;
        Ok(())
    }

    // Inserts an item with the new values that run.
    fn insert(&mut self, alloc: Global, running: &Changes, content: Content) -> Result<(), Memory>
        ensures { OnOk result ((more : List Action)
            → Gives (ahead self.old.rest) self.old.items.items (insertion (change_set running.now) content ∷ more)
            (ahead self.new.rest) self.new.items.items more) }
    {
        let notes = new_notes(alloc, running)?;
        self.push_new(running, content, notes)
    }

    // Inserts an item with these notes, which are the new values that run. Its clauses alone speak of what runs.
    #[tactic(auto, using(crate::proofs::Gives::starts))]
    fn push_new(&mut self, running: &Changes, content: Content, notes: Notes) -> Result<(), Memory>
        requires { notes ≡ new_values (change_set running.now) }
        ensures { OnOk result ((more : List Action)
            → Gives (ahead self.old.rest) self.old.items.items (insertion (change_set running.now) content ∷ more)
            (ahead self.new.rest) self.new.items.items more) }
    {
        self.items.push(Item { content, notes })?;
        Ok(())
    }

    // Does what a demand says with the next item. The last is the one kept before it.
    fn give(
        &mut self,
        alloc: Global,
        running: &Changes,
        last: &mut Option<Noted>,
        demand: Demand<'_>,
    ) -> Result<(), Memory>
        requires { IsNoted (change_set running.now) last.old }
        ensures gives { OnOk result ((more : List Action)
            → Gives (ahead self.old.rest) self.old.items.items (demand_action (change_set running.now) demand.entry ∷ more)
            (ahead self.new.rest) self.new.items.items more) }
        ensures noted { IsNoted (change_set running.now) last.new }
    {
        let Some(item) = self.rest.first() else {
            return Ok(());
        };
        let left = demand.leaves(alloc, running, last, item)?;
        self.push(left)?;
        self.rest.skip(1);
        Ok(())
    }

    fn push(&mut self, left: Option<Item>) -> Result<(), Memory>
        ensures items { OnOk result (self.new.items.items ≡ with_left self.old.items.items left) }
        ensures rest { ahead self.new.rest ≡ ahead self.old.rest }
    {
        match left {
            Some(item) => {
                self.items.push(item)?;
                Ok(())
            }
            None => Ok(()),
        }
    }
}

fn new_notes(alloc: Global, running: &Changes) -> Result<Notes, Memory>
    ensures { IfOk result (λ notes. notes ≡ new_values (change_set running.now)) }
{
    let mut notes = Notes::new(alloc);
    running.put(alloc, &mut notes)?;
    Ok(notes)
}
