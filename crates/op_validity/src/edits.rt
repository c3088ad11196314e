ghost use Rattle.std.specs.Prelude.{◌≡◌, ◌+◌, ◌++◌, [], List, length, replicate, Some, OnOk, IfOk, IfSome};
ghost use Rattle.doc_items.specs.Changes.{change_set, none_running};
ghost use Rattle.doc_items.specs.declared.item.Item.{Item};
ghost use Rattle.doc_op.specs.Actions.{Action, keep, component_actions};
ghost use Rattle.doc_op.specs.Apply.{apply};
ghost use Rattle.doc_rope.specs.Replacements.{all_replaced, InOrder};
ghost use Rattle.op_validity.specs.Edits.{IsAtPlace, MakesAll, IsClosed};
ghost use Rattle.op_validity.specs.Sources.{ahead};

use crate::rebuild::Rebuild;
use crate::source::Source;
use doc_items::{Changes, Memory};
use doc_op::Component;
use doc_rope::{Insertion, Replacement, Rope};
use std::alloc::Global;
use std::mem;

/// What has to be replaced in a document in pieces to which an operation applies. Retained items over which no changes run
/// stay, and aren't looked at.
#[derive(Drop)]
pub(crate) struct Edits<'a> {
    rope: &'a Rope,
    // What is left of the rope, and the items that come in place of those from `from` on up to what is left.
    build: Rebuild<'a>,
    from: u64,
    done: Vec<Replacement>,
}

impl<'a> Edits<'a> {
    /// Nothing is replaced yet.
    pub fn new(alloc: Global, rope: &'a Rope) -> Edits<'a>
        ensures rope { result.rope.now ≡ rope.now }
        ensures at { IsAtPlace result }
        ensures all { (all : List Action) → MakesAll all result all }
    {
        let build = Rebuild {
            rest: Source::Pieces(rope.reader()),
            items: Vec::new(alloc),
        };
        Edits {
            rope,
            build,
            from: 0,
            done: Vec::new(alloc),
        }
    }

    /// Does what a component says with the items that it takes.
    pub fn step(
        &mut self,
        alloc: Global,
        running: &Changes,
        component: &Component,
    ) -> Result<(), Memory>
        requires { IsAtPlace self.old }
        ensures rope { self.new.rope.now ≡ self.old.rope.now }
        ensures at { OnOk result (IsAtPlace self.new) }
        ensures step { OnOk result
            ((all more : List Action) → MakesAll all self.old (component_actions (change_set running.now) component.now ++ more)
            → MakesAll all self.new more) }
    {
        match passed_over(running, component) {
            Some(count) => self.pass(alloc, count),
            None => self.rebuild(alloc, running, component),
        }
    }

    fn rebuild(
        &mut self,
        alloc: Global,
        running: &Changes,
        component: &Component,
    ) -> Result<(), Memory>
        requires { IsAtPlace self.old }
        ensures rope { self.new.rope.now ≡ self.old.rope.now }
        ensures at { OnOk result (IsAtPlace self.new) }
        ensures step { OnOk result
            ((all more : List Action) → MakesAll all self.old (component_actions (change_set running.now) component.now ++ more)
            → MakesAll all self.new more) }
    {
        self.build.step(alloc, running, component)?;
        Ok(())
    }

    // Passes over retained items.
    fn pass(&mut self, alloc: Global, count: u64) -> Result<(), Memory>
        requires { IsAtPlace self.old }
        ensures rope { self.new.rope.now ≡ self.old.rope.now }
        ensures at { OnOk result (IsAtPlace self.new) }
        ensures step { OnOk result
            ((all more : List Action) → MakesAll all self.old (replicate count (keep none_running) ++ more) → MakesAll all self.new more) }
    {
        self.close(alloc)?;
        self.skip(count);
        Ok(())
    }

    // Goes on after retained items. Where the operation applies, so many are left.
    fn skip(&mut self, count: u64)
        requires at { IsAtPlace self.old }
        requires closed { IsClosed self.old }
        ensures rope { self.new.rope.now ≡ self.old.rope.now }
        ensures at { IsAtPlace self.new }
        ensures step { (all more : List Action) → MakesAll all self.old (replicate count (keep none_running) ++ more)
            → MakesAll all self.new more }
    {
        if count > self.build.rest.len() {
            return;
        }
        // What is passed over lies in the rope, so its end is a place.
        let _whole = self.rope.len();
        self.build.rest.skip(count);
        self.from += count;
    }

    // Writes down what is replaced in front of what is left, if anything is.
    fn close(&mut self, alloc: Global) -> Result<(), Memory>
        requires { IsAtPlace self.old }
        ensures rope { self.new.rope.now ≡ self.old.rope.now }
        ensures at { OnOk result (IsAtPlace self.new) }
        ensures closed { OnOk result (IsClosed self.new) }
        ensures step { OnOk result ((all more : List Action) → MakesAll all self.old more → MakesAll all self.new more) }
    {
        let place = self.rope.len() - self.build.rest.len();
        let count = place - self.from;
        if count == 0 && self.build.items.is_empty() {
            return Ok(());
        }
        self.write_down(alloc, count)
    }

    // Writes down that the items made so far come in place of the next `count` items.
    fn write_down(&mut self, alloc: Global, count: u64) -> Result<(), Memory>
        requires at { IsAtPlace self.old }
        requires count { self.old.from + count + length (ahead self.old.build.rest) ≡ length self.old.rope.now }
        ensures rope { self.new.rope.now ≡ self.old.rope.now }
        ensures at { OnOk result (IsAtPlace self.new) }
        ensures closed { OnOk result (IsClosed self.new) }
        ensures step { OnOk result ((all more : List Action) → MakesAll all self.old more → MakesAll all self.new more) }
    {
        // For the proof: the rope has no more items than a document may.
        let _whole = self.rope.len();
        let items = mem::replace(&mut self.build.items, Vec::new(alloc));
        let items = Insertion::new(alloc, items)?;
        let from = self.from;
        self.done.push(Replacement { from, count, items })?;
        self.from = from + count;
        Ok(())
    }

    /// All replacements, where no actions are left.
    pub fn finish(mut self, alloc: Global) -> Result<Vec<Replacement>, Memory>
        requires { IsAtPlace self }
        ensures order { IfOk result (λ rs. InOrder 0 rs.items (length self.entry.rope.now)) }
        ensures value { IfOk result
            (λ rs. (all : List Action) (out : List Item) → MakesAll all self.entry [] → apply all self.entry.rope.now ≡ Some out
            → all_replaced rs.items self.entry.rope.now ≡ out) }
    {
        self.close(alloc)?;
        Ok(self.done)
    }
}

// The number of items that a component retains without a change.
fn passed_over(running: &Changes, component: &Component) -> Option<u64>
    ensures { IfSome result (λ n. component_actions (change_set running.now) component.now ≡ replicate n (keep none_running)) }
{
    let Component::Retain(count) = component else {
        return None;
    };
    if running.as_slice().is_empty() {
        Some(*count)
    } else {
        None
    }
}
