ghost use Rattle.std.specs.Prelude.{◌≡◌, ◌≤◌, ◌+◌, ◌++◌, ◌∷◌, [], List, ℕ, length, map, replicate, MatchResult};
ghost use Rattle.doc_items.specs.Limits.{max_count};
ghost use Rattle.doc_items.specs.Changes.{IsAscending, change_set, none_running};
ghost use Rattle.doc_items.specs.declared.item.Content.TheVariants.{Character};
ghost use Rattle.doc_op.specs.Actions.{Action, keep, insertion, deletion, component_actions};

use crate::CheckFault;
use crate::demand::Demand;
use crate::source::Source;
use doc_items::{Changes, Text};
use doc_op::Component;
use std::alloc::Global;

/// A walk over a document: the items that are left, and the place of the first of them.
#[derive(Drop)]
pub(crate) struct Walk<'a> {
    pub rest: Source<'a>,
    pub place: u64,
}

impl Walk<'_> {
    ghost use Rattle.op_validity.specs.Sources.{ahead};
    ghost use Rattle.op_validity.specs.Walks.{Same, Stops, IsFit, IsFitDemand, demand_action};

    /// Goes past the items that a component takes, if they agree with it.
    pub fn step(
        &mut self,
        alloc: Global,
        running: &Changes,
        component: &Component,
    ) -> Result<(), CheckFault>
        requires running { IsAscending running.now }
        requires fit { IsFit component.now }
        requires bound { self.old.place + length (ahead self.old.rest) ≤ max_count }
        ensures step { (more : List Action) → MatchResult result
            (λ _. Same self.old.place (ahead self.old.rest)
            (component_actions (change_set running.now) component.now ++ more) self.new.place (ahead self.new.rest) more)
            (λ e. Stops e self.old.place (ahead self.old.rest) (component_actions (change_set running.now) component.now ++ more)) }
        ensures bound { self.new.place + length (ahead self.new.rest) ≤ max_count }
    {
        match component {
            Component::Retain(count) => self.keep(running, *count),
            Component::Characters(_) => Ok(()),
            Component::ElementStart { .. } => Ok(()),
            Component::ElementEnd => Ok(()),
            Component::DeleteCharacters(text) => self.delete(alloc, running, text),
            Component::DeleteElementStart { kind, attributes } => {
                self.take(running, Demand::Start { kind, attributes })
            }
            Component::DeleteElementEnd => self.take(running, Demand::End),
            Component::ReplaceAttributes { old, new } => {
                self.take(running, Demand::Replace { old, new })
            }
            Component::UpdateAttributes(changes) => self.take(running, Demand::Update(changes)),
            Component::AnnotationBoundary(_) => Ok(()),
        }
    }

    // Goes past the next items, if they agree with the running changes.
    fn keep(&mut self, running: &Changes, count: u64) -> Result<(), CheckFault>
        requires running { IsAscending running.now }
        requires bound { self.old.place + length (ahead self.old.rest) ≤ max_count }
        ensures step { (more : List Action) → MatchResult result
            (λ _. Same self.old.place (ahead self.old.rest) (replicate count (keep (change_set running.now)) ++ more) self.new.place
            (ahead self.new.rest) more)
            (λ e. Stops e self.old.place (ahead self.old.rest) (replicate count (keep (change_set running.now)) ++ more)) }
        ensures bound { self.new.place + length (ahead self.new.rest) ≤ max_count }
    {
        if running.as_slice().is_empty() {
            self.skip(count)
        } else {
            self.keep_each(running, count)
        }
    }

    // Goes past the next items, which agree, since no changes run.
    fn skip(&mut self, count: u64) -> Result<(), CheckFault>
        requires { self.old.place + length (ahead self.old.rest) ≤ max_count }
        ensures step { (more : List Action) → MatchResult result
            (λ _. Same self.old.place (ahead self.old.rest) (replicate count (keep none_running) ++ more) self.new.place
            (ahead self.new.rest) more)
            (λ e. Stops e self.old.place (ahead self.old.rest) (replicate count (keep none_running) ++ more)) }
        ensures bound { self.new.place + length (ahead self.new.rest) ≤ max_count }
    {
        if count > self.rest.len() {
            return Err(CheckFault::WrongLength);
        }
        self.rest.skip(count);
        self.place += count;
        Ok(())
    }

    fn keep_each(&mut self, running: &Changes, count: u64) -> Result<(), CheckFault>
        requires running { IsAscending running.now }
        requires bound { self.old.place + length (ahead self.old.rest) ≤ max_count }
        ensures step { (more : List Action) → MatchResult result
            (λ _. Same self.old.place (ahead self.old.rest) (replicate count (keep (change_set running.now)) ++ more) self.new.place
            (ahead self.new.rest) more)
            (λ e. Stops e self.old.place (ahead self.old.rest) (replicate count (keep (change_set running.now)) ++ more)) }
        ensures bound { self.new.place + length (ahead self.new.rest) ≤ max_count }
    {
        let mut left = count;
        while left > 0 {
            self.take(running, Demand::Keep)?;
            left -= 1;
        }
        Ok(())
    }

    // Goes past the next items, if they are these characters and agree with the running changes.
    fn delete(&mut self, alloc: Global, running: &Changes, text: &Text) -> Result<(), CheckFault>
        requires running { IsAscending running.now }
        requires bound { self.old.place + length (ahead self.old.rest) ≤ max_count }
        ensures step { (more : List Action) → MatchResult result
            (λ _. Same self.old.place (ahead self.old.rest)
            (map (λ c. deletion (change_set running.now) (Character c)) text.now ++ more) self.new.place (ahead self.new.rest) more)
            (λ e. Stops e self.old.place (ahead self.old.rest)
            (map (λ c. deletion (change_set running.now) (Character c)) text.now ++ more)) }
        ensures bound { self.new.place + length (ahead self.new.rest) ≤ max_count }
    {
        let chars = text.to_chars(alloc)?;
        self.delete_each(running, chars.as_slice())
    }

    fn delete_each(&mut self, running: &Changes, chars: &[char]) -> Result<(), CheckFault>
        requires running { IsAscending running.now }
        requires bound { self.old.place + length (ahead self.old.rest) ≤ max_count }
        ensures step { (more : List Action) → MatchResult result
            (λ _. Same self.old.place (ahead self.old.rest)
            (map (λ c. deletion (change_set running.now) (Character c)) chars.now ++ more) self.new.place (ahead self.new.rest) more)
            (λ e. Stops e self.old.place (ahead self.old.rest)
            (map (λ c. deletion (change_set running.now) (Character c)) chars.now ++ more)) }
        ensures bound { self.new.place + length (ahead self.new.rest) ≤ max_count }
    {
        for c in chars {
            self.take(running, Demand::Character(*c))?;
        }
        Ok(())
    }

    // Goes past the next item, if it meets the demand.
    fn take(&mut self, running: &Changes, demand: Demand<'_>) -> Result<(), CheckFault>
        requires running { IsAscending running.now }
        requires fit { IsFitDemand demand }
        requires bound { self.old.place + length (ahead self.old.rest) ≤ max_count }
        ensures step { (more : List Action) → MatchResult result
            (λ _. Same self.old.place (ahead self.old.rest) (demand_action (change_set running.now) demand.entry ∷ more) self.new.place
            (ahead self.new.rest) more)
            (λ e. Stops e self.old.place (ahead self.old.rest) (demand_action (change_set running.now) demand.entry ∷ more)) }
        ensures bound { self.new.place + length (ahead self.new.rest) ≤ max_count }
    {
        let Some(item) = self.rest.first() else {
            return Err(CheckFault::WrongLength);
        };
        if !demand.is_met(running, item) {
            return Err(CheckFault::Mismatch(self.place));
        }
        self.rest.skip(1);
        self.place += 1;
        Ok(())
    }
}
