ghost use Rattle.std.specs.Prelude.{◌≡◌, ◌||◌, false, OnOk};
ghost use Rattle.std.specs.Ordering.{nat_cmp, eq_by_cmp};
ghost use Rattle.std.specs.Cmp.Lexicographic.{slice_cmp};
ghost use Rattle.doc_items.specs.Maps.{Key};
ghost use Rattle.std.specs.FinMap as finite;
ghost use Rattle.doc_items.specs.Changes.{ChangeSet, none_running, without, with_changes, after_boundary};
ghost use Rattle.doc_op.specs.Running.{on_at, IsThere, AreThere, IsSwitched, HasSwitches, Follows, SameSwitches, KeepsThere};
ghost use Rattle.doc_op.specs.Actions.{running_after};

use crate::Component;
use doc_items::{Boundary, Change, Memory, Text};
use std::alloc::Global;
use std::collections::BTreeMap;
use std::marker::Model;

/// A switch for each key that was ever named, which is on while the key runs. So memory is taken for the keys of a boundary
/// before any of them is switched.
#[derive(Drop)]
pub(crate) struct RunningKeys {
    switches: BTreeMap<String, bool>,
}

impl Model for RunningKeys {
    ghost use Rattle.std.specs.Prelude.{ℕ, Bool};
    ghost use Rattle.std.specs.Coded.{coded_ℕ, coded_bool, coded_list};
    ghost use Rattle.std.specs.FinMap as finite;
    ghost use Rattle.doc_items.specs.Maps.{Map, strings};

    ghost Value = { Map Bool };

    ghost coded = { finite.code (coded_list coded_ℕ) coded_bool };

    ghost view = { λ r. strings r.switches.entries };
}

impl RunningKeys {
    /// No keys.
    pub fn new(alloc: Global) -> RunningKeys
        ensures none { Follows none_running result }
        ensures off { (q : Key) → on_at result q ≡ false }
    {
        RunningKeys {
            switches: BTreeMap::new(alloc),
        }
    }

    /// Whether the key runs.
    pub fn runs(&self, key: &str) -> bool
        ensures { result ≡ on_at self.now key.now }
    {
        match self.switches.get(key) {
            Some(on) => *on,
            None => false,
        }
    }

    /// The key runs from now on.
    pub fn insert(&mut self, alloc: Global, key: &str) -> Result<(), Memory>
        ensures { OnOk result ((q : Key) → on_at self.new q ≡ (on_at self.old q || eq_by_cmp (slice_cmp nat_cmp) q key.now)) }
    {
        self.reserve(alloc, key)?;
        self.switch(key, true);
        Ok(())
    }

    // Gives the key a switch, off where it is new.
    fn reserve(&mut self, alloc: Global, key: &str) -> Result<(), Memory>
        ensures there { OnOk result (IsThere self.new key.now) }
        ensures same { SameSwitches self.old self.new }
        ensures kept { KeepsThere self.old self.new }
    {
        if self.switches.contains_key(key) {
            return Ok(());
        }
        let stored = String::from_str(alloc, key)?;
        self.switches.insert(stored, false)?;
        Ok(())
    }

    fn switch(&mut self, key: &str, on: bool)
        ensures { IsSwitched self.old key.now on self.new }
    {
        let Some(switch) = self.switches.get_mut(key) else {
            return;
        };
        *switch = on;
    }

    // Gives the key of each change a switch.
    fn reserve_all(&mut self, alloc: Global, changes: &[Change]) -> Result<(), Memory>
        ensures there { OnOk result (AreThere self.new changes.now) }
        ensures same { SameSwitches self.old self.new }
    {
        for change in changes {
            self.reserve(alloc, change.key.as_str())?;
        }
        Ok(())
    }

    fn stop_all(&mut self, ends: &[Text])
        ensures follows { (u : ChangeSet) → Follows u self.old → Follows (without u ends.now) self.new }
        ensures kept { KeepsThere self.old self.new }
    {
        for key in ends {
            self.switch(key.as_str(), false);
        }
    }

    fn start_all(&mut self, changes: &[Change])
        requires { AreThere self.old changes.now }
        ensures { (u : ChangeSet) → Follows u self.old → Follows (with_changes u changes.now) self.new }
    {
        for change in changes {
            self.switch(change.key.as_str(), true);
        }
    }

    /// Takes the memory to go past a component.
    pub fn reserve_for(&mut self, alloc: Global, component: &Component) -> Result<(), Memory>
        ensures there { OnOk result (HasSwitches self.new component.now) }
        ensures same { SameSwitches self.old self.new }
    {
        match component {
            Component::AnnotationBoundary(boundary) => {
                self.reserve_all(alloc, boundary.change.as_slice())
            }
            Component::Retain(_) => Ok(()),
            Component::Characters(_) => Ok(()),
            Component::ElementStart { .. } => Ok(()),
            Component::ElementEnd => Ok(()),
            Component::DeleteCharacters(_) => Ok(()),
            Component::DeleteElementStart { .. } => Ok(()),
            Component::DeleteElementEnd => Ok(()),
            Component::ReplaceAttributes { .. } => Ok(()),
            Component::UpdateAttributes(_) => Ok(()),
        }
    }

    /// Goes past a component: at a boundary its ends stop, and its changes run.
    pub fn pass(&mut self, component: &Component)
        requires { HasSwitches self.old component.now }
        ensures { (u : ChangeSet) → Follows u self.old → Follows (running_after u component.now) self.new }
    {
        match component {
            Component::AnnotationBoundary(boundary) => self.pass_boundary(boundary),
            Component::Retain(_) => {}
            Component::Characters(_) => {}
            Component::ElementStart { .. } => {}
            Component::ElementEnd => {}
            Component::DeleteCharacters(_) => {}
            Component::DeleteElementStart { .. } => {}
            Component::DeleteElementEnd => {}
            Component::ReplaceAttributes { .. } => {}
            Component::UpdateAttributes(_) => {}
        }
    }

    fn pass_boundary(&mut self, boundary: &Boundary)
        requires { AreThere self.old boundary.now.change }
        ensures { (u : ChangeSet) → Follows u self.old → Follows (after_boundary u boundary.now) self.new }
    {
        self.stop_all(boundary.end.as_slice());
        self.start_all(boundary.change.as_slice());
    }
}
