ghost use Rattle.std.specs.Prelude.{◌≡◌, [], OnOk, OnErr};
ghost use Rattle.doc_items.specs.Changes.{IsAscending, Fits, change_set, after_boundary};

use crate::edit::{start_all, stop_all};
use doc_items::{Boundary, Changes, Memory};
use std::alloc::{AllocError, Global};
use std::marker::Model;
use std::mem;

/// The changes that run at a place of an operation, seen as a list in byte order of their keys.
pub struct Track {
    running: Changes,
}

impl Drop for Track {
    fn drop(self) {
        let Track { running: _running } = self;
    }
}

impl Model for Track {
    ghost use Rattle.std.specs.Prelude.{List};
    ghost use Rattle.std.specs.Coded.{coded_list};
    ghost use Rattle.doc_items.specs.declared.change.Change.{Change};
    ghost use Rattle.doc_items.specs.contracts.change.Change as change_row;
    ghost use Rattle.doc_items.specs.Changes.{IsAscending};

    ghost Value = { List Change };

    ghost coded = { coded_list change_row.the_row.coded };

    ghost view = { λ t. t.running };

    ghost invariant = { λ t. IsAscending t.running };
}

impl Track {
    /// No changes.
    pub fn new(alloc: Global) -> Track
        ensures { result ≡ [] }
    {
        Track {
            running: Changes::from_vec(Vec::new(alloc)),
        }
    }

    /// Goes past a boundary: its ends stop, and its changes run from there on. After want of memory the track is as it was.
    pub fn step(&mut self, alloc: Global, boundary: &Boundary) -> Result<(), Memory>
        requires { Fits (change_set self.old) boundary.now }
        ensures passed { OnOk result (change_set self.new ≡ after_boundary (change_set self.old) boundary.now) }
        ensures kept { OnErr result (self.new ≡ self.old) }
    {
        let fresh = boundary.change.copy(alloc)?.into_vec();
        let none = Changes::from_vec(Vec::new(alloc));
        let mut list = mem::replace(&mut self.running, none).into_vec();
        if list.reserve(fresh.len()).is_err() {
            self.running = Changes::from_vec(list);
            return Err(AllocError);
        }
        stop_all(&mut list, boundary.end.as_slice());
        start_all(&mut list, fresh);
        self.running = Changes::from_vec(list);
        Ok(())
    }

    /// The running changes, in byte order of their keys.
    pub fn running(&self) -> &Changes
        ensures value { result.now ≡ self.now }
        ensures ascending { IsAscending self.now }
    {
        &self.running
    }
}
