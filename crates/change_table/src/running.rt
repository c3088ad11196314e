// The changes that run at a place of an operation.
ghost use Rattle.std.specs.Prelude.{◌≡◌, ◌≢◌, true, false, MatchBool, Some, None, OnOk, OnErr, option_and_then};
ghost use Rattle.std.specs.FinMap as finite;
ghost use Rattle.std.specs.Str.{encode_utf8_all};
ghost use Rattle.doc_items.specs.Maps.{Key};
ghost use Rattle.doc_items.specs.Changes.{none_running, after_boundary, key_change};
ghost use Rattle.change_view.specs.Sets.{one_inserted, one_deleted, as_inserted, as_deleted};
ghost use Rattle.change_table.specs.Keys.{Touches};
ghost use Rattle.change_table.specs.Otherwise.{AddsKeysOf};

use crate::{ChangeTable, Touched};
use doc_items::{Boundary, Change, Memory};
use std::alloc::Global;
use std::marker::Model;

/// The changes that run at a place, seen as the change set, with those of them that an insertion or a deletion shows otherwise.
pub struct RunningChanges {
    all: ChangeTable,
    // An insertion shows a change otherwise that isn't from absent to a value, and a deletion one that isn't to absent.
    inserted: ChangeTable,
    deleted: ChangeTable,
}

impl Drop for RunningChanges {
    fn drop(self) {
        let RunningChanges {
            all: _all,
            inserted: _inserted,
            deleted: _deleted,
        } = self;
    }
}

impl Model for RunningChanges {
    ghost use Rattle.doc_items.specs.Changes.{ChangeSet};
    ghost use Rattle.change_view.specs.Codes.{change_set_code};
    ghost use Rattle.change_view.specs.Sets.{as_inserted, as_deleted};
    ghost use Rattle.change_table.specs.Otherwise.{AreOthers};

    ghost Value = { ChangeSet };

    ghost coded = { change_set_code };

    ghost view = { λ r. r.all };

    ghost invariant = { λ r. AreOthers as_inserted r.all r.inserted × AreOthers as_deleted r.all r.deleted };
}

impl RunningChanges {
    /// No changes.
    pub fn new(alloc: Global) -> RunningChanges
        ensures { result ≡ none_running }
    {
        RunningChanges {
            all: ChangeTable::new(alloc),
            inserted: ChangeTable::new(alloc),
            deleted: ChangeTable::new(alloc),
        }
    }

    /// The changes, by their keys.
    pub fn table(&self) -> &ChangeTable
        ensures { result.now ≡ self.now }
    {
        &self.all
    }

    /// Goes past a boundary: its ends stop, and its changes run from there on. After want of memory it may have gone past a part.
    pub fn step(&mut self, alloc: Global, boundary: &Boundary) -> Result<(), Memory>
        ensures { OnOk result (self.new ≡ after_boundary self.old boundary.now) }
    {
        for key in boundary.end.as_slice() {
            self.stop(key.as_str());
        }
        for change in boundary.change.as_slice() {
            self.start(alloc, change)?;
        }
        Ok(())
    }

    // A key's change ends.
    fn stop(&mut self, key: &str)
        ensures { self.new ≡ finite.remove self.old key.now }
    {
        self.all.remove(key);
        self.inserted.remove(key);
        self.deleted.remove(key);
    }

    // A change starts, in the place of one of its key.
    fn start(&mut self, alloc: Global, change: &Change) -> Result<(), Memory>
        ensures { OnOk result (self.new ≡ finite.insert self.old (encode_utf8_all change.now.key) (key_change change.now)) }
    {
        let inserted_so = starts_absent(change);
        let deleted_so = ends_absent(change);
        note(alloc, &mut self.inserted, inserted_so, change)?;
        note(alloc, &mut self.deleted, deleted_so, change)?;
        self.all.put(alloc, change.copy(alloc)?)?;
        settle(&mut self.inserted, inserted_so, change);
        settle(&mut self.deleted, deleted_so, change);
        Ok(())
    }

    /// Notes the keys at which an insertion shows something else than what runs. After want of memory a part of them may be noted.
    pub fn add_inserted(&self, alloc: Global, touched: &mut Touched) -> Result<(), Memory>
        ensures { OnOk result (Touches touched.old self.now touched.new (as_inserted self.now)) }
    {
        add_keys(alloc, &self.inserted, touched)
    }

    /// Notes the keys at which a deletion shows something else than what runs. After want of memory a part of them may be noted.
    pub fn add_deleted(&self, alloc: Global, touched: &mut Touched) -> Result<(), Memory>
        ensures { OnOk result (Touches touched.old self.now touched.new (as_deleted self.now)) }
    {
        add_keys(alloc, &self.deleted, touched)
    }
}

// Whether the change is from absent to a value, as an insertion shows it.
fn starts_absent(change: &Change) -> bool
    ensures { result ≡ true → option_and_then one_inserted (Some (key_change change.now)) ≡ Some (key_change change.now) }
{
    match &change.old {
        None => change.new.is_some(),
        Some(_) => false,
    }
}

// Whether the change is to absent, as a deletion shows it.
fn ends_absent(change: &Change) -> bool
    ensures { result ≡ true → one_deleted (key_change change.now) ≡ key_change change.now }
{
    change.new.is_none()
}

// The key is among the others, unless its change is shown as it is.
fn note(
    alloc: Global,
    others: &mut ChangeTable,
    shown_so: bool,
    change: &Change,
) -> Result<(), Memory>
    ensures more { (q : Key) → finite.get others.new q ≡ None → finite.get others.old q ≡ None }
    ensures there { OnOk result (shown_so ≡ false → finite.get others.new (encode_utf8_all change.now.key) ≢ None) }
{
    if shown_so {
        return Ok(());
    }
    others.put(alloc, change.copy(alloc)?)
}

// The key isn't among the others, if its change is shown as it is.
fn settle(others: &mut ChangeTable, shown_so: bool, change: &Change)
    ensures { MatchBool shown_so (others.new ≡ finite.remove others.old (encode_utf8_all change.now.key)) (others.new ≡ others.old) }
{
    if shown_so {
        others.remove(change.key.as_str());
    }
}

// Notes the keys of these changes, unless they may be any.
fn add_keys(alloc: Global, others: &ChangeTable, touched: &mut Touched) -> Result<(), Memory>
    ensures { OnOk result (AddsKeysOf others.now touched.old touched.new) }
{
    if touched.keys().is_none() {
        return Ok(());
    }
    let view = others.view(alloc)?;
    // For the proof: keys are texts.
    let _texts = view.as_slice();
    let keys = view.to_keys(alloc)?;
    touched.extend(keys.into_vec())
}
