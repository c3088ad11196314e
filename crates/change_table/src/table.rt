ghost use Rattle.std.specs.Prelude.{◌≡◌, true, IfOk, IfSome, OnOk, OnErr, string_bytes};
ghost use Rattle.std.specs.Option.{option_map};
ghost use Rattle.std.specs.FinMap as finite;
ghost use Rattle.doc_items.specs.Changes.{none_running, after_boundary, key_change};
ghost use Rattle.std.specs.Str.{encode_utf8_all};
ghost use Rattle.change_view.specs.Lists.{value_of, entry_of};
ghost use Rattle.change_view.specs.Texts.{is_text_change};
ghost use Rattle.change_table.specs.Joints.{IsTurn};
ghost use Rattle.change_table.specs.Tables.{with_entry};

use crate::turn::between;
use change_view::{ChangeRef, ChangeView, Rule};
use doc_items::{Boundary, Change, Memory};
use std::alloc::Global;
use std::collections::BTreeMap;
use std::marker::Model;

/// Changes by their keys, seen as the change set.
#[derive(Drop)]
pub struct ChangeTable {
    map: BTreeMap<String, Change>,
}

impl Model for ChangeTable {
    ghost use Rattle.doc_items.specs.Changes.{ChangeSet};
    ghost use Rattle.change_view.specs.Codes.{change_set_code};
    ghost use Rattle.change_table.specs.Tables.{table_of};

    ghost Value = { ChangeSet };

    ghost coded = { change_set_code };

    ghost view = { λ t. table_of t.map.entries };
}

impl ChangeTable {
    /// No changes.
    pub fn new(alloc: Global) -> ChangeTable
        ensures { result ≡ none_running }
    {
        ChangeTable {
            map: BTreeMap::new(alloc),
        }
    }

    /// The change of a key; None exactly where the key has none.
    pub fn at(&self, key: &str) -> Option<ChangeRef<'_>>
        ensures value { option_map value_of result ≡ finite.get self.now key.now }
        ensures key { IfSome result (λ c. c.key.now ≡ key.now) }
    {
        match self.map.get_key_value(key) {
            Some((key, change)) => Some(stored(key, change)),
            None => None,
        }
    }

    /// Goes past a boundary: its ends stop, and its changes run from there on. After want of memory it may have gone past a part.
    pub fn step(&mut self, alloc: Global, boundary: &Boundary) -> Result<(), Memory>
        ensures { OnOk result (self.new ≡ after_boundary self.old boundary.now) }
    {
        for key in boundary.end.as_slice() {
            self.remove(key.as_str());
        }
        for change in boundary.change.as_slice() {
            self.put(alloc, change.copy(alloc)?)?;
        }
        Ok(())
    }

    /// Adds the change, if there is one.
    pub(crate) fn add(&mut self, alloc: Global, change: Option<ChangeRef<'_>>) -> Result<(), Memory>
        ensures { OnOk result (self.new ≡ with_entry self.old (option_map entry_of change.entry)) }
    {
        match change {
            Some(change) => self.put(alloc, change.to_change(alloc)?),
            None => Ok(()),
        }
    }

    /// Takes a key away.
    pub(crate) fn remove(&mut self, key: &str)
        ensures { self.new ≡ finite.remove self.old key.now }
    {
        let _old = self.map.remove(key);
    }

    /// Sets the change of its key. After want of memory they are as they were.
    pub(crate) fn put(&mut self, alloc: Global, change: Change) -> Result<(), Memory>
        ensures ok { OnOk result (self.new ≡ finite.insert self.old (encode_utf8_all change.key) (key_change change)) }
        ensures kept { OnErr result (self.new ≡ self.old) }
    {
        let key = String::from_str(alloc, change.key.as_str())?;
        let _old = self.map.insert(key, change)?;
        Ok(())
    }

    /// The boundary that leads from these changes to the listed ones; None exactly where they are the same.
    pub fn turn_to(&self, alloc: Global, shown: &ChangeView<'_>) -> Result<Option<Boundary>, Memory>
        ensures { IfOk result (λ turn. IsTurn turn self.now shown.now) }
    {
        let written = self.view(alloc)?;
        if written.is_empty() && shown.is_empty() {
            return Ok(None);
        }
        let ended = written.merged(alloc, shown, Rule::Under)?;
        let changed = shown.merged(alloc, &written, Rule::Unlike)?;
        let turn = between(alloc, &ended, &changed)?;
        Ok(turn)
    }

    /// The changes in byte order of their keys.
    pub fn view(&self, alloc: Global) -> Result<ChangeView<'_>, Memory>
        ensures { IfOk result (λ v. v ≡ self.now) }
    {
        if self.map.len() == 0 {
            return Ok(ChangeView::empty(alloc));
        }
        let mut list = Vec::new(alloc);
        for (key, change) in self.map.iter() {
            list.push(stored(key, change))?;
        }
        Ok(ChangeView::of_rising(list))
    }
}

// A change as it is stored with its key.
fn stored<'a>(key: &'a String, change: &'a Change) -> ChangeRef<'a>
    ensures same { entry_of result ≡ (string_bytes key.now, key_change change.now) }
    ensures texts { is_text_change result.key.now (value_of result) ≡ true }
{
    let of_change = ChangeRef::of(change);
    ChangeRef {
        key: key.as_str(),
        old: of_change.old,
        new: of_change.new,
    }
}
