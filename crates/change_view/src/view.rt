ghost use Rattle.std.specs.Prelude.{◌≡◌, ◌==◌, [], length, map, IfOk};
ghost use Rattle.std.specs.FinMap as finite;
ghost use Rattle.doc_items.specs.Changes.{IsAscending, none_running, change_set, agrees, put, back};
ghost use Rattle.change_view.specs.Sets.{joined, passes, start_at, as_inserted, as_deleted, from_absent};
ghost use Rattle.change_view.specs.Texts.{AreTexts, change_list, key_list};
ghost use Rattle.change_view.specs.Lists.{entry_of, view_of, IsView};

use crate::{ChangeRef, Rule, Test, lists, meet};
use doc_items::{Changes, Keys, Memory, TextMap};
use std::alloc::Global;
use std::marker::Model;

/// A change set whose texts stand elsewhere.
#[derive(Drop)]
pub struct ChangeView<'a> {
    list: Vec<ChangeRef<'a>>,
}

impl<'a> Model for ChangeView<'a> {
    ghost use Rattle.doc_items.specs.Changes.{ChangeSet};
    ghost use Rattle.change_view.specs.Codes.{change_set_code};
    ghost use Rattle.change_view.specs.Lists.{view_of, IsView};

    ghost Value = { ChangeSet };

    ghost coded = { change_set_code };

    ghost view = { λ v. view_of v.list.items };

    ghost invariant = { λ v. IsView v.list.items };
}

impl<'a> ChangeView<'a> {
    /// No changes.
    pub fn empty(alloc: Global) -> ChangeView<'a>
        ensures { result ≡ none_running }
    {
        ChangeView {
            list: Vec::new(alloc),
        }
    }

    /// The change set of a list.
    pub fn of(alloc: Global, changes: &'a Changes) -> Result<ChangeView<'a>, Memory>
        requires { IsAscending changes.now }
        ensures { IfOk result (λ v. v ≡ change_set changes.now) }
    {
        let list = lists::borrowed(alloc, changes.as_slice())?;
        Ok(ChangeView { list })
    }

    /// The change set of borrowed texts whose keys rise in byte order.
    pub fn of_rising(list: Vec<ChangeRef<'a>>) -> ChangeView<'a>
        requires { IsView list.items }
        ensures { result ≡ view_of list.entry.items }
    {
        ChangeView { list }
    }

    /// Each key of a map, as absent before.
    pub fn of_map(alloc: Global, map: &'a TextMap) -> Result<ChangeView<'a>, Memory>
        ensures { IfOk result (λ v. v ≡ from_absent map.now) }
    {
        let list = lists::of_map(alloc, map)?;
        Ok(ChangeView { list })
    }

    /// Whether there are no changes.
    pub fn is_empty(&self) -> bool
        ensures { result ≡ (finite.len self.now == 0) }
    {
        self.list.as_slice().is_empty()
    }

    /// The changes, in byte order of their keys.
    pub fn as_slice(&self) -> &[ChangeRef<'a>]
        ensures value { map entry_of result.now ≡ finite.entries self.now }
        ensures texts { AreTexts self.now }
    {
        self.list.as_slice()
    }

    /// What the rule makes of the two change sets.
    pub fn merged(
        &self,
        alloc: Global,
        other: &ChangeView<'a>,
        rule: Rule,
    ) -> Result<ChangeView<'a>, Memory>
        ensures { IfOk result (λ v. v ≡ joined rule self.now other.now) }
    {
        let list = meet::merged(alloc, self.list.as_slice(), other.list.as_slice(), rule)?;
        Ok(ChangeView { list })
    }

    /// Whether the two change sets pass the test at each key.
    pub fn passes(&self, other: &ChangeView<'_>, test: Test) -> bool
        ensures { result ≡ passes test self.now other.now }
    {
        meet::passes(self.list.as_slice(), other.list.as_slice(), test)
    }

    /// The changes with old and new values exchanged.
    pub fn turned(&self, alloc: Global) -> Result<ChangeView<'a>, Memory>
        ensures { IfOk result (λ v. v ≡ back self.now) }
    {
        let list = lists::turned(alloc, self.list.as_slice())?;
        Ok(ChangeView { list })
    }

    /// The keys with a new value, as absent before.
    pub fn inserted(&self, alloc: Global) -> Result<ChangeView<'a>, Memory>
        ensures { IfOk result (λ v. v ≡ as_inserted self.now) }
    {
        let list = lists::inserted(alloc, self.list.as_slice())?;
        Ok(ChangeView { list })
    }

    /// The keys with their old values, as absent afterwards.
    pub fn deleted(&self, alloc: Global) -> Result<ChangeView<'a>, Memory>
        ensures { IfOk result (λ v. v ≡ as_deleted self.now) }
    {
        let list = lists::deleted(alloc, self.list.as_slice())?;
        Ok(ChangeView { list })
    }

    /// The keys, from the map's values to their own new ones.
    pub fn start_at(&self, alloc: Global, map: &'a TextMap) -> Result<ChangeView<'a>, Memory>
        ensures { IfOk result (λ v. v ≡ start_at self.now map.now) }
    {
        let values = ChangeView::of_map(alloc, map)?;
        let started = self.merged(alloc, &values, Rule::Starting)?;
        Ok(started)
    }

    /// Whether the map has each old value.
    pub fn fits(&self, map: &TextMap) -> bool
        ensures { result ≡ agrees self.now map.now }
    {
        lists::fits(self.list.as_slice(), map)
    }

    /// The map with each new value.
    pub fn put_on(&self, alloc: Global, map: &TextMap) -> Result<TextMap, Memory>
        ensures { IfOk result (λ m. m ≡ put self.now map.now) }
    {
        let mut copy = map.copy()?;
        lists::put(alloc, self.list.as_slice(), &mut copy)?;
        Ok(copy)
    }

    /// The list of the changes, in byte order of their keys.
    pub fn to_changes(&self, alloc: Global) -> Result<Changes, Memory>
        ensures list { IfOk result (λ cs. cs ≡ change_list self.now) }
        ensures ascending { IfOk result (λ cs. IsAscending cs) }
        ensures value { IfOk result (λ cs. change_set cs ≡ self.now) }
    {
        let list = lists::owned(alloc, self.list.as_slice())?;
        Ok(Changes::from_vec(list))
    }

    /// The list of the keys, in byte order.
    pub fn to_keys(&self, alloc: Global) -> Result<Keys, Memory>
        ensures { IfOk result (λ ks. ks ≡ key_list self.now) }
    {
        let list = lists::keys(alloc, self.list.as_slice())?;
        Ok(Keys::from_vec(list))
    }
}
