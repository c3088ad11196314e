ghost use Rattle.std.specs.Prelude.{◌≡◌, Some, IfOk, OnOk, OnErr, option_map};
ghost use Rattle.std.specs.Option.{option_copied};
ghost use Rattle.std.specs.Str.{encode_utf8_all};
ghost use Rattle.std.specs.FinMap.{get};
ghost use Rattle.doc_items.specs.Maps.{set_key};
ghost use Rattle.doc_items.specs.Changes.{IsAscending, key_change, change_set, fits_old, agrees, put};

use crate::{Memory, Text, TextMap};
use std::alloc::Global;
use std::marker::Model;

/// What becomes of the value at a key: the old value, which is checked, and the new one. Each may be absent.
pub struct Change {
    pub key: Text,
    pub old: Option<Text>,
    pub new: Option<Text>,
}

impl Drop for Change {
    fn drop(self) {
        let Change {
            key: _key,
            old: _old,
            new: _new,
        } = self;
    }
}

impl Change {
    // Whether the map has the old value.
    fn fits_in(&self, map: &TextMap) -> bool
        ensures { result ≡ fits_old (Some (key_change self.now)) (get map.now (encode_utf8_all self.now.key)) }
    {
        self.fits(map.get(self.key.as_str()))
    }

    // Sets the new value.
    fn put_in(&self, alloc: Global, map: &mut TextMap) -> Result<(), Memory>
        ensures { OnOk result (map.new ≡ set_key map.old (encode_utf8_all self.now.key) (option_map encode_utf8_all self.now.new)) }
    {
        map.set(alloc, self.key.as_str(), self.new_value())
    }

    // Whether the value is the old one.
    fn fits(&self, value: Option<&str>) -> bool
        ensures { result ≡ fits_old (Some (key_change self.now)) (option_copied value.entry) }
    {
        match (&self.old, value) {
            (Some(old), Some(value)) => old.as_str() == value,
            (None, None) => true,
            (Some(_), None) => false,
            (None, Some(_)) => false,
        }
    }

    fn new_value(&self) -> Option<&str>
        ensures { option_copied result ≡ option_map encode_utf8_all self.now.new }
    {
        match &self.new {
            Some(new) => Some(new.as_str()),
            None => None,
        }
    }

    /// An equal change.
    pub fn copy(&self, alloc: Global) -> Result<Change, Memory>
        ensures { IfOk result (λ c. c ≡ self.now) }
    {
        let key = self.key.copy(alloc)?;
        let old = copy_value(alloc, &self.old)?;
        let new = copy_value(alloc, &self.new)?;
        Ok(Change { key, old, new })
    }
}

fn copy_value(alloc: Global, value: &Option<Text>) -> Result<Option<Text>, Memory>
    ensures { IfOk result (λ v. v ≡ value.now) }
{
    match value {
        Some(text) => Ok(Some(text.copy(alloc)?)),
        None => Ok(None),
    }
}

/// A list of changes.
#[derive(Drop)]
pub struct Changes {
    list: Vec<Change>,
}

impl Model for Changes {
    ghost use Rattle.std.specs.Prelude.{List};
    ghost use Rattle.doc_items.specs.declared.change.Change.{Change};

    ghost Value = { List Change };

    ghost view = { λ c. c.list.items };
}

impl Changes {
    /// The list of these changes.
    pub fn from_vec(list: Vec<Change>) -> Changes
        ensures { result ≡ list.items }
    {
        Changes { list }
    }

    /// The changes, which the list gives up.
    pub fn into_vec(self) -> Vec<Change>
        ensures { result.items ≡ self }
    {
        self.list
    }

    /// The changes, in order.
    pub fn as_slice(&self) -> &[Change]
        ensures { result.now ≡ self.now }
    {
        self.list.as_slice()
    }

    /// Whether the map has each old value.
    pub fn agrees(&self, map: &TextMap) -> bool
        requires { IsAscending self.now }
        ensures { result ≡ agrees (change_set self.now) map.now }
    {
        for change in self.list.as_slice() {
            if !change.fits_in(map) {
                return false;
            }
        }
        true
    }

    /// Sets each new value. After want of memory the map is as it was.
    pub fn put(&self, alloc: Global, map: &mut TextMap) -> Result<(), Memory>
        ensures ok { OnOk result (map.new ≡ put (change_set self.now) map.old) }
        ensures err { OnErr result (map.new ≡ map.old) }
    {
        let mut copy = map.copy()?;
        self.put_each(alloc, &mut copy)?;
        *map = copy;
        Ok(())
    }

    // Sets each new value. After want of memory some are set.
    fn put_each(&self, alloc: Global, map: &mut TextMap) -> Result<(), Memory>
        ensures { OnOk result (map.new ≡ put (change_set self.now) map.old) }
    {
        for change in self.list.as_slice() {
            change.put_in(alloc, map)?;
        }
        Ok(())
    }

    /// An equal list.
    pub fn copy(&self, alloc: Global) -> Result<Changes, Memory>
        ensures { IfOk result (λ c. c ≡ self.now) }
    {
        let mut list = Vec::with_capacity(alloc, self.list.len())?;
        for change in self.list.as_slice() {
            list.push(change.copy(alloc)?)?;
        }
        Ok(Changes { list })
    }
}

/// A list of keys.
#[derive(Drop)]
pub struct Keys {
    list: Vec<Text>,
}

impl Model for Keys {
    ghost use Rattle.std.specs.Prelude.{List, ℕ};

    ghost Value = { List (List ℕ) };

    ghost view = { λ k. k.list.items };
}

impl Keys {
    /// The list of these keys.
    pub fn from_vec(list: Vec<Text>) -> Keys
        ensures { result ≡ list.items }
    {
        Keys { list }
    }

    /// The keys, which the list gives up.
    pub fn into_vec(self) -> Vec<Text>
        ensures { result.items ≡ self }
    {
        self.list
    }

    /// The keys, in order.
    pub fn as_slice(&self) -> &[Text]
        ensures { result.now ≡ self.now }
    {
        self.list.as_slice()
    }

    /// An equal list.
    pub fn copy(&self, alloc: Global) -> Result<Keys, Memory>
        ensures { IfOk result (λ k. k ≡ self.now) }
    {
        let mut list = Vec::with_capacity(alloc, self.list.len())?;
        for key in self.list.as_slice() {
            list.push(key.copy(alloc)?)?;
        }
        Ok(Keys { list })
    }
}

/// A place between items where changes of annotations end and begin: the keys that end, and those that change.
pub struct Boundary {
    pub end: Keys,
    pub change: Changes,
}

impl Drop for Boundary {
    fn drop(self) {
        let Boundary {
            end: _end,
            change: _change,
        } = self;
    }
}

impl Boundary {
    /// An equal boundary.
    pub fn copy(&self, alloc: Global) -> Result<Boundary, Memory>
        ensures { IfOk result (λ b. b ≡ self.now) }
    {
        let end = self.end.copy(alloc)?;
        let change = self.change.copy(alloc)?;
        Ok(Boundary { end, change })
    }
}
