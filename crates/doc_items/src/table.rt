// A map from texts to texts as it is stored, in byte order of its keys.
ghost use Rattle.std.specs.Prelude.{◌≡◌, length, map, OnOk, OnErr, IfOk};
ghost use Rattle.std.specs.Option.{option_copied};
ghost use Rattle.std.specs.FinMap as finite;
ghost use Rattle.doc_items.specs.Maps.{pair_of, same_values};

use crate::Memory;
use std::alloc::Global;
use std::collections::BTreeMap;
use std::collections::btree_map::Iter;
use std::marker::Model;

// Seen as the map.
#[derive(Drop)]
pub(crate) struct Table {
    map: BTreeMap<String, String>,
}

impl Model for Table {
    ghost use Rattle.doc_items.specs.Maps.{Key, Map, map_code, stored};

    ghost Value = { Map Key };

    ghost coded = { map_code };

    ghost view = { λ m. stored m.map.entries };
}

impl Table {
    /// The map without keys.
    pub fn new(alloc: Global) -> Table
        ensures { result ≡ finite.empty }
    {
        Table {
            map: BTreeMap::new(alloc),
        }
    }

    /// The number of keys.
    pub fn len(&self) -> usize
        ensures { result ≡ length (finite.entries self.now) }
    {
        self.map.len()
    }

    /// The value at a key; None exactly where the key isn't there.
    pub fn get(&self, key: &str) -> Option<&str>
        ensures { option_copied result ≡ finite.get self.now key.now }
    {
        match self.map.get(key) {
            Some(value) => Some(value.as_str()),
            None => None,
        }
    }

    /// Takes a key away.
    pub fn remove(&mut self, key: &str)
        ensures { self.new ≡ finite.remove self.old key.now }
    {
        let _old = self.map.remove(key);
    }

    /// Sets the value at a key. After want of memory the map is as it was.
    pub fn insert(&mut self, alloc: Global, key: &str, value: &str) -> Result<(), Memory>
        ensures ok { OnOk result (self.new ≡ finite.insert self.old key.now value.now) }
        ensures err { OnErr result (self.new ≡ self.old) }
    {
        let stored_key = String::from_str(alloc, key)?;
        let stored_value = String::from_str(alloc, value)?;
        let _old = self.map.insert(stored_key, stored_value)?;
        Ok(())
    }

    /// Whether the maps have the same keys and values.
    pub fn same(&self, other: &Table) -> bool
        ensures { result ≡ same_values self.now other.now }
    {
        // For the proof: the keys of both ascend.
        let _sorted = self.map.len();
        let _other_sorted = other.map.len();
        self.map == other.map
    }

    /// The keys with their values, in byte order of the keys.
    pub fn iter(&self) -> Iter<'_, String, String>
        ensures { map pair_of result ≡ finite.entries self.now }
    {
        self.map.iter()
    }

    /// An equal map.
    pub fn copy(&self) -> Result<Table, Memory>
        ensures { IfOk result (λ m. m ≡ self.now) }
    {
        Ok(Table {
            map: self.map.clone()?,
        })
    }
}
