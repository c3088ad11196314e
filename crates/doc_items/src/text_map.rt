ghost use Rattle.std.specs.Prelude.{◌≡◌, length, map, OnOk, OnErr, IfOk};
ghost use Rattle.std.specs.Option.{option_copied};
ghost use Rattle.std.specs.Arc.{arc_value};
ghost use Rattle.std.specs.FinMap as finite;
ghost use Rattle.doc_items.specs.Maps.{pair_of, set_key, same_values, is_next, shared};

use crate::Memory;
use crate::pairs::Pairs;
use crate::table::Table;
use std::alloc::Global;
use std::marker::Model;
use std::sync::Arc;

/// Whether a key is the first of its list, or comes after the last one in byte order.
pub fn is_next(last: Option<&str>, key: &str) -> bool
    ensures { result ≡ is_next (option_copied last.entry) key.now }
{
    match last {
        Some(last) => last < key,
        None => true,
    }
}

/// A map from texts to texts, in byte order of its keys. Copies share its table until one of them changes; a map that never had a
/// key has none.
#[derive(Drop)]
pub struct TextMap {
    table: Option<Arc<Table, Global>>,
    alloc: Global,
}

/// The annotations of an item.
pub type Notes = TextMap;

/// The attributes of an element.
pub type Attributes = TextMap;

impl Model for TextMap {
    ghost use Rattle.doc_items.specs.Maps.{Key, Map, map_code, shared};

    ghost Value = { Map Key };

    ghost coded = { map_code };

    ghost view = { λ m. shared m.table };
}

impl TextMap {
    /// The map without keys.
    pub fn new(alloc: Global) -> TextMap
        ensures { result ≡ finite.empty }
    {
        TextMap { table: None, alloc }
    }

    /// The number of keys.
    #[tactic(auto, using(crate::proofs::Shared::length_none))]
    pub fn len(&self) -> usize
        ensures { result ≡ length (finite.entries self.now) }
    {
        match &self.table {
            Some(table) => table.len(),
            None => 0,
        }
    }

    /// The value at a key; None exactly where the key isn't there.
    #[tactic(auto, using(crate::proofs::Shared::get_none))]
    pub fn get(&self, key: &str) -> Option<&str>
        ensures { option_copied result ≡ finite.get self.now key.now }
    {
        match &self.table {
            Some(table) => table.get(key),
            None => None,
        }
    }

    /// Sets the value at a key; None takes the key away. After want of memory the map is as it was.
    pub fn set(&mut self, alloc: Global, key: &str, value: Option<&str>) -> Result<(), Memory>
        ensures ok { OnOk result (self.new ≡ set_key self.old key.now (option_copied value.entry)) }
        ensures err { OnErr result (self.new ≡ self.old) }
    {
        match value {
            None => self.remove(alloc, key),
            Some(text) => self.insert(alloc, key, text),
        }
    }

    #[tactic(auto, using(crate::proofs::Shared::remove_none))]
    fn remove(&mut self, alloc: Global, key: &str) -> Result<(), Memory>
        ensures ok { OnOk result (self.new ≡ finite.remove self.old key.now) }
        ensures err { OnErr result (self.new ≡ self.old) }
    {
        match &mut self.table {
            Some(table) => remove_from(alloc, table, key),
            None => Ok(()),
        }
    }

    fn insert(&mut self, alloc: Global, key: &str, value: &str) -> Result<(), Memory>
        ensures ok { OnOk result (self.new ≡ finite.insert self.old key.now value.now) }
        ensures err { OnErr result (self.new ≡ self.old) }
    {
        match &mut self.table {
            Some(table) => insert_into(alloc, table, key, value),
            None => {
                let table = one_entry(alloc, key, value)?;
                self.table = Some(table);
                Ok(())
            }
        }
    }

    /// Whether the maps have the same keys and values.
    pub fn same(&self, other: &TextMap) -> bool
        ensures { result ≡ same_values self.now other.now }
    {
        let none = Table::new(self.alloc);
        table_or(&self.table, &none).same(table_or(&other.table, &none))
    }

    /// The keys with their values, in byte order of the keys.
    #[tactic(auto, using(crate::proofs::Shared::entries_none))]
    pub fn iter(&self) -> Pairs<'_>
        ensures { map pair_of result ≡ finite.entries self.now }
    {
        match &self.table {
            Some(table) => Pairs::of(table.iter()),
            None => Pairs::none(),
        }
    }

    /// An equal map.
    pub fn copy(&self) -> Result<TextMap, Memory>
        ensures { IfOk result (λ m. m ≡ self.now) }
    {
        let alloc = self.alloc;
        match &self.table {
            Some(table) => {
                let table = Arc::try_clone(table)?;
                Ok(TextMap {
                    table: Some(table),
                    alloc,
                })
            }
            None => Ok(TextMap { table: None, alloc }),
        }
    }
}

// The table, or this one.
fn table_or<'a>(table: &'a Option<Arc<Table, Global>>, none: &'a Table) -> &'a Table
    requires { none.now ≡ finite.empty }
    ensures { result.now ≡ shared table.entry.now }
{
    match table {
        Some(table) => table,
        None => none,
    }
}

fn one_entry(alloc: Global, key: &str, value: &str) -> Result<Arc<Table, Global>, Memory>
    ensures { IfOk result (λ t. arc_value t ≡ finite.insert finite.empty key.now value.now) }
{
    let mut table = Table::new(alloc);
    table.insert(alloc, key, value)?;
    Ok(Arc::new(alloc, table)?)
}

// Sets the value at a key of a table. One that others share stays as it is: a copy with the value takes its place.
fn insert_into(
    alloc: Global,
    table: &mut Arc<Table, Global>,
    key: &str,
    value: &str,
) -> Result<(), Memory>
    ensures ok { OnOk result (arc_value table.new ≡ finite.insert (arc_value table.old) key.now value.now) }
    ensures err { OnErr result (arc_value table.new ≡ arc_value table.old) }
{
    match Arc::get_mut(table) {
        Some(own) => own.insert(alloc, key, value),
        None => {
            let mut copy = table.copy()?;
            copy.insert(alloc, key, value)?;
            *table = Arc::new(alloc, copy)?;
            Ok(())
        }
    }
}

// Takes a key away from a table. One that others share stays as it is: a copy without the key takes its place.
fn remove_from(alloc: Global, table: &mut Arc<Table, Global>, key: &str) -> Result<(), Memory>
    ensures ok { OnOk result (arc_value table.new ≡ finite.remove (arc_value table.old) key.now) }
    ensures err { OnErr result (arc_value table.new ≡ arc_value table.old) }
{
    match Arc::get_mut(table) {
        Some(own) => {
            own.remove(key);
            Ok(())
        }
        None => {
            let mut copy = table.copy()?;
            copy.remove(key);
            *table = Arc::new(alloc, copy)?;
            Ok(())
        }
    }
}
