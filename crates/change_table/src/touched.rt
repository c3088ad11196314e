// Keys at which changes started or ended.
ghost use Rattle.std.specs.Prelude.{◌≡◌, ◌++◌, [], Some, None, OnOk};
ghost use Rattle.std.specs.Option.{option_copied, option_map};
ghost use Rattle.change_table.specs.Keys.{boundary_keys};

use doc_items::{Boundary, Memory, Text};
use std::alloc::Global;
use std::marker::Model;

/// The keys at which changes started or ended since some changes were the same, seen as a list; None where they may differ at any key.
#[derive(Drop)]
pub struct Touched {
    keys: Option<Vec<Text>>,
}

impl Model for Touched {
    ghost use Rattle.std.specs.Prelude.{List, Option, ℕ};
    ghost use Rattle.std.specs.Option.{option_map};

    ghost Value = { Option (List (List ℕ)) };

    ghost view = { λ t. option_map (λ v. v.items) t.keys };
}

impl Touched {
    /// Any key.
    pub fn any() -> Touched
        ensures { result ≡ None }
    {
        Touched { keys: None }
    }

    /// No key from now on.
    pub fn clear(&mut self, alloc: Global)
        ensures { self.new ≡ Some [] }
    {
        self.keys = Some(Vec::new(alloc));
    }

    /// Any key from now on.
    pub fn forget(&mut self)
        ensures { self.new ≡ None }
    {
        self.keys = None;
    }

    /// The keys; None where it may be any.
    pub fn keys(&self) -> Option<&[Text]>
        ensures { option_copied result ≡ self.now }
    {
        match &self.keys {
            Some(keys) => Some(keys.as_slice()),
            None => None,
        }
    }

    // Adds these keys, unless the keys may be any.
    pub(crate) fn extend(&mut self, more: Vec<Text>) -> Result<(), Memory>
        ensures { OnOk result (self.new ≡ option_map (λ keys. keys ++ more.items) self.old) }
    {
        let Some(keys) = &mut self.keys else {
            return Ok(());
        };
        let mut more = more;
        keys.append(&mut more)?;
        Ok(())
    }

    /// Adds the keys of a boundary, unless the keys may be any. After want of memory a part of them may be noted.
    pub fn add(&mut self, alloc: Global, boundary: &Boundary) -> Result<(), Memory>
        ensures { OnOk result (self.new ≡ option_map (λ keys. keys ++ boundary_keys boundary.now) self.old) }
    {
        let Some(keys) = &mut self.keys else {
            return Ok(());
        };
        for key in boundary.end.as_slice() {
            keys.push(key.copy(alloc)?)?;
        }
        for change in boundary.change.as_slice() {
            keys.push(change.key.copy(alloc)?)?;
        }
        Ok(())
    }
}
