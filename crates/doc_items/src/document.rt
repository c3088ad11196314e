ghost use Rattle.std.specs.Prelude.{◌≡◌, ◌<◌, ◌≤◌, ◌++◌, ◌∷◌, ◌↔◌, [], length, IfOk, OnOk, OnErr, IsTrue, slice_get};
ghost use Rattle.std.specs.Option.{option_copied};
ghost use Rattle.doc_items.specs.Balance.{Balanced};
ghost use Rattle.doc_items.specs.Limits.{max_count};

use crate::{Content, Item, Memory};
use std::alloc::Global;
use std::marker::Model;

/// A document, seen as its list of items, of which there are at most `MAX_COUNT`.
#[derive(Drop)]
pub struct Document {
    items: Vec<Item>,
}

impl Model for Document {
    ghost use Rattle.std.specs.Prelude.{List, length, ◌≤◌};
    ghost use Rattle.std.specs.Coded.{coded_list};
    ghost use Rattle.doc_items.specs.declared.item.Item.{Item};
    ghost use Rattle.doc_items.specs.contracts.item.Item as item_row;
    ghost use Rattle.doc_items.specs.Limits.{max_count};

    ghost Value = { List Item };

    ghost coded = { coded_list item_row.the_row.coded };

    ghost view = { λ d. d.items.items };

    ghost invariant = { λ d. length d.items.items ≤ max_count };
}

impl Document {
    /// The document without items.
    pub fn new(alloc: Global) -> Document
        ensures { result ≡ [] }
    {
        Document {
            items: Vec::new(alloc),
        }
    }

    /// The document of these items.
    pub fn from_vec(items: Vec<Item>) -> Document
        requires { length items.items ≤ max_count }
        ensures { result ≡ items.items }
    {
        Document { items }
    }

    /// The items, which the document gives up.
    pub fn into_vec(self) -> Vec<Item>
        ensures value { result.items ≡ self }
        ensures bound { length result.items ≤ max_count }
    {
        self.items
    }

    /// The number of items.
    pub fn len(&self) -> u64
        ensures value { result ≡ length self.now }
        ensures bound { result ≤ max_count }
    {
        self.items.len() as u64
    }

    /// The item at a place, counted from 0; None exactly where the place isn't below the length.
    pub fn item(&self, place: u64) -> Option<&Item>
        ensures { option_copied result ≡ slice_get self.now place }
    {
        self.items.get(place as usize)
    }

    /// The items, in order.
    pub fn as_slice(&self) -> &[Item]
        ensures value { result.now ≡ self.now }
        ensures bound { length result.now ≤ max_count }
    {
        self.items.as_slice()
    }

    /// Whether each element's end has its start before it, and each start its end.
    pub fn is_balanced(&self) -> bool
        ensures { IsTrue result ↔ Balanced self.now }
    {
        let mut depth: u64 = 0;
        for item in self.items.as_slice() {
            match &item.content {
                Content::Character(_) => {}
                Content::Start { .. } => depth += 1,
                Content::End => {
                    if depth == 0 {
                        return false;
                    }
                    depth -= 1;
                }
            }
        }
        depth == 0
    }

    /// Puts an item after the last. After want of memory the document is as it was.
    pub fn push(&mut self, item: Item) -> Result<(), Memory>
        requires { length self.old < max_count }
        ensures ok { OnOk result (self.new ≡ self.old ++ item ∷ []) }
        ensures err { OnErr result (self.new ≡ self.old) }
    {
        self.items.push(item)?;
        Ok(())
    }

    /// An equal document.
    pub fn copy(&self, alloc: Global) -> Result<Document, Memory>
        ensures { IfOk result (λ d. d ≡ self.now) }
    {
        let mut items = Vec::with_capacity(alloc, self.items.len())?;
        for item in self.items.as_slice() {
            items.push(item.copy(alloc)?)?;
        }
        Ok(Document { items })
    }
}
