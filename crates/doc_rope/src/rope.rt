// A document in pieces.
ghost use Rattle.std.specs.Prelude.{◌≡◌, ◌↔◌, ℕ, ◌+◌, ◌^◌, ◌<◌, ◌≤◌, ◌++◌, [], List, IsTrue, length, take, drop, IfOk, IfSome, IfNone, OnOk, OnErr, slice_get};
ghost use Rattle.std.specs.Option.{option_copied};
ghost use Rattle.doc_items.specs.Balance.{Balanced};
ghost use Rattle.doc_items.specs.Limits.{max_count};
ghost use Rattle.doc_rope.specs.Pieces.{pieces, joined, total, IsSound, IsPacked, InPieces};
ghost use Rattle.doc_rope.specs.Replacements.{all_replaced, InOrder, put_in};

use crate::gather::{copy_out, copy_tree, gather};
use crate::tree::Tree;
use crate::{Insertion, Reader, Replacement};
use doc_items::{Document, Item, Memory};
use std::alloc::Global;
use std::marker::Model;
use std::mem;

/// A document, seen as its list of items, of which there are at most `MAX_COUNT`. It is kept in pieces of 1 to 128 items,
/// of which no two neighbours would fit into one, under a tree that counts them.
#[derive(Drop)]
pub struct Rope {
    tree: Tree,
    alloc: Global,
}

impl Model for Rope {
    ghost use Rattle.std.specs.Prelude.{List};
    ghost use Rattle.doc_rope.specs.Pieces.{pieces, joined, InPieces};
    ghost use Rattle.std.specs.Coded.{coded_list};
    ghost use Rattle.doc_items.specs.declared.item.Item.{Item};
    ghost use Rattle.doc_items.specs.contracts.item.Item as item_row;

    ghost Value = { List Item };

    ghost coded = { coded_list item_row.the_row.coded };

    ghost view = { λ r. joined (pieces r.tree) };

    ghost invariant = { λ r. InPieces r.tree };
}

impl Rope {
    /// The rope without items. It takes no memory until items come.
    pub fn new(alloc: Global) -> Rope
        ensures { result ≡ [] }
    {
        Rope {
            tree: Tree::Empty,
            alloc,
        }
    }

    /// The rope of the document's items, which are moved into pieces and not copied. The error is want of memory.
    pub fn from_list(alloc: Global, document: Document) -> Result<Rope, Memory>
        ensures { IfOk result (λ r. r ≡ document) }
    {
        let tree = gather(alloc, document.into_vec())?;
        Ok(Rope { tree, alloc })
    }

    /// The number of items.
    #[tactic(auto, using(crate::proofs::Laws::length_joined))]
    pub fn len(&self) -> u64
        ensures value { result ≡ length self.now }
        ensures bound { result ≤ max_count }
    {
        self.tree.count() as u64
    }

    /// Whether each element's end has its start before it, and each start its end. It is kept, and not counted anew.
    #[tactic(auto, using(crate::proofs::Shapes::balanced_shape, crate::proofs::Shapes::shape_balanced))]
    pub fn is_balanced(&self) -> bool
        ensures { IsTrue result ↔ Balanced self.now }
    {
        let shape = self.tree.shape();
        shape.ends == 0 && shape.starts == 0
    }

    /// The item at a place, counted from 0; None exactly where the place isn't below the length.
    pub fn item(&self, place: u64) -> Option<&Item>
        ensures { option_copied result ≡ slice_get self.now place }
    {
        self.tree.item(place as usize)
    }

    /// The items from a place on as far as the piece that holds it reaches; None exactly where the place isn't below the
    /// length. The place after the run is the next to ask for, so all items are read in order without a copy.
    #[tactic(auto, using(crate::proofs::Laws::length_joined, crate::proofs::Items::run_inside))]
    pub fn run(&self, place: u64) -> Option<&[Item]>
        ensures front { IfSome result (λ r. take (length r.now) (drop place self.now) ≡ r.now) }
        ensures some { IfSome result (λ r. 0 < length r.now) }
        ensures inside { IfSome result (λ r. place + length r.now ≤ length self.now) }
        ensures none { IfNone result (length self.now ≤ place) }
    {
        self.tree.run(place as usize)
    }

    /// A walk over the items, in order.
    pub fn reader(&self) -> Reader<'_>
        ensures { result ≡ self.now }
    {
        Reader::new(self)
    }

    /// A document of equal items, in order. The error is want of memory.
    #[tactic(auto, using(crate::proofs::Laws::length_joined))]
    pub fn list(&self, alloc: Global) -> Result<Document, Memory>
        ensures { IfOk result (λ d. d ≡ self.now) }
    {
        let mut items = Vec::with_capacity(alloc, self.tree.count())?;
        copy_out(&self.tree, alloc, &mut items)?;
        Ok(Document::from_vec(items))
    }

    /// An equal rope, piece by piece. The error is want of memory.
    pub fn copy(&self, alloc: Global) -> Result<Rope, Memory>
        ensures { IfOk result (λ r. r ≡ self.now) }
    {
        let tree = copy_tree(&self.tree, alloc)?;
        Ok(Rope { tree, alloc })
    }

    /// The document's items, ready to be put into a rope: all the memory that this takes is taken here. The error is want of
    /// memory.
    pub fn ready(alloc: Global, document: Document) -> Result<Insertion, Memory>
        ensures { IfOk result (λ i. i ≡ document) }
    {
        Insertion::new(alloc, document.into_vec())
    }

    /// Puts the items in place of the `count` items from place `from` on; all other items stay, in order. Those `count` items
    /// lie in the rope, and at most `MAX_COUNT` items result. It takes no memory, and so can't fail.
    #[tactic(auto, using(crate::proofs::Laws::length_joined))]
    pub fn put(&mut self, from: u64, count: u64, items: Insertion)
        requires inside { from + count ≤ length self.old }
        requires bound { length self.old + length items ≤ max_count + count }
        ensures { self.new ≡ take from self.old ++ items ++ drop (from + count) self.old }
    {
        let tree = mem::replace(&mut self.tree, Tree::Empty);
        self.tree = items.put_into(tree, from as usize, count as usize);
    }

    /// Puts all the items in their places, which are places of the rope as it is now. They stand one after another in the
    /// rope, and at most `MAX_COUNT` items result. It takes no memory, and so can't fail.
    pub fn put_all(&mut self, replacements: Vec<Replacement>)
        requires inside { InOrder 0 replacements.items (length self.old) }
        requires bound { length (all_replaced replacements.items self.old) ≤ max_count }
        ensures { self.new ≡ all_replaced replacements.items self.old }
    {
        let tree = mem::replace(&mut self.tree, Tree::Empty);
        self.tree = put_each(tree, replacements);
    }

    /// Puts the document's items in place of the `count` items from place `from` on; all other items stay, in order. Those
    /// `count` items lie in the rope, and at most `MAX_COUNT` items result.
    /// After want of memory the rope is as it was. All memory is taken before the rope changes.
    pub fn splice(&mut self, from: u64, count: u64, items: Document) -> Result<(), Memory>
        requires inside { from + count ≤ length self.old }
        requires bound { length self.old + length items ≤ max_count + count }
        ensures ok { OnOk result (self.new ≡ take from self.old ++ items ++ drop (from + count) self.old) }
        ensures err { OnErr result (self.new ≡ self.old) }
    {
        let items = Rope::ready(self.alloc, items)?;
        self.put(from, count, items);
        Ok(())
    }
}

// The tree with each of the replacements made, the last one first.
fn put_each(mut tree: Tree, mut replacements: Vec<Replacement>) -> Tree
    requires sound { IsSound tree }
    requires packed { IsPacked (pieces tree) }
    requires inside { InOrder 0 replacements.items (total (pieces tree)) }
    requires fits { total (pieces tree) + put_in replacements.items < 2 ^ 64 }
    ensures joined { joined (pieces result) ≡ all_replaced replacements.items (joined (pieces tree)) }
    ensures sound { IsSound result }
    ensures packed { IsPacked (pieces result) }
{
    while let Some(next) = replacements.pop() {
        tree = next
            .items
            .put_into(tree, next.from as usize, next.count as usize);
    }
    tree
}
