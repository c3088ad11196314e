// Items that are ready to be put into a rope.
ghost use Rattle.std.specs.Prelude.{◌≡◌, ℕ, ◌+◌, ◌^◌, ◌<◌, ◌≤◌, ◌++◌, List, length, take, drop, IfOk};
ghost use Rattle.doc_rope.specs.Pieces.{pieces, joined, total, IsSound, IsPacked};

use crate::gather::{gather, spare};
use crate::tree::{Node, Tree};
use crate::within::put_items;
use doc_items::{Item, Memory};
use std::alloc::Global;
use std::marker::Model;

/// Items with all the memory that it takes to put them into a rope; seen as their list.
#[derive(Drop)]
pub struct Insertion {
    tree: Tree,
    // For the pieces that are cut at both ends of what is replaced.
    first: Box<Node>,
    second: Box<Node>,
}

impl Model for Insertion {
    ghost use Rattle.std.specs.Prelude.{List};
    ghost use Rattle.doc_rope.specs.Pieces.{pieces, joined, IsSound, IsPacked, IsSpare};
    ghost use Rattle.std.specs.Coded.{coded_list};
    ghost use Rattle.doc_items.specs.declared.item.Item.{Item};
    ghost use Rattle.doc_items.specs.contracts.item.Item as item_row;

    ghost Value = { List Item };

    ghost coded = { coded_list item_row.the_row.coded };

    ghost view = { λ i. joined (pieces i.tree) };

    ghost invariant = { λ i. IsSound i.tree × IsPacked (pieces i.tree) × IsSpare i.first.value × IsSpare i.second.value };
}

impl Insertion {
    /// The items, which are moved into pieces and not copied. The error is want of memory.
    pub fn new(alloc: Global, items: Vec<Item>) -> Result<Insertion, Memory>
        ensures { IfOk result (λ i. i ≡ items.items) }
    {
        // A vector's length is a `usize`.
        let _count = items.len();
        let tree = gather(alloc, items)?;
        let first = spare(alloc)?;
        let second = spare(alloc)?;
        Ok(Insertion {
            tree,
            first,
            second,
        })
    }

    /// The tree with these items in place of the `count` items from place `from` on.
    #[tactic(auto, using(crate::proofs::Laws::length_joined, crate::proofs::Changed::put_count))]
    pub(crate) fn put_into(self, tree: Tree, from: usize, count: usize) -> Tree
        requires sound { IsSound tree }
        requires packed { IsPacked (pieces tree) }
        requires inside { from + count ≤ total (pieces tree) }
        requires fits { total (pieces tree) + length self < 2 ^ 64 }
        ensures joined { joined (pieces result) ≡ take from (joined (pieces tree)) ++ self ++ drop (from + count) (joined (pieces tree)) }
        ensures count { total (pieces result) + count ≡ total (pieces tree) + length self }
        ensures sound { IsSound result }
        ensures packed { IsPacked (pieces result) }
    {
        put_items(tree, from, count, self.tree, self.first, self.second)
    }
}
