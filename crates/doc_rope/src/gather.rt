// Trees made of items, and the items copied out of trees.
ghost use Rattle.std.specs.Prelude.{◌≡◌, ℕ, ◌+◌, ◌^◌, ◌<◌, ◌≤◌, ◌∷◌, ◌++◌, [], List, length, IfOk, OnOk};
ghost use Rattle.doc_rope.specs.Heights.{height};
ghost use Rattle.doc_rope.specs.Pieces.{pieces, IsSound, total, IsPacked, joined};

use crate::ends::concat;
use crate::piece::{PIECE, Piece, copy_items};
use crate::shape::Shape;
use crate::tree::{Node, Tree};
use crate::turns::fork;
use doc_items::{Item, Memory};
use std::alloc::Global;

// A node by itself.
fn node_of(alloc: Global, piece: Piece) -> Result<Box<Node>, Memory>
    ensures { IfOk result (λ b. b.value.piece ≡ piece) }
{
    let node = Node {
        left: Tree::Empty,
        piece,
        right: Tree::Empty,
        count: 0,
        shape: Shape::none(),
        height: 0,
    };
    Ok(Box::new(alloc, node)?)
}

// A node without items.
pub fn spare(alloc: Global) -> Result<Box<Node>, Memory>
    ensures { IfOk result (λ b. b.value.piece ≡ []) }
{
    let piece = Piece::new(alloc)?;
    node_of(alloc, piece)
}

// Moves the last items, as many as fill a piece, to the front of the tree.
pub fn move_last(alloc: Global, items: &mut Vec<Item>, tree: Tree) -> Result<Tree, Memory>
    requires some { 0 < length items.old.items }
    requires sound { IsSound tree }
    requires packed { IsPacked (pieces tree) }
    requires fits { length items.old.items + total (pieces tree) < 2 ^ 64 }
    ensures joined { IfOk result (λ t. items.new.items ++ joined (pieces t) ≡ items.old.items ++ joined (pieces tree)) }
    ensures count { IfOk result (λ t. length items.new.items + total (pieces t) ≡ length items.old.items + total (pieces tree)) }
    ensures fewer { IfOk result (λ t. length items.new.items < length items.old.items) }
    ensures sound { IfOk result (λ t. IsSound t) }
    ensures packed { IfOk result (λ t. IsPacked (pieces t)) }
{
    let mut node = spare(alloc)?;
    let at = items.len().saturating_sub(PIECE);
    node.piece.take_tail(items, at);
    Ok(put_first(node, tree))
}

// One more piece in front.
pub fn put_first(node: Box<Node>, tree: Tree) -> Tree
    requires some { 0 < length node.value.piece }
    requires short { length node.value.piece ≤ PIECE }
    requires sound { IsSound tree }
    requires packed { IsPacked (pieces tree) }
    requires fits { length node.value.piece + total (pieces tree) < 2 ^ 64 }
    ensures joined { joined (pieces result) ≡ node.value.piece ++ joined (pieces tree) }
    ensures count { total (pieces result) ≡ length node.value.piece + total (pieces tree) }
    ensures sound { IsSound result }
    ensures packed { IsPacked (pieces result) }
{
    let piece = fork(Tree::Empty, node, Tree::Empty);
    concat(piece, tree)
}

// The tree of these items, in pieces of 128 after a first one of at most 128.
pub fn gather(alloc: Global, mut items: Vec<Item>) -> Result<Tree, Memory>
    requires fits { length items.items < 2 ^ 64 }
    ensures joined { IfOk result (λ t. joined (pieces t) ≡ items.items) }
    ensures count { IfOk result (λ t. total (pieces t) ≡ length items.items) }
    ensures sound { IfOk result (λ t. IsSound t) }
    ensures packed { IfOk result (λ t. IsPacked (pieces t)) }
{
    let mut tree = Tree::Empty;
    while items.len() > 0 {
        tree = move_last(alloc, &mut items, tree)?;
    }
    Ok(tree)
}

// Puts copies of the tree's items after those of `to`.
#[tactic(auto, using(crate::proofs::Laws::copied_out))]
pub fn copy_out(tree: &Tree, alloc: Global, to: &mut Vec<Item>) -> Result<(), Memory>
    ensures { OnOk result (to.new.items ≡ to.old.items ++ joined (pieces tree.now)) }
{
    match tree {
        Tree::Empty => Ok(()),
        Tree::Fork(node) => {
            copy_out(&node.left, alloc, to)?;
            copy_items(node.piece.as_slice(), alloc, to)?;
            copy_out(&node.right, alloc, to)?;
            Ok(())
        }
    }
}

// A tree of equal pieces.
#[tactic(auto, using(crate::proofs::Laws::fits_again))]
pub fn copy_tree(tree: &Tree, alloc: Global) -> Result<Tree, Memory>
    requires { IsSound tree.now }
    ensures pieces { IfOk result (λ t. pieces t ≡ pieces tree.now) }
    ensures sound { IfOk result (λ t. IsSound t) }
    ensures height { IfOk result (λ t. height t ≡ height tree.now) }
{
    // For the proof: how many items the tree has.
    let _whole = tree.count();
    match tree {
        Tree::Empty => Ok(Tree::Empty),
        Tree::Fork(node) => {
            let left = copy_tree(&node.left, alloc)?;
            let middle = node_of(alloc, node.piece.copy(alloc)?)?;
            let right = copy_tree(&node.right, alloc)?;
            Ok(fork(left, middle, right))
        }
    }
}
