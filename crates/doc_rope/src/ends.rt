// A piece taken out of a tree, a piece put at its end, and two trees put one after the other.
ghost use Rattle.std.specs.Prelude.{◌≡◌, ℕ, ◌+◌, ◌^◌, ◌<◌, ◌≤◌, ◌==◌, ◌∷◌, ◌++◌, [], List, length, true, false};
ghost use Rattle.doc_rope.specs.Heights.{height};
ghost use Rattle.doc_rope.specs.Pieces.{pieces, IsSound, total, add_last, glued, IsPacked, joined};

use crate::piece::PIECE;
use crate::tree::{Node, Tree};
use crate::turns::{fork, join, open};

// A tree in three: what stands before a piece, the piece, and what stands after it.
#[derive(Drop)]
pub struct Taken {
    pub left: Tree,
    pub node: Box<Node>,
    pub right: Tree,
    pub within: usize,
}

// Takes out the piece with the item at `place`.
#[tactic(auto, using(crate::proofs::Laws::total_append, crate::proofs::Laws::append_cons))]
pub fn take_out(tree: Tree, place: usize) -> Taken
    requires sound { IsSound tree }
    requires inside { place < total (pieces tree) }
    ensures pieces { pieces tree ≡ pieces result.left ++ result.node.value.piece ∷ pieces result.right }
    ensures left { IsSound result.left }
    ensures right { IsSound result.right }
    ensures place { total (pieces result.left) + result.within ≡ place }
    ensures within { result.within < length result.node.value.piece }
{
    // A count is a `usize`, so what is taken apart fits too.
    let _whole = tree.count();
    match tree {
        Tree::Empty => unreachable!(),
        Tree::Fork(mut node) => {
            let (left, right) = open(&mut node);
            let before = left.count();
            let len = node.piece.len();
            if place < before {
                let taken = take_out(left, place);
                let right = join(taken.right, node, right);
                Taken {
                    left: taken.left,
                    node: taken.node,
                    right,
                    within: taken.within,
                }
            } else if place - before < len {
                Taken {
                    left,
                    node,
                    right,
                    within: place - before,
                }
            } else {
                let later = place - before - len;
                let taken = take_out(right, later);
                let left = join(left, node, taken.left);
                Taken {
                    left,
                    node: taken.node,
                    right: taken.right,
                    within: taken.within,
                }
            }
        }
    }
}

// A piece after `top`, put into it where both fit into one.
#[tactic(auto, using(crate::proofs::Laws::total_append, crate::proofs::Laws::length_both, crate::proofs::Laws::add_last_fits, crate::proofs::Laws::add_last_apart))]
pub fn push_onto(left: Tree, mut top: Box<Node>, mut node: Box<Node>) -> Tree
    requires left { IsSound left }
    requires fits { total (pieces left) + (length top.value.piece + length node.value.piece) < 2 ^ 64 }
    requires top_some { 0 < length top.value.piece }
    requires some { 0 < length node.value.piece }
    requires low { height left ≤ 2 }
    ensures pieces { pieces result ≡ pieces left ++ add_last (top.value.piece ∷ []) node.value.piece }
    ensures sound { IsSound result }
{
    let len = top.piece.len();
    if len + node.piece.len() <= PIECE {
        top.piece.append(&mut node.piece);
        fork(left, top, Tree::Empty)
    } else {
        let right = fork(Tree::Empty, node, Tree::Empty);
        join(left, top, right)
    }
}

// One more piece at the end, put into the last one where both fit into one.
#[tactic(auto, using(crate::proofs::Laws::total_append, crate::proofs::Laws::add_last_append, crate::proofs::Laws::add_last_more, crate::proofs::Laws::total_add_last))]
pub fn push_last(tree: Tree, node: Box<Node>) -> Tree
    requires sound { IsSound tree }
    requires fits { total (pieces tree) + length node.value.piece < 2 ^ 64 }
    requires some { 0 < length node.value.piece }
    ensures pieces { pieces result ≡ add_last (pieces tree) node.value.piece }
    ensures sound { IsSound result }
{
    match tree {
        Tree::Empty => fork(Tree::Empty, node, Tree::Empty),
        Tree::Fork(mut top) => {
            let (left, right) = open(&mut top);
            if right.is_empty() {
                push_onto(left, top, node)
            } else {
                let right = push_last(right, node);
                join(left, top, right)
            }
        }
    }
}

// A first piece and what stands after it.
#[derive(Drop)]
pub struct First {
    pub node: Box<Node>,
    pub rest: Tree,
}

#[tactic(auto, using(crate::proofs::Seams::packed_right, crate::proofs::Seams::packed_tail, crate::proofs::Seams::none_before, crate::proofs::Laws::total_append))]
pub fn take_first(tree: Tree) -> First
    requires sound { IsSound tree }
    requires packed { IsPacked (pieces tree) }
    requires some { 0 < total (pieces tree) }
    ensures pieces { pieces tree ≡ result.node.value.piece ∷ pieces result.rest }
    ensures packed { IsPacked (pieces result.rest) }
    ensures rest { IsSound result.rest }
    ensures count { total (pieces tree) ≡ length result.node.value.piece + total (pieces result.rest) }
    ensures some { 0 < length result.node.value.piece }
{
    let taken = take_out(tree, 0);
    First {
        node: taken.node,
        rest: taken.right,
    }
}

// The pieces of `left` and then those of `right`, with the seam closed.
#[tactic(auto, using(crate::proofs::Laws::total_append, crate::proofs::Laws::total_add_last, crate::proofs::Laws::append_nothing, crate::proofs::Seams::packed_none, crate::proofs::Seams::glued_cons))]
pub fn concat(left: Tree, right: Tree) -> Tree
    requires left { IsSound left }
    requires right { IsSound right }
    requires packed { IsPacked (pieces right) }
    requires fits { total (pieces left) + total (pieces right) < 2 ^ 64 }
    ensures pieces { pieces result ≡ glued (pieces left) (pieces right) }
    ensures sound { IsSound result }
{
    if right.count() == 0 {
        return left;
    }
    let second = take_first(right);
    let start = push_last(left, second.node);
    if second.rest.count() == 0 {
        return start;
    }
    let third = take_first(second.rest);
    join(start, third.node, third.rest)
}
