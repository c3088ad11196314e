// Trees put together, with the heights of their sides kept near each other.
ghost use Rattle.std.specs.Prelude.{◌≡◌, ℕ, ◌+◌, ◌^◌, ◌<◌, ◌≤◌, ◌==◌, ◌∷◌, ◌++◌, [], List, length, max, true, false};
ghost use Rattle.doc_rope.specs.Heights.{height};
ghost use Rattle.doc_rope.specs.Pieces.{pieces, IsSound, total, add_last, glued, IsPacked, joined};
ghost use Rattle.doc_rope.specs.Shapes.{shape_of};
ghost use Rattle.doc_rope.specs.declared.tree.Tree.TheViews.{Fork};

use crate::piece::Piece;
use crate::shape::Shape;
use crate::tree::{Node, Tree};
use std::mem;

// The tree of `left`, the piece of `node` and `right`, in this order, where the heights of the sides are near.
#[tactic(auto, using(crate::proofs::Laws::total_append, crate::proofs::Heights::sound_from))]
pub fn fork(left: Tree, mut node: Box<Node>, right: Tree) -> Tree
    requires left { IsSound left }
    requires right { IsSound right }
    requires fits { total (pieces left) + (length node.value.piece + total (pieces right)) < 2 ^ 64 }
    requires some { 0 < length node.value.piece }
    requires left_near { height left ≤ height right + 2 }
    requires right_near { height right ≤ height left + 2 }
    ensures pieces { pieces result ≡ pieces left ++ node.value.piece ∷ pieces right }
    ensures sound { IsSound result }
    ensures height { height result ≡ max (height left) (height right) + 1 }
{
    node.height = higher(left.height(), right.height()) + 1;
    node.count = left.count() + (node.piece.len() + right.count());
    node.shape = whole_shape(&left, &node.piece, &right);
    node.left = left;
    node.right = right;
    Tree::Fork(node)
}

fn higher(left: usize, right: usize) -> usize
    ensures { result ≡ max left right }
{
    if left < right { right } else { left }
}

// The shape of both sides' items and the piece's.
fn whole_shape(left: &Tree, piece: &Piece, right: &Tree) -> Shape
    requires left { IsSound left.now }
    requires right { IsSound right.now }
    requires fits { total (pieces left.now) + (length piece.now + total (pieces right.now)) < 2 ^ 64 }
    ensures { result ≡ shape_of (joined (pieces left.now ++ piece.now ∷ pieces right.now)) }
{
    let behind = piece.shape().meet(right.shape());
    left.shape().meet(behind)
}

// Takes both sides out of the top of a sound tree.
#[tactic(auto, using(crate::proofs::Heights::parts_of))]
pub fn open(node: &mut Box<Node>) -> (Tree, Tree)
    requires { IsSound (Fork node.old) }
    ensures left { result.0 ≡ node.old.value.left }
    ensures right { result.1 ≡ node.old.value.right }
    ensures piece { node.new.value.piece ≡ node.old.value.piece }
    ensures left_sound { IsSound result.0 }
    ensures right_sound { IsSound result.1 }
    ensures some { 0 < length node.new.value.piece }
    ensures left_near { height result.0 ≤ height result.1 + 2 }
    ensures right_near { height result.1 ≤ height result.0 + 2 }
{
    let left = mem::replace(&mut node.left, Tree::Empty);
    let right = mem::replace(&mut node.right, Tree::Empty);
    (left, right)
}

// The same list, with the heights of the sides brought together by a turn or two, where they differ by three at most.
#[tactic(auto, using(crate::proofs::Laws::total_append, crate::proofs::Laws::append_cons))]
pub fn balance(left: Tree, node: Box<Node>, right: Tree) -> Tree
    requires left { IsSound left }
    requires right { IsSound right }
    requires fits { total (pieces left) + (length node.value.piece + total (pieces right)) < 2 ^ 64 }
    requires some { 0 < length node.value.piece }
    requires left_near { height left ≤ height right + 3 }
    requires right_near { height right ≤ height left + 3 }
    ensures pieces { pieces result ≡ pieces left ++ node.value.piece ∷ pieces right }
    ensures sound { IsSound result }
    ensures left_low { height left ≤ height result }
    ensures right_low { height right ≤ height result }
    ensures high { height result ≤ max (height left) (height right) + 1 }
    ensures near { height left ≤ height right + 2 → height right ≤ height left + 2 → height result ≡ max (height left) (height right) + 1 }
{
    if left.height() > right.height() + 2 {
        turn_right(left, node, right)
    } else if right.height() > left.height() + 2 {
        turn_left(left, node, right)
    } else {
        fork(left, node, right)
    }
}

#[tactic(auto, using(crate::proofs::Laws::total_append, crate::proofs::Laws::append_cons))]
pub fn turn_right(left: Tree, node: Box<Node>, right: Tree) -> Tree
    requires left { IsSound left }
    requires right { IsSound right }
    requires fits { total (pieces left) + (length node.value.piece + total (pieces right)) < 2 ^ 64 }
    requires some { 0 < length node.value.piece }
    requires steep { height left ≡ height right + 3 }
    ensures pieces { pieces result ≡ pieces left ++ node.value.piece ∷ pieces right }
    ensures sound { IsSound result }
    ensures low { height left ≤ height result }
    ensures high { height result ≤ height left + 1 }
{
    match left {
        Tree::Empty => fork(Tree::Empty, node, right),
        Tree::Fork(mut top) => {
            let (outer, inner) = open(&mut top);
            if outer.height() < inner.height() {
                turn_inner_right(outer, top, inner, node, right)
            } else {
                let lower = fork(inner, node, right);
                fork(outer, top, lower)
            }
        }
    }
}

#[tactic(auto, using(crate::proofs::Laws::total_append, crate::proofs::Laws::append_cons))]
pub fn turn_inner_right(
    outer: Tree,
    top: Box<Node>,
    inner: Tree,
    node: Box<Node>,
    right: Tree,
) -> Tree
    requires outer { IsSound outer }
    requires inner { IsSound inner }
    requires right { IsSound right }
    requires fits { total (pieces outer)
        + (length top.value.piece + (total (pieces inner) + (length node.value.piece + total (pieces right)))) < 2 ^ 64 }
    requires top_some { 0 < length top.value.piece }
    requires some { 0 < length node.value.piece }
    requires outer_low { height outer < height inner }
    requires right_low { height right < height inner }
    requires outer_near { height inner ≤ height outer + 2 }
    requires right_near { height inner ≤ height right + 2 }
    ensures pieces { pieces result ≡ pieces outer ++ top.value.piece ∷ (pieces inner ++ node.value.piece ∷ pieces right) }
    ensures sound { IsSound result }
    ensures height { height result ≡ height inner + 1 }
{
    match inner {
        Tree::Empty => {
            let lower = fork(Tree::Empty, node, right);
            fork(outer, top, lower)
        }
        Tree::Fork(mut middle) => {
            let (first, second) = open(&mut middle);
            let before = fork(outer, top, first);
            let after = fork(second, node, right);
            fork(before, middle, after)
        }
    }
}

#[tactic(auto, using(crate::proofs::Laws::total_append, crate::proofs::Laws::append_cons))]
pub fn turn_left(left: Tree, node: Box<Node>, right: Tree) -> Tree
    requires left { IsSound left }
    requires right { IsSound right }
    requires fits { total (pieces left) + (length node.value.piece + total (pieces right)) < 2 ^ 64 }
    requires some { 0 < length node.value.piece }
    requires steep { height right ≡ height left + 3 }
    ensures pieces { pieces result ≡ pieces left ++ node.value.piece ∷ pieces right }
    ensures sound { IsSound result }
    ensures low { height right ≤ height result }
    ensures high { height result ≤ height right + 1 }
{
    match right {
        Tree::Empty => fork(left, node, Tree::Empty),
        Tree::Fork(mut top) => {
            let (inner, outer) = open(&mut top);
            if outer.height() < inner.height() {
                turn_inner_right(left, node, inner, top, outer)
            } else {
                let lower = fork(left, node, inner);
                fork(lower, top, outer)
            }
        }
    }
}

// The tree of `left`, the piece of `node` and `right`, whatever their heights. It is as high as the higher side, or one higher.
#[tactic(auto, using(crate::proofs::Laws::total_append, crate::proofs::Laws::append_cons))]
pub fn join(left: Tree, node: Box<Node>, right: Tree) -> Tree
    requires left { IsSound left }
    requires right { IsSound right }
    requires fits { total (pieces left) + (length node.value.piece + total (pieces right)) < 2 ^ 64 }
    requires some { 0 < length node.value.piece }
    ensures pieces { pieces result ≡ pieces left ++ node.value.piece ∷ pieces right }
    ensures sound { IsSound result }
    ensures left_low { height left ≤ height result }
    ensures right_low { height right ≤ height result }
    ensures high { height result ≤ max (height left) (height right) + 1 }
{
    if left.height() > right.height() + 2 {
        match left {
            Tree::Empty => fork(Tree::Empty, node, right),
            Tree::Fork(mut top) => {
                let (outer, inner) = open(&mut top);
                let lower = join(inner, node, right);
                balance(outer, top, lower)
            }
        }
    } else if right.height() > left.height() + 2 {
        match right {
            Tree::Empty => fork(left, node, Tree::Empty),
            Tree::Fork(mut top) => {
                let (inner, outer) = open(&mut top);
                let lower = join(left, node, inner);
                balance(lower, top, outer)
            }
        }
    } else {
        fork(left, node, right)
    }
}
