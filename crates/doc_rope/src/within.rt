// Items put in place of others inside one piece, so that no other piece changes.
ghost use Rattle.std.specs.Prelude.{◌≡◌, ℕ, ◌+◌, ◌^◌, ◌<◌, ◌≤◌, ◌∷◌, ◌++◌, [], List, length, max, take, drop, IfOk, IfErr, OnOk, OnErr};
ghost use Rattle.doc_rope.specs.Heights.{height};
ghost use Rattle.doc_rope.specs.Pieces.{pieces, IsSound, total, IsPacked, joined, IsBetween, first_len, last_len};

use crate::ends::concat;
use crate::halves::cut;
use crate::piece::{PIECE, Piece};
use crate::tree::{Node, Tree};
use crate::turns::{fork, open};

// Puts the items in place of the `count` items from place `from` on, where these lie in one piece which has room for them and then
// still doesn't fit into one with a neighbour. Otherwise all stays as it was. The pieces before and after the tree have `prior` and
// `next` items. Where there is none it counts as one of 128, since nothing fits into one with that.
#[tactic(auto, using(crate::proofs::Laws::total_append, crate::proofs::Changed::joined_left, crate::proofs::Changed::joined_right, crate::proofs::Between::between_left, crate::proofs::Between::between_right, crate::proofs::Between::between_before))]
fn put_within(
    tree: Tree,
    from: usize,
    count: usize,
    items: &mut Piece,
    prior: usize,
    next: usize,
) -> Result<Tree, Tree>
    requires sound { IsSound tree }
    requires packed { IsBetween prior (pieces tree) next }
    requires inside { from + count ≤ total (pieces tree) }
    requires fits { total (pieces tree) + length items.old < 2 ^ 64 }
    ensures joined { IfOk result
        (λ t. joined (pieces t) ≡ take from (joined (pieces tree)) ++ items.old ++ drop (from + count) (joined (pieces tree))) }
    ensures packed { IfOk result (λ t. IsBetween prior (pieces t) next) }
    ensures count { IfOk result (λ t. total (pieces t) + count ≡ total (pieces tree) + length items.old) }
    ensures sound { IfOk result (λ t. IsSound t) }
    ensures used { OnOk result (items.new ≡ []) }
    ensures kept { IfErr result (λ t. pieces t ≡ pieces tree) }
    ensures kept_sound { IfErr result (λ t. IsSound t) }
    ensures kept_items { OnErr result (items.new ≡ items.old) }
    ensures height { IfOk result (λ t. height t ≡ height tree) }
    ensures kept_height { IfErr result (λ t. height t ≡ height tree) }
{
    // A count is a `usize`, so what is taken apart fits too.
    let _whole = tree.count();
    match tree {
        Tree::Empty => Err(Tree::Empty),
        Tree::Fork(mut node) => {
            let (left, right) = open(&mut node);
            let len = node.piece.len();
            let before = left.count();
            let behind = before + len;
            let end = from + count;
            if from < before && end <= before {
                match put_within(left, from, count, items, prior, len) {
                    Ok(left) => Ok(fork(left, node, right)),
                    Err(left) => Err(fork(left, node, right)),
                }
            } else if behind <= from && behind < end {
                match put_within(right, from - behind, count, items, len, next) {
                    Ok(right) => Ok(fork(left, node, right)),
                    Err(right) => Err(fork(left, node, right)),
                }
            } else {
                put_here(left, node, right, from, count, items, prior, next)
            }
        }
    }
}

// Puts the items in the middle piece of a tree, where they replace what lies in it alone.
#[tactic(auto, using(crate::proofs::Laws::total_append, crate::proofs::Changed::joined_here, crate::proofs::Between::between_here))]
fn put_here(
    left: Tree,
    mut node: Box<Node>,
    right: Tree,
    from: usize,
    count: usize,
    items: &mut Piece,
    prior: usize,
    next: usize,
) -> Result<Tree, Tree>
    requires left { IsSound left }
    requires right { IsSound right }
    requires packed { IsBetween prior (pieces left ++ node.value.piece ∷ pieces right) next }
    requires whole { total (pieces left) + (length node.value.piece + total (pieces right)) < 2 ^ 64 }
    requires inside { from + count < 2 ^ 64 }
    requires fits { total (pieces left) + (length node.value.piece + total (pieces right)) + length items.old < 2 ^ 64 }
    requires some { 0 < length node.value.piece }
    requires left_near { height left ≤ height right + 2 }
    requires right_near { height right ≤ height left + 2 }
    ensures joined { IfOk result
        (λ t. joined (pieces t) ≡ take from (joined (pieces left ++ node.value.piece ∷ pieces right)) ++ items.old
        ++ drop (from + count) (joined (pieces left ++ node.value.piece ∷ pieces right))) }
    ensures packed { IfOk result (λ t. IsBetween prior (pieces t) next) }
    ensures count { IfOk result
        (λ t. total (pieces t) + count ≡ total (pieces left) + (length node.value.piece + total (pieces right)) + length items.old) }
    ensures sound { IfOk result (λ t. IsSound t) }
    ensures used { OnOk result (items.new ≡ []) }
    ensures kept { IfErr result (λ t. pieces t ≡ pieces left ++ node.value.piece ∷ pieces right) }
    ensures kept_sound { IfErr result (λ t. IsSound t) }
    ensures kept_items { OnErr result (items.new ≡ items.old) }
    ensures height { IfOk result (λ t. height t ≡ max (height left) (height right) + 1) }
    ensures kept_height { IfErr result (λ t. height t ≡ max (height left) (height right) + 1) }
{
    let before = left.count();
    let len = node.piece.len();
    if from < before {
        return Err(fork(left, node, right));
    }
    let at = from - before;
    if at + count > len {
        return Err(fork(left, node, right));
    }
    let least = least_between(&left, &right, prior, next);
    if node.piece.put(at, count, items, least) {
        Ok(fork(left, node, right))
    } else {
        Err(fork(left, node, right))
    }
}

// How many items a piece between the two trees must have, so that it doesn't fit into one with a neighbour.
fn least_between(left: &Tree, right: &Tree, prior: usize, next: usize) -> usize
    ensures before { 128 < last_len prior (pieces left.now) + result }
    ensures behind { 128 < first_len (pieces right.now) next + result }
{
    let before = left.last_len(prior);
    let behind = right.first_len(next);
    if before < behind {
        (PIECE + 1).saturating_sub(before)
    } else {
        (PIECE + 1).saturating_sub(behind)
    }
}

// Puts the items in one piece, where the pieces then are packed. Otherwise all stays as it was.
#[tactic(auto, using(crate::proofs::Between::between_none, crate::proofs::Between::packed_between))]
fn put_near(tree: Tree, from: usize, count: usize, items: &mut Piece) -> Result<Tree, Tree>
    requires sound { IsSound tree }
    requires packed { IsPacked (pieces tree) }
    requires inside { from + count ≤ total (pieces tree) }
    requires fits { total (pieces tree) + length items.old < 2 ^ 64 }
    ensures joined { IfOk result
        (λ t. joined (pieces t) ≡ take from (joined (pieces tree)) ++ items.old ++ drop (from + count) (joined (pieces tree))) }
    ensures packed { IfOk result (λ t. IsPacked (pieces t)) }
    ensures sound { IfOk result (λ t. IsSound t) }
    ensures used { OnOk result (items.new ≡ []) }
    ensures kept { IfErr result (λ t. pieces t ≡ pieces tree) }
    ensures kept_sound { IfErr result (λ t. IsSound t) }
    ensures kept_items { OnErr result (items.new ≡ items.old) }
{
    put_within(tree, from, count, items, PIECE, PIECE)
}

// The tree with the items in place of the `count` items from place `from` on, with spare pieces for those that are cut at both
// ends of what is replaced.
pub fn put_items(
    tree: Tree,
    from: usize,
    count: usize,
    items: Tree,
    first: Box<Node>,
    second: Box<Node>,
) -> Tree
    requires sound { IsSound tree }
    requires packed { IsPacked (pieces tree) }
    requires inside { from + count ≤ total (pieces tree) }
    requires fits { total (pieces tree) + total (pieces items) < 2 ^ 64 }
    requires items { IsSound items }
    requires items_packed { IsPacked (pieces items) }
    requires first { first.value.piece ≡ [] }
    requires second { second.value.piece ≡ [] }
    ensures joined { joined (pieces result) ≡ take from (joined (pieces tree)) ++ joined (pieces items)
        ++ drop (from + count) (joined (pieces tree)) }
    ensures sound { IsSound result }
    ensures packed { IsPacked (pieces result) }
{
    if items.is_one() {
        put_one(tree, from, count, items, first, second)
    } else if items.is_empty() {
        put_none(tree, from, count, first, second)
    } else {
        put_between(tree, from, count, items, first, second)
    }
}

// Puts no items in place of the `count` items from place `from` on.
#[tactic(auto, using(crate::proofs::Seams::packed_none))]
fn put_none(tree: Tree, from: usize, count: usize, mut first: Box<Node>, second: Box<Node>) -> Tree
    requires sound { IsSound tree }
    requires packed { IsPacked (pieces tree) }
    requires inside { from + count ≤ total (pieces tree) }
    requires fits { total (pieces tree) < 2 ^ 64 }
    requires first { first.value.piece ≡ [] }
    requires second { second.value.piece ≡ [] }
    ensures joined { joined (pieces result) ≡ take from (joined (pieces tree)) ++ [] ++ drop (from + count) (joined (pieces tree)) }
    ensures sound { IsSound result }
    ensures packed { IsPacked (pieces result) }
{
    match put_near(tree, from, count, &mut first.piece) {
        Ok(tree) => tree,
        Err(tree) => put_between(tree, from, count, Tree::Empty, first, second),
    }
}

// Puts the items of one piece in place of those.
fn put_one(
    tree: Tree,
    from: usize,
    count: usize,
    items: Tree,
    first: Box<Node>,
    second: Box<Node>,
) -> Tree
    requires sound { IsSound tree }
    requires packed { IsPacked (pieces tree) }
    requires inside { from + count ≤ total (pieces tree) }
    requires fits { total (pieces tree) + total (pieces items) < 2 ^ 64 }
    requires items { IsSound items }
    requires items_packed { IsPacked (pieces items) }
    requires one { length (pieces items) ≡ 1 }
    requires first { first.value.piece ≡ [] }
    requires second { second.value.piece ≡ [] }
    ensures joined { joined (pieces result) ≡ take from (joined (pieces tree)) ++ joined (pieces items)
        ++ drop (from + count) (joined (pieces tree)) }
    ensures sound { IsSound result }
    ensures packed { IsPacked (pieces result) }
{
    match items {
        Tree::Empty => put_none(tree, from, count, first, second),
        Tree::Fork(mut node) => match put_near(tree, from, count, &mut node.piece) {
            Ok(tree) => tree,
            Err(tree) => {
                let items = fork(Tree::Empty, node, Tree::Empty);
                put_between(tree, from, count, items, first, second)
            }
        },
    }
}

// Puts the items between the pieces that lie before and after those, which are cut where they have to be.
#[tactic(auto, using(crate::proofs::Laws::length_joined, crate::proofs::Seams::total_glued, crate::proofs::Seams::packed_glued, crate::proofs::Seams::joined_glued, crate::proofs::Laws::spliced))]
fn put_between(
    tree: Tree,
    from: usize,
    count: usize,
    items: Tree,
    first: Box<Node>,
    second: Box<Node>,
) -> Tree
    requires sound { IsSound tree }
    requires packed { IsPacked (pieces tree) }
    requires inside { from + count ≤ total (pieces tree) }
    requires fits { total (pieces tree) + total (pieces items) < 2 ^ 64 }
    requires items { IsSound items }
    requires items_packed { IsPacked (pieces items) }
    requires first { first.value.piece ≡ [] }
    requires second { second.value.piece ≡ [] }
    ensures joined { joined (pieces result) ≡ take from (joined (pieces tree)) ++ joined (pieces items)
        ++ drop (from + count) (joined (pieces tree)) }
    ensures sound { IsSound result }
    ensures packed { IsPacked (pieces result) }
{
    let outer = cut(tree, from, first);
    let inner = cut(outer.after, count, second);
    let start = concat(outer.before, items);
    concat(start, inner.after)
}
