// A tree cut in two at any item.
ghost use Rattle.std.specs.Prelude.{◌≡◌, ℕ, ◌+◌, ◌^◌, ◌<◌, ◌≤◌, ◌==◌, ◌∷◌, ◌++◌, [], List, length, true, false};
ghost use Rattle.doc_rope.specs.Pieces.{pieces, IsSound, total, add_last, glued, IsPacked, joined};

use crate::ends::{concat, push_last, take_out};
use crate::tree::{Node, Tree};
use crate::turns::{fork, join};

// A tree in two.
#[derive(Drop)]
pub struct Halves {
    pub before: Tree,
    pub after: Tree,
}

// The first `place` items and the others, with the spare piece for a piece that is cut.
#[tactic(auto, using(crate::proofs::Laws::total_append, crate::proofs::Laws::joined_append, crate::proofs::Laws::append_nothing, crate::proofs::Seams::packed_left, crate::proofs::Seams::packed_right, crate::proofs::Seams::packed_tail))]
pub fn cut(tree: Tree, place: usize, spare: Box<Node>) -> Halves
    requires sound { IsSound tree }
    requires packed { IsPacked (pieces tree) }
    requires place { place ≤ total (pieces tree) }
    requires spare { spare.value.piece ≡ [] }
    ensures joined { joined (pieces tree) ≡ joined (pieces result.before) ++ joined (pieces result.after) }
    ensures place { total (pieces result.before) ≡ place }
    ensures before { IsSound result.before }
    ensures after { IsSound result.after }
    ensures packed_before { IsPacked (pieces result.before) }
    ensures packed_after { IsPacked (pieces result.after) }
{
    let whole = tree.count();
    if place == whole {
        return Halves {
            before: tree,
            after: Tree::Empty,
        };
    }
    let taken = take_out(tree, place);
    if taken.within == 0 {
        let after = join(Tree::Empty, taken.node, taken.right);
        Halves {
            before: taken.left,
            after,
        }
    } else {
        cut_piece(taken.left, taken.node, taken.right, taken.within, spare)
    }
}

#[tactic(auto, using(crate::proofs::Laws::total_append, crate::proofs::Laws::length_both, crate::proofs::Laws::total_add_last, crate::proofs::Seams::total_glued, crate::proofs::Seams::cut_joined, crate::proofs::Seams::cut_packed_before, crate::proofs::Seams::cut_packed_after))]
pub fn cut_piece(
    left: Tree,
    mut node: Box<Node>,
    right: Tree,
    within: usize,
    mut spare: Box<Node>,
) -> Halves
    requires left { IsSound left }
    requires right { IsSound right }
    requires packed { IsPacked (pieces left ++ node.value.piece ∷ pieces right) }
    requires fits { total (pieces left) + (length node.value.piece + total (pieces right)) < 2 ^ 64 }
    requires within { within < length node.value.piece }
    requires some { 0 < within }
    requires spare { spare.value.piece ≡ [] }
    ensures joined { joined (pieces left ++ node.value.piece ∷ pieces right) ≡ joined (pieces result.before)
        ++ joined (pieces result.after) }
    ensures place { total (pieces result.before) ≡ total (pieces left) + within }
    ensures before { IsSound result.before }
    ensures after { IsSound result.after }
    ensures packed_before { IsPacked (pieces result.before) }
    ensures packed_after { IsPacked (pieces result.after) }
{
    node.piece.cut(within, &mut spare.piece);
    let before = push_last(left, node);
    let start = fork(Tree::Empty, spare, Tree::Empty);
    let after = concat(start, right);
    Halves { before, after }
}
