// A tree of pieces with their counts.
ghost use Rattle.std.specs.Prelude.{◌≡◌, ℕ, ◌+◌, ◌^◌, ◌<◌, ◌≤◌, ◌==◌, ◌∷◌, ◌++◌, [], List, length, true, false, slice_get, option_copied, take, drop, IfSome, IfNone};
ghost use Rattle.doc_rope.specs.Heights.{height};
ghost use Rattle.doc_rope.specs.Pieces.{pieces, IsSound, total, joined, first_len, last_len};
ghost use Rattle.doc_rope.specs.Shapes.{shape_of};

use crate::piece::Piece;
use crate::shape::Shape;
use doc_items::Item;

#[cycle(tree)]
#[derive(Drop)]
pub enum Tree {
    Empty,
    Fork(Box<Node>),
}

#[cycle(tree)]
pub struct Node {
    pub left: Tree,
    pub piece: Piece,
    pub right: Tree,
    // How many items stand below, and their shape.
    pub count: usize,
    pub shape: Shape,
    pub height: usize,
}

impl Drop for Node {
    fn drop(self) {
        let Node {
            left: _left,
            piece: _piece,
            right: _right,
            count: _count,
            shape: _shape,
            height: _height,
        } = self;
    }
}

fn piece_item(piece: &Piece, at: usize) -> Option<&Item>
    ensures { option_copied result ≡ slice_get piece.now at }
{
    piece.as_slice().get(at)
}

fn piece_run(piece: &Piece, at: usize) -> &[Item]
    requires { at ≤ length piece.now }
    ensures { result.now ≡ drop at piece.now }
{
    piece.as_slice().split_at(at).1
}

impl Tree {
    pub fn count(&self) -> usize
        requires { IsSound self.now }
        ensures { result ≡ total (pieces self.now) }
    {
        match self {
            Tree::Empty => 0,
            Tree::Fork(node) => node.count,
        }
    }

    // The shape of all items.
    #[tactic(auto, using(crate::proofs::Shapes::shape_is))]
    pub fn shape(&self) -> Shape
        requires { IsSound self.now }
        ensures { result ≡ shape_of (joined (pieces self.now)) }
    {
        match self {
            Tree::Empty => Shape::none(),
            Tree::Fork(node) => node.shape,
        }
    }

    // How many pieces stand on the longest way down: at most 128, so nothing that walks down goes deep.
    #[tactic(auto, using(crate::proofs::Heights::not_deep))]
    pub fn height(&self) -> usize
        requires { IsSound self.now }
        ensures value { result ≡ height self.now }
        ensures bound { result ≤ 128 }
    {
        // A count is a `usize`.
        let _whole = self.count();
        self.kept_height()
    }

    fn kept_height(&self) -> usize
        requires { IsSound self.now }
        ensures { result ≡ height self.now }
    {
        match self {
            Tree::Empty => 0,
            Tree::Fork(node) => node.height,
        }
    }

    #[tactic(auto, using(crate::proofs::Items::at_left, crate::proofs::Items::at_middle, crate::proofs::Items::at_right))]
    pub fn item(&self, place: usize) -> Option<&Item>
        requires { IsSound self.now }
        ensures { option_copied result ≡ slice_get (joined (pieces self.now)) place }
    {
        match self {
            Tree::Empty => None,
            Tree::Fork(node) => {
                let before = node.left.count();
                let len = node.piece.len();
                if place < before {
                    node.left.item(place)
                } else if place - before < len {
                    piece_item(&node.piece, place - before)
                } else {
                    node.right.item(place - before - len)
                }
            }
        }
    }

    // The items of one piece from the place on; None where there are none.
    #[tactic(auto, using(crate::proofs::Items::run_left, crate::proofs::Items::run_middle, crate::proofs::Items::run_right, crate::proofs::Laws::past_all))]
    pub fn run(&self, place: usize) -> Option<&[Item]>
        requires { IsSound self.now }
        ensures front { IfSome result (λ r. take (length r.now) (drop place (joined (pieces self.now))) ≡ r.now) }
        ensures some { IfSome result (λ r. 0 < length r.now) }
        ensures none { IfNone result (total (pieces self.now) ≤ place) }
    {
        match self {
            Tree::Empty => None,
            Tree::Fork(node) => {
                let left = node.left.count();
                let len = node.piece.len();
                if place < left {
                    node.left.run(place)
                } else if place - left < len {
                    Some(piece_run(&node.piece, place - left))
                } else {
                    node.right.run(place - left - len)
                }
            }
        }
    }

    pub fn is_empty(&self) -> bool
        ensures none { result ≡ true → pieces self.now ≡ [] }
        ensures some { result ≡ false → 0 < length (pieces self.now) }
    {
        match self {
            Tree::Empty => true,
            Tree::Fork(_) => false,
        }
    }

    // Whether there is one piece.
    #[tactic(auto, using(crate::proofs::Laws::length_cut))]
    pub fn is_one(&self) -> bool
        ensures { result ≡ true → length (pieces self.now) ≡ 1 }
    {
        match self {
            Tree::Empty => false,
            Tree::Fork(node) => node.left.is_empty() && node.right.is_empty(),
        }
    }

    // How many items the first piece has, or `none` where there is no piece.
    #[tactic(auto, using(crate::proofs::Between::first_of))]
    pub fn first_len(&self, none: usize) -> usize
        ensures { result ≡ first_len (pieces self.now) none }
    {
        match self {
            Tree::Empty => none,
            Tree::Fork(node) => node.left.first_len(node.piece.len()),
        }
    }

    // How many items the last piece has, or `none` where there is no piece.
    #[tactic(auto, using(crate::proofs::Between::last_of))]
    pub fn last_len(&self, none: usize) -> usize
        ensures { result ≡ last_len none (pieces self.now) }
    {
        match self {
            Tree::Empty => none,
            Tree::Fork(node) => node.right.last_len(node.piece.len()),
        }
    }
}
