// Items in a row, with their shape.
ghost use Rattle.std.specs.Prelude.{◌≡◌, ◌+◌, ◌<◌, ◌≤◌, ◌++◌, [], true, false, length, take, drop, vec_capacity, IfOk, OnOk};
ghost use Rattle.doc_rope.specs.Shapes.{shape_of};

use crate::shape::Shape;
use doc_items::{Item, Memory};
use std::alloc::Global;
use std::marker::Model;

pub const PIECE: usize = 128;

// More items than this aren't moved one by one.
const FEW: usize = 16;

// A piece, seen as its items. It has room for 128 of them from its making, and keeps their shape.
#[derive(Drop)]
pub struct Piece {
    items: Vec<Item>,
    shape: Shape,
}

impl Model for Piece {
    ghost use Rattle.std.specs.Prelude.{◌≡◌, ◌≤◌, List, vec_capacity};
    ghost use Rattle.std.specs.Coded.{coded_list};
    ghost use Rattle.doc_items.specs.declared.item.Item.{Item};
    ghost use Rattle.doc_items.specs.contracts.item.Item as item_row;
    ghost use Rattle.doc_rope.specs.Shapes.{shape_of};

    ghost Value = { List Item };

    ghost coded = { coded_list item_row.the_row.coded };

    ghost view = { λ p. p.items.items };

    ghost invariant = { λ p. (128 ≤ vec_capacity p.items) × (p.shape ≡ shape_of p.items.items) };
}

impl Piece {
    // Without items.
    pub fn new(alloc: Global) -> Result<Piece, Memory>
        ensures { IfOk result (λ p. p ≡ []) }
    {
        let items = Vec::with_capacity(alloc, PIECE)?;
        let shape = Shape::none();
        Ok(Piece { items, shape })
    }

    pub fn len(&self) -> usize
        ensures { result ≡ length self.now }
    {
        self.items.len()
    }

    pub fn as_slice(&self) -> &[Item]
        ensures { result.now ≡ self.now }
    {
        self.items.as_slice()
    }

    pub fn shape(&self) -> Shape
        ensures { result ≡ shape_of self.now }
    {
        self.shape
    }

    // Moves the other's items after these, for which there is room.
    #[tactic(auto, using(crate::proofs::Shapes::shape_append))]
    pub fn append(&mut self, other: &mut Piece)
        requires { length self.old + length other.old ≤ PIECE }
        ensures { self.new ≡ self.old ++ other.old }
    {
        let _poured = self.items.append(&mut other.items);
        self.shape = Shape::of(self.items.as_slice());
        other.shape = Shape::of(other.items.as_slice());
    }

    // Moves the items from `at` on out of the list. There were none here.
    pub fn take_tail(&mut self, from: &mut Vec<Item>, at: usize)
        requires at { at ≤ length from.old.items }
        requires empty { self.old ≡ [] }
        requires room { length from.old.items ≤ at + PIECE }
        ensures same { from.new.items ++ self.new ≡ from.old.items }
        ensures from { length from.new.items ≡ at }
        ensures from_room { vec_capacity from.old ≤ vec_capacity from.new }
    {
        move_tail(from, at, &mut self.items);
        self.shape = Shape::of(self.items.as_slice());
    }

    // Moves the items from `at` on into the other, which has none.
    pub fn cut(&mut self, at: usize, tail: &mut Piece)
        requires at { at ≤ length self.old }
        requires empty { tail.old ≡ [] }
        requires room { length self.old ≤ at + PIECE }
        ensures same { self.new ++ tail.new ≡ self.old }
        ensures front { length self.new ≡ at }
    {
        tail.take_tail(&mut self.items, at);
        self.shape = Shape::of(self.items.as_slice());
    }

    // Moves the other's items in place of the `count` items from `at` on, where both are few and a piece of at least so many items
    // results. Otherwise all stays as it was.
    #[tactic(auto, using(crate::proofs::Changed::put_length))]
    pub fn put(&mut self, at: usize, count: usize, other: &mut Piece, least: usize) -> bool
        requires { at + count ≤ length self.old }
        ensures value { result ≡ true → self.new ≡ take at self.old ++ other.old ++ drop (at + count) self.old }
        ensures count { result ≡ true → length self.new + count ≡ length self.old + length other.old }
        ensures some { result ≡ true → 0 < length self.new }
        ensures short { result ≡ true → length self.new ≤ PIECE }
        ensures long { result ≡ true → least ≤ length self.new }
        ensures used { result ≡ true → other.new ≡ [] }
        ensures kept { result ≡ false → self.new ≡ self.old }
        ensures kept_other { result ≡ false → other.new ≡ other.old }
    {
        let more = other.items.len();
        let rest = self.items.len() - count;
        if count > FEW || more > FEW || rest > PIECE - more {
            return false;
        }
        if rest + more == 0 || rest + more < least {
            return false;
        }
        take_away(&mut self.items, at, count);
        move_into(&mut other.items, &mut self.items, at);
        self.shape = Shape::of(self.items.as_slice());
        other.shape = Shape::none();
        true
    }

    // An equal piece.
    pub fn copy(&self, alloc: Global) -> Result<Piece, Memory>
        ensures { IfOk result (λ p. p ≡ self.now) }
    {
        let mut items = Vec::with_capacity(alloc, PIECE)?;
        copy_items(self.items.as_slice(), alloc, &mut items)?;
        let shape = self.shape;
        Ok(Piece { items, shape })
    }
}

// Moves the items of `from` from `at` on into `to`, which is empty.
#[tactic(auto, using(crate::proofs::Laws::length_both, crate::proofs::Laws::append_one_more))]
fn move_tail(from: &mut Vec<Item>, at: usize, to: &mut Vec<Item>)
    requires at { at ≤ length from.old.items }
    requires empty { to.old.items ≡ [] }
    requires room { length from.old.items ≤ at + vec_capacity to.old }
    ensures same { from.new.items ++ to.new.items ≡ from.old.items }
    ensures from { length from.new.items ≡ at }
    ensures from_room { vec_capacity from.old ≤ vec_capacity from.new }
    ensures to_room { vec_capacity to.old ≤ vec_capacity to.new }
{
    while from.len() > at {
        if let Some(item) = from.pop() {
            to.push_reserved(item);
        }
    }
    to.reverse();
}

// Takes the `count` items from `at` on out.
#[tactic(auto, using(crate::proofs::Changed::taken_one))]
fn take_away(items: &mut Vec<Item>, at: usize, count: usize)
    requires { at + count ≤ length items.old.items }
    ensures items { items.new.items ≡ take at items.old.items ++ drop (at + count) items.old.items }
    ensures room { vec_capacity items.old ≤ vec_capacity items.new }
{
    for _ in 0..count {
        let _gone = items.remove(at);
    }
}

// Moves all items of `from` in front of the item at `at`.
#[tactic(auto, using(crate::proofs::Changed::insert_front, crate::proofs::Changed::insert_rest))]
fn move_into(from: &mut Vec<Item>, to: &mut Vec<Item>, at: usize)
    requires at { at ≤ length to.old.items }
    requires room { length to.old.items + length from.old.items ≤ vec_capacity to.old }
    ensures items { to.new.items ≡ take at to.old.items ++ from.old.items ++ drop at to.old.items }
    ensures from { from.new.items ≡ [] }
    ensures room { vec_capacity to.old ≤ vec_capacity to.new }
    ensures from_room { vec_capacity from.old ≤ vec_capacity from.new }
{
    while let Some(item) = from.pop() {
        match to.insert(at, item) {
            Ok(()) => {}
            Err(_) => unreachable!(),
        }
    }
}

// Puts copies of the items after those of `to`.
pub fn copy_items(items: &[Item], alloc: Global, to: &mut Vec<Item>) -> Result<(), Memory>
    ensures items { OnOk result (to.new.items ≡ to.old.items ++ items.now) }
    ensures room { OnOk result (vec_capacity to.old ≤ vec_capacity to.new) }
{
    for item in items {
        to.push(item.copy(alloc)?)?;
    }
    Ok(())
}
