//! The cell, a pass, and a guard.
ghost use Rattle.std.specs.Prelude.{◌≡◌, ◌≤◌};
ghost use Rattle.turn_lock.specs.Turns.{turn_limit};

use crate::Logged;
use crate::bell::Bell;
use crate::rule::TurnRule;
use crate::view::View;
use atomic_table::{Seat, Table};
use std::alloc::Global;
use std::snapshot::Snapshot;

mod entering;
mod inside;
mod sharing;

/// The word with the ticket that the next seat draws.
const TICKET: usize = 0;

/// The word with the ticket that is served.
const SERVING: usize = 1;

/// The word with the length of the history.
const HEAD: usize = 2;

/// The word that is 1 while the value is out.
const OUT: usize = 3;

/// How many bells a cell has. Waiting threads share them by their tickets.
const BELLS: usize = 16;

/// A value that threads take in turn.
#[derive(Drop)]
pub struct TurnCell<T: Logged> {
    table: Table<Option<T>, View<T::Entry>, Snapshot<T>, TurnRule<T>, Global>,
    bells: [Bell; BELLS],
    ghost sized: { (table.shared.table_id.words ≡ 4) × (table.shared.table_id.slots ≡ 1) },
}

/// What its holder has seen of one cell, and its right to take turns there. It has no bytes.
#[derive(Drop)]
pub struct Pass<T: Logged> {
    seat: Seat<Option<T>, View<T::Entry>>,
}

/// A cell has no turn left: the ticket word stood at the turn limit. `Pass::enter` alone makes one.
#[derive(Clone, Copy, Drop)]
pub struct Spent {
    ticket: u64,
    ghost limit: { turn_limit ≤ ticket },
}

/// The value, for as long as the turn lasts. It is not `Drop`, so it has to be left.
pub struct Guard<'a, T: Logged> {
    cell: &'a TurnCell<T>,
    pass: &'a mut Pass<T>,
    value: T,
    number: u64,
    length: u64,
}

#[cfg(test)]
mod tests;
