//! The rule that every step at a cell keeps.
ghost use Rattle.turn_lock.specs.Turns.{InTurn, newcomer};

use crate::Logged;
use crate::view::View;
use atomic_table::TableRule;
use std::marker::PhantomData;
use std::snapshot::Snapshot;

/// The rule of a cell's table. The first seat has seen the entries of the value that the cell was made with.
pub struct TurnRule<T> {
    of: PhantomData<T>,
}

impl<T: Logged> TableRule<Option<T>, View<T::Entry>, Snapshot<T>> for TurnRule<T> {
    ghost holds = { λ _. InTurn T.entries };

    ghost first = { λ key. newcomer (T.entries key.value) };
}
