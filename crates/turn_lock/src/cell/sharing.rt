//! What is done with no turn: to make a cell, to split and join passes, to look at the head, and to
//! close.
ghost use Rattle.std.specs.Prelude.{◌≡◌, ◌+◌, ◌≤◌, length, IfOk, IfSome, IfNone};
ghost use mathlib.Core.List.{IsPrefix};
ghost use Rattle.turn_lock.specs.Turns.{turn_limit, longer_of};
ghost use Rattle.turn_lock.specs.Passes.{seen, loads, added, ticket, IsOf, IsSameView};

use super::{BELLS, HEAD, OUT, Pass, TICKET, TurnCell};
use crate::Logged;
use crate::bell::Bell;
use crate::steps::{Cut, Glue, LookHead, Settle};
use atomic_table::Table;
use std::alloc::{AllocError, Global};
use std::array;
use std::snapshot::Snapshot;

impl<T: Logged> TurnCell<T> {
    /// A cell with this value, and a pass that has seen the value's entries.
    pub fn new(alloc: Global, value: T) -> Result<(TurnCell<T>, Pass<T>), AllocError>
        ensures own { IfOk result (λ made. IsOf made.0 made.1) }
        ensures seen { IfOk result (λ made. seen made.1 ≡ T.entries value) }
        ensures counts { IfOk result (λ made. (loads made.1 ≡ 0) × (added made.1 ≡ 0) × (ticket made.1 ≡ 0)) }
    {
        TurnCell::starting_at(alloc, value, 0)
    }

    // A cell whose first ticket is this one.
    pub(crate) fn starting_at(
        alloc: Global,
        value: T,
        first: u64,
    ) -> Result<(TurnCell<T>, Pass<T>), AllocError>
        requires { first ≤ turn_limit }
        ensures own { IfOk result (λ made. IsOf made.0 made.1) }
        ensures seen { IfOk result (λ made. seen made.1 ≡ T.entries value) }
        ensures counts { IfOk result (λ made. (loads made.1 ≡ 0) × (added made.1 ≡ 0) × (ticket made.1 ≡ 0)) }
    {
        let about = Snapshot::of(&value);
        let words = [first, first, value.length(), 0];
        let mut slots = Vec::new(alloc);
        slots.push(Some(value))?;
        let Ok((table, seat)) = Table::new(alloc, &words, slots, &about) else {
            return Err(AllocError);
        };
        let bells = array::from_fn(|_| Bell::new());
        Ok((TurnCell { table, bells }, Pass { seat }))
    }

    // Where threads sleep that hold this ticket.
    pub(super) fn bell(&self, number: u64) -> &Bell {
        &self.bells[(number % BELLS as u64) as usize]
    }

    /// A second pass, which has seen as much. It takes no memory, since a pass has no bytes.
    pub fn split(&self, pass: &mut Pass<T>) -> Pass<T>
        requires { IsOf self.now pass.old }
        ensures old { IsOf self.now pass.new × IsSameView pass.old pass.new }
        ensures new { IsOf self.now result × (seen result ≡ seen pass.old) }
        ensures counts { (loads result ≡ 0) × (added result ≡ 0) × (ticket result ≡ 0) }
    {
        Pass {
            seat: self.table.shared.split_seat::<Cut>(&mut pass.seat),
        }
    }

    /// Takes in what another pass has seen: the longer of both stays, and begins with both.
    pub fn join(&self, pass: &mut Pass<T>, other: Pass<T>)
        requires { IsOf self.now pass.old × IsOf self.now other }
        ensures own { IsOf self.now pass.new }
        ensures seen { seen pass.new ≡ longer_of (seen pass.old) (seen other) }
        ensures later { IsPrefix (seen pass.old) (seen pass.new) × IsPrefix (seen other) (seen pass.new) }
        ensures counts { (loads pass.new ≡ loads pass.old) × (added pass.new ≡ added pass.old) }
        ensures ticket { ticket pass.new ≡ ticket pass.old }
    {
        let Pass { seat } = other;
        self.table.shared.join_seat::<Glue>(&mut pass.seat, seat);
        self.table.shared.load::<Settle>(&mut pass.seat, TICKET);
    }

    /// The length of the history, with no turn and no waiting. The pass has then seen the history
    /// of that length.
    pub fn head(&self, pass: &mut Pass<T>) -> u64
        requires { IsOf self.now pass.old }
        ensures own { IsOf self.now pass.new }
        ensures later { IsPrefix (seen pass.old) (seen pass.new) }
        ensures length { result ≡ length (seen pass.new) }
        ensures bound { length (seen pass.old) ≤ result }
        ensures counts { (loads pass.new ≡ loads pass.old + 1) × (added pass.new ≡ added pass.old) }
        ensures ticket { ticket pass.new ≡ ticket pass.old }
    {
        self.table.shared.load::<LookHead>(&mut pass.seat, HEAD)
    }

    /// Ends the cell, and gives its value, whose entries begin with what the pass has seen. None
    /// where the slot is empty, which it is while somebody is inside; this is only tested.
    pub fn close(self, pass: Pass<T>) -> Option<T>
        requires { IsOf self pass }
        ensures some { IfSome result (λ value. IsPrefix (seen pass) (T.entries value)) }
    {
        let TurnCell { table, bells: _ } = self;
        let Pass { seat } = pass;
        let mut closed = table.close_with(seat);
        let out = closed.word(OUT);
        let slot = closed.take(0);
        closed.free();
        if out == 0 { slot } else { None }
    }
}
