//! How the holder of a pass gets its turn.
ghost use Rattle.std.specs.Prelude.{◌≡◌, ◌<◌, ◌≤◌, ◌==◌, IfOk, IfErr, MatchBool};
ghost use mathlib.Core.List.{IsPrefix};
ghost use Rattle.turn_lock.specs.Turns.{turn_limit};
ghost use Rattle.turn_lock.specs.Passes.{seen, ticket, IsOf, IsWaiting, IsOnTurn, IsSameView, IsAsBusy};
ghost use Rattle.turn_lock.specs.Guards.{IsTaken, IsRefused};
ghost use Rattle.turn_lock.specs.contracts.cell.Pass.{the_row};
ghost use Rattle.std.specs.Borrow.{sem, RestsIfErr};

use super::{Guard, OUT, Pass, SERVING, Spent, TICKET, TurnCell};
use crate::Logged;
use crate::steps::{Draw, LookServing, LookTicket, Take};
use std::hint;
use std::sync::Wait;

/// The ticket that is no longer drawn.
const TURN_LIMIT: u64 = 1 << 63;

/// How often a thread whose ticket is the next one looks before it sleeps: a microsecond or two, as long as a short turn. More looks cost
/// more than a sleep does.
const LOOKS: u32 = 30;

impl Spent {
    /// The ticket word that was read.
    pub fn ticket(&self) -> u64
        ensures ticket { result ≡ self.now.ticket }
        ensures bound { turn_limit ≤ result }
    {
        self.ticket
    }
}

impl<T: Logged> TurnCell<T> {
    // Draws a ticket, and waits until it is served.
    fn draw<R: Wait>(&self, rt: &R, pass: &mut Pass<T>) -> Result<u64, Spent>
        requires { IsOf self.now pass.old }
        ensures ok { IfOk result (λ n. IsOnTurn self.now n pass.new × (ticket pass.new ≡ n) × (n < turn_limit)) }
        ensures err { IfErr result (λ s. IsOf self.now pass.new × (ticket pass.new ≡ s.ticket) × (turn_limit ≤ s.ticket)) }
        ensures same { (seen pass.new ≡ seen pass.old) × IsAsBusy pass.old pass.new }
    {
        let shared = &self.table.shared;
        let mut word = shared.load::<LookTicket>(&mut pass.seat, TICKET);
        for _ in rt.forever() {
            if word >= TURN_LIMIT {
                return Err(Spent { ticket: word });
            }
            let found = shared.compare_exchange::<Draw>(&mut pass.seat, TICKET, word, word + 1);
            if found == word {
                self.wait(rt, pass, word);
                return Ok(word);
            }
            word = found;
        }
        unreachable!()
    }

    // Waits until the ticket is served.
    fn wait<R: Wait>(&self, rt: &R, pass: &mut Pass<T>, number: u64)
        requires { IsWaiting self.now number pass.old }
        ensures { IsOnTurn self.now number pass.new × IsSameView pass.old pass.new }
    {
        for _ in rt.forever() {
            if self.watch(pass, number) {
                return;
            }
            if self.sleep(rt, pass, number) {
                return;
            }
        }
        unreachable!()
    }

    // Looks again and again, a bounded number of times, as long as the ticket is the next one.
    // True where it is served.
    fn watch(&self, pass: &mut Pass<T>, number: u64) -> bool
        requires { IsWaiting self.now number pass.old }
        ensures found { MatchBool result (IsOnTurn self.now number pass.new) (IsWaiting self.now number pass.new) }
        ensures same { IsSameView pass.old pass.new }
    {
        for _ in 0..LOOKS {
            let serving = self.look(pass, number);
            if serving == number {
                return true;
            }
            if serving.saturating_add(1) < number {
                return false;
            }
            hint::spin_loop();
        }
        false
    }

    // Sleeps, unless the ticket is served by now, in which case this is true.
    fn sleep<R: Wait>(&self, rt: &R, pass: &mut Pass<T>, number: u64) -> bool
        requires { IsWaiting self.now number pass.old }
        ensures found { MatchBool result (IsOnTurn self.now number pass.new) (IsWaiting self.now number pass.new) }
        ensures same { IsSameView pass.old pass.new }
    {
        let bell = self.bell(number);
        let rings = bell.lie_down();
        let serving = self.look(pass, number);
        if serving == number {
            bell.get_up();
            return true;
        }
        bell.sleep(rt, rings);
        bell.get_up();
        false
    }

    // Looks at the serving word, and learns whether it is the ticket.
    fn look(&self, pass: &mut Pass<T>, number: u64) -> u64
        requires { IsWaiting self.now number pass.old }
        ensures found { MatchBool (result == number) (IsOnTurn self.now number pass.new) (IsWaiting self.now number pass.new) }
        ensures same { IsSameView pass.old pass.new }
    {
        self.table
            .shared
            .load::<LookServing>(&mut pass.seat, SERVING)
    }

    // Takes the value.
    fn take<'a>(&'a self, pass: &'a mut Pass<T>, number: u64) -> Guard<'a, T>
        requires { IsOnTurn self.now number pass.old × (number < turn_limit) }
        ensures same_reference { result.pass.ghost_name ≡ pass.entry.ghost_name }
        ensures guard { IsTaken T.entries self.now result }
        ensures value { IsPrefix (seen pass.old) (T.entries result.value) × IsAsBusy pass.old result.pass.now }
        ensures ticket { ticket result.pass.now ≡ ticket pass.old }
    {
        let shared = &self.table.shared;
        shared.store::<Take>(&mut pass.seat, OUT, 1);
        let Some(value) = shared.exchange(&mut pass.seat, 0, None) else {
            unreachable!()
        };
        let length = value.length();
        Guard {
            cell: self,
            pass,
            value,
            number,
            length,
        }
    }
}

impl<T: Logged> Pass<T> {
    /// Waits for its turn, and takes the value, whose entries begin with what the pass has seen.
    /// `Spent` exactly where the ticket word that it last read is at the turn limit: the pass has
    /// then that word as its ticket, and is as before otherwise.
    pub fn enter<'a, R: Wait>(
        &'a mut self,
        rt: &R,
        cell: &'a TurnCell<T>,
    ) -> Result<Guard<'a, T>, Spent>
        requires { IsOf cell.now self.old }
        ensures same_reference { IfOk result (λ guard. guard.pass.ghost_name ≡ self.entry.ghost_name) }
        ensures guard { IfOk result (λ guard. IsTaken T.entries cell.now guard) }
        ensures value { IfOk result (λ guard. IsPrefix (seen self.old) (T.entries guard.value)) }
        ensures counts { IfOk result (λ guard. IsAsBusy self.old guard.pass.now) }
        ensures below { IfOk result (λ guard. ticket guard.pass.now < turn_limit) }
        ensures spent { IfErr result (λ s. turn_limit ≤ s.ticket) }
        ensures* refused { sem 𝓛 (RestsIfErr (the_row T.row T.Entry.row) self.entry (λ guard. guard.pass.ghost_name) result
            (IsRefused cell.now self.old result)) }
    {
        let number = cell.draw(rt, self)?;
        Ok(cell.take(self, number))
    }
}
