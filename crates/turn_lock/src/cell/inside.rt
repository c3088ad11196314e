//! What is done while the turn lasts.
ghost use Rattle.std.specs.Prelude.{◌≡◌, ◌+◌, ◌⊎◌, ◌<◌, [], length};
ghost use Rattle.turn_lock.specs.Turns.{turn_limit};
ghost use Rattle.turn_lock.specs.Passes.{seen, loads, added, ticket, IsOf, IsInside, IsGiven, IsOneMore, IsSameView};
ghost use Rattle.turn_lock.specs.Guards.{IsHeld, with_value};
ghost use Rattle.turn_lock.specs.contracts.cell.Guard.{the_row};
ghost use Rattle.std.specs.Borrow.{sem, Lends};
ghost use mir.Syntax.{named};

use super::{Guard, HEAD, OUT, Pass, SERVING, TurnCell};
use crate::Logged;
use crate::steps::{Give, GiveNew, PassOn, Publish};

impl<T: Logged> TurnCell<T> {
    // Gives the value back, and publishes a new entry.
    fn give(&self, pass: &mut Pass<T>, value: T, number: u64, before: u64)
        requires inside { IsInside self.now number pass.old × (before ≡ length (seen pass.old)) }
        requires one { (T.entries value ≡ seen pass.old) ⊎ IsOneMore (seen pass.old) (T.entries value) }
        ensures given { IsGiven self.now number pass.new }
        ensures seen { seen pass.new ≡ T.entries value }
        ensures added { added pass.new + before ≡ added pass.old + length (T.entries value) }
        ensures counts { (loads pass.new ≡ loads pass.old) × (ticket pass.new ≡ ticket pass.old) }
    {
        let shared = &self.table.shared;
        let now = value.length();
        shared.exchange(&mut pass.seat, 0, Some(value));
        if now == before {
            shared.store::<Give>(&mut pass.seat, OUT, 0);
        } else {
            shared.store::<GiveNew>(&mut pass.seat, OUT, 0);
            shared.store::<Publish>(&mut pass.seat, HEAD, now);
        }
    }

    // Passes the turn on, and wakes those who sleep until the next ticket is served.
    fn pass_on(&self, pass: &mut Pass<T>, number: u64)
        requires { IsGiven self.now number pass.old × (number < turn_limit) }
        ensures { IsOf self.now pass.new × IsSameView pass.old pass.new }
    {
        let next = number + 1;
        self.table
            .shared
            .store::<PassOn>(&mut pass.seat, SERVING, next);
        self.bell(next).ring();
    }
}

impl<'a, T: Logged> Guard<'a, T> {
    /// The value. What is written through the reference is what `leave` gives back.
    pub fn value(&mut self) -> &mut T
        ensures* writes_back { sem 𝓛
            (Lends (the_row (record { mir = named 1; lft = [] }) T.row T.Entry.row T.Logged) T.row self.entry result
            (with_value self.old)) }
        ensures value { result.now ≡ self.old.value }
    {
        &mut self.value
    }

    /// Gives the value back, publishes the entry that was added, if one was, and passes the turn
    /// on. The pass has then seen all entries, and `added` is one higher exactly where they are
    /// one more.
    pub fn leave(self)
        requires held { IsHeld self }
        requires one { (T.entries self.value ≡ seen self.pass.now) ⊎ IsOneMore (seen self.pass.now) (T.entries self.value) }
        ensures own { IsOf self.entry.cell.now self.exit.1.0.now }
        ensures seen { seen self.exit.1.0.now ≡ T.entries self.entry.value }
        ensures added { added self.exit.1.0.now + length (seen self.entry.pass.now) ≡ added self.entry.pass.now
            + length (T.entries self.entry.value) }
        ensures counts { (loads self.exit.1.0.now ≡ loads self.entry.pass.now) × (ticket self.exit.1.0.now ≡ ticket self.entry.pass.now) }
    {
        let Guard {
            cell,
            pass,
            value,
            number,
            length,
        } = self;
        cell.give(pass, value, number, length);
        cell.pass_on(pass, number);
    }
}
