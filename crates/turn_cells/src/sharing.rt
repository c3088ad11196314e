// What is done with no turn: passes split and joined, and looks at lengths.
ghost use Rattle.std.specs.Prelude.{◌≡◌, ◌≢◌, ◌<◌, ◌≤◌, ◌+◌, ℕ, length, IfOk};
ghost use mathlib.Core.List.{IsPrefix};
ghost use Rattle.turn_cells.specs.Cells.{AreOf, AreSame, AreOthersSame, BeginsAt, Begins, IsUnused, seen_at, loads_at, added_at, ticket_at};

use crate::{Cells, Passes};
use std::alloc::{AllocError, Global};
use turn_lock::Logged;

impl<T: Logged> Cells<T> {
    /// Second passes, which have seen as much. The error is want of memory.
    pub fn split(&self, alloc: Global, passes: &mut Passes<T>) -> Result<Passes<T>, AllocError>
        requires { AreOf self.now passes.old }
        ensures old { AreOf self.now passes.new × AreSame passes.old passes.new }
        ensures new { IfOk result (λ made. AreOf self.now made) }
        ensures seen { IfOk result (λ made. (k : ℕ) → k < 16 → seen_at made k ≡ seen_at passes.old k) }
        ensures unused { IfOk result (λ made. (k : ℕ) → k < 16 → IsUnused made k) }
    {
        let mut list = Vec::new(alloc);
        for place in 0..16usize {
            list.push(self.list[place].split(&mut passes.list[place]))?;
        }
        Ok(Passes { list })
    }

    /// Takes in what other passes have seen: at each place the longer stays, and begins with both.
    pub fn join(&self, passes: &mut Passes<T>, other: Passes<T>)
        requires { AreOf self.now passes.old × AreOf self.now other }
        ensures own { AreOf self.now passes.new }
        ensures later { Begins passes.old passes.new × Begins other passes.new }
        ensures counts { (k : ℕ) → k < 16 → (loads_at passes.new k ≡ loads_at passes.old k)
            × (added_at passes.new k ≡ added_at passes.old k) }
    {
        let Passes { mut list } = other;
        while let Some(pass) = list.pop() {
            let place = list.len();
            if place < 16 {
                self.list[place].join(&mut passes.list[place], pass);
            }
        }
    }

    /// The length of the history of the cell at a place, with no turn and no waiting. The pass has then seen the history of that length.
    pub fn head(&self, passes: &mut Passes<T>, place: usize) -> u64
        requires { AreOf self.now passes.old × (place < 16) }
        ensures own { AreOf self.now passes.new }
        ensures others { AreOthersSame place passes.old passes.new }
        ensures later { BeginsAt passes.old passes.new place }
        ensures length { result ≡ length (seen_at passes.new place) }
        ensures bound { length (seen_at passes.old place) ≤ result }
        ensures counts { (loads_at passes.new place ≡ loads_at passes.old place + 1)
            × (added_at passes.new place ≡ added_at passes.old place) }
        ensures ticket { ticket_at passes.new place ≡ ticket_at passes.old place }
    {
        self.list[place].head(&mut passes.list[place])
    }
}
