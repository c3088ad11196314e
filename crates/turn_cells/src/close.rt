// Cells that are closed.
ghost use Rattle.std.specs.Prelude.{◌≡◌, ◌∷◌, ◌<◌, ◌≤◌, ◌+◌, ℕ, List, length, slice_get, Option, Some, None, IfSome, vec_len, vec_capacity};
ghost use mathlib.Core.List.{IsPrefix};
ghost use Rattle.turn_lock.specs.Passes.{seen, IsOf};
ghost use Rattle.turn_cells.specs.Cells.{AreOf, ArePairs, AreLater, seen_at};

use crate::{Cells, Passes};
use turn_lock::{Logged, Pass, TurnCell};

// The value of the last cell comes before the others. False where the `close` of that cell gave None.
fn close_last<T: Logged>(cell: TurnCell<T>, pass: Pass<T>, values: &mut Vec<T>) -> Option<()>
    requires own { IsOf cell pass }
    requires room { vec_len values.old < vec_capacity values.old }
    ensures closed { IfSome result (λ _. (v : T) × (values.new.items ≡ v ∷ values.old.items) × IsPrefix (seen pass) (T.entries v)) }
    ensures room { vec_capacity values.new ≡ vec_capacity values.old }
{
    let value = cell.close(pass)?;
    let _done = values.insert(0, value);
    Some(())
}

impl<T: Logged> Cells<T> {
    /// Ends the cells, and gives their values, whose entries begin with what the passes have seen. None where the `close` of a cell gave
    /// None, after which the values are dropped. It takes no memory.
    pub fn close(self, passes: Passes<T>) -> Option<Vec<T>>
        requires { AreOf self passes }
        ensures sixteen { IfSome result (λ values. length values.items ≡ 16) }
        ensures seen { IfSome result
            (λ values. (k : ℕ) (v : T) → slice_get values.items k ≡ Some v → IsPrefix (seen_at passes k) (T.entries v)) }
    {
        let Cells { mut list, mut room } = self;
        let Passes { list: mut passes } = passes;
        while let Some(cell) = list.pop() {
            let pass = passes.pop()?;
            close_last(cell, pass, &mut room)?;
        }
        Some(room)
    }
}
