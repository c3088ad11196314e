// Cells that are new.
ghost use Rattle.std.specs.Prelude.{◌≡◌, ◌<◌, ◌≤◌, ◌+◌, ℕ, List, map, length, slice_get, vec_len, vec_capacity, IfOk, Some, OnOk};
ghost use Rattle.turn_cells.specs.Cells.{AreOf, AreMade, seen_at, IsUnused};

use crate::{Cells, Passes};
use std::alloc::{AllocError, Global};
use turn_lock::{Logged, Pass, TurnCell};

// A cell with each of the values, and a pass to it. The error is want of memory.
fn cells_of<T: Logged>(
    alloc: Global,
    values: Vec<T>,
) -> Result<(Vec<TurnCell<T>>, Vec<Pass<T>>), AllocError>
    ensures { IfOk result (λ made. AreMade T.entries values.items made.0.items made.1.items) }
{
    let mut cells = Vec::new(alloc);
    let mut passes = Vec::new(alloc);
    for value in values {
        let (cell, pass) = TurnCell::new(alloc, value)?;
        cells.push(cell)?;
        passes.push(pass)?;
    }
    Ok((cells, passes))
}

// Room for so many values. The error is want of memory.
fn room_for<T: Drop>(alloc: Global, count: usize) -> Result<Vec<T>, AllocError>
    ensures empty { IfOk result (λ room. vec_len room ≡ 0) }
    ensures room { IfOk result (λ room. count ≤ vec_capacity room) }
{
    let mut room = Vec::new(alloc);
    room.reserve(count)?;
    Ok(room)
}

impl<T: Logged> Cells<T> {
    /// Cells with these values, and passes that have seen their entries. The error is want of memory.
    pub fn new(alloc: Global, values: Vec<T>) -> Result<(Cells<T>, Passes<T>), AllocError>
        requires { length values.items ≡ 16 }
        ensures own { IfOk result (λ made. AreOf made.0 made.1) }
        ensures seen { IfOk result (λ made. (k : ℕ) (v : T) → slice_get values.items k ≡ Some v → seen_at made.1 k ≡ T.entries v) }
        ensures unused { IfOk result (λ made. (k : ℕ) → k < 16 → IsUnused made.1 k) }
    {
        let room = room_for(alloc, 16)?;
        let (list, passes) = cells_of(alloc, values)?;
        Ok((Cells { list, room }, Passes { list: passes }))
    }
}
