ghost use Rattle.std.specs.Prelude.{◌≡◌, ◌≤◌, length, vec_len, vec_capacity};

use turn_lock::{Logged, Pass, TurnCell};

/// Sixteen cells, with room to close them into.
#[derive(Drop)]
pub struct Cells<T: Logged> {
    pub list: Vec<TurnCell<T>>,
    pub(crate) room: Vec<T>,
    ghost sixteen: { length list.items ≡ 16 },
    ghost roomy: { (vec_len room ≡ 0) × (16 ≤ vec_capacity room) },
}

/// A pass to each of sixteen cells.
#[derive(Drop)]
pub struct Passes<T: Logged> {
    pub list: Vec<Pass<T>>,
}
