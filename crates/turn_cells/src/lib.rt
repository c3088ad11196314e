//! Sixteen values, each of which threads take in turn, and a pass to each.
#![tactic(auto)]

mod cells;
mod close;
mod made;
mod sharing;

pub use cells::{Cells, Passes};
