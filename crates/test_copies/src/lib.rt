//! Copies of wavelets that are kept in memory, for tests and examples.
#![tactic(auto)]

mod copies;
mod held;

pub use copies::MemoryCopies;
pub use held::{Held, Noted, Notes};
