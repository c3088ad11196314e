//! Deltas of a history as bytes: each delta has one spelling, and different deltas have different ones.
#![tactic(auto)]

mod format;
mod front;
mod laws;
mod measure;
mod operation;
mod reading;
mod writing;

pub use laws::deltas_differ;
pub use measure::{applied_len, normal_ops_len, ops_len};
pub use reading::read_applied;
pub use writing::write_applied;
