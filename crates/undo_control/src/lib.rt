//! What a user takes back: their own newest edit, through what others did since.
#![tactic(auto)]

mod chain;
mod invert;
mod laws;

pub use chain::UndoChain;
pub use invert::invert_delta;
pub use laws::{chains_keep, changes_pass, entries_stay_light, undos_take_back};
pub use wavelet_state::Back;
