//! The history of a wavelet at its host: submissions are judged, and the deltas that they become are on the disk before they are
//! answered.
#![tactic(auto)]

mod cached;
mod container;
mod decision;
mod early;
mod fault;
mod first;
mod laws;
mod load;
mod passing;
mod plain;
mod stored;
mod trail;
mod unstored;

pub use container::Container;
pub use fault::{LoadFault, SubmitFault};
pub use first::first_verdict;
pub use laws::stored_history_is_one;
pub use load::LoadRefused;
pub use unstored::Unstored;
