//! A client's follower of a wavelet: it keeps the state at a version with what its user did since, takes submissions of that, and
//! moves with each delta of the history.
#![tactic(auto)]

mod bytes;
mod counts;
mod editing;
mod flight;
mod follower;
mod joining;
mod past;
mod receiving;
mod replay;
mod submitting;

pub use follower::Follower;
pub use follower_rules::{FollowerFault, Received, Taken};
pub use past::{Rebased, rebase};
pub use submitting::SUBMIT_BYTES;
