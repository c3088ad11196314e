//! States of a wavelet that are kept, so that the state at any delta is reached from one at most 63 deltas before it.
#![tactic(auto)]

mod cache;
mod steps;

pub use cache::StateCache;
pub use steps::Steps;
