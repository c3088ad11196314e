//! Operations on wavelets: participants with their roles, and operations on documents; what they mean, and how those that were
//! made at one state are taken past each other.
#![tactic(auto)]

mod compaction;
mod crossing;
mod delta;
mod fault;
mod held;
mod joining;
mod laws;
mod op;
mod ops;
mod pair;
mod pass;
mod role;
mod transform;
mod verdict;

pub use compaction::compact;
pub use delta::{AppliedDelta, Submission};
pub use fault::WaveletFault;
pub use laws::{compact_holds, delta_square_holds};
pub use op::WaveletOp;
pub use ops::{MAX_OPS, Ops};
pub use pair::{OpPair, OpsPair};
pub use role::Role;
pub use transform::{transform_delta, transform_op};
pub use verdict::Verdict;
