//! Runs of two operations side by side: what composing and transforming them share.
#![tactic(auto)]

mod ahead;
mod contents;
mod kept;
mod passage;
mod writing;

pub use ahead::{Ahead, ahead_of};
pub use contents::{agree, common, put};
pub use kept::Kept;
pub use passage::Passage;
pub use writing::{write_kept, write_part};
