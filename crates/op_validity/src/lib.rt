//! Whether an operation applies to a document, and the document afterwards.
#![tactic(auto)]

mod demand;
mod edits;
mod fault;
mod noted;
mod pieces;
mod rebuild;
mod source;
mod validity;
mod walk;

pub use fault::CheckFault;
pub use pieces::{apply_rope, check_rope, edits_of};
pub use validity::{apply, check};
