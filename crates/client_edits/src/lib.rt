//! The edits of a terminal: the operations that an edit asks for at a screen, or why there are none.
#![tactic(auto)]

mod built;
mod conversations;
mod documents;
mod edits;

pub use built::Built;
pub use edits::build;
