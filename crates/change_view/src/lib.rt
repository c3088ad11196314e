//! Change sets that borrow their texts: views of lists of changes and of maps, and what comes of two of them key by key.
#![tactic(auto)]

mod entry;
mod lists;
mod meet;
mod rule;
mod view;

pub use entry::ChangeRef;
pub use rule::{Rule, Test};
pub use view::ChangeView;
