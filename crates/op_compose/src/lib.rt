//! The composition of two operations: one that does what the first and then the second does.
#![tactic(auto)]

mod attributes;
mod back;
mod composition;
mod fault;
mod kept;
mod laws;
mod output;
mod step;
mod weave;

pub use composition::compose;
pub use fault::ComposeFault;
pub use laws::composition_holds;
