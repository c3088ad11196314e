//! Operations as JSON: an array of components, each an object with one member, whose name is the component's kind.
#![tactic(auto)]

mod attributes;
mod change;
mod component;
mod fault;
mod members;
mod read;
mod scalar;
mod write;
mod written;

pub use fault::JsonFault;
pub use members::three_members;
pub use read::from_value;
pub use write::to_value;
