//! The transform of two operations that were made on one document: each for the document that the other gives.
#![tactic(auto)]

mod attributes;
mod both;
mod depth;
mod fault;
mod pair;
mod side;
mod step;
mod taken;
mod walk;

pub use both::transform;
pub use fault::TransformFault;
pub use pair::Pair;
