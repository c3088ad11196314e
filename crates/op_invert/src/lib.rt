//! What undoes an operation on a document.
#![tactic(auto)]

mod inversion;
mod items;
mod laws;
mod putting;
mod reversal;

pub use inversion::{invert, invert_rope};
pub use laws::{inverse_holds, inverse_twice_holds};
