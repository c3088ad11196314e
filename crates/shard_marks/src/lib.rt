//! The history of a shard of wavelets, as a list of marks: what the marks give, the moments at which it is looked at, and what is answered
//! to a submission at a moment.
#![tactic(auto)]

mod giving;
pub mod laws;
mod look;
mod mark;

pub use giving::{Given, Giving};
pub use look::{Look, News};
pub use mark::Mark;
