//! What it means that a session was served from the histories of shards: the steps that account for all that came and was sent.
#![tactic(auto)]

mod end;
pub mod laws;
mod step;

pub use end::EndCause;
pub use step::LinkStep;
