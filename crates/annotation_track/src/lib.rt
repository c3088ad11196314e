//! The changes of annotations that run at a place of an operation.
#![tactic(auto)]

mod edit;
mod meet;
mod spans;
mod spot;
mod track;

pub use meet::meet_tracks;
pub use spans::{Span, Spans};
pub use track::Track;
