//! Any state of a stored history: a delta on, a delta back, or straight to a version.
#![tactic(auto)]

mod laws;
mod places;
mod playback;
mod steps;
mod walk;

pub use laws::inverses_lead_back;
pub use playback::Playback;
