//! The history of a wavelet: which deltas it may have, the points that it leads through, and what becomes of a submission.
#![tactic(auto)]

mod copies;
mod fault;
mod first;
mod history;
mod ids;
mod kept;
mod laws;
mod log;
mod places;
mod states;
mod step;
mod twin;

pub use copies::Copies;
pub use fault::HistoryFault;
pub use first::adds_first;
pub use history::{History, Prepared};
pub use kept::Kept;
pub use laws::{points_hold, verdicts_hold};
pub use places::started_below;
pub use states::lead_on;
pub use step::{MAX_DELTA, Step, step_after};
