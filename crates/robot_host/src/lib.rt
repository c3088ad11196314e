//! Participants that are programs: each is shown the deltas of others once and in order, and answers with edits.
#![tactic(auto)]

mod asking;
mod edit;
mod host;
mod laws;
mod places;
mod presence;
mod progress;
mod reaction;
mod robot;
mod seat;
mod showing;
mod walk;

pub use edit::RobotEdit;
pub use host::RobotHost;
pub use laws::{
    longer_histories_may_follow, new_hosts_may_turn, refused_robots_leave_the_others,
    turns_leave_other_wavelets,
};
pub use reaction::Reaction;
pub use robot::Robot;
