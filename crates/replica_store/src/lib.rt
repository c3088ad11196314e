//! Copies of other domains' wavelets: the history as far as it came, the submissions that wait for the host's verdict, and the
//! newest verdicts that it gave.
#![tactic(auto)]

mod histories;
mod laws;
mod outcomes;
mod queued;
mod replica;
mod replicas;
mod sought;
mod waiting;

pub use laws::{copies_absorb, newest_verdicts_stay};
pub use peer_turns::Absorbed;
pub use queued::Queued;
pub use replica::Replica;
pub use replicas::Replicas;
pub use sought::Sought;
