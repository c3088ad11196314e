//! The loop of a server over the servers of other domains: each is dialled and stepped in turn, and pauses after it was cut.
#![tactic(auto)]

mod each;
mod pause;
mod peer;
mod peers;
#[cfg(test)]
mod tests;

pub use pause::Pause;
pub use peer::Peer;
pub use peers::Peers;
