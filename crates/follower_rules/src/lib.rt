//! What becomes of a client's follower of a wavelet, and of another server's copy: definitions with their laws, which the code of
//! both and the world of all nodes cite.
#![tactic(auto)]

mod fault;
mod laws;
mod received;
mod taken;

pub use fault::FollowerFault;
pub use laws::{calls_keep, deltas_advance};
pub use received::Received;
pub use taken::Taken;
