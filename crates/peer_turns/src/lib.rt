//! The calls by which a link with another domain reaches the copies of wavelets that the other domain hosts: what came over the link
//! is given to them, and they say how far they are and which submissions of theirs wait for an answer. Beside them is one in memory,
//! for tests.
#![tactic(auto)]

mod absorbed;
mod call;
mod fault;
mod item;
mod memory_turns;
mod turns;

pub use absorbed::Absorbed;
pub use call::TurnCall;
pub use fault::TurnFault;
pub use item::{CopyAt, Relay};
pub use memory_turns::MemoryTurns;
pub use turns::PeerTurns;
