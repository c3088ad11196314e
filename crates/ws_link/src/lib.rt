//! Links over WebSockets, and the net that hands them out.
//!
//! Nothing here blocks but two calls that sleep: `poll`, where nothing came for a while, and `rest`, at the door. Each sleeps until its
//! sockets are ready, until its bell is rung, or until a time is over. Whoever has news for others rings their bells. So an idle
//! link costs nothing, and news leave at once.
#![tactic(auto)]

mod bells;
mod dialling;
mod door;
mod greeting;
mod limits;
mod link;
mod net;
mod outbox;
mod patience;
mod socket;
mod waiting;

pub use bells::Bells;
pub use limits::{CLIENT_MESSAGE, Limits, PEER_MESSAGE, UNSENT};
pub use link::SocketLink;
pub use net::SocketNet;
pub use patience::Patience;
