//! A link with another domain: it dials, says how far the copies reach and which submissions wait, gives the copies what comes, and sends
//! what is handed in meanwhile.
#![tactic(auto)]

mod asking;
mod ear;
mod greeting;
mod peer_link;
mod relaying;
mod sending;
mod step;
mod stepped;
mod stop;
mod taking;

pub use peer_link::PeerLink;
pub use stepped::Stepped;
