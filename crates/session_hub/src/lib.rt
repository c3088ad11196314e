//! The wavelets that a server hosts, shared by the sessions of many threads: sixteen shards, each of which one at a time has its turn.
//!
//! A shard's history is a list of marks, of which each session has seen a beginning. What is answered and sent under a turn is that of the
//! moment of the last mark then (`Look`).
#![tactic(auto)]

mod attach;
mod close;
mod deliver;
mod fault;
mod founding;
mod frames;
mod give;
mod giving;
mod have;
mod hub;
mod hub_turns;
mod judging;
mod logged;
mod made;
mod published;
mod queueing;
mod record;
mod robots;
mod rounds;
mod seek;
mod seeking;
mod shard;
mod sharing;
mod showing;
mod submit;
mod texts;
mod turns;

pub use attach::Attached;
pub use deliver::Delivered;
pub use fault::HubFault;
pub use frames::frame;
pub use hub::{Hub, Passes};
pub use hub_turns::HubTurns;
pub use robots::RobotWork;
pub use shard::Shard;
pub use submit::Placed;
