//! The client's side of a run: what each line and each message makes of its followers, and what it then sends and prints.
#![tactic(auto)]

mod about;
mod acts;
mod chain;
mod edits;
mod key;
mod laws;
mod messages;
mod opening;
mod said;
mod seat;
mod state;
mod taking;

pub use acts::Acts;
pub use laws::{chains_follow, changes_pass, undos_lead_back};
pub use messages::Messages;
pub use said::{Reason, Said, ShownText};
pub use state::ClientState;
