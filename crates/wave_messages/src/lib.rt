//! Messages as bytes: read with a limit and exact refusals, and written compactly; and lines, which say which session a message is
//! from or goes to.
#![tactic(auto)]

mod fault;
mod frame;
mod line;
mod once;
mod reading;
mod writing;

pub use fault::{Kind, LineFault, MessageFault};
pub use frame::push_framed;
pub use line::{Line, read_line};
pub use message_json::{ForServer, Message};
pub use once::{WrittenSnapshot, write_snapshot, write_update};
pub use reading::{MAX_CLIENT, MAX_PEER, read};
pub use wavelet_json::{BadReason, ClosedReason, UnopenedReason};
pub use writing::{write, write_line};
