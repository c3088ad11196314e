//! Conversations: the threads of a manifest, and the operations that reply, go on and delete.
#![tactic(auto)]

mod contents;
mod edits;
mod fault;
mod manifest;
mod node;
mod reading;
mod search;

pub use edits::{continue_thread, delete_blip, inline_reply, reply_to};
pub use fault::ConversationFault;
pub use manifest::read_manifest;
pub use node::{Id, Node, Part, Threads};
