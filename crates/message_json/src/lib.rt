//! The messages between clients, servers and domains as JSON values: what each kind holds, read and written.
#![tactic(auto)]

mod between;
mod between_value;
mod client;
mod client_value;
mod copy;
mod message;
mod reading;
mod serial;
mod server;
mod server_value;
mod writing;

pub use message::{ForServer, Message};
pub use reading::message_of;
pub use server_value::{snapshot_value, update_value};
pub use writing::message_value;
