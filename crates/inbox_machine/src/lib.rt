//! The machine of an inbox: commands over an index of copies, each a line, and what they print.
#![tactic(auto)]

mod command;
mod indexing;
mod machine;
mod printing;

pub use machine::InboxMachine;
