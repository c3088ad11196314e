//! The commands of a terminal that edits: what a line says.
#![tactic(auto)]

mod command;
mod edits;
mod lines;
mod phrase;
mod words;

pub use command::{Command, Edit, Spot, Stretch};
pub use lines::command_of;
pub use phrase::Phrase;
