//! The words of the program: which command they name.
#![tactic(auto)]

mod command;
mod grammar;
mod name;
mod peers;
#[cfg(test)]
mod tests;
mod values;

pub use command::{Command, WordsFault, read_words};
pub use peers::PeerList;
