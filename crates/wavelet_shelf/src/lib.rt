//! The histories of wavelets at their host, by name, each with its journal in a folder.
#![tactic(auto)]

mod close;
mod containers;
mod copies;
mod divide;
mod fault;
mod filed;
mod journal_name;
mod keeping;
mod laws;
mod load;
mod made;
mod opened;
mod shelf;
mod submit;
mod taking;
mod telling;
mod walk;

pub use fault::ShelfFault;
pub use journal_name::{file_name, shard};
pub use laws::hosting_grows_alone;
pub use shelf::Shelf;
