//! Records on a disk, each whole on it before its gate is opened.
#![tactic(auto)]

mod append;
mod fault;
mod heading;
mod journal;
mod laws;
mod load;
mod name;
mod reading;
mod repair;
mod stage;
mod stored;
mod write;

pub use fault::JournalFault;
pub use heading::Heading;
pub use journal::Journal;
pub use laws::{file_means_once, file_named_once};
pub use load::{Loaded, Unloaded};
pub use name::stored_name;
pub use stored::{Bytes, Stored, StoredRecords};
