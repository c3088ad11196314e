//! Verbs of the rows on messages, runs of the whole program, shelves, containers and sessions: each row begins with a verb, and
//! what comes of it is printed after the row.
//!
//! Rows are written as `test_disk_rows` tells. What follows each verb stands at its function.
#![tactic(auto)]

mod containers;
mod fault;
mod faults;
mod hall;
mod labels;
mod members;
mod messages;
mod repairs;
mod runs;
mod shelves;
mod talk;
mod version;

pub use fault::Fault;
pub use talk::Talk;
