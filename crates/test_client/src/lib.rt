//! Verbs of the rows on clients: what each line and each message makes a client send and print, and clients that talk to a server in
//! memory over links which lose what is under way when they are cut.
//!
//! Rows are written as `test_disk_rows` tells. What follows each verb stands at its function in `room.rt`.
#![tactic(auto)]

mod acts;
mod person;
mod room;

pub use room::Room;
