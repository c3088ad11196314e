//! The machine of a pipe: any number of sessions over the histories of a shelf. A line in is answered to its session, and then every
//! session is sent what is new to it.
#![tactic(auto)]

mod deliver;
mod due;
mod laws;
mod lines;
mod machine;
mod pipe;
mod reply;
mod runs;
mod seats;

pub use laws::{sent_is_held, sent_is_meant};
pub use pipe::PipeMachine;
