//! The program's top call: the words, and the commands that they name, over a source, a sink, a folder, a clock and a net.
//!
//! `pipe` takes lines of any number of sessions through `line_loop` into `pipe_machine`, whose histories stand in the folder where the
//! words name one. `play` and `inbox` answer commands over the histories of such a folder, and leave it as it is. `load` is the command
//! of that name. `serve` serves sessions over the net, and `edit` is a client of such a
//! server.
#![tactic(auto)]

mod asks;
mod damage;
mod edit;
mod load;
mod local;
mod net;
mod outside;
mod pipe;
mod service;
mod store;
mod top;
mod words;

pub use local::obey;
pub use outside::Outside;
pub use top::run;
pub use words::write_usage;
