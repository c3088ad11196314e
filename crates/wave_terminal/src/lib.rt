//! The terminal's side: what a screen shows, what obeys commands, one a line, and the commands that play a stored history.
#![tactic(auto)]

mod begun;
mod command;
mod feed;
mod machine;
mod play;
mod run;
mod stop;
mod take;

pub use machine::CommandMachine;
pub use play::play_run;
pub use run::run_commands;
pub use wave_screen::{number, push_text, write_screen};
