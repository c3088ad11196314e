//! The terminal client: it takes commands, one a line, sends what they ask for over a link, and prints what they show and what the
//! server says.
#![tactic(auto)]

mod acting;
mod lines;
mod looking;
mod mood;
mod run;
mod sending;
mod stop;

pub use run::edit_run;
