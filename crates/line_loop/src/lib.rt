//! Lines from a source: each is given to a machine with a reading of the clock, and its answers are written to a sink.
#![tactic(auto)]

mod cut;
mod feed;
mod line_machine;
mod output;
mod run;
mod take;

pub use line_machine::{LineMachine, TurnFault};
pub use output::write_all;
pub use run::{Stop, run_lines};
