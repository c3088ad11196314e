//! A stated workload over a host without a journal and four followers: `run_load` runs it, and its summary tells where it led.
#![tactic(auto)]

mod choice;
mod draws;
mod editing;
mod exchange;
mod host;
mod length;
mod line;
mod names;
mod planning;
mod run;
mod script;
mod summary;

pub use line::summary_line;
pub use run::run_load;
pub use summary::Summary;
