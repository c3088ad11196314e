//! The threads of a program: jobs in threads of their own, and the gate by which sessions wake those who wait for their news.
#![tactic(auto)]

mod gate;
mod spawner;
mod work;

pub use gate::RingingGate;
pub use spawner::ThreadStarter;
pub use work::{Child, EndOf, Handed, Work};
