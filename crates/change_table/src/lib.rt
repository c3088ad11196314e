//! Changes in a table by key, and the boundary to the changes that two tables show together: however many run, only the keys where
//! something may differ are looked at.
#![tactic(auto)]

mod joint;
mod running;
mod table;
mod touched;
mod turn;

pub use joint::Joint;
pub use running::RunningChanges;
pub use table::ChangeTable;
pub use touched::Touched;
