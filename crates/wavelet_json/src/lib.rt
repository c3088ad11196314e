//! Parts of messages as JSON, read and written: operations on wavelets, reasons, verdicts, and deltas by their bytes.
#![tactic(auto)]

mod delta;
mod operation;
mod operation_value;
mod reason;
mod verdict;
mod verdict_value;

pub use delta::{delta_at, delta_value};
pub use operation::{components_at, normal_ops_at, ops_at, role_at};
pub use operation_value::{ops_value, role_value};
pub use reason::{BadReason, ClosedReason, UnopenedReason, bad_at, closed_at};
pub use verdict::{ack_in, answer_at, refusal_in, unopened_in};
pub use verdict_value::{put_unopened, put_verdict, put_version};
