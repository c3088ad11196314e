//! Operations on wavelets, deltas and states as words, for tests and examples.
//!
//! Operations are `noop`, `add ADDRESS`, `remove ADDRESS`, `role ADDRESS OLD NEW` with roles `full` and `read`, and
//! `DOCUMENT: WORDS` with words of `test_op_words`. Of several, `; ` stands between each two. A state is its participants with their
//! roles, and then its documents, each followed by `; `.
#![tactic(auto)]

mod fault;
mod reading;
mod showing;

pub use fault::WordsFault;
pub use reading::{delta_at, id, operations, submission};
pub use showing::shown_state;
