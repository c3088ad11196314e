//! The state of a wavelet, with its documents in pieces, and how operations and deltas apply to it.
#![tactic(auto)]

mod apply;
mod back;
mod documents;
mod draft;
mod fault;
mod inverse;
mod packed;
mod roles;
mod snapshot;
mod state;
mod stretch;

pub use apply::{
    apply_delta, apply_inverting, apply_op, apply_valid, inverses_take_back, invert_valid,
    try_delta,
};
pub use back::Back;
pub use packed::PackedState;
pub use snapshot::{MAX_INSERTED, Snapshot};
pub use state::WaveletState;
