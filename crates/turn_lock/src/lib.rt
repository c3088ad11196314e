//! A value that threads take in turn, with one history that all of them see.
//!
//! A `TurnCell` holds the value. Who wants it has a `Pass`, which knows a beginning of the
//! history, and enters: it draws a ticket, waits until that ticket is served, and takes the
//! value. The `Guard` that it gets lends the value; to leave gives it back, publishes the entry
//! that was added, if one was, and serves the next ticket. The length of the history can be
//! looked at with no turn, by `head`.
#![tactic(auto)]

ghost use Rattle.std.specs.Prelude.{◌≡◌, List, length};

mod bell;
mod cell;
pub mod laws;
mod rule;
mod steps;
pub mod view;

pub use cell::{Guard, Pass, Spent, TurnCell};

/// A value that keeps a history: a list of entries that only grows.
pub trait Logged: Drop {
    /// What the history is a list of.
    type Entry;

    ghost entries: { Self → List Self.Entry };

    /// The number of entries.
    fn length(&self) -> u64
        ensures { result ≡ length (entries self.now) };
}
