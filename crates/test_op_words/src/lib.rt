//! Operations and documents as words, for tests and examples.
//!
//! `3` retains three items, `+ab` inserts and `-ab` deletes characters, `<p,a=1` and `>` insert an element's start and its end,
//! `-<p,a=1` and `->` delete them, `~a=1:2` updates attributes, `%a=1|b=2` replaces them, and `/!a,b=1:2` is a boundary at which
//! the annotation `a` ends and `b` changes. A value that is absent is `_`. A document is one word: its characters and elements,
//! each followed by its annotations, as `<p,a=1x,bold=1>`.
#![tactic(auto)]

mod reading;
mod showing;

pub use reading::operation;
pub use showing::{shown, shown_document};
