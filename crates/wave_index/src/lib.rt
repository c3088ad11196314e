//! An index over the histories of wavelets: what of them a user has, what is new in it, and where a word stands.
#![tactic(auto)]

mod answers;
mod blips;
mod changed;
mod changing;
mod edges;
mod hits;
mod index;
mod kept;
mod marks;
mod title;
mod wavelet;

pub use answers::{Hit, InboxLine};
pub use index::{Index, IndexFault};
pub use marks::Marks;
