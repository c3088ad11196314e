//! Documents in pieces: a rope is a list of items of which any stretch is replaced in a time that hardly grows with the
//! document.
#![tactic(auto)]

mod ends;
mod gather;
mod halves;
mod insertion;
mod piece;
mod reader;
mod replacement;
mod rope;
mod shape;
mod tree;
mod turns;
mod within;

pub use insertion::Insertion;
pub use reader::Reader;
pub use replacement::Replacement;
pub use rope::Rope;
