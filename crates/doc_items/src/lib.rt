//! Documents: lists of items, each a character, an element's start or an element's end, with annotations; and the texts,
//! maps and changes that operations on them are made of.
#![tactic(auto)]

mod change;
mod document;
mod item;
mod pairs;
mod table;
mod text;
mod text_map;

pub use change::{Boundary, Change, Changes, Keys};
pub use document::Document;
pub use item::{Content, Item};
pub use pairs::Pairs;
pub use text::Text;
pub use text_map::{Attributes, Notes, TextMap, is_next};

/// Want of memory.
pub type Memory = std::alloc::AllocError;

/// The greatest count, version, time or length of a document, 2^53 - 1: each is a whole number that JSON readers keep.
pub const MAX_COUNT: u64 = 9_007_199_254_740_991;
