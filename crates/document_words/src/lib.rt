//! The words of documents, and in which documents a word stands.
#![tactic(auto)]

mod counts;
mod cutter;
mod letters;
mod places;
mod stretch;
mod wavelets;
mod word;

pub use cutter::WordCutter;
pub use letters::letter;
pub use places::WordPlaces;
pub use stretch::{document_words, stretch_words};
pub use word::Word;
