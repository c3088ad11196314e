//! Documents that are kept and not edited, in few bytes: characters in a row stand as one text.
#![tactic(auto)]

mod characters;
mod packed;
mod piece;
mod run;

pub use characters::character;
pub use packed::PackedDocument;
