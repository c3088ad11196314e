//! Rows of text: their parts, and the answers that are put after them.
//!
//! A row is a verb and its parts, between which ` | ` stands; each answer comes after ` => `.
#![tactic(auto)]

mod row;

pub use row::{
    bytes_of, letters, number, parts, put, put_command, put_either, put_hex, put_number, words,
};
