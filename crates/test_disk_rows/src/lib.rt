//! Verbs of the rows on disks, journals and the program's words, and what rows are written in: each row begins with a verb, and what
//! comes of it is printed after the row.
//!
//! In texts `<<N TEXT>>` stands for so many times that text, or the bytes of digits after `0x`. Bytes are given by hexadecimal
//! digits, none as `-`. What follows each verb stands at its function.
#![tactic(auto)]

mod answers;
mod disks;
mod fault;
mod journals;
mod text;
mod words;

pub use answers::answer;
pub use disks::{calls, disk};
pub use fault::Fault;
pub use text::{bytes_of, filled, first_word, halves, number, put, put_bytes, put_digits, text_of};
pub use words::words_of;
