//! What the public calls on inverses and on chains of undo answer to rows of text.
//!
//! A row is a verb and its parts, as `test_row_words` has them. Operations are the words of `test_op_words`, and a document is the
//! operation that makes it. `invert` has a document and an operation on it: the inverse, the document after the operation, and the
//! one after the inverse; or the refusal. `undo-chain` has a state and commands, in JSON, each with an answer on a line of its own.
//! Each file names its verbs at its function `call`.
#![tactic(auto)]

mod chains;
mod fault;
mod inverses;

pub use fault::Fault;
use std::alloc::Global;

/// What is printed after the row. None where the verb isn't one of this crate.
pub fn answer(alloc: Global, row: &str) -> Result<Option<String>, Fault> {
    let (verb, rest) = test_row_words::words(row);
    let mut out = String::new(alloc);
    if inverses::call(alloc, verb, rest, &mut out)? {
        return Ok(Some(out));
    }
    if chains::call(alloc, verb, rest, &mut out)? {
        return Ok(Some(out));
    }
    Ok(None)
}
