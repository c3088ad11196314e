//! What the public calls on names, documents, operations, edits and conversations answer to rows of text.
//!
//! A row is a verb and its parts, as `test_row_words` has them. Operations are the words of `test_op_words`, and a document is the
//! operation that makes it; in rows of `manifest` both are JSON. A row of several commands (`rope`, `manifest`) has an answer to each,
//! on a line of its own. Each file names its verbs at its function `call`.
#![tactic(auto)]

mod alike;
mod bytes;
mod documents;
mod edits;
mod fault;
mod items;
mod manifests;
mod names;
mod operations;
mod pieces;
mod tracks;
mod trees;

pub use fault::Fault;
use std::alloc::Global;

// On names, items and documents.
fn below(alloc: Global, verb: &str, rest: &str, out: &mut String) -> Result<bool, Fault> {
    if names::call(alloc, verb, rest, out)? {
        return Ok(true);
    }
    if items::call(alloc, verb, rest, out)? {
        return Ok(true);
    }
    if tracks::call(alloc, verb, rest, out)? {
        return Ok(true);
    }
    if pieces::call(alloc, verb, rest, out)? {
        return Ok(true);
    }
    documents::call(alloc, verb, rest, out)
}

// On operations and edits.
fn above(alloc: Global, verb: &str, rest: &str, out: &mut String) -> Result<bool, Fault> {
    if operations::call(alloc, verb, rest, out)? {
        return Ok(true);
    }
    if bytes::call(alloc, verb, rest, out)? {
        return Ok(true);
    }
    if edits::call(alloc, verb, rest, out)? {
        return Ok(true);
    }
    if trees::call(alloc, verb, rest, out)? {
        return Ok(true);
    }
    manifests::call(alloc, verb, rest, out)
}

/// What is printed after the row. None where the verb isn't one of this crate.
pub fn answer(alloc: Global, row: &str) -> Result<Option<String>, Fault> {
    let (verb, rest) = test_row_words::words(row);
    let mut out = String::new(alloc);
    if below(alloc, verb, rest, &mut out)? {
        return Ok(Some(out));
    }
    if above(alloc, verb, rest, &mut out)? {
        return Ok(Some(out));
    }
    Ok(None)
}
