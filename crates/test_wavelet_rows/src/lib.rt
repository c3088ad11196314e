//! What the public calls on wavelets, deltas, histories and followers answer to rows of text.
//!
//! A row is a verb and its parts, as `test_row_words` has them, with operations in the words of `test_wavelet_words`. A row of several
//! commands (`deltas`, `steps`, `history`, `follower`) has an answer to each, on a line of its own. Each file names its verbs at its
//! function `call`.
#![tactic(auto)]

mod deltas;
mod fault;
mod followers;
mod histories;
mod scene;
mod wavelets;

pub use fault::Fault;
use std::alloc::Global;

fn find(alloc: Global, verb: &str, rest: &str, out: &mut String) -> Result<bool, Fault> {
    if wavelets::call(alloc, verb, rest, out)? {
        return Ok(true);
    }
    if deltas::call(alloc, verb, rest, out)? {
        return Ok(true);
    }
    if histories::call(alloc, verb, rest, out)? {
        return Ok(true);
    }
    followers::call(alloc, verb, rest, out)
}

/// What is printed after the row. None where the verb isn't one of this crate.
pub fn answer(alloc: Global, row: &str) -> Result<Option<String>, Fault> {
    let (verb, rest) = test_row_words::words(row);
    let mut out = String::new(alloc);
    if find(alloc, verb, rest, &mut out)? {
        return Ok(Some(out));
    }
    Ok(None)
}
