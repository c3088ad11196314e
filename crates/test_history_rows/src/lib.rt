//! What an index and a playback answer over histories, to rows of text.
//!
//! A row is a verb and its parts, as `test_row_words` has them, with operations in the words of `test_wavelet_words`. `index` has commands
//! on one index, each with an answer on a line of its own. `index-drawn` and `play-drawn` draw histories from a seed and compare
//! each answer with what is computed anew from the histories. Each file names its verbs at its function `call`.
#![tactic(auto)]

mod comparing;
mod drawn;
mod draws;
mod fault;
mod inboxes;
mod plain;
mod playing;
mod showing;

pub use fault::Fault;
use std::alloc::Global;

/// What is printed after the row. None where the verb isn't one of this crate.
pub fn answer(alloc: Global, row: &str) -> Result<Option<String>, Fault> {
    let (verb, rest) = test_row_words::words(row);
    let mut out = String::new(alloc);
    if inboxes::call(alloc, verb, rest, &mut out)? {
        return Ok(Some(out));
    }
    if comparing::call(alloc, verb, rest, &mut out)? {
        return Ok(Some(out));
    }
    if playing::call(alloc, verb, rest, &mut out)? {
        return Ok(Some(out));
    }
    Ok(None)
}
