// The verbs.
use crate::{Fault, disks, journals, words};
use std::alloc::Global;

/// Appends what comes of a row to it; false where it begins with no verb of this crate.
pub fn answer(alloc: Global, verb: &str, rest: &str, out: &mut String) -> Result<bool, Fault> {
    match verb {
        "words" => words::words(alloc, rest, out)?,
        "disk" => disks::disk_steps(alloc, rest, out)?,
        "journal" => journals::journal(alloc, rest, out)?,
        "stored_name" => journals::name(alloc, rest, out)?,
        "append" => journals::append(alloc, rest, out)?,
        "closed_gates" => journals::closed_gates(alloc, rest, out)?,
        "journal_stops" => journals::stops(alloc, rest, out)?,
        "journal_repairs" => journals::repairs(alloc, rest, out)?,
        _ => return Ok(false),
    }
    Ok(true)
}
