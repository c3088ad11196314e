// A shelf over a file whose disk fails at one call, in turn at each: while the file is read, or while the second delta is appended, which
// the next submission repairs.
use crate::Fault;
use crate::runs::{crashed, one_file};
use crate::shelves::{MemoryShelf, answer, version_of};
use std::alloc::Global;
use test_disk_rows::{bytes_of, disk, first_word, halves, number, put};
use wave_base::WaveletName;
use wave_outside::MemoryFolder;
use wavelet_shelf::{Shelf, ShelfFault};

// What came of one failing call.
#[derive(Clone, Copy, PartialEq, Eq)]
enum Met {
    /// No call of that number was made, and the submission was acknowledged at once.
    Not,
    /// The file wasn't read, or the submission was acknowledged after it was repaired.
    Fault,
    /// Anything else.
    Wrong,
}

// The submission until it is acknowledged; meanwhile the version stays.
fn submitted(
    alloc: Global,
    shelf: &mut MemoryShelf,
    name: &WaveletName,
    row: &str,
) -> Result<Met, Fault> {
    let mut met = Met::Not;
    for _ in 0..3u64 {
        let told = answer(alloc, shelf, name, row)?;
        if told.as_str() == "ack 2 3" {
            return Ok(met);
        }
        if told.as_str() != "disk fault" || version_of(shelf, name) != 2 {
            return Ok(Met::Wrong);
        }
        met = Met::Fault;
    }
    Ok(Met::Wrong)
}

fn shelf_over(alloc: Global, folder: MemoryFolder) -> (MemoryShelf, Result<(), ShelfFault>) {
    let mut shelf = Shelf::over(alloc, folder);
    let loaded = shelf.load(alloc);
    (shelf, loaded)
}

// Whether what is in the folder is read again, with both deltas.
fn is_read_again(
    alloc: Global,
    folder: &MemoryFolder,
    name: &WaveletName,
    row: &str,
) -> Result<bool, Fault> {
    let left = crashed(alloc, folder, u64::MAX)?;
    let (mut shelf, loaded) = shelf_over(alloc, left);
    if loaded.is_err() || version_of(&shelf, name) != 3 {
        return Ok(false);
    }
    let told = answer(alloc, &mut shelf, name, row)?;
    Ok(told.as_str() == "ack 2 3")
}

fn closed_well(
    alloc: Global,
    shelf: MemoryShelf,
    name: &WaveletName,
    row: &str,
) -> Result<bool, Fault> {
    match shelf.close() {
        Some(folder) => is_read_again(alloc, &folder, name, row),
        None => Ok(false),
    }
}

fn met_over(
    alloc: Global,
    folder: MemoryFolder,
    name: &WaveletName,
    row: &str,
) -> Result<Met, Fault> {
    let (mut shelf, loaded) = shelf_over(alloc, folder);
    match loaded {
        Ok(()) => {}
        Err(ShelfFault::Failed) => return Ok(Met::Fault),
        Err(_) => return Ok(Met::Wrong),
    }
    let met = submitted(alloc, &mut shelf, name, row)?;
    Ok(if closed_well(alloc, shelf, name, row)? {
        met
    } else {
        Met::Wrong
    })
}

// The file of a row, on a disk of which one call fails.
fn failing(alloc: Global, file: &str, call: u64) -> Result<MemoryFolder, Fault> {
    let (name, digits) = first_word(file);
    let faults = format!(in alloc; "fails {call}")?;
    let disk = disk(alloc, bytes_of(alloc, digits)?, faults.as_str())?;
    Ok(one_file(alloc, name, disk)?)
}

// How many calls are met well, and how many of these by a fault.
fn counted(
    alloc: Global,
    file: &str,
    calls: u64,
    name: &WaveletName,
    row: &str,
) -> Result<(u64, u64), Fault> {
    let mut well = 0u64;
    let mut faults = 0u64;
    for call in 0..calls {
        let folder = failing(alloc, file, call)?;
        let met = met_over(alloc, folder, name, row)?;
        if met != Met::Wrong {
            well = well.saturating_add(1);
        }
        if met == Met::Fault {
            faults = faults.saturating_add(1);
        }
    }
    Ok((well, faults))
}

/// `repairs CALLS FILE DIGITS | NAME AUTHOR NUMBER VERSION | WORDS`: over the file, whose disk fails at each of so many calls in turn,
/// the submission is acknowledged after at most two faults, and both deltas are read again; how often, and whether a half of the calls
/// or more were met.
pub(crate) fn repairs(alloc: Global, rest: &str, out: &mut String) -> Result<(), Fault> {
    let (front, row) = halves(rest);
    let (calls, file) = first_word(front);
    let (name, row) = first_word(row);
    let name = WaveletName::parse(alloc, name)?;
    let calls = number(calls)?;
    let (well, faults) = counted(alloc, file, calls, &name, row)?;
    let many = if faults >= calls / 2 { "many" } else { "few" };
    let told = format!(in alloc; "{well} calls, {many} met")?;
    Ok(put(out, told.as_str())?)
}
