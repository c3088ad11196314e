// The disk in memory, step by step.
ghost use Rattle.std.specs.Prelude.{◌≡◌, length, IfOk};
ghost use Rattle.disk_model.specs.Memory.{disk_view};

use crate::Fault;
use crate::text::{bytes_of, first_word, halves, number, numbers, put, put_digits};
use disk_model::{Disk, DiskError, DiskFault, MemoryDisk};
use doc_items::Memory;
use std::alloc::Global;

/// A disk with these bytes whose calls of these numbers fail, or all from one on: `fails N ..`, `stops N`, or nothing.
pub fn disk(alloc: Global, bytes: Vec<u8>, faults: &str) -> Result<MemoryDisk, Fault> {
    let failing = calls(alloc, "fails", faults)?;
    let stop = stop(faults)?;
    Ok(MemoryDisk::new(alloc, bytes, failing, stop))
}

fn stop(faults: &str) -> Result<Option<u64>, Fault> {
    match first_word(faults) {
        ("stops", call) => Ok(Some(number(call)?)),
        _ => Ok(None),
    }
}

/// The calls that fail, where the first word tells of such calls.
pub fn calls(alloc: Global, of: &str, faults: &str) -> Result<Vec<u64>, Fault> {
    let (what, calls) = first_word(faults);
    if what == of {
        numbers(alloc, calls)
    } else {
        Ok(Vec::new(alloc))
    }
}

// The length of the file, without a call on its disk.
fn length_of(alloc: Global, disk: &MemoryDisk) -> Result<u64, Fault>
    ensures { IfOk result (λ n. n ≡ length (disk_view disk.now).seen) }
{
    let mut other = disk.fork(alloc)?;
    match other.length() {
        Ok(length) => Ok(length),
        Err(_) => Err(Fault::BadRow),
    }
}

fn put_done(out: &mut String, done: Result<(), DiskFault>) -> Result<(), Memory> {
    put(out, if done.is_ok() { "done" } else { "failed" })
}

fn write(alloc: Global, disk: &mut MemoryDisk, rest: &str, out: &mut String) -> Result<(), Fault> {
    let (at, digits) = first_word(rest);
    let at = number(at)?;
    let bytes = bytes_of(alloc, digits)?;
    if at > length_of(alloc, disk)? {
        return Err(Fault::BadRow);
    }
    Ok(put_done(out, disk.write_at(at, bytes.as_slice()))?)
}

fn read(alloc: Global, disk: &mut MemoryDisk, rest: &str, out: &mut String) -> Result<(), Fault> {
    let (at, count) = first_word(rest);
    let at = number(at)?;
    let count = number(count)?;
    let length = length_of(alloc, disk)?;
    if at > length || count > length - at {
        return Err(Fault::BadRow);
    }
    match disk.read(alloc, at, count) {
        Ok(bytes) => put_bytes(alloc, bytes.as_slice(), out),
        Err(DiskError::Failed) => Ok(put(out, "failed")?),
        Err(DiskError::Memory) => Err(Fault::Memory),
    }
}

fn put_bytes(alloc: Global, bytes: &[u8], out: &mut String) -> Result<(), Fault> {
    put(out, "")?;
    Ok(put_digits(alloc, out, bytes)?)
}

fn length(alloc: Global, disk: &mut MemoryDisk, out: &mut String) -> Result<(), Fault> {
    match disk.length() {
        Ok(length) => {
            let told = format!(in alloc; "{length}")?;
            Ok(put(out, told.as_str())?)
        }
        Err(_) => Ok(put(out, "failed")?),
    }
}

fn step(alloc: Global, disk: &mut MemoryDisk, step: &str, out: &mut String) -> Result<(), Fault> {
    let (verb, rest) = first_word(step);
    match verb {
        "write" => write(alloc, disk, rest, out),
        "read" => read(alloc, disk, rest, out),
        "length" => length(alloc, disk, out),
        "sync" => Ok(put_done(out, disk.sync())?),
        "image" => put_bytes(alloc, disk.image(alloc, number(rest)?)?.as_slice(), out),
        _ => Err(Fault::BadRow),
    }
}

fn steps(alloc: Global, disk: &mut MemoryDisk, rest: &str, out: &mut String) -> Result<(), Fault> {
    for one in rest.split(" | ") {
        step(alloc, disk, one, out)?;
    }
    Ok(())
}

/// `disk DIGITS FAULTS | STEP | ..`: what each step on a disk with these bytes gives. Steps are `write AT DIGITS`, `read AT COUNT`,
/// `length`, `sync`, and `image CHOICE`, which is no call.
pub(crate) fn disk_steps(alloc: Global, rest: &str, out: &mut String) -> Result<(), Fault> {
    let (front, rest) = halves(rest);
    let (digits, faults) = first_word(front);
    let mut disk = disk(alloc, bytes_of(alloc, digits)?, faults)?;
    steps(alloc, &mut disk, rest, out)
}
