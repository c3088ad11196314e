// Containers over disks in memory that fail or stop at one of the first append's calls, and over files.
use crate::Fault;
use crate::shelves::{made, outcome};
use disk_model::MemoryDisk;
use std::alloc::Global;
use test_disk_rows::{bytes_of, first_word, halves, number, put};
use wave_base::WaveletName;
use wavelet_container::{Container, LoadFault};
use wavelet_op::Submission;

// What is submitted to which wavelet: the first delta of its history.
#[derive(Clone, Copy)]
struct First<'a> {
    name: &'a str,
    author: &'a str,
    words: &'a str,
}

fn container_on(
    alloc: Global,
    first: First<'_>,
    failing: Vec<u64>,
    stop: Option<u64>,
) -> Result<Container<MemoryDisk>, Fault> {
    let name = WaveletName::parse(alloc, first.name)?;
    let disk = MemoryDisk::new(alloc, Vec::new(alloc), failing, stop);
    Ok(Container::start(alloc, name, disk)?)
}

fn made_at_head(
    alloc: Global,
    first: First<'_>,
    container: &Container<MemoryDisk>,
) -> Result<Submission, Fault> {
    made(
        alloc,
        first.author,
        1,
        container.history().head(),
        first.words,
    )
}

// What is answered to the submission, made at the head.
fn answer(
    alloc: Global,
    first: First<'_>,
    container: &mut Container<MemoryDisk>,
) -> Result<String, Fault> {
    let made = made_at_head(alloc, first, container)?;
    outcome(alloc, container.submit(alloc, &made, 1000))
}

// Whether what was read is the empty history, unless the delta was acknowledged, or that with the delta; submitted again, that is in it
// once.
fn goes_on(
    alloc: Global,
    first: First<'_>,
    loaded: &mut Container<MemoryDisk>,
    acknowledged: bool,
) -> Result<bool, Fault> {
    let version = loaded.history().head().version;
    if version != 2 && (version != 0 || acknowledged) {
        return Ok(false);
    }
    let told = answer(alloc, first, loaded)?;
    Ok(told.as_str() == "ack 0 2" && loaded.history().deltas().len() == 1)
}

fn load_goes_on(
    alloc: Global,
    first: First<'_>,
    file: Vec<u8>,
    acknowledged: bool,
) -> Result<bool, Fault> {
    let name = WaveletName::parse(alloc, first.name)?;
    let disk = MemoryDisk::new(alloc, file, Vec::new(alloc), None);
    match Container::load(alloc, name, disk) {
        Ok(mut loaded) => goes_on(alloc, first, &mut loaded, acknowledged),
        Err(_) => Ok(false),
    }
}

// How many of five images go on.
fn images_go_on(
    alloc: Global,
    first: First<'_>,
    disk: &MemoryDisk,
    acknowledged: bool,
) -> Result<u64, Fault> {
    let mut count = 0u64;
    for choice in [0, 1, 2, 3, u64::MAX] {
        let image = disk.image(alloc, choice)?;
        if load_goes_on(alloc, first, image, acknowledged)? {
            count = count.saturating_add(1);
        }
    }
    Ok(count)
}

// How many images of a container's disk go on.
fn closed_images(
    alloc: Global,
    first: First<'_>,
    container: Container<MemoryDisk>,
    acknowledged: bool,
) -> Result<u64, Fault> {
    match container.close() {
        Some(disk) => images_go_on(alloc, first, &disk, acknowledged),
        None => Ok(0),
    }
}

// The machine stops at this call: whether the delta is acknowledged, and how many images go on.
fn stopped(alloc: Global, first: First<'_>, call: u64) -> Result<(bool, u64), Fault> {
    let mut container = container_on(alloc, first, Vec::new(alloc), Some(call))?;
    let told = answer(alloc, first, &mut container)?;
    let acknowledged = told.as_str() == "ack 0 2";
    let images = closed_images(alloc, first, container, acknowledged)?;
    Ok((acknowledged, images))
}

// How many stops there are before the first acknowledgement, and how many images go on.
fn stops(alloc: Global, first: First<'_>, calls: u64) -> Result<(u64, u64), Fault> {
    let mut silent = 0u64;
    let mut images = 0u64;
    for call in 0..calls {
        let (acknowledged, more) = stopped(alloc, first, call)?;
        if !acknowledged {
            silent = silent.saturating_add(1);
        }
        images = images.saturating_add(more);
    }
    Ok((silent, images))
}

fn failing_at(alloc: Global, first: First<'_>, call: u64) -> Result<Container<MemoryDisk>, Fault> {
    container_on(alloc, first, Vec::from_slice(alloc, &[call])?, None)
}

// Whether the first submission isn't taken and the second one is.
fn is_repaired(
    alloc: Global,
    first: First<'_>,
    container: &mut Container<MemoryDisk>,
) -> Result<bool, Fault> {
    let refused = answer(alloc, first, container)?;
    if refused.as_str() != "disk fault" || !container.history().deltas().is_empty() {
        return Ok(false);
    }
    let told = answer(alloc, first, container)?;
    Ok(told.as_str() == "ack 0 2")
}

fn repaired(alloc: Global, first: First<'_>, call: u64) -> Result<bool, Fault> {
    let mut container = failing_at(alloc, first, call)?;
    if !is_repaired(alloc, first, &mut container)? {
        return Ok(false);
    }
    Ok(closed_images(alloc, first, container, true)? == 5)
}

fn repairs(alloc: Global, first: First<'_>, calls: u64) -> Result<u64, Fault> {
    let mut count = 0u64;
    for call in 0..calls {
        if repaired(alloc, first, call)? {
            count = count.saturating_add(1);
        }
    }
    Ok(count)
}

fn first_of<'a>(front: &'a str, words: &'a str) -> First<'a> {
    let (name, author) = first_word(front);
    First {
        name,
        author,
        words,
    }
}

/// `appends_stopped CALLS NAME AUTHOR | WORDS`: the machine stops at each of so many calls of the first append in turn: at how many it
/// isn't acknowledged, and how many images of five stand for a history that goes on.
pub(crate) fn appends_stopped(alloc: Global, rest: &str, out: &mut String) -> Result<(), Fault> {
    let (front, words) = halves(rest);
    let (calls, front) = first_word(front);
    let (silent, images) = stops(alloc, first_of(front, words), number(calls)?)?;
    let told = format!(in alloc; "{silent} silent, {images} images")?;
    Ok(put(out, told.as_str())?)
}

/// `appends_repaired CALLS NAME AUTHOR | WORDS`: one of so many calls of the first append fails, in turn: how often it is refused, then
/// taken, and in each of five images.
pub(crate) fn appends_repaired(alloc: Global, rest: &str, out: &mut String) -> Result<(), Fault> {
    let (front, words) = halves(rest);
    let (calls, front) = first_word(front);
    let count = repairs(alloc, first_of(front, words), number(calls)?)?;
    let told = format!(in alloc; "{count} repaired")?;
    Ok(put(out, told.as_str())?)
}

fn put_loaded(
    alloc: Global,
    name: WaveletName,
    disk: MemoryDisk,
    out: &mut String,
) -> Result<(), Fault> {
    let told = match Container::load(alloc, name, disk) {
        Ok(container) => format!(in alloc; "{} deltas", container.history().deltas().len())?,
        Err(refused) => match refused.fault {
            LoadFault::Damaged { offset } => format!(in alloc; "damaged {offset}")?,
            LoadFault::DiskFault => String::from_str(alloc, "disk fault")?,
            LoadFault::Memory => return Err(Fault::Memory),
        },
    };
    Ok(put(out, told.as_str())?)
}

/// `container NAME DIGITS`: how many deltas are read of a file, or where it is damaged.
pub(crate) fn container(alloc: Global, rest: &str, out: &mut String) -> Result<(), Fault> {
    let (name, digits) = first_word(rest);
    let name = WaveletName::parse(alloc, name)?;
    let disk = MemoryDisk::new(alloc, bytes_of(alloc, digits)?, Vec::new(alloc), None);
    put_loaded(alloc, name, disk, out)
}
