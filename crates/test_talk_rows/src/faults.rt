// A disk that fails at each of its calls in turn, or from it on, under a run of the program.
use crate::Fault;
use crate::runs::{Runs, crashed, no_files, one_file, outcome};
use disk_model::MemoryDisk;
use std::alloc::Global;
use std::mem::replace;
use test_disk_rows::{bytes_of, first_word, number, put};
use wave_outside::{MemoryFolder, MemorySink};

const WORDS: &str = "pipe --store d";

// Whether a run says all of it at the end, or the front of it once the store failed.
fn is_front(status: u8, sink: &MemorySink, all: &[u8]) -> bool {
    let whole = sink.bytes() == all;
    if status == 0 {
        whole
    } else {
        status == 5 && !whole && all.starts_with(sink.bytes())
    }
}

// What a run that no call fails says, and the file that it leaves.
#[derive(Clone, Copy)]
struct Whole<'a> {
    said: &'a [u8],
    file: &'a [u8],
}

fn has_file(alloc: Global, folder: &MemoryFolder, bytes: &[u8]) -> Result<bool, Fault> {
    match folder.files().first() {
        Some(file) => Ok(file.disk.image(alloc, 0)?.as_slice() == bytes),
        None => Ok(false),
    }
}

fn says_all(
    alloc: Global,
    input: &[u8],
    folder: &mut MemoryFolder,
    whole: Whole<'_>,
) -> Result<bool, Fault> {
    let (status, sink) = outcome(alloc, WORDS, input, "", folder)?;
    Ok(status == 0 && sink.bytes() == whole.said && has_file(alloc, folder, whole.file)?)
}

// How many of four images say all of it to the same lines.
fn images_say_all(
    alloc: Global,
    input: &[u8],
    folder: &MemoryFolder,
    whole: Whole<'_>,
) -> Result<u64, Fault> {
    let mut count = 0u64;
    for choice in 0..4u64 {
        let mut left = crashed(alloc, folder, choice)?;
        if says_all(alloc, input, &mut left, whole)? {
            count = count.saturating_add(1);
        }
    }
    Ok(count)
}

// How many runs end as told, how many met the fault, and how many images say all of it.
#[derive(Clone, Copy)]
struct Tally {
    runs: u64,
    met: u64,
    images: u64,
}

fn try_one(
    alloc: Global,
    input: &[u8],
    folder: &mut MemoryFolder,
    whole: Whole<'_>,
    tally: &mut Tally,
) -> Result<(), Fault> {
    let (status, sink) = outcome(alloc, WORDS, input, "", folder)?;
    if is_front(status, &sink, whole.said) {
        tally.runs = tally.runs.saturating_add(1);
    }
    if status == 5 {
        tally.met = tally.met.saturating_add(1);
    }
    let more = images_say_all(alloc, input, folder, whole)?;
    tally.images = tally.images.saturating_add(more);
    Ok(())
}

// The file under which the runs begin.
#[derive(Clone, Copy)]
struct Start<'a> {
    name: &'a str,
    bytes: &'a [u8],
}

// A folder with the file, whose disk fails at this call, or from it on.
fn failing(alloc: Global, start: Start<'_>, call: u64, stops: bool) -> Result<MemoryFolder, Fault> {
    let bytes = Vec::from_slice(alloc, start.bytes)?;
    let disk = if stops {
        MemoryDisk::new(alloc, bytes, Vec::new(alloc), Some(call))
    } else {
        MemoryDisk::new(alloc, bytes, Vec::from_slice(alloc, &[call])?, None)
    };
    Ok(one_file(alloc, start.name, disk)?)
}

fn try_all(
    alloc: Global,
    input: &[u8],
    start: Start<'_>,
    calls: u64,
    whole: Whole<'_>,
) -> Result<Tally, Fault> {
    let mut tally = Tally {
        runs: 0,
        met: 0,
        images: 0,
    };
    for call in 0..calls {
        for stops in [false, true] {
            let mut folder = failing(alloc, start, call, stops)?;
            try_one(alloc, input, &mut folder, whole, &mut tally)?;
        }
    }
    Ok(tally)
}

fn image_of(alloc: Global, folder: &MemoryFolder) -> Result<Vec<u8>, Fault> {
    match folder.files().first() {
        Some(file) => Ok(file.disk.image(alloc, 0)?),
        None => Err(Fault::BadRow),
    }
}

fn tried(alloc: Global, input: &[u8], start: Start<'_>, calls: u64) -> Result<Tally, Fault> {
    let mut folder = no_files(alloc);
    let (_, sink) = outcome(alloc, WORDS, input, "", &mut folder)?;
    let file = image_of(alloc, &folder)?;
    let whole = Whole {
        said: sink.bytes(),
        file: file.as_slice(),
    };
    try_all(alloc, input, start, calls, whole)
}

impl Runs {
    /// `faults FILE DIGITS CALLS`: the lines since the last run over a store with this file, whose disk fails at each of so many calls, or
    /// from it on: how many runs end at 0 with all, or at 5 with its front, how many ended at 5, and after how many of four crashes of each
    /// all is said again.
    pub(crate) fn faults(
        &mut self,
        alloc: Global,
        rest: &str,
        out: &mut String,
    ) -> Result<(), Fault> {
        let (name, rest) = first_word(rest);
        let (digits, calls) = first_word(rest);
        let bytes = bytes_of(alloc, digits)?;
        let input = replace(&mut self.input, Vec::new(alloc));
        let start = Start {
            name,
            bytes: bytes.as_slice(),
        };
        let tally = tried(alloc, input.as_slice(), start, number(calls)?)?;
        let told = format!(in alloc;
            "{} runs, {} met the fault, {} images",
            tally.runs, tally.met, tally.images
        )?;
        Ok(put(out, told.as_str())?)
    }
}
