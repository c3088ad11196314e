// Histories of letters, and what is done with them.
ghost use Rattle.std.specs.Prelude.{◌≤◌};

use disk_model::MemoryDisk;
use std::alloc::Global;
use test_wavelet_words::submission;
use wave_base::{HashedVersion, WaveletName};
use wavelet_container::Container;
use wavelet_op::Verdict;

/// A container over a disk in memory, or without one.
#[derive(Drop)]
pub struct Stored {
    container: Container<MemoryDisk>,
}

/// What is done, and how often.
#[derive(Clone, Copy)]
pub enum Work {
    /// Submissions at the head, with a journal.
    Head(u32),
    /// Submissions at the head, without one.
    Plain(u32),
    /// Submissions that were made so many deltas before the head.
    Behind(u32),
    /// A history of so many deltas is read from its disk.
    Open(u32),
}

// How many submissions are made below the head.
const TIMES: u32 = 20;

fn name(alloc: Global) -> Option<WaveletName> {
    WaveletName::parse(alloc, "a.com/w1/a.com/conv+root").ok()
}

// Alice submits these operations, made at this point.
fn submit(
    alloc: Global,
    container: &mut Container<MemoryDisk>,
    number: u64,
    at: HashedVersion,
    words: &str,
) -> Option<u64>
    requires { number ≤ 4294967296 }
{
    let made = submission(alloc, "alice@a.com", number, at, words).ok()?;
    match container.submit(alloc, &made, 1000).ok()? {
        Verdict::Ack { to, .. } => Some(to.version),
        _ => None,
    }
}

// So many letters, each typed at the front by a delta at the head, from a number of items on.
fn type_letters(
    alloc: Global,
    container: &mut Container<MemoryDisk>,
    from: u32,
    count: u32,
) -> Option<()> {
    for index in from..count {
        let words = format!(in alloc; "b+1: +a {}", index).ok()?;
        let words = if index == 0 {
            "b+1: +a"
        } else {
            words.as_str()
        };
        let at = container.history().head();
        submit(alloc, container, 1 + index as u64, at, words)?;
    }
    Some(())
}

impl Work {
    /// The work of this name.
    pub fn named(word: &str, count: u32) -> Option<Work> {
        match word {
            "head" => Some(Work::Head(count)),
            "plain" => Some(Work::Plain(count)),
            "behind" => Some(Work::Behind(count)),
            "open" => Some(Work::Open(count)),
            _ => None,
        }
    }

    // How many deltas there are before the work.
    fn before(&self) -> u32 {
        match *self {
            Work::Head(_) => 0,
            Work::Plain(_) => 0,
            Work::Behind(count) => count,
            Work::Open(count) => count,
        }
    }

    /// The version that the history is at then, and how often the work was done.
    pub fn done(&self, alloc: Global, stored: Stored) -> Option<(u64, u32)> {
        match *self {
            Work::Head(count) | Work::Plain(count) => at_head(alloc, stored, count),
            Work::Behind(_) => below_head(alloc, stored),
            Work::Open(_) => opened(alloc, stored),
        }
    }
}

fn at_head(alloc: Global, stored: Stored, count: u32) -> Option<(u64, u32)> {
    let mut container = stored.container;
    type_letters(alloc, &mut container, 0, count)?;
    Some((container.history().head().version, count))
}

fn below_head(alloc: Global, stored: Stored) -> Option<(u64, u32)> {
    let mut container = stored.container;
    behind(alloc, &mut container)
}

fn opened(alloc: Global, stored: Stored) -> Option<(u64, u32)> {
    let disk = stored.container.close()?;
    let loaded = Container::load(alloc, name(alloc)?, disk).ok()?;
    Some((loaded.history().head().version, 1))
}

// Submissions that were made after the first delta.
fn behind(alloc: Global, container: &mut Container<MemoryDisk>) -> Option<(u64, u32)> {
    let hash = container.history().hash_at(1)?;
    let at = HashedVersion { version: 1, hash };
    for index in 0..TIMES {
        submit(alloc, container, (1 << 31) + index as u64, at, "b+1: +b")?;
    }
    Some((container.history().head().version, TIMES))
}

fn on_disk(alloc: Global) -> Option<Container<MemoryDisk>> {
    let name = name(alloc)?;
    let disk = MemoryDisk::new(alloc, Vec::new(alloc), Vec::new(alloc), None);
    Container::start(alloc, name, disk).ok()
}

fn begun(alloc: Global, work: &Work) -> Option<Container<MemoryDisk>> {
    match work {
        Work::Plain(_) => Some(Container::new(alloc, name(alloc)?)),
        _ => on_disk(alloc),
    }
}

// Alice, and the deltas before the work.
fn fill(alloc: Global, container: &mut Container<MemoryDisk>, work: &Work) -> Option<()> {
    let start = container.history().head();
    submit(alloc, container, 0, start, "add alice@a.com")?;
    type_letters(alloc, container, 0, work.before())
}

impl Stored {
    /// The history that the work is done on.
    pub fn made(alloc: Global, work: &Work) -> Option<Stored> {
        let mut container = begun(alloc, work)?;
        fill(alloc, &mut container, work)?;
        Some(Stored { container })
    }
}
