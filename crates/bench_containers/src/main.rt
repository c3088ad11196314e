//! What a submission costs at the head and below it, and what it costs to open a stored history.
//!
//! With no arguments each kind of work is done on a few deltas, and what came of it is printed, which is the same in every run. With
//! arguments, WORK and COUNT, that work alone is done on so many deltas, and the nanoseconds for one time are printed too. The disk
//! is one in memory.
#![tactic(auto)]

mod work;

use std::alloc::Global;
use std::time::Instant;
use std::{env, io};
use work::{Stored, Work};

const ALL: [&str; 4] = ["head", "plain", "behind", "open"];

fn main(rt: HostRuntime) -> io::Result<()> {
    let alloc = rt.alloc();
    let mut words = env::args(&rt)?.skip(1);
    match (words.next(), words.next()) {
        (Some(word), Some(count)) => {
            let count = count.parse::<u32>().unwrap_or(1);
            timed(&rt, &word, count)
        }
        _ => {
            for word in ALL {
                let (stored, work) = made(alloc, word, 70)?;
                let (version, _) = done(alloc, stored, work)?;
                println!(rt; "{word}: version {version}")?;
            }
            Ok(())
        }
    }
}

// The work, and the history that it is done on.
fn made(alloc: Global, word: &str, count: u32) -> io::Result<(Stored, Work)> {
    let work = Work::named(word, count).ok_or(io::ErrorKind::InvalidInput)?;
    let stored = Stored::made(alloc, &work).ok_or(io::ErrorKind::InvalidData)?;
    Ok((stored, work))
}

fn done(alloc: Global, stored: Stored, work: Work) -> io::Result<(u64, u32)> {
    Ok(work.done(alloc, stored).ok_or(io::ErrorKind::InvalidData)?)
}

fn timed(rt: &HostRuntime, word: &str, count: u32) -> io::Result<()> {
    let (stored, work) = made(rt.alloc(), word, count)?;
    let start = Instant::now(rt)?;
    let (version, times) = done(rt.alloc(), stored, work)?;
    let took = start.elapsed(rt)?;
    let each = took.as_nanos().checked_div(times as u128).unwrap_or(0);
    println!(rt; "{word}: version {version}, {each} nanoseconds")
}
