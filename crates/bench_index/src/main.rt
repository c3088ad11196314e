//! What it costs an index to take a delta of one letter, and to search for a word.
//!
//! With arguments, WORK, LETTERS and REPEATS, that work is done so often with a document of so many letters, and the nanoseconds for
//! one time are printed. WORK is `take`, `search` for a word that stands in the document, or `miss`, a search for one that doesn't. With
//! no arguments each work is done 10 times at 1,000 letters, and the number of hits is printed, which is the same in every run.
#![tactic(auto)]

mod work;

use std::alloc::Global;
use std::time::Instant;
use std::{env, io};
use work::Bench;

const ALL: [&str; 3] = ["take", "search", "miss"];

fn main(rt: HostRuntime) -> io::Result<()> {
    let mut words = env::args(&rt)?.skip(1);
    match (words.next(), words.next(), words.next()) {
        (Some(work), Some(letters), Some(repeats)) => {
            let letters = letters.parse::<u64>().unwrap_or(0);
            let repeats = repeats.parse::<u32>().unwrap_or(1);
            timed(&rt, &work, letters, repeats)
        }
        _ => {
            for work in ALL {
                let mut bench = made(rt.alloc(), 1000, 10)?;
                let hits = repeat(rt.alloc(), &mut bench, work, 10)?;
                println!(rt; "{work}: {hits}")?;
            }
            Ok(())
        }
    }
}

fn made(alloc: Global, letters: u64, repeats: u32) -> io::Result<Bench> {
    Bench::new(alloc, letters, repeats).ok_or(io::Error::from(io::ErrorKind::InvalidInput))
}

fn timed(rt: &HostRuntime, work: &str, letters: u64, repeats: u32) -> io::Result<()> {
    let mut bench = made(rt.alloc(), letters, repeats)?;
    let start = Instant::now(rt)?;
    let hits = repeat(rt.alloc(), &mut bench, work, repeats)?;
    let took = start.elapsed(rt)?;
    let each = took.as_nanos().checked_div(repeats as u128).unwrap_or(0);
    println!(rt; "{work}: {hits}, {each} nanoseconds")
}

// How many hits there were.
fn repeat(alloc: Global, bench: &mut Bench, work: &str, repeats: u32) -> io::Result<u64> {
    let mut hits = 0u64;
    for _ in 0..repeats {
        match bench.once(alloc, work) {
            Some(more) => hits = hits.wrapping_add(more),
            None => return Err(io::Error::from(io::ErrorKind::InvalidData)),
        }
    }
    Ok(hits)
}
