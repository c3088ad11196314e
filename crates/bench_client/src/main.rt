//! What it costs a client to type a letter, with its answer and while an earlier one is unanswered, and to show a screen.
//!
//! With arguments, WORK, LETTERS and REPEATS, that work is done so often at a document of so many letters, and the nanoseconds for one
//! time are printed. WORK is `answered`, `typed` or `show`. With no arguments each work is done once at 1,000 letters, and the number of
//! bytes that are then sent or printed, which is the same in every run.
#![tactic(auto)]

mod work;

use std::alloc::Global;
use std::time::Instant;
use std::{env, io};
use work::Bench;

const ALL: [&str; 3] = ["answered", "typed", "show"];

fn main(rt: HostRuntime) -> io::Result<()> {
    let mut words = env::args(&rt)?.skip(1);
    match (words.next(), words.next(), words.next()) {
        (Some(work), Some(letters), Some(repeats)) => {
            let letters = letters.parse::<u64>().unwrap_or(0);
            let repeats = repeats.parse::<u32>().unwrap_or(1);
            timed(&rt, &work, letters, repeats)
        }
        _ => {
            for work in ALL {
                let mut bench = made(rt.alloc(), 1000)?;
                let bytes = repeat(rt.alloc(), &mut bench, work, 1)?;
                println!(rt; "{work}: {bytes}")?;
            }
            Ok(())
        }
    }
}

fn made(alloc: Global, letters: u64) -> io::Result<Bench> {
    Bench::new(alloc, letters).ok_or(io::Error::from(io::ErrorKind::InvalidInput))
}

fn timed(rt: &HostRuntime, work: &str, letters: u64, repeats: u32) -> io::Result<()> {
    let mut bench = made(rt.alloc(), letters)?;
    let start = Instant::now(rt)?;
    let bytes = repeat(rt.alloc(), &mut bench, work, repeats)?;
    let took = start.elapsed(rt)?;
    let each = took.as_nanos().checked_div(repeats as u128).unwrap_or(0);
    println!(rt; "{work}: {bytes}, {each} nanoseconds")
}

// The bytes of the last time.
fn repeat(alloc: Global, bench: &mut Bench, work: &str, repeats: u32) -> io::Result<u64> {
    let mut bytes = 0u64;
    for _ in 0..repeats {
        match bench.once(alloc, work) {
            Some(count) => bytes = count,
            None => return Err(io::Error::from(io::ErrorKind::InvalidData)),
        }
    }
    Ok(bytes)
}
