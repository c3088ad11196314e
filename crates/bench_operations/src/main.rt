//! What it costs to read, write, compose and transform operations, and to invert them at a document in pieces and apply them
//! to it.
//!
//! Standard input is one spelling after the other: a first (earlier) operation, a second (later) one, and one that makes a
//! document. With no arguments each kind of work is done once, and what came of it is printed, which is the same in every run.
//! With arguments, WORK and REPEATS, that work alone is done so often, and the nanoseconds for one time are printed too.
#![tactic(auto)]

mod work;

use std::alloc::Global;
use std::env;
use std::io::{self, Read};
use std::time::Instant;
use work::{Inputs, Work};

const ALL: [&str; 6] = ["read", "write", "compose", "transform", "invert", "edit"];

fn main(rt: HostRuntime) -> io::Result<()> {
    let alloc = rt.alloc();
    let mut bytes = Vec::new(alloc);
    rt.reader().read_to_end(&mut bytes)?;
    let mut inputs = Inputs::read(alloc, &bytes).ok_or(io::ErrorKind::InvalidData)?;
    let mut words = env::args(&rt)?.skip(1);
    match (words.next(), words.next()) {
        (Some(word), Some(repeats)) => {
            let repeats = repeats.parse::<u32>().unwrap_or(1);
            timed(&rt, &mut inputs, &word, repeats)
        }
        _ => {
            for word in ALL {
                let size = repeat(alloc, &mut inputs, word, 1)?;
                println!(rt; "{word}: {size}")?;
            }
            Ok(())
        }
    }
}

fn timed(rt: &HostRuntime, inputs: &mut Inputs, word: &str, repeats: u32) -> io::Result<()> {
    let start = Instant::now(rt)?;
    let size = repeat(rt.alloc(), inputs, word, repeats)?;
    let took = start.elapsed(rt)?;
    let each = took.as_nanos().checked_div(repeats as u128).unwrap_or(0);
    println!(rt; "{word}: {size}, {each} nanoseconds")
}

fn repeat(alloc: Global, inputs: &mut Inputs, word: &str, repeats: u32) -> io::Result<u64> {
    let work = Work::named(word).ok_or(io::ErrorKind::InvalidInput)?;
    let mut size = 0;
    for _ in 0..repeats {
        size = work.once(alloc, inputs).ok_or(io::ErrorKind::InvalidData)?;
    }
    Ok(size)
}
