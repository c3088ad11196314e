//! What it costs to read and to write a `submit`.
//!
//! Standard input is one message, a `submit`. With no arguments it is read and written once, and the number of its bytes is
//! printed each time, which is the same in every run. With arguments, WORK (`read` or `write`) and REPEATS, that alone is done
//! so often, and the nanoseconds for one time are printed too.
#![tactic(auto)]

mod work;

use std::alloc::Global;
use std::env;
use std::io::{self, Read};
use std::time::Instant;
use work::{Inputs, Work};

const ALL: [&str; 2] = ["read", "write"];

fn main(rt: HostRuntime) -> io::Result<()> {
    let bytes = input(&rt)?;
    let mut words = env::args(&rt)?.skip(1);
    match (words.next(), words.next()) {
        (Some(word), Some(repeats)) => {
            let repeats = repeats.parse::<u32>().unwrap_or(1);
            many(&rt, bytes, &word, repeats)
        }
        _ => once(&rt, bytes),
    }
}

fn input(rt: &HostRuntime) -> io::Result<Vec<u8>> {
    let mut bytes = Vec::new(rt.alloc());
    rt.reader().read_to_end(&mut bytes)?;
    Ok(bytes)
}

fn made(alloc: Global, bytes: Vec<u8>) -> io::Result<Inputs> {
    Ok(Inputs::read(alloc, bytes).ok_or(io::ErrorKind::InvalidData)?)
}

fn once(rt: &HostRuntime, bytes: Vec<u8>) -> io::Result<()> {
    let inputs = made(rt.alloc(), bytes)?;
    told(rt, &inputs)
}

fn told(rt: &HostRuntime, inputs: &Inputs) -> io::Result<()> {
    for word in ALL {
        let size = repeat(rt.alloc(), inputs, word, 1)?;
        println!(rt; "{word}: {size}")?;
    }
    Ok(())
}

fn many(rt: &HostRuntime, bytes: Vec<u8>, word: &str, repeats: u32) -> io::Result<()> {
    let inputs = made(rt.alloc(), bytes)?;
    timed(rt, &inputs, word, repeats)
}

fn timed(rt: &HostRuntime, inputs: &Inputs, word: &str, repeats: u32) -> io::Result<()> {
    let start = Instant::now(rt)?;
    let size = repeat(rt.alloc(), inputs, word, repeats)?;
    let took = start.elapsed(rt)?;
    let each = took.as_nanos().checked_div(repeats as u128).unwrap_or(0);
    println!(rt; "{word}: {size}, {each} nanoseconds")
}

fn repeat(alloc: Global, inputs: &Inputs, word: &str, repeats: u32) -> io::Result<u64> {
    let work = Work::named(word).ok_or(io::ErrorKind::InvalidInput)?;
    let mut size = 0;
    for _ in 0..repeats {
        size = work.once(alloc, inputs).ok_or(io::ErrorKind::InvalidData)?;
    }
    Ok(size)
}
