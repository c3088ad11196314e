//! What was sent, as rows show it.
use crate::gate::StagedGate;
use crate::link::StagedLink;
use crate::net::StagedNet;
use crate::spawner::StagedSpawner;
use doc_items::Memory;
use session_steps::EndCause;
use std::alloc::Global;
use test_disk_rows::{Fault, text_of};
use wave_outside::{Kept, MemoryFolder};
use wave_server::{Ended, Server};

/// What a server meets in a talk.
pub type StagedServer = Server<StagedNet, MemoryFolder, StagedSpawner, StagedGate>;

/// The shortest run of one letter that is shown by its length.
const LONG_RUN: usize = 100;

// Appends a letter so many times.
fn put_run(alloc: Global, out: &mut String, letter: char, count: usize) -> Result<(), Memory> {
    if count >= LONG_RUN {
        let run = format!(in alloc; "<<{count} {letter}>>")?;
        return out.push_str(run.as_str());
    }
    for _ in 0..count {
        out.push(letter)?;
    }
    Ok(())
}

// Appends a text, long runs of one letter by their length.
fn put_text(alloc: Global, out: &mut String, text: &str) -> Result<(), Memory> {
    let mut last = '"';
    let mut count = 0usize;
    for letter in text.chars() {
        if letter != last {
            put_run(alloc, out, last, count)?;
            last = letter;
            count = 0;
        }
        count = count.saturating_add(1);
    }
    put_run(alloc, out, last, count)
}

// Appends each message that was sent over the link of this name, on a line of its own.
fn put_sent(alloc: Global, out: &mut String, name: &str, kept: &[Kept]) -> Result<(), Fault> {
    for item in kept {
        if let Kept::Sent(bytes) = item {
            out.push_str("\n< ")?;
            out.push_str(name)?;
            out.push(' ')?;
            put_text(alloc, out, text_of(bytes.as_slice())?)?;
        }
    }
    Ok(())
}

fn cause_name(cause: EndCause) -> &'static str {
    match cause {
        EndCause::Closed => "closed",
        EndCause::Failed => "failed",
        EndCause::Spent(_) => "spent",
        EndCause::Memory => "memory",
    }
}

// Appends how the session of a link ended, which is the link at this place among those that were put back, and how many of its
// calls failed.
fn put_end(
    alloc: Global,
    out: &mut String,
    place: usize,
    link: &StagedLink,
    ended: &[Ended],
) -> Result<(), Memory> {
    for end in ended {
        if end.place == place as u64 {
            let (name, cause, faults) = (link.name(), cause_name(end.cause), link.faults());
            let line = format!(in alloc; "\n= {name} {cause}, {faults} failed")?;
            out.push_str(line.as_str())?;
        }
    }
    Ok(())
}

/// Appends for each of so many links what was sent over it, and how its session ended.
pub fn put_ends(
    alloc: Global,
    out: &mut String,
    count: usize,
    server: &StagedServer,
) -> Result<(), Fault> {
    for number in 0..count {
        for (place, link) in server.net.back().iter().enumerate() {
            if link.place() == number {
                put_sent(alloc, out, link.name(), link.kept())?;
                put_end(alloc, out, place, link, server.ended.as_slice())?;
            }
        }
    }
    Ok(())
}
