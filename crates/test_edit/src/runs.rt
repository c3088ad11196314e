//! The verbs.
ghost use Rattle.std.specs.Prelude.{◌≡◌, ◌≤◌, false, IfOk};
ghost use Rattle.doc_items.specs.Limits.{max_count};

use client_terminal::edit_run;
use std::alloc::Global;
use std::mem::replace;
use test_disk_rows::{
    Fault, bytes_of, calls, filled, first_word, halves, number, put, put_bytes, text_of,
};
use wave_base::Address;
use wave_outside::{Kept, MemoryLink, MemorySink, MemorySource, Polled};

/// The greatest key of a client.
const MAX_KEY: u64 = 9_007_199_254_740_991;

/// What rows tell of the next run.
pub struct Runs {
    input: Vec<u8>,
    polls: Vec<Polled>,
}

impl Drop for Runs {
    fn drop(self) {
        let Runs {
            input: _input,
            polls: _polls,
        } = self;
    }
}

// Appends a message or a line after a sign, on a line of its own.
fn put_line(out: &mut String, sign: &str, bytes: &[u8]) -> Result<(), Fault> {
    out.push('\n')?;
    out.push_str(sign)?;
    put_bytes(out, bytes)
}

// Appends what was sent.
fn put_sent(out: &mut String, kept: &[Kept]) -> Result<(), Fault> {
    for item in kept {
        if let Kept::Sent(bytes) = item {
            put_line(out, "< ", bytes.as_slice())?;
        }
    }
    Ok(())
}

// Appends the lines that were printed.
fn put_printed(out: &mut String, bytes: &[u8]) -> Result<(), Fault> {
    for line in text_of(bytes)?.split_terminator('\n') {
        put_line(out, "| ", line.as_bytes())?;
    }
    Ok(())
}

// How many polls were left.
fn polls_left(polls: usize, kept: &[Kept]) -> usize {
    let mut left = polls;
    for item in kept {
        match item {
            Kept::Sent(_) => {}
            Kept::Received(_) => left = left.saturating_sub(1),
            Kept::Idle => left = left.saturating_sub(1),
            Kept::Ended => left = left.saturating_sub(1),
        }
    }
    left
}

fn key_of(word: &str) -> Result<u64, Fault>
    ensures { IfOk result (λ key. key ≤ max_count) }
{
    let key = number(word)?;
    if key > MAX_KEY {
        return Err(Fault::BadRow);
    }
    Ok(key)
}

impl Runs {
    pub fn new(alloc: Global) -> Runs {
        Runs {
            input: Vec::new(alloc),
            polls: Vec::new(alloc),
        }
    }

    /// Appends what comes of a row.
    pub fn call(&mut self, alloc: Global, row: &str, out: &mut String) -> Result<(), Fault> {
        let (verb, rest) = first_word(row);
        match verb {
            "$" => self.line(alloc, rest),
            "$$" => self.open_line(alloc, rest),
            ">" => self.message(alloc, rest),
            "hex" => self.bytes(alloc, rest),
            "nothing" => self.nothing(rest),
            "closed" => Ok(self.polls.push(Polled::Closed)?),
            "edit" => self.edit(alloc, rest, out),
            _ => Err(Fault::BadRow),
        }
    }

    /// `$ LINE`: a line of the input. `$$ LINE`: one that lacks its line feed.
    fn line(&mut self, alloc: Global, text: &str) -> Result<(), Fault> {
        self.open_line(alloc, text)?;
        Ok(self.input.push(b'\n')?)
    }

    fn open_line(&mut self, alloc: Global, text: &str) -> Result<(), Fault> {
        let bytes = filled(alloc, text)?;
        Ok(self.input.extend_from_slice(bytes.as_slice())?)
    }

    /// `> TEXT`: a poll that gives a message. `hex DIGITS`: one of these bytes.
    fn message(&mut self, alloc: Global, text: &str) -> Result<(), Fault> {
        Ok(self.polls.push(Polled::Message(filled(alloc, text)?))?)
    }

    fn bytes(&mut self, alloc: Global, digits: &str) -> Result<(), Fault> {
        Ok(self.polls.push(Polled::Message(bytes_of(alloc, digits)?))?)
    }

    /// `nothing N`: so many polls that find nothing. `closed` is the server's close.
    fn nothing(&mut self, count: &str) -> Result<(), Fault> {
        for _ in 0..number(count)? {
            self.polls.push(Polled::Nothing)?;
        }
        Ok(())
    }

    // The link of the next run.
    fn link(&mut self, alloc: Global, faults: &str) -> Result<MemoryLink, Fault>
        ensures { IfOk result (λ link. link.closed ≡ false) }
    {
        let failing = calls(alloc, "calls", faults)?;
        let polls = replace(&mut self.polls, Vec::new(alloc));
        Ok(MemoryLink::new(alloc, polls, failing))
    }

    // The input of the next run.
    fn source(&mut self, alloc: Global, faults: &str) -> Result<MemorySource, Fault> {
        let failing = calls(alloc, "reads", faults)?;
        let input = replace(&mut self.input, Vec::new(alloc));
        Ok(MemorySource::new(input, failing))
    }

    /// `edit USER KEY | FAULTS`: a run of this user with this key: its status, how many polls it left, what it sent, and what it
    /// printed. Faults are `reads N ..`, `writes N ..` and `calls N ..`: calls of the source, the sink and the link that fail.
    fn edit(&mut self, alloc: Global, rest: &str, out: &mut String) -> Result<(), Fault> {
        let (who, faults) = halves(rest);
        let (user, key) = first_word(who);
        let key = key_of(key)?;
        let Ok(user) = Address::parse(alloc, user) else {
            return Err(Fault::BadRow);
        };
        let polls = self.polls.len();
        let mut source = self.source(alloc, faults)?;
        let mut sink = MemorySink::new(alloc, calls(alloc, "writes", faults)?);
        let mut link = self.link(alloc, faults)?;
        let status = edit_run(alloc, &mut source, &mut sink, &mut link, user, key);
        let left = polls_left(polls, link.kept());
        put(out, format!(in alloc; "{status}, {left} left")?.as_str())?;
        put_sent(out, link.kept())?;
        put_printed(out, sink.bytes())
    }
}
