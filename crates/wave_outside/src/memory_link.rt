// A link in memory.
ghost use Rattle.std.specs.Prelude.{◌≡◌, ◌≤◌, ◌++◌, ◌∷◌, [], map, IfOk, OnOk, OnErr};
ghost use Rattle.wave_outside.specs.Counts.{raised};
ghost use Rattle.wave_outside.specs.Links.{event_of_poll, tells_close};
ghost use Rattle.wave_outside.specs.MemoryLinks.{event_of, kept_events, link_calls, next_poll, IsUnusedLink};
ghost use Rattle.wave_outside.specs.declared.link.Polled.TheVariants.{Nothing};

use crate::calls::Calls;
use crate::faults::Faults;
use crate::{Link, LinkFault, Polled};
use std::alloc::{AllocError, Global};
use std::mem::replace;

/// What was polled or sent, as a link in memory keeps it.
#[derive(Drop)]
pub enum Kept {
    Received(Vec<u8>),
    Idle,
    Ended,
    Sent(Vec<u8>),
}

/// A link that answers the polls of a list, and `Closed` after the last and after each `Closed`. It keeps what was polled and sent.
pub struct MemoryLink {
    polls: Vec<Polled>,
    // The number of the next poll.
    at: usize,
    calls: Calls,
    looks: u64,
    closed: bool,
    kept: Vec<Kept>,
}

impl Drop for MemoryLink {
    fn drop(self) {
        let MemoryLink {
            polls: _polls,
            at: _at,
            calls: _calls,
            looks: _looks,
            closed: _closed,
            kept: _kept,
        } = self;
    }
}

// The event of a poll, as it is kept.
fn kept_of(alloc: Global, polled: &Polled) -> Result<Kept, AllocError>
    ensures { IfOk result (λ k. event_of k ≡ event_of_poll polled.now) }
{
    match polled {
        Polled::Message(bytes) => Ok(Kept::Received(Vec::from_slice(alloc, bytes.as_slice())?)),
        Polled::Nothing => Ok(Kept::Idle),
        Polled::Closed => Ok(Kept::Ended),
    }
}

impl MemoryLink {
    ghost use Rattle.wave_outside.specs.Memory.{IsUncalled};

    /// The calls whose numbers are in `failing` fail, counted from 0.
    pub fn new(alloc: Global, polls: Vec<Polled>, failing: Vec<u64>) -> MemoryLink
        ensures unused { IsUnusedLink result }
        ensures calls { IsUncalled (link_calls result) failing.items }
    {
        MemoryLink {
            polls,
            at: 0,
            calls: Calls::new(failing),
            looks: 0,
            closed: false,
            kept: Vec::new(alloc),
        }
    }

    /// What was polled and sent, in order.
    pub fn kept(&self) -> &[Kept]
        ensures { map event_of result.now ≡ kept_events self.now }
    {
        self.kept.as_slice()
    }

    // What was polled and sent is forgotten, and so are a close and the faults.
    pub(crate) fn forget(&mut self)
        ensures { IsUnusedLink self.new }
    {
        self.kept.clear();
        self.calls.faults = Faults::none();
        self.closed = false;
    }

    // How many calls have failed.
    pub(crate) fn faults(&self) -> u64
        ensures { result ≡ (link_calls self.now).faults.count }
    {
        self.calls.faults.count
    }

    // Adds to what was polled and sent.
    fn keep(&mut self, kept: Kept) -> Result<(), AllocError>
        ensures kept { OnOk result (kept_events self.new ≡ kept_events self.old ++ event_of kept ∷ []) }
        ensures unkept { OnErr result (kept_events self.new ≡ kept_events self.old) }
        ensures polls { next_poll self.new ≡ next_poll self.old }
        ensures same { (self.new.closed ≡ self.old.closed) × (self.new.looks ≡ self.old.looks) × (self.new.calls ≡ self.old.calls) }
    {
        self.kept.push(kept)?;
        Ok(())
    }

    // The event of the next poll, as it is kept.
    fn next_kept(&self, alloc: Global) -> Result<Kept, AllocError>
        ensures { IfOk result (λ k. event_of k ≡ event_of_poll (next_poll self.now)) }
    {
        if self.closed {
            return Ok(Kept::Ended);
        }
        match self.polls.get(self.at) {
            Some(polled) => kept_of(alloc, polled),
            None => Ok(Kept::Ended),
        }
    }

    // Takes the next poll out of the list.
    fn take_next(&mut self) -> Polled
        ensures value { result ≡ next_poll self.old }
        ensures same { (self.new.closed ≡ self.old.closed) × (self.new.looks ≡ self.old.looks) }
        ensures kept { self.new.kept ≡ self.old.kept }
        ensures calls { self.new.calls ≡ self.old.calls }
    {
        if self.closed || self.at >= self.polls.len() {
            return Polled::Closed;
        }
        let polled = replace(&mut self.polls[self.at], Polled::Nothing);
        self.at += 1;
        polled
    }

    // Keeps what an answer to a poll tells of the link.
    fn note(&mut self, polled: &Polled)
        ensures looks { polled.now ≡ Nothing → self.new.looks ≡ raised self.old.looks }
        ensures more_looks { self.old.looks ≤ self.new.looks }
        ensures closed { self.new.closed ≡ tells_close polled.now }
        ensures kept { self.new.kept ≡ self.old.kept }
        ensures calls { self.new.calls ≡ self.old.calls }
    {
        match polled {
            Polled::Message(_) => self.closed = false,
            Polled::Nothing => {
                self.looks = self.looks.saturating_add(1);
                self.closed = false;
            }
            Polled::Closed => self.closed = true,
        }
    }
}

impl Link for MemoryLink {
    ghost use Rattle.std.specs.Prelude.{◌≡◌, true};
    ghost use Rattle.wave_outside.specs.MemoryLinks.{kept_events, link_calls};

    ghost tells = { true };

    ghost events = { λ l. kept_events l };

    ghost faults = { λ l. (link_calls l).faults.count };

    ghost looks = { λ l. l.looks };

    ghost closed = { λ l. l.closed };

    fn poll(&mut self, alloc: Global) -> Result<Polled, LinkFault> {
        self.calls.make()?;
        let kept = self.next_kept(alloc)?;
        self.keep(kept)?;
        let polled = self.take_next();
        self.note(&polled);
        Ok(polled)
    }

    fn send(&mut self, alloc: Global, bytes: &[u8]) -> Result<(), LinkFault> {
        self.calls.make()?;
        let copy = Vec::from_slice(alloc, bytes)?;
        self.keep(Kept::Sent(copy))?;
        Ok(())
    }
}
