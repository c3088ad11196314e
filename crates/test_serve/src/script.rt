//! What a link of a talk receives.
ghost use Rattle.std.specs.Prelude.{◌≡◌, false};
ghost use Rattle.wave_outside.specs.MemoryLinks.{IsUnusedLink};

use crate::link::StagedLink;
use crate::stage::{Stage, Turn};
use std::alloc::{AllocError, Global};
use std::sync::Arc;
use wave_outside::{MemoryLink, Polled};

/// The polls of a link, and the turn of each.
pub struct Script {
    pub name: String,
    /// Its place among the links of the talk.
    pub place: usize,
    pub polls: Vec<Polled>,
    pub turns: Vec<Turn>,
    /// The numbers of the calls that fail.
    pub failing: Vec<u64>,
    pub is_closed: bool,
    /// Whether it takes no turns of the talk: its polls wait for nobody.
    pub is_free: bool,
    /// The turn in which the server dials it. None for a link that is accepted.
    pub dial: Option<Turn>,
    /// The address that is dialled then.
    pub address: String,
}

impl Drop for Script {
    fn drop(self) {
        let Script {
            name: _name,
            place: _place,
            polls: _polls,
            turns: _turns,
            failing: _failing,
            is_closed: _is_closed,
            is_free: _is_free,
            dial: _dial,
            address: _address,
        } = self;
    }
}

fn copy_of(alloc: Global, polled: &Polled) -> Result<Polled, AllocError> {
    match polled {
        Polled::Message(bytes) => Ok(Polled::Message(Vec::from_slice(alloc, bytes.as_slice())?)),
        Polled::Nothing => Ok(Polled::Nothing),
        Polled::Closed => Ok(Polled::Closed),
    }
}

impl Script {
    pub fn new(
        alloc: Global,
        name: &str,
        place: usize,
        is_free: bool,
        dial: Option<Turn>,
        address: &str,
    ) -> Result<Script, AllocError> {
        let name = String::from_str(alloc, name)?;
        let address = String::from_str(alloc, address)?;
        Ok(Script {
            name,
            place,
            polls: Vec::new(alloc),
            turns: Vec::new(alloc),
            failing: Vec::new(alloc),
            is_closed: false,
            is_free,
            dial,
            address,
        })
    }

    /// Adds a poll, in this turn.
    pub fn add(&mut self, polled: Polled, turn: Turn) -> Result<(), AllocError> {
        self.is_closed = matches!(&polled, Polled::Closed);
        self.polls.push(polled)?;
        if !self.is_free {
            self.turns.push(turn)?;
        }
        Ok(())
    }

    /// The same script once more.
    pub fn copy(&self, alloc: Global) -> Result<Script, AllocError> {
        let mut polls = Vec::new(alloc);
        for polled in &self.polls {
            polls.push(copy_of(alloc, polled)?)?;
        }
        Ok(Script {
            name: String::from_str(alloc, self.name.as_str())?,
            place: self.place,
            polls,
            turns: Vec::from_slice(alloc, self.turns.as_slice())?,
            failing: Vec::from_slice(alloc, self.failing.as_slice())?,
            is_closed: self.is_closed,
            is_free: self.is_free,
            dial: self.dial,
            address: String::from_str(alloc, self.address.as_str())?,
        })
    }

    /// The link.
    pub fn into_link(self, alloc: Global, stage: Arc<Stage, Global>) -> StagedLink
        ensures { IsUnusedLink result.link × (result.faults.count ≡ 0) × (result.has_closed ≡ false) }
    {
        let Script {
            name,
            place,
            polls,
            turns,
            failing,
            is_closed: _is_closed,
            is_free: _is_free,
            dial,
            address: _address,
        } = self;
        let mut turns = turns;
        turns.reverse();
        StagedLink::new(
            name,
            place,
            stage,
            turns,
            dial,
            MemoryLink::new(alloc, polls, failing),
        )
    }
}
