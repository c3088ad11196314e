//! Links of a talk.
ghost use Rattle.wave_outside.specs.Counts.{Rose};

use crate::stage::{Stage, Turn};
use std::alloc::Global;
use std::sync::Arc;
use wave_outside::{Faults, Kept, Link, LinkFault, MemoryLink, Polled};

/// A link in memory that waits for a turn of the talk before each poll, while there are turns for it. Its turn ends at the next
/// poll. One that the server dialled waits for nobody: while its turn isn't on, a poll finds nothing.
pub struct StagedLink {
    name: String,
    place: usize,
    stage: Arc<Stage, Global>,
    // The turns to come; the last one is the next.
    turns: Vec<Turn>,
    on: Option<Turn>,
    is_dialled: bool,
    has_closed: bool,
    link: MemoryLink,
    looks: u64,
    faults: Faults,
}

impl Drop for StagedLink {
    fn drop(self) {
        let StagedLink {
            name: _name,
            place: _place,
            stage: _stage,
            turns: _turns,
            on: _on,
            is_dialled: _is_dialled,
            has_closed: _has_closed,
            link: _link,
            looks: _looks,
            faults: _faults,
        } = self;
    }
}

impl StagedLink {
    ghost use Rattle.std.specs.Prelude.{◌≡◌, ◌≤◌, false};

    /// A link of this name and place in the talk; of the turns the last one comes first. `dial` is the turn in which it was
    /// dialled, if it was.
    pub fn new(
        name: String,
        place: usize,
        stage: Arc<Stage, Global>,
        turns: Vec<Turn>,
        dial: Option<Turn>,
        link: MemoryLink,
    ) -> StagedLink
        ensures { (result.link ≡ link) × (result.faults.count ≡ 0) × (result.has_closed ≡ false) }
    {
        StagedLink {
            name,
            place,
            stage,
            turns,
            on: dial,
            is_dialled: dial.is_some(),
            has_closed: false,
            link,
            looks: 0,
            faults: Faults::none(),
        }
    }

    pub fn name(&self) -> &str {
        self.name.as_str()
    }

    /// Its place among the links of the talk.
    pub fn place(&self) -> usize {
        self.place
    }

    /// What was polled and sent, in order.
    pub fn kept(&self) -> &[Kept] {
        self.link.kept()
    }

    /// How many calls have failed.
    pub fn faults(&self) -> u64
        ensures { result ≡ self.now.faults.count }
    {
        self.faults.count
    }

    /// Its session has ended, so the talk goes on without it.
    pub fn leave(&self) {
        self.stage.leave(self.place);
    }

    // Ends the turn that was on.
    fn end_turn(&mut self)
        ensures { (self.new.link ≡ self.old.link) × (self.new.faults ≡ self.old.faults) × (self.new.looks ≡ self.old.looks)
            × (self.new.has_closed ≡ self.old.has_closed) }
    {
        if let Some(turn) = self.on {
            self.stage.end(turn.number);
        }
        self.on = None;
    }

    // Whether its next turn is on, or none is left.
    fn is_on(&self) -> bool {
        match self.turns.last() {
            Some(turn) => self.stage.is_on(turn.number),
            None => true,
        }
    }

    // Begins the next turn, if one is left.
    fn next_turn(&mut self)
        ensures { (self.new.link ≡ self.old.link) × (self.new.faults ≡ self.old.faults) × (self.new.looks ≡ self.old.looks)
            × (self.new.has_closed ≡ self.old.has_closed) }
    {
        let next = self.turns.pop();
        if let Some(turn) = next {
            self.stage.begin(turn);
        }
        self.on = next;
    }

    // A poll found nothing.
    fn find_nothing(&mut self) -> Polled
        ensures nothing { result ≡ Polled.Nothing }
        ensures looks { Rose self.old.looks self.new.looks }
        ensures later { self.old.looks ≤ self.new.looks }
        ensures same { (self.new.link ≡ self.old.link) × (self.new.faults ≡ self.old.faults) × (self.new.has_closed ≡ self.old.has_closed) }
    {
        self.looks = self.looks.saturating_add(1);
        Polled::Nothing
    }
}

impl Link for StagedLink {
    ghost use Rattle.std.specs.Prelude.{[], false};

    ghost tells = { false };

    ghost events = { λ _. [] };

    ghost faults = { λ l. l.faults.count };

    ghost looks = { λ l. l.looks };

    ghost closed = { λ l. l.has_closed };

    fn poll(&mut self, alloc: Global) -> Result<Polled, LinkFault> {
        self.end_turn();
        if self.has_closed {
            return Ok(Polled::Closed);
        }
        if self.is_dialled && !self.is_on() {
            return Ok(self.find_nothing());
        }
        self.next_turn();
        match self.link.poll(alloc) {
            Ok(Polled::Nothing) => Ok(self.find_nothing()),
            Ok(Polled::Message(message)) => Ok(Polled::Message(message)),
            Ok(Polled::Closed) => {
                self.has_closed = true;
                Ok(Polled::Closed)
            }
            Err(LinkFault::Failed) => Err(self.faults.raise().into()),
            Err(LinkFault::Memory) => Err(LinkFault::Memory),
        }
    }

    fn send(&mut self, alloc: Global, bytes: &[u8]) -> Result<(), LinkFault> {
        match self.link.send(alloc, bytes) {
            Ok(()) => Ok(()),
            Err(LinkFault::Failed) => Err(self.faults.raise().into()),
            Err(LinkFault::Memory) => Err(LinkFault::Memory),
        }
    }
}
