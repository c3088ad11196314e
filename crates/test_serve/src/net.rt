//! The net of a talk.
ghost use Rattle.std.specs.Prelude.{◌≡◌, ◌≤◌, ◌<◌, ◌+◌, ◌^◌, vec_len, vec_capacity, OnOk};

use crate::link::StagedLink;
use crate::script::Script;
use crate::stage::Stage;
use std::alloc::{AllocError, Global};
use std::sync::Arc;
use wave_outside::{Accepted, Faults, Net, NetFault};

/// A net that accepts a link for each script of those, and nothing after the last, and dials one for each script of the others, in
/// its turn.
pub struct StagedNet {
    stage: Arc<Stage, Global>,
    // The last one is the next.
    scripts: Vec<Script>,
    dials: Vec<Script>,
    is_shut: bool,
    door: Faults,
    line: Faults,
    looks: u64,
    accepted: u64,
    out: usize,
    back: Vec<StagedLink>,
    ghost room: { vec_len back + out ≤ vec_capacity back },
}

impl Drop for StagedNet {
    fn drop(self) {
        let StagedNet {
            stage: _stage,
            scripts: _scripts,
            dials: _dials,
            is_shut: _is_shut,
            door: _door,
            line: _line,
            looks: _looks,
            accepted: _accepted,
            out: _out,
            back: _back,
        } = self;
    }
}

impl StagedNet {
    /// Of the scripts the last one comes first: of those that are accepted, and of those that are dialled. A door that is shut
    /// can't be opened.
    pub fn new(
        alloc: Global,
        stage: Arc<Stage, Global>,
        scripts: Vec<Script>,
        dials: Vec<Script>,
        is_shut: bool,
    ) -> StagedNet {
        StagedNet {
            stage,
            scripts,
            dials,
            is_shut,
            door: Faults::none(),
            line: Faults::none(),
            looks: 0,
            accepted: 0,
            out: 0,
            back: Vec::new(alloc),
        }
    }

    /// The links that were put back, in order.
    pub fn back(&self) -> &[StagedLink] {
        self.back.as_slice()
    }

    // Takes the room to put one more link back.
    fn reserve(&mut self) -> Result<(), AllocError>
        ensures back { (self.new.back.items ≡ self.old.back.items) × (self.new.out ≡ self.old.out)
            × (self.new.accepted ≡ self.old.accepted) }
        ensures same { (self.new.door ≡ self.old.door) × (self.new.line ≡ self.old.line) × (self.new.looks ≡ self.old.looks) }
        ensures room { OnOk result ((vec_len self.new.back + self.new.out + 1 ≤ vec_capacity self.new.back) × (self.new.out + 1 < 2 ^ 64)) }
    {
        let Some(more) = self.out.checked_add(1) else {
            return Err(AllocError);
        };
        self.back.reserve(more)
    }

    // The next script.
    fn next_script(&mut self) -> Option<Script>
        ensures back { (self.new.back ≡ self.old.back) × (self.new.out ≡ self.old.out) × (self.new.accepted ≡ self.old.accepted) }
        ensures same { (self.new.door ≡ self.old.door) × (self.new.line ≡ self.old.line) × (self.new.looks ≡ self.old.looks) }
    {
        self.scripts.pop()
    }

    // Whether the turn is on in which the next link is dialled, at this address.
    fn may_dial(&self, address: &str) -> bool {
        match self.dials.last() {
            Some(script) => match script.dial {
                Some(turn) => script.address.as_str() == address && self.stage.is_on(turn.number),
                None => false,
            },
            None => false,
        }
    }

    // The next script that is dialled, in its turn.
    fn next_dial(&mut self, address: &str) -> Option<Script>
        ensures back { (self.new.back ≡ self.old.back) × (self.new.out ≡ self.old.out) × (self.new.accepted ≡ self.old.accepted) }
        ensures same { (self.new.door ≡ self.old.door) × (self.new.line ≡ self.old.line) × (self.new.looks ≡ self.old.looks) }
    {
        if !self.may_dial(address) {
            return None;
        }
        self.dials.pop()
    }
}

impl Net for StagedNet {
    ghost use Rattle.std.specs.Prelude.{[], false};

    type Link = StagedLink;

    ghost tells = { false };

    ghost asked = { λ _. [] };

    ghost door = { λ n. n.door.count };

    ghost line = { λ n. n.line.count };

    ghost looks = { λ n. n.looks };

    ghost accepted = { λ n. n.accepted };

    ghost out = { λ n. n.out };

    ghost back = { λ n. n.back.items };

    fn listen(&mut self, _alloc: Global, _address: &str) -> Result<(), NetFault> {
        if self.is_shut {
            return Err(self.door.raise().into());
        }
        Ok(())
    }

    fn accept(&mut self, alloc: Global) -> Result<Accepted<StagedLink>, NetFault> {
        self.reserve()?;
        let stage = Arc::try_clone(&self.stage)?;
        match self.next_script() {
            Some(script) => {
                self.accepted = self.accepted.saturating_add(1);
                self.out += 1;
                Ok(Accepted::Link(script.into_link(alloc, stage)))
            }
            None => {
                self.looks = self.looks.saturating_add(1);
                Ok(Accepted::Nothing)
            }
        }
    }

    fn dial(&mut self, alloc: Global, address: &str) -> Result<StagedLink, NetFault> {
        self.reserve()?;
        let stage = Arc::try_clone(&self.stage)?;
        match self.next_dial(address) {
            Some(script) => {
                self.out += 1;
                Ok(script.into_link(alloc, stage))
            }
            None => Err(self.line.raise().into()),
        }
    }

    fn rest(&mut self) {
        std::thread::yield_now();
    }

    fn put(&mut self, link: StagedLink) {
        link.leave();
        self.line.add(link.faults());
        self.out -= 1;
        self.back.push_reserved(link);
    }
}
