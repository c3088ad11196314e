// A net in memory.
ghost use Rattle.std.specs.Prelude.{◌≡◌, ◌≤◌, ◌<◌, ◌+◌, ◌^◌, ◌++◌, ◌∷◌, [], map, string_bytes, vec_len, vec_capacity, OnOk, OnErr};
ghost use Rattle.wave_outside.specs.Counts.{raised};
ghost use Rattle.wave_outside.specs.MemoryLinks.{IsUnusedLink};
ghost use Rattle.wave_outside.specs.declared.net.Accepted.TheVariants.{Nothing};

use crate::calls::Calls;
use crate::faults::Faults;
use crate::{Accepted, MemoryLink, Net, NetFault};
use std::alloc::{AllocError, Global};

/// A net that answers the looks for new links of a list, and `Nothing` after the last. It dials the links of another list, and fails
/// after the last. It
/// hands out each link as one that was not used yet, and keeps the addresses that were dialled and the links that are put back.
pub struct MemoryNet {
    // Of both lists the last one is the next.
    accepts: Vec<Accepted<MemoryLink>>,
    dials: Vec<MemoryLink>,
    calls: Calls,
    door: Faults,
    line: Faults,
    looks: u64,
    accepted: u64,
    asked: Vec<String>,
    out: usize,
    back: Vec<MemoryLink>,
    ghost room: { vec_len back + out ≤ vec_capacity back },
}

impl Drop for MemoryNet {
    fn drop(self) {
        let MemoryNet {
            accepts: _accepts,
            dials: _dials,
            calls: _calls,
            door: _door,
            line: _line,
            looks: _looks,
            accepted: _accepted,
            asked: _asked,
            out: _out,
            back: _back,
        } = self;
    }
}

// The link as one that was not used yet.
fn unused(link: MemoryLink) -> MemoryLink
    ensures { IsUnusedLink result }
{
    let mut link = link;
    link.forget();
    link
}

impl MemoryNet {
    ghost use Rattle.wave_outside.specs.Memory.{IsUncalled};
    ghost use Rattle.wave_outside.specs.MemoryNets.{net_calls, net_back, net_asked};

    /// The calls whose numbers are in `failing` fail, counted from 0.
    pub fn new(
        alloc: Global,
        accepts: Vec<Accepted<MemoryLink>>,
        dials: Vec<MemoryLink>,
        failing: Vec<u64>,
    ) -> MemoryNet
        ensures back { net_back result ≡ [] }
        ensures asked { net_asked result ≡ [] }
        ensures calls { IsUncalled (net_calls result) failing.items }
    {
        let mut accepts = accepts;
        accepts.reverse();
        let mut dials = dials;
        dials.reverse();
        MemoryNet {
            accepts,
            dials,
            calls: Calls::new(failing),
            door: Faults::none(),
            line: Faults::none(),
            looks: 0,
            accepted: 0,
            asked: Vec::new(alloc),
            out: 0,
            back: Vec::new(alloc),
        }
    }

    /// The links that were put back, in order.
    pub fn back(&self) -> &[MemoryLink]
        ensures { result.now ≡ net_back self.now }
    {
        self.back.as_slice()
    }

    /// The addresses that were dialled, in order.
    pub fn asked(&self) -> &[String]
        ensures { map string_bytes result.now ≡ net_asked self.now }
    {
        self.asked.as_slice()
    }

    // The next offer of the list.
    fn next_offer(&mut self) -> Option<Accepted<MemoryLink>>
        ensures back { (self.new.back ≡ self.old.back) × (self.new.out ≡ self.old.out) × (self.new.accepted ≡ self.old.accepted) }
        ensures same { (self.new.door ≡ self.old.door) × (self.new.line ≡ self.old.line) × (self.new.looks ≡ self.old.looks)
            × (self.new.asked ≡ self.old.asked) }
    {
        self.accepts.pop()
    }

    // The next link of those that can be dialled.
    fn next_dial(&mut self) -> Option<MemoryLink>
        ensures back { (self.new.back ≡ self.old.back) × (self.new.out ≡ self.old.out) × (self.new.accepted ≡ self.old.accepted) }
        ensures same { (self.new.door ≡ self.old.door) × (self.new.line ≡ self.old.line) × (self.new.looks ≡ self.old.looks)
            × (self.new.asked ≡ self.old.asked) }
    {
        self.dials.pop()
    }

    // Takes the room to put one more link back.
    fn reserve(&mut self) -> Result<(), AllocError>
        ensures back { (self.new.back.items ≡ self.old.back.items) × (self.new.out ≡ self.old.out)
            × (self.new.accepted ≡ self.old.accepted) }
        ensures same { (self.new.door ≡ self.old.door) × (self.new.line ≡ self.old.line) × (self.new.looks ≡ self.old.looks)
            × (self.new.asked ≡ self.old.asked) }
        ensures room { OnOk result ((vec_len self.new.back + self.new.out + 1 ≤ vec_capacity self.new.back) × (self.new.out + 1 < 2 ^ 64)) }
    {
        let Some(more) = self.out.checked_add(1) else {
            return Err(AllocError);
        };
        self.back.reserve(more)
    }

    // Keeps an address that is dialled.
    fn keep(&mut self, alloc: Global, address: &str) -> Result<(), AllocError>
        ensures kept { OnOk result (net_asked self.new ≡ net_asked self.old ++ address.now ∷ []) }
        ensures unkept { OnErr result (net_asked self.new ≡ net_asked self.old) }
        ensures back { (self.new.back ≡ self.old.back) × (self.new.out ≡ self.old.out) × (self.new.accepted ≡ self.old.accepted) }
        ensures same { (self.new.door ≡ self.old.door) × (self.new.line ≡ self.old.line) × (self.new.looks ≡ self.old.looks) }
    {
        let copy = String::from_str(alloc, address)?;
        self.asked.push(copy)?;
        Ok(())
    }

    // Nothing is offered.
    fn nothing(&mut self) -> Accepted<MemoryLink>
        ensures result { result ≡ Nothing }
        ensures looks { self.new.looks ≡ raised self.old.looks }
        ensures back { (self.new.back ≡ self.old.back) × (self.new.out ≡ self.old.out) × (self.new.accepted ≡ self.old.accepted) }
        ensures same { (self.new.door ≡ self.old.door) × (self.new.line ≡ self.old.line) × (self.new.asked ≡ self.old.asked) }
    {
        self.looks = self.looks.saturating_add(1);
        Accepted::Nothing
    }
}

impl Net for MemoryNet {
    ghost use Rattle.std.specs.Prelude.{true};
    ghost use Rattle.wave_outside.specs.MemoryNets.{net_back, net_asked};

    type Link = MemoryLink;

    ghost tells = { true };

    ghost asked = { λ n. net_asked n };

    ghost door = { λ n. n.door.count };

    ghost line = { λ n. n.line.count };

    ghost looks = { λ n. n.looks };

    ghost accepted = { λ n. n.accepted };

    ghost out = { λ n. n.out };

    ghost back = { λ n. net_back n };

    fn listen(&mut self, _alloc: Global, _address: &str) -> Result<(), NetFault> {
        if self.calls.make().is_err() {
            return Err(self.door.raise().into());
        }
        Ok(())
    }

    fn accept(&mut self, _alloc: Global) -> Result<Accepted<MemoryLink>, NetFault> {
        if self.calls.make().is_err() {
            return Err(self.door.raise().into());
        }
        self.reserve()?;
        match self.next_offer() {
            Some(Accepted::Link(link)) => {
                self.accepted = self.accepted.saturating_add(1);
                self.out += 1;
                Ok(Accepted::Link(unused(link)))
            }
            Some(Accepted::Nothing) => Ok(self.nothing()),
            None => Ok(self.nothing()),
        }
    }

    fn dial(&mut self, alloc: Global, address: &str) -> Result<MemoryLink, NetFault> {
        let made = self.calls.make();
        self.reserve()?;
        self.keep(alloc, address)?;
        if made.is_err() {
            return Err(self.line.raise().into());
        }
        match self.next_dial() {
            Some(link) => {
                self.out += 1;
                Ok(unused(link))
            }
            None => Err(self.line.raise().into()),
        }
    }

    fn rest(&mut self) {}

    fn put(&mut self, link: MemoryLink) {
        self.line.add(link.faults());
        self.out -= 1;
        self.back.push_reserved(link);
    }
}
