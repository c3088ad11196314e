//! Messages that wait for a handshake's end, or for a peer that takes no more.
ghost use Rattle.std.specs.Prelude.{◌≡◌, ◌≤◌, map};
ghost use Rattle.ws_link.specs.Costs.{waiting};

use std::alloc::Global;
use std::collections::VecDeque;

/// What a message takes beside its bytes: its place here and the head of its frame.
const EACH: usize = 64;

/// Messages that wait, within a limit of bytes.
pub(crate) struct Outbox {
    messages: VecDeque<Vec<u8>>,
    // What they take, and may take at most.
    taken: usize,
    most: usize,
    ghost counted: { taken ≡ waiting (map (λ m. m.items) messages.items) },
    ghost within: { taken ≤ most },
}

impl Drop for Outbox {
    fn drop(self) {
        let Outbox {
            messages: _messages,
            taken: _taken,
            most: _most,
        } = self;
    }
}

/// Why a message can't wait.
#[derive(Clone, Copy, Debug, PartialEq, Eq)]
pub(crate) enum Unkept {
    /// There is no room for it within the limit.
    Full,
    /// Want of memory.
    Memory,
}

impl Outbox {
    ghost use Rattle.std.specs.Prelude.{◌<◌, ◌+◌, ◌++◌, ◌∷◌, [], OnOk, OnErr, IfErr, IfSome, IfNone, MatchOption, take, drop};
    ghost use Rattle.ws_link.specs.Costs.{cost};
    ghost use Rattle.ws_link.specs.Outboxes.{contents};
    ghost use Rattle.ws_link.specs.declared.outbox.Unkept.TheVariants.{Full};

    /// An outbox that may hold so many bytes.
    pub(crate) fn new(alloc: Global, most: usize) -> Outbox
        ensures { (contents result ≡ []) × (result.most ≡ most) }
    {
        Outbox {
            messages: VecDeque::new(alloc),
            taken: 0,
            most,
        }
    }

    pub(crate) fn is_empty(&self) -> bool {
        self.messages.is_empty()
    }

    pub(crate) fn len(&self) -> usize {
        self.messages.len()
    }

    // What the messages take with one more of so many bytes, if there is room for it.
    fn taken_with(&self, bytes: usize) -> Option<usize>
        ensures { MatchOption result (self.now.most < self.now.taken + (bytes + 64))
            (λ t. (t ≡ self.now.taken + (bytes + 64)) × (t ≤ self.now.most)) }
    {
        let room = self.most - self.taken;
        if room < EACH {
            return None;
        }
        if room - EACH < bytes {
            return None;
        }
        Some(self.taken + EACH + bytes)
    }

    /// Keeps a message, where there is room for it.
    pub(crate) fn keep(&mut self, alloc: Global, bytes: &[u8]) -> Result<(), Unkept>
        ensures kept { OnOk result (contents self.new ≡ contents self.old ++ bytes.now ∷ []) }
        ensures unkept { OnErr result (contents self.new ≡ contents self.old) }
        ensures full { IfErr result (λ e. e ≡ Full → self.old.most < waiting (contents self.old) + cost bytes.now) }
        ensures most { self.new.most ≡ self.old.most }
    {
        let Some(taken) = self.taken_with(bytes.len()) else {
            return Err(Unkept::Full);
        };
        let Ok(copy) = Vec::from_slice(alloc, bytes) else {
            return Err(Unkept::Memory);
        };
        if self.messages.push_back(copy).is_err() {
            return Err(Unkept::Memory);
        }
        self.taken = taken;
        Ok(())
    }

    /// The message that waits longest.
    pub(crate) fn first(&self) -> Option<&Vec<u8>>
        ensures { MatchOption result (contents self.now ≡ []) (λ m. take 1 (contents self.now) ≡ m.now.items ∷ []) }
    {
        self.messages.front()
    }

    /// Lets go of that message.
    pub(crate) fn drop_first(&mut self)
        ensures rest { contents self.new ≡ drop 1 (contents self.old) }
        ensures most { self.new.most ≡ self.old.most }
    {
        if let Some(message) = self.messages.pop_front() {
            self.taken -= message.len() + EACH;
        }
    }
}
