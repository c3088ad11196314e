ghost use Rattle.std.specs.Prelude.{◌≡◌, ◌≤◌, ◌++◌, ◌∷◌, [], ℕ, List, Bool, true, IsTrue, IfOk, IfErr, OnOk, OnErr, MatchResult};
ghost use Rattle.wave_outside.specs.Counts.{Rose};
ghost use Rattle.wave_outside.specs.Links.{polled, tells_close};
ghost use Rattle.wave_outside.specs.declared.link.LinkEvent.{LinkEvent};
ghost use Rattle.wave_outside.specs.declared.link.LinkEvent.TheVariants.{Sent};
ghost use Rattle.wave_outside.specs.declared.link.LinkFault.TheVariants.{Failed};
ghost use Rattle.wave_outside.specs.declared.link.Polled.TheVariants.{Nothing};

use std::alloc::{AllocError, Global};
use std::collections::LinkedList;

/// What a look at a link gave.
#[derive(Drop)]
pub enum Polled {
    Message(Vec<u8>),
    Nothing,
    /// The peer closed the link.
    Closed,
}

/// Why a call of a link gave nothing.
#[derive(Clone, Copy, Debug, PartialEq, Eq)]
pub enum LinkFault {
    /// The link failed, and its count of faults tells so.
    Failed,
    /// Want of memory.
    Memory,
}

impl From<AllocError> for LinkFault {
    ghost use Rattle.std.specs.Prelude.{◌≡◌};
    ghost use Rattle.wave_outside.specs.declared.link.LinkFault.TheVariants.{Memory};

    ghost from_gives = { λ _ e. e ≡ Memory };

    fn from(_: AllocError) -> Self {
        LinkFault::Memory
    }
}

impl From<crate::Failed> for LinkFault {
    ghost use Rattle.std.specs.Prelude.{◌≡◌};
    ghost use Rattle.wave_outside.specs.declared.link.LinkFault.TheVariants.{Failed};

    ghost from_gives = { λ _ e. e ≡ Failed };

    fn from(_: crate::Failed) -> Self {
        LinkFault::Failed
    }
}

/// What was polled from a link, or sent on it. These values exist in proofs alone.
pub enum LinkEvent {
    Received(LinkedList<u8>),
    /// A poll that found nothing.
    Idle,
    /// A poll that told the peer's close.
    Ended,
    Sent(LinkedList<u8>),
}

/// Messages with one peer.
pub trait Link: Drop {
    /// Whether the link tells what was polled and sent. One over a socket doesn't.
    ghost tells: { Bool };

    /// The results of its polls and the messages sent, in order.
    ghost events: { Self → List LinkEvent };

    /// How many calls have failed.
    ghost faults: { Self → ℕ };

    /// How many looks found nothing.
    ghost looks: { Self → ℕ };

    /// Whether the peer closed it. Every link tells that.
    ghost closed: { Self → Bool };

    /// The next message, if one came. It may wait a while for one where none came.
    fn poll(&mut self, alloc: Global) -> Result<Polled, LinkFault>
        ensures events { IsTrue tells → events self.new ≡ events self.old ++ polled result }
        ensures later { faults self.old ≤ faults self.new }
        ensures failed { IfErr result (λ e. e ≡ Failed → Rose (faults self.old) (faults self.new)) }
        ensures more_looks { looks self.old ≤ looks self.new }
        ensures nothing { IfOk result (λ p. p ≡ Nothing → Rose (looks self.old) (looks self.new)) }
        ensures closed { MatchResult result (λ p. closed self.new ≡ tells_close p) (λ _. closed self.new ≡ closed self.old) }
        ensures stays { closed self.old ≡ true → closed self.new ≡ true };

    /// Sends a message. It may leave later, at the next call of `poll`.
    fn send(&mut self, alloc: Global, bytes: &[u8]) -> Result<(), LinkFault>
        ensures sent { IsTrue tells → OnOk result (events self.new ≡ events self.old ++ Sent bytes.now ∷ []) }
        ensures unsent { IsTrue tells → OnErr result (events self.new ≡ events self.old) }
        ensures later { faults self.old ≤ faults self.new }
        ensures failed { IfErr result (λ e. e ≡ Failed → Rose (faults self.old) (faults self.new)) }
        ensures looks { looks self.new ≡ looks self.old }
        ensures stays { closed self.new ≡ closed self.old };
}
