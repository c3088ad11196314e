ghost use Rattle.std.specs.Prelude.{◌≡◌, ◌≤◌, ◌<◌, ◌+◌, ◌-◌, ◌^◌, ◌++◌, ◌∷◌, [], ℕ, List, Bool, IsTrue, min, IfOk, IfErr, MatchResult};
ghost use Rattle.wave_outside.specs.Counts.{Rose};
ghost use Rattle.wave_outside.specs.Links.{IsUnused};
ghost use Rattle.wave_outside.specs.Nets.{IfLink, IfNone, accepted_more, out_more, asked_more};
ghost use Rattle.wave_outside.specs.declared.net.NetFault.TheVariants.{Failed};

use crate::Link;
use std::alloc::{AllocError, Global};

/// What a look for new links gave.
#[derive(Drop)]
pub enum Accepted<L> {
    Link(L),
    Nothing,
}

/// Why a call of a net gave nothing.
#[derive(Clone, Copy, Debug, PartialEq, Eq)]
pub enum NetFault {
    /// The net failed, and one of its counts of faults tells so.
    Failed,
    /// Want of memory.
    Memory,
}

impl From<AllocError> for NetFault {
    ghost use Rattle.std.specs.Prelude.{◌≡◌};
    ghost use Rattle.wave_outside.specs.declared.net.NetFault.TheVariants.{Memory};

    ghost from_gives = { λ _ e. e ≡ Memory };

    fn from(_: AllocError) -> Self {
        NetFault::Memory
    }
}

impl From<crate::Failed> for NetFault {
    ghost use Rattle.std.specs.Prelude.{◌≡◌};
    ghost use Rattle.wave_outside.specs.declared.net.NetFault.TheVariants.{Failed};

    ghost from_gives = { λ _ e. e ≡ Failed };

    fn from(_: crate::Failed) -> Self {
        NetFault::Failed
    }
}

/// Where links come from, and where they are put back. Faults at the door, where links come in, and on the line, over which
/// others are dialled, are counted apart.
pub trait Net {
    type Link: Link;

    /// Whether the net tells which addresses it was asked for. One over sockets doesn't.
    ghost tells: { Bool };

    /// The addresses that were dialled, in order, also where that failed.
    ghost asked: { Self → List (List ℕ) };

    /// How many calls of `listen` and `accept` have failed.
    ghost door: { Self → ℕ };

    /// How many calls of `dial` have failed, with the faults of the links that were put back.
    ghost line: { Self → ℕ };

    /// How many looks for new links found none.
    ghost looks: { Self → ℕ };

    /// How many links were accepted.
    ghost accepted: { Self → ℕ };

    /// How many links are handed out. There is room to put each of them back.
    ghost out: { Self → ℕ };

    /// The links that were put back, in order.
    ghost back: { Self → List Self.Link };

    /// Opens the door at this address.
    fn listen(&mut self, alloc: Global, address: &str) -> Result<(), NetFault>
        ensures later { (door self.old ≤ door self.new) × (line self.new ≡ line self.old) }
        ensures failed { IfErr result (λ e. e ≡ Failed → Rose (door self.old) (door self.new)) }
        ensures asked { IsTrue tells → asked self.new ≡ asked self.old }
        ensures looks { looks self.new ≡ looks self.old }
        ensures same { (accepted self.new ≡ accepted self.old) × (out self.new ≡ out self.old) × (back self.new ≡ back self.old) };

    /// A new link, if one came. It doesn't wait for one.
    fn accept(&mut self, alloc: Global) -> Result<Accepted<Self::Link>, NetFault>
        ensures later { (door self.old ≤ door self.new) × (line self.new ≡ line self.old) }
        ensures failed { IfErr result (λ e. e ≡ Failed → Rose (door self.old) (door self.new)) }
        ensures asked { IsTrue tells → asked self.new ≡ asked self.old }
        ensures more_looks { looks self.old ≤ looks self.new }
        ensures nothing { IfOk result (λ a. IfNone a (Rose (looks self.old) (looks self.new))) }
        ensures unused { IfOk result (λ a. IfLink a (λ l. IsUnused (Self.Link.faults l) (Self.Link.events l) (Self.Link.closed l))) }
        ensures accepted { accepted self.new ≡ accepted_more result (accepted self.old) }
        ensures out { out self.new ≡ out_more result (out self.old) }
        ensures same { back self.new ≡ back self.old };

    /// A link with this address.
    fn dial(&mut self, alloc: Global, address: &str) -> Result<Self::Link, NetFault>
        ensures later { (line self.old ≤ line self.new) × (door self.new ≡ door self.old) }
        ensures failed { IfErr result (λ e. e ≡ Failed → Rose (line self.old) (line self.new)) }
        ensures asked { IsTrue tells → asked self.new ≡ asked_more result address.now (asked self.old) }
        ensures looks { looks self.new ≡ looks self.old }
        ensures unused { IfOk result (λ l. IsUnused (Self.Link.faults l) (Self.Link.events l) (Self.Link.closed l)) }
        ensures out { MatchResult result (λ _. out self.new ≡ out self.old + 1) (λ _. out self.new ≡ out self.old) }
        ensures same { (accepted self.new ≡ accepted self.old) × (back self.new ≡ back self.old) };

    /// Waits at the door, for a second at most, until a new link may have come, or a link that doesn't wait by itself may have a
    /// message, or somebody calls. It takes nothing.
    fn rest(&mut self)
        ensures counts { (door self.new ≡ door self.old) × (line self.new ≡ line self.old) }
        ensures asked { IsTrue tells → asked self.new ≡ asked self.old }
        ensures looks { looks self.new ≡ looks self.old }
        ensures same { (accepted self.new ≡ accepted self.old) × (out self.new ≡ out self.old) × (back self.new ≡ back self.old) };

    /// Takes a link back, and counts its faults as the line's.
    fn put(&mut self, link: Self::Link)
        requires { 0 < out self.old }
        ensures out { out self.new + 1 ≡ out self.old }
        ensures back { back self.new ≡ back self.old ++ link ∷ [] }
        ensures line { line self.new ≡ min (line self.old + Self.Link.faults link) (2 ^ 64 - 1) }
        ensures asked { IsTrue tells → asked self.new ≡ asked self.old }
        ensures looks { looks self.new ≡ looks self.old }
        ensures same { (door self.new ≡ door self.old) × (accepted self.new ≡ accepted self.old) };
}
