ghost use Rattle.std.specs.Prelude.{◌≡◌, ◌≤◌, ◌+◌, ◌-◌, ◌^◌, ◌++◌, cond, min, IsTrue, IfOk, OnOk};
ghost use Rattle.std.specs.Str.{encode_utf8_all};
ghost use mathlib.Core.List.{IsPrefix};
ghost use Rattle.peer_turns.specs.Calls.{refused, refusals};
ghost use Rattle.federation_link.specs.Dials.{count_in, list_in, line_after};
ghost use Rattle.peer_rounds.specs.Peers.{IsFresh, due_of, name_of};
ghost use Rattle.peer_rounds.specs.Turns.{IsStep, HasCome, HasTurned, HasRun, is_work, is_end};

use crate::pause::Pause;
use doc_items::Text;
use federation_link::{PeerLink, Stepped};
use peer_turns::{PeerTurns, TurnFault};
use std::alloc::Global;
use std::sync::Wait;
use wave_base::Domain;
use wave_outside::{Link, Net};

/// The server of another domain: the link with it, and how long it pauses.
pub struct Peer<L: Link> {
    pub(crate) link: PeerLink<L>,
    pub(crate) pause: Pause,
}

impl<L: Link> Drop for Peer<L> {
    fn drop(self) {
        let Peer {
            link: _link,
            pause: _pause,
        } = self;
    }
}

// Whether a step that came to this did something.
fn is_work(stepped: Stepped) -> bool
    ensures { result ≡ is_work stepped }
{
    match stepped {
        Stepped::Dialled => true,
        Stepped::Worked => true,
        Stepped::Idle => false,
        Stepped::Cut => false,
    }
}

// Whether a link may be left after a step that came to this.
fn is_end(stepped: Stepped) -> bool
    ensures { result ≡ is_end stepped }
{
    match stepped {
        Stepped::Dialled => false,
        Stepped::Worked => false,
        Stepped::Idle => true,
        Stepped::Cut => true,
    }
}

impl<L: Link> Peer<L> {
    /// A peer at this address that speaks for `domain`, which was never stepped.
    pub(crate) fn new(alloc: Global, domain: Domain, own: Domain, address: Text) -> Peer<L>
        ensures fresh { IsFresh result }
        ensures named { name_of result.link ≡ (domain, own, encode_utf8_all address) }
    {
        Peer {
            link: PeerLink::new(alloc, domain, own, address),
            pause: Pause::none(),
        }
    }

    /// Whether a turn of the loop puts its link back.
    pub(crate) fn is_due(&self) -> bool
        ensures { cond result 1 0 ≡ due_of self.now }
    {
        self.pause.is_over() && self.link.is_cut() && self.link.link().is_some()
    }

    // One step of the link.
    fn step<R: Wait, N: Net<Link = L>, T: PeerTurns>(
        &mut self,
        rt: &R,
        alloc: Global,
        net: &mut N,
        turns: &mut T,
    ) -> Result<Stepped, TurnFault>
        requires out { count_in self.old.link.link ≤ N.out net.old }
        ensures stepped { IsStep T.PeerTurns N.Net self.old.link self.new.link turns.old turns.new net.old net.new result }
        ensures rises { min (N.line net.old) (2 ^ 64 - 1) ≤ N.line net.new }
        ensures back { IsPrefix (N.back net.old) (N.back net.new) }
        ensures out { N.out net.new + count_in self.old.link.link ≡ N.out net.old + count_in self.new.link.link }
        ensures same { (N.door net.new ≡ N.door net.old) × (N.accepted net.new ≡ N.accepted net.old) × (N.looks net.new ≡ N.looks net.old) }
        ensures spent { IsTrue T.tells → refusals (T.calls turns.new) ≡ refusals (T.calls turns.old) ++ refused result }
        ensures named { name_of self.new.link ≡ name_of self.old.link }
        ensures pause { self.new.pause ≡ self.old.pause }
    {
        self.link.peer_step(rt, alloc, net, turns)
    }

    // One step of the link, and what comes of the pause. True where something was done.
    fn step_on<R: Wait, N: Net<Link = L>, T: PeerTurns>(
        &mut self,
        rt: &R,
        alloc: Global,
        net: &mut N,
        turns: &mut T,
    ) -> Result<bool, TurnFault>
        requires out { count_in self.old.link.link ≤ N.out net.old }
        requires over { self.old.pause.left ≡ 0 }
        ensures turned { IfOk result (HasTurned T.PeerTurns N.Net self.old self.new turns.old turns.new net.old net.new) }
        ensures rises { min (N.line net.old) (2 ^ 64 - 1) ≤ N.line net.new }
        ensures back { IsPrefix (N.back net.old) (N.back net.new) }
        ensures out { N.out net.new + count_in self.old.link.link ≡ N.out net.old + count_in self.new.link.link }
        ensures same { (N.door net.new ≡ N.door net.old) × (N.accepted net.new ≡ N.accepted net.old) × (N.looks net.new ≡ N.looks net.old) }
        ensures spent { IsTrue T.tells → refusals (T.calls turns.new) ≡ refusals (T.calls turns.old) ++ refused result }
        ensures named { name_of self.new.link ≡ name_of self.old.link }
    {
        match self.step(rt, alloc, net, turns) {
            Ok(stepped) => {
                self.pause = self.pause.after(stepped);
                Ok(is_work(stepped))
            }
            Err(fault) => Err(fault),
        }
    }

    /// A turn of the loop: a turn of the pause, or else a step of the link. True where something was done.
    pub(crate) fn turn<R: Wait, N: Net<Link = L>, T: PeerTurns>(
        &mut self,
        rt: &R,
        alloc: Global,
        net: &mut N,
        turns: &mut T,
    ) -> Result<bool, TurnFault>
        requires out { count_in self.old.link.link ≤ N.out net.old }
        ensures turned { IfOk result (HasTurned T.PeerTurns N.Net self.old self.new turns.old turns.new net.old net.new) }
        ensures rises { min (N.line net.old) (2 ^ 64 - 1) ≤ N.line net.new }
        ensures back { IsPrefix (N.back net.old) (N.back net.new) }
        ensures out { N.out net.new + count_in self.old.link.link ≡ N.out net.old + count_in self.new.link.link }
        ensures same { (N.door net.new ≡ N.door net.old) × (N.accepted net.new ≡ N.accepted net.old) × (N.looks net.new ≡ N.looks net.old) }
        ensures spent { IsTrue T.tells → refusals (T.calls turns.new) ≡ refusals (T.calls turns.old) ++ refused result }
        ensures named { name_of self.new.link ≡ name_of self.old.link }
    {
        if self.pause.is_over() {
            return self.step_on(rt, alloc, net, turns);
        }
        self.pause = self.pause.shorter();
        Ok(false)
    }

    // One step of the link. True where it came to `Idle` or `Cut`.
    fn step_down<R: Wait, N: Net<Link = L>, T: PeerTurns>(
        &mut self,
        rt: &R,
        alloc: Global,
        net: &mut N,
        turns: &mut T,
    ) -> Result<bool, TurnFault>
        requires out { count_in self.old.link.link ≤ N.out net.old }
        ensures stepped { IfOk result (HasCome T.PeerTurns N.Net self.old.link self.new.link turns.old turns.new net.old net.new) }
        ensures rises { min (N.line net.old) (2 ^ 64 - 1) ≤ N.line net.new }
        ensures back { IsPrefix (N.back net.old) (N.back net.new) }
        ensures out { N.out net.new + count_in self.old.link.link ≡ N.out net.old + count_in self.new.link.link }
        ensures same { (N.door net.new ≡ N.door net.old) × (N.accepted net.new ≡ N.accepted net.old) × (N.looks net.new ≡ N.looks net.old) }
        ensures spent { IsTrue T.tells → refusals (T.calls turns.new) ≡ refusals (T.calls turns.old) ++ refused result }
        ensures named { name_of self.new.link ≡ name_of self.old.link }
    {
        match self.step(rt, alloc, net, turns) {
            Ok(stepped) => Ok(is_end(stepped)),
            Err(fault) => Err(fault),
        }
    }

    /// Steps the link until a step comes to `Idle` or `Cut`.
    pub(crate) fn run<R: Wait, N: Net<Link = L>, T: PeerTurns>(
        &mut self,
        rt: &R,
        alloc: Global,
        net: &mut N,
        turns: &mut T,
    ) -> Result<(), TurnFault>
        requires out { count_in self.old.link.link ≤ N.out net.old }
        ensures run { OnOk result (HasRun T.PeerTurns N.Net self.old.link self.new.link turns.old turns.new net.old net.new) }
        ensures rises { min (N.line net.old) (2 ^ 64 - 1) ≤ N.line net.new }
        ensures back { IsPrefix (N.back net.old) (N.back net.new) }
        ensures out { N.out net.new + count_in self.old.link.link ≡ N.out net.old + count_in self.new.link.link }
        ensures same { (N.door net.new ≡ N.door net.old) × (N.accepted net.new ≡ N.accepted net.old) × (N.looks net.new ≡ N.looks net.old) }
        ensures spent { IsTrue T.tells → refusals (T.calls turns.new) ≡ refusals (T.calls turns.old) ++ refused result }
        ensures named { name_of self.new.link ≡ name_of self.old.link }
    {
        for _ in rt.forever() {
            match self.step_down(rt, alloc, net, turns) {
                Ok(true) => return Ok(()),
                Ok(false) => {}
                Err(fault) => return Err(fault),
            }
        }
        unreachable!()
    }

    /// Puts the link back, if there is one.
    pub(crate) fn put_back<N: Net<Link = L>>(self, net: &mut N)
        requires out { count_in self.link.link ≤ N.out net.old }
        ensures back { N.back net.new ≡ N.back net.old ++ list_in self.link.link }
        ensures out { N.out net.new + count_in self.link.link ≡ N.out net.old }
        ensures line { N.line net.new ≡ line_after L.faults self.link.link (N.line net.old) }
        ensures asked { IsTrue N.tells → N.asked net.new ≡ N.asked net.old }
        ensures same { (N.door net.new ≡ N.door net.old) × (N.accepted net.new ≡ N.accepted net.old) × (N.looks net.new ≡ N.looks net.old) }
    {
        let Peer {
            link,
            pause: _pause,
        } = self;
        match link.close() {
            Some(link) => net.put(link),
            None => {}
        }
    }
}
