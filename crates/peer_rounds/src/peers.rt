ghost use Rattle.std.specs.Prelude.{◌≡◌, ◌≤◌, ◌+◌, ◌-◌, ◌^◌, ◌++◌, ℕ, Bool, List, [], min, length, IsTrue, IfOk, OnOk};
ghost use Rattle.std.specs.Str.{encode_utf8_all};
ghost use mathlib.Core.List.{IsPrefix};
ghost use Rattle.doc_items.specs.Maps.{Key};
ghost use Rattle.peer_turns.specs.Calls.{refused, refusals};
ghost use Rattle.peer_rounds.specs.Peers.{HasJoined, SpeakFor, due, held, links, names, names_by};
ghost use Rattle.peer_rounds.specs.Reached.{HaveCome, HaveReached, line_then};
ghost use Rattle.peer_rounds.specs.Stands.{AreReady, AreDialled};
ghost use Rattle.peer_rounds.specs.Turns.{HaveTurned, HaveRun};

use crate::each::{due, put_all, run_all, turn_all};
use crate::peer::Peer;
use doc_items::{Memory, Text};
use peer_turns::{PeerTurns, TurnFault};
use std::alloc::Global;
use std::sync::Wait;
use wave_base::Domain;
use wave_outside::{Link, Net};

/// The servers of other domains with which a server shares wavelets.
#[derive(Drop)]
pub struct Peers<L: Link> {
    pub(crate) list: Vec<Peer<L>>,
}

impl<L: Link> Peers<L> {
    // No peers.
    fn none(alloc: Global) -> Peers<L>
        ensures { result.list.items ≡ [] }
    {
        Peers {
            list: Vec::new(alloc),
        }
    }

    // Adds a peer at this address that speaks for `domain`, as this server does for `own`.
    fn add(
        &mut self,
        alloc: Global,
        domain: Domain,
        own: Domain,
        address: Text,
    ) -> Result<(), Memory>
        ensures joined { OnOk result (HasJoined (domain, own, encode_utf8_all address) self.old.list.items self.new.list.items) }
    {
        self.list.push(Peer::new(alloc, domain, own, address))?;
        Ok(())
    }

    /// The peers at these domains and addresses, in order, none of which was stepped, of a server that speaks for `own`.
    pub fn new(alloc: Global, own: &Domain, pairs: &[(Domain, Text)]) -> Result<Peers<L>, Memory>
        ensures named { IfOk result (λ p. names p.list.items ≡ names_by own.now pairs.now) }
        ensures speak { IfOk result (λ p. SpeakFor own.now (names p.list.items)) }
        ensures unheld { IfOk result (λ p. held p.list.items ≡ 0) }
        ensures ready { IfOk result (λ p. (tells : Bool) → (asked : List (List ℕ)) → AreReady tells asked p.list.items) }
    {
        let mut peers = Peers::none(alloc);
        for pair in pairs {
            let domain = pair.0.copy(alloc)?;
            let speaker = own.copy(alloc)?;
            let address = pair.1.copy(alloc)?;
            peers.add(alloc, domain, speaker, address)?;
        }
        Ok(peers)
    }

    /// How many links the next turn of the loop puts back, where it gives an answer.
    pub fn due(&self) -> u64
        ensures { result ≡ due self.now.list.items }
    {
        due(self.list.as_slice())
    }

    /// One turn of the loop: each peer that pauses pauses one turn less, and each other one's link is stepped once. After a `Cut` a peer
    /// pauses a turn, and after each further one twice as long, 16 turns at most, until a step comes to `Worked` or `Idle`. True exactly
    /// where a step came to `Dialled` or `Worked`. The error is `Spent` exactly where a call of `turns` answered it, and `Memory` for want
    /// of memory; the peers after the one that met it had no turn.
    pub fn round<R: Wait, N: Net<Link = L>, T: PeerTurns>(
        &mut self,
        rt: &R,
        alloc: Global,
        net: &mut N,
        turns: &mut T,
    ) -> Result<bool, TurnFault>
        requires out { held self.old.list.items ≤ N.out net.old }
        ensures turned { IfOk result
            (HaveTurned T.PeerTurns N.Net self.old.list.items self.new.list.items turns.old turns.new net.old net.new) }
        ensures ready { OnOk result (AreReady N.tells (N.asked net.old) self.old.list.items
            → AreReady N.tells (N.asked net.new) self.new.list.items) }
        ensures rises { min (N.line net.old) (2 ^ 64 - 1) ≤ N.line net.new }
        ensures back { IsPrefix (N.back net.old) (N.back net.new) }
        ensures returned { OnOk result (length (N.back net.new) ≡ length (N.back net.old) + due self.old.list.items) }
        ensures out { N.out net.new + held self.old.list.items ≡ N.out net.old + held self.new.list.items }
        ensures same { (N.door net.new ≡ N.door net.old) × (N.accepted net.new ≡ N.accepted net.old) × (N.looks net.new ≡ N.looks net.old) }
        ensures spent { IsTrue T.tells → refusals (T.calls turns.new) ≡ refusals (T.calls turns.old) ++ refused result }
        ensures named { names self.new.list.items ≡ names self.old.list.items }
    {
        turn_all(rt, alloc, self.list.as_mut_slice(), net, turns)
    }

    /// What a server does with its peers before it ends: each peer's link is stepped until a step comes to `Idle` or `Cut`, whether it
    /// pauses or not. Errors are as those of `round`.
    pub fn finish<R: Wait, N: Net<Link = L>, T: PeerTurns>(
        &mut self,
        rt: &R,
        alloc: Global,
        net: &mut N,
        turns: &mut T,
    ) -> Result<(), TurnFault>
        requires out { held self.old.list.items ≤ N.out net.old }
        ensures run { OnOk result (HaveRun T.PeerTurns N.Net self.old.list.items self.new.list.items turns.old turns.new net.old net.new) }
        ensures reached { OnOk result (AreReady N.tells (N.asked net.old) self.old.list.items
            → HaveReached (N.line net.old) (N.line net.new) self.new.list.items) }
        ensures dialled { OnOk result (AreReady N.tells (N.asked net.old) self.old.list.items
            → IsTrue N.tells → AreDialled (N.asked net.new) (names self.new.list.items)) }
        ensures rises { min (N.line net.old) (2 ^ 64 - 1) ≤ N.line net.new }
        ensures back { IsPrefix (N.back net.old) (N.back net.new) }
        ensures out { N.out net.new + held self.old.list.items ≡ N.out net.old + held self.new.list.items }
        ensures same { (N.door net.new ≡ N.door net.old) × (N.accepted net.new ≡ N.accepted net.old) × (N.looks net.new ≡ N.looks net.old) }
        ensures spent { IsTrue T.tells → refusals (T.calls turns.new) ≡ refusals (T.calls turns.old) ++ refused result }
        ensures named { names self.new.list.items ≡ names self.old.list.items }
    {
        run_all(rt, alloc, self.list.as_mut_slice(), net, turns)
    }

    /// Puts each peer's link back. After `finish`, of the links that are put back those that were stepped after the message `peer` of the
    /// own domain, and what the count of the line rose by since, are together as many as the peers, or that count stands at its last value.
    pub fn close<N: Net<Link = L>>(self, net: &mut N)
        requires out { held self.list.items ≤ N.out net.old }
        ensures back { N.back net.new ≡ N.back net.old ++ links self.list.items }
        ensures line { N.line net.new ≡ line_then self.list.items (N.line net.old) }
        ensures rises { min (N.line net.old) (2 ^ 64 - 1) ≤ N.line net.new }
        ensures come { (own : Key) → (n : ℕ) → SpeakFor own (names self.list.items) → HaveReached n (N.line net.old) self.list.items
            → HaveCome L.Link own n (N.line net.new) (links self.list.items) (length self.list.items) }
        ensures out { N.out net.new + held self.list.items ≡ N.out net.old }
        ensures asked { IsTrue N.tells → N.asked net.new ≡ N.asked net.old }
        ensures same { (N.door net.new ≡ N.door net.old) × (N.accepted net.new ≡ N.accepted net.old) × (N.looks net.new ≡ N.looks net.old) }
    {
        let Peers { list } = self;
        put_all(list, net);
    }
}
