// All peers of a server, one after the other.
ghost use Rattle.std.specs.Prelude.{◌≡◌, ◌≤◌, ◌+◌, ◌-◌, ◌^◌, ◌++◌, length, min, ◌||◌, IsTrue, IfOk, OnOk};
ghost use mathlib.Core.List.{IsPrefix};
ghost use Rattle.peer_turns.specs.Calls.{refused, refusals};
ghost use Rattle.peer_rounds.specs.Peers.{due, held, links, names};
ghost use Rattle.peer_rounds.specs.Reached.{HaveReached, line_then};
ghost use Rattle.peer_rounds.specs.Stands.{AreReady, AreDialled};
ghost use Rattle.peer_rounds.specs.Turns.{HaveTurned, HaveRun};

use crate::peer::Peer;
use peer_turns::{PeerTurns, TurnFault};
use std::alloc::Global;
use std::sync::Wait;
use wave_outside::{Link, Net};

// Whether one of the two holds.
fn either(one: bool, others: bool) -> bool
    ensures { result ≡ (one || others) }
{
    one || others
}

// Gives each peer a turn. True where one did something.
fn turn_each<R: Wait, L: Link, N: Net<Link = L>, T: PeerTurns>(
    rt: &R,
    alloc: Global,
    peers: &mut [Peer<L>],
    net: &mut N,
    turns: &mut T,
) -> Result<bool, TurnFault>
    requires out { held peers.old ≤ N.out net.old }
    ensures turned { IfOk result (HaveTurned T.PeerTurns N.Net peers.old peers.new turns.old turns.new net.old net.new) }
    ensures rises { min (N.line net.old) (2 ^ 64 - 1) ≤ N.line net.new }
    ensures back { IsPrefix (N.back net.old) (N.back net.new) }
    ensures out { N.out net.new + held peers.old ≡ N.out net.old + held peers.new }
    ensures same { (N.door net.new ≡ N.door net.old) × (N.accepted net.new ≡ N.accepted net.old) × (N.looks net.new ≡ N.looks net.old) }
    ensures spent { IsTrue T.tells → refusals (T.calls turns.new) ≡ refusals (T.calls turns.old) ++ refused result }
    ensures named { names peers.new ≡ names peers.old }
{
    let Some((first, rest)) = peers.split_first_mut() else {
        return Ok(false);
    };
    match first.turn(rt, alloc, net, turns) {
        Ok(one) => match turn_each(rt, alloc, rest, net, turns) {
            Ok(others) => Ok(either(one, others)),
            Err(fault) => Err(fault),
        },
        Err(fault) => Err(fault),
    }
}

// Steps each peer's link until a step comes to `Idle` or `Cut`.
fn run_each<R: Wait, L: Link, N: Net<Link = L>, T: PeerTurns>(
    rt: &R,
    alloc: Global,
    peers: &mut [Peer<L>],
    net: &mut N,
    turns: &mut T,
) -> Result<(), TurnFault>
    requires out { held peers.old ≤ N.out net.old }
    ensures run { OnOk result (HaveRun T.PeerTurns N.Net peers.old peers.new turns.old turns.new net.old net.new) }
    ensures rises { min (N.line net.old) (2 ^ 64 - 1) ≤ N.line net.new }
    ensures back { IsPrefix (N.back net.old) (N.back net.new) }
    ensures out { N.out net.new + held peers.old ≡ N.out net.old + held peers.new }
    ensures same { (N.door net.new ≡ N.door net.old) × (N.accepted net.new ≡ N.accepted net.old) × (N.looks net.new ≡ N.looks net.old) }
    ensures spent { IsTrue T.tells → refusals (T.calls turns.new) ≡ refusals (T.calls turns.old) ++ refused result }
    ensures named { names peers.new ≡ names peers.old }
{
    let Some((first, rest)) = peers.split_first_mut() else {
        return Ok(());
    };
    match first.run(rt, alloc, net, turns) {
        Ok(()) => match run_each(rt, alloc, rest, net, turns) {
            Ok(()) => Ok(()),
            Err(fault) => Err(fault),
        },
        Err(fault) => Err(fault),
    }
}

/// How many links a turn of each peer puts back.
pub(crate) fn due<L: Link>(peers: &[Peer<L>]) -> u64
    ensures value { result ≡ due peers.now }
    ensures bound { result ≤ length peers.now }
{
    let Some((first, rest)) = peers.split_first() else {
        return 0;
    };
    if first.is_due() {
        due(rest) + 1
    } else {
        due(rest)
    }
}

/// Gives each peer a turn, after which those that were ready are so. True where one did something.
pub(crate) fn turn_all<R: Wait, L: Link, N: Net<Link = L>, T: PeerTurns>(
    rt: &R,
    alloc: Global,
    peers: &mut [Peer<L>],
    net: &mut N,
    turns: &mut T,
) -> Result<bool, TurnFault>
    requires out { held peers.old ≤ N.out net.old }
    ensures turned { IfOk result (HaveTurned T.PeerTurns N.Net peers.old peers.new turns.old turns.new net.old net.new) }
    ensures ready { OnOk result (AreReady N.tells (N.asked net.old) peers.old → AreReady N.tells (N.asked net.new) peers.new) }
    ensures rises { min (N.line net.old) (2 ^ 64 - 1) ≤ N.line net.new }
    ensures back { IsPrefix (N.back net.old) (N.back net.new) }
    ensures returned { OnOk result (length (N.back net.new) ≡ length (N.back net.old) + due peers.old) }
    ensures out { N.out net.new + held peers.old ≡ N.out net.old + held peers.new }
    ensures same { (N.door net.new ≡ N.door net.old) × (N.accepted net.new ≡ N.accepted net.old) × (N.looks net.new ≡ N.looks net.old) }
    ensures spent { IsTrue T.tells → refusals (T.calls turns.new) ≡ refusals (T.calls turns.old) ++ refused result }
    ensures named { names peers.new ≡ names peers.old }
{
    turn_each(rt, alloc, peers, net, turns)
}

/// Steps each peer's link until a step comes to `Idle` or `Cut`, after which each was dialled.
pub(crate) fn run_all<R: Wait, L: Link, N: Net<Link = L>, T: PeerTurns>(
    rt: &R,
    alloc: Global,
    peers: &mut [Peer<L>],
    net: &mut N,
    turns: &mut T,
) -> Result<(), TurnFault>
    requires out { held peers.old ≤ N.out net.old }
    ensures run { OnOk result (HaveRun T.PeerTurns N.Net peers.old peers.new turns.old turns.new net.old net.new) }
    ensures reached { OnOk result (AreReady N.tells (N.asked net.old) peers.old → HaveReached (N.line net.old) (N.line net.new) peers.new) }
    ensures dialled { OnOk result
        (AreReady N.tells (N.asked net.old) peers.old → IsTrue N.tells → AreDialled (N.asked net.new) (names peers.new)) }
    ensures rises { min (N.line net.old) (2 ^ 64 - 1) ≤ N.line net.new }
    ensures back { IsPrefix (N.back net.old) (N.back net.new) }
    ensures out { N.out net.new + held peers.old ≡ N.out net.old + held peers.new }
    ensures same { (N.door net.new ≡ N.door net.old) × (N.accepted net.new ≡ N.accepted net.old) × (N.looks net.new ≡ N.looks net.old) }
    ensures spent { IsTrue T.tells → refusals (T.calls turns.new) ≡ refusals (T.calls turns.old) ++ refused result }
    ensures named { names peers.new ≡ names peers.old }
{
    run_each(rt, alloc, peers, net, turns)
}

/// Puts each peer's link back.
pub(crate) fn put_all<L: Link, N: Net<Link = L>>(peers: Vec<Peer<L>>, net: &mut N)
    requires out { held peers.items ≤ N.out net.old }
    ensures back { N.back net.new ≡ N.back net.old ++ links peers.items }
    ensures line { N.line net.new ≡ line_then peers.items (N.line net.old) }
    ensures out { N.out net.new + held peers.items ≡ N.out net.old }
    ensures asked { IsTrue N.tells → N.asked net.new ≡ N.asked net.old }
    ensures same { (N.door net.new ≡ N.door net.old) × (N.accepted net.new ≡ N.accepted net.old) × (N.looks net.new ≡ N.looks net.old) }
{
    for peer in peers {
        peer.put_back(net);
    }
}
