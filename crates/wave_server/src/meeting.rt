// The peers of a server.
ghost use Rattle.std.specs.Prelude.{◌≡◌, ◌≢◌, ◌≤◌, ◌+◌, ◌-◌, ◌^◌, IsTrue, map, min, length, false, is_some, IfOk};
ghost use Rattle.std.specs.Prelude.{IfErr, OnOk, MatchBool};
ghost use mathlib.Core.List.{IsPrefix};
ghost use Rattle.peer_rounds.specs.Peers.{held, names};
ghost use Rattle.peer_rounds.specs.Reached.{HaveReached};
ghost use Rattle.peer_rounds.specs.Stands.{AreReady, AreDialled};
ghost use Rattle.wave_server.specs.Statuses.{TellsSpent};
ghost use Rattle.wave_server.specs.declared.stop.Stop.TheVariants.{Refused, Door, Spent};

use crate::stop::Stop;
use doc_items::{Memory, Text};
use peer_rounds::Peers;
use peer_turns::{PeerTurns, TurnFault};
use std::alloc::Global;
use std::sync::Wait;
use wave_base::Domain;
use wave_outside::Net;

/// The domains of peers. The error is want of memory.
pub(crate) fn domains_of(alloc: Global, pairs: &[(Domain, Text)]) -> Result<Vec<Domain>, Memory>
    ensures { IfOk result (λ v. v.items ≡ map (λ p. p.0) pairs.now) }
{
    let mut domains = Vec::new(alloc);
    for pair in pairs {
        domains.push(pair.0.copy(alloc)?)?;
    }
    Ok(domains)
}

// Why the server stops, where there was no turn for a peer's link.
fn stop_of(fault: TurnFault, spent: &mut Option<turn_lock::Spent>) -> Stop
    requires { is_some spent.old ≡ false }
    ensures spent { MatchBool (is_some spent.new) (result ≡ Spent) (result ≢ Spent) }
    ensures kinds { (result ≢ Refused) × (result ≢ Door) }
{
    match fault {
        TurnFault::Memory => Stop::Memory,
        TurnFault::Spent(ticket) => {
            *spent = Some(ticket);
            Stop::Spent
        }
    }
}

/// Gives each peer's link a turn. True where one did something. `put` counts the links that were put back.
pub(crate) fn meet<R: Wait, N: Net, T: PeerTurns>(
    rt: &R,
    alloc: Global,
    net: &mut N,
    peers: &mut Peers<N::Link>,
    turns: &mut T,
    put: &mut u64,
    spent: &mut Option<turn_lock::Spent>,
) -> Result<bool, Stop>
    requires out { held peers.old.list.items ≤ N.out net.old }
    requires unspent { is_some spent.old ≡ false }
    ensures put { OnOk result (length (N.back net.new) + put.old ≡ length (N.back net.old) + put.new) }
    ensures ready { OnOk result (AreReady N.tells (N.asked net.old) peers.old.list.items
        → AreReady N.tells (N.asked net.new) peers.new.list.items) }
    ensures spent { TellsSpent (is_some spent.new) result }
    ensures kinds { IfErr result (λ s. (s ≢ Refused) × (s ≢ Door)) }
    ensures rises { min (N.line net.old) (2 ^ 64 - 1) ≤ N.line net.new }
    ensures back { IsPrefix (N.back net.old) (N.back net.new) }
    ensures out { N.out net.new + held peers.old.list.items ≡ N.out net.old + held peers.new.list.items }
    ensures same { (N.door net.new ≡ N.door net.old) × (N.accepted net.new ≡ N.accepted net.old) }
    ensures named { names peers.new.list.items ≡ names peers.old.list.items }
{
    let Some(then) = put.checked_add(peers.due()) else {
        return Err(Stop::Memory);
    };
    match peers.round(rt, alloc, net, turns) {
        Ok(worked) => {
            *put = then;
            Ok(worked)
        }
        Err(fault) => Err(stop_of(fault, spent)),
    }
}

/// Steps each peer's link until nothing came on it and nothing is left to send, or until it is cut.
pub(crate) fn part<R: Wait, N: Net, T: PeerTurns>(
    rt: &R,
    alloc: Global,
    net: &mut N,
    peers: &mut Peers<N::Link>,
    turns: &mut T,
    spent: &mut Option<turn_lock::Spent>,
) -> Result<(), Stop>
    requires out { held peers.old.list.items ≤ N.out net.old }
    requires unspent { is_some spent.old ≡ false }
    ensures reached { OnOk result (AreReady N.tells (N.asked net.old) peers.old.list.items
        → HaveReached (N.line net.old) (N.line net.new) peers.new.list.items) }
    ensures dialled { OnOk result (AreReady N.tells (N.asked net.old) peers.old.list.items → IsTrue N.tells
        → AreDialled (N.asked net.new) (names peers.new.list.items)) }
    ensures spent { TellsSpent (is_some spent.new) result }
    ensures kinds { IfErr result (λ s. (s ≢ Refused) × (s ≢ Door)) }
    ensures rises { min (N.line net.old) (2 ^ 64 - 1) ≤ N.line net.new }
    ensures back { IsPrefix (N.back net.old) (N.back net.new) }
    ensures out { N.out net.new + held peers.old.list.items ≡ N.out net.old + held peers.new.list.items }
    ensures same { (N.door net.new ≡ N.door net.old) × (N.accepted net.new ≡ N.accepted net.old) }
    ensures named { names peers.new.list.items ≡ names peers.old.list.items }
{
    match peers.finish(rt, alloc, net, turns) {
        Ok(()) => Ok(()),
        Err(fault) => Err(stop_of(fault, spent)),
    }
}
