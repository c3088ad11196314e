// What a new link begins with.
ghost use Rattle.std.specs.Prelude.{◌≡◌, ◌≤◌, ◌++◌, [], IsTrue, IfOk, IfErr, OnOk};
ghost use Rattle.wave_outside.specs.Counts.{Rose};
ghost use Rattle.peer_turns.specs.Calls.{refusals, gifts};
ghost use Rattle.federation_link.specs.Called.{TellsNext, TellsAll, RelaysNext, RelaysAll, Tells, Greets};
ghost use Rattle.federation_link.specs.Stops.{stop_refused};

use crate::asking::{ask_copy, ask_relay};
use crate::relaying::pass_on;
use crate::sending::{send_have, send_peer};
use crate::stop::Stop;
use peer_turns::{PeerTurns, TurnFault};
use session_core::Waitings;
use std::alloc::Global;
use std::sync::Wait;
use wave_base::Domain;
use wave_outside::Link;

// Says how far the copy at a place reaches. False where there is none.
fn tell_next<R: Wait, L: Link, T: PeerTurns>(
    rt: &R,
    alloc: Global,
    domain: &Domain,
    place: u64,
    link: &mut L,
    turns: &mut T,
) -> Result<bool, Stop>
    ensures next { IfOk result (TellsNext L.Link T.PeerTurns domain.now place link.old link.new turns.old turns.new) }
    ensures spent { IsTrue T.tells → refusals (T.calls turns.new) ≡ refusals (T.calls turns.old) ++ stop_refused result }
    ensures gifts { IsTrue T.tells → gifts (T.calls turns.new) ≡ gifts (T.calls turns.old) }
    ensures failed { IfErr result (λ e. e ≡ Stop.Link → Rose (L.faults link.old) (L.faults link.new)) }
    ensures later { L.faults link.old ≤ L.faults link.new }
    ensures closed { L.closed link.new ≡ L.closed link.old }
{
    match ask_copy(rt, alloc, domain, place, turns) {
        Ok(Some(copy)) => match send_have(alloc, link, copy) {
            Ok(()) => Ok(true),
            Err(stop) => Err(stop),
        },
        Ok(None) => Ok(false),
        Err(fault) => Err(Stop::Turn(fault)),
    }
}

// Says how far each copy of a wavelet of this domain reaches.
fn tell_all<R: Wait, L: Link, T: PeerTurns>(
    rt: &R,
    alloc: Global,
    domain: &Domain,
    link: &mut L,
    turns: &mut T,
) -> Result<(), Stop>
    ensures told { OnOk result (TellsAll L.Link T.PeerTurns domain.now link.old link.new turns.old turns.new) }
    ensures spent { IsTrue T.tells → refusals (T.calls turns.new) ≡ refusals (T.calls turns.old) ++ stop_refused result }
    ensures gifts { IsTrue T.tells → gifts (T.calls turns.new) ≡ gifts (T.calls turns.old) }
    ensures failed { IfErr result (λ e. e ≡ Stop.Link → Rose (L.faults link.old) (L.faults link.new)) }
    ensures later { L.faults link.old ≤ L.faults link.new }
    ensures closed { L.closed link.new ≡ L.closed link.old }
{
    for place in 0..u64::MAX {
        match tell_next(rt, alloc, domain, place, link, turns) {
            Ok(true) => {}
            Ok(false) => return Ok(()),
            Err(stop) => return Err(stop),
        }
    }
    Err(Stop::Turn(TurnFault::Memory))
}

// Sends the submission at a place. False where there is none.
fn relay_next<R: Wait, L: Link, T: PeerTurns>(
    rt: &R,
    alloc: Global,
    domain: &Domain,
    place: u64,
    link: &mut L,
    unanswered: &mut Waitings,
    turns: &mut T,
) -> Result<bool, Stop>
    ensures next { IfOk result
        (RelaysNext L.Link T.PeerTurns domain.now place unanswered.old unanswered.new link.old link.new turns.old turns.new) }
    ensures spent { IsTrue T.tells → refusals (T.calls turns.new) ≡ refusals (T.calls turns.old) ++ stop_refused result }
    ensures gifts { IsTrue T.tells → gifts (T.calls turns.new) ≡ gifts (T.calls turns.old) }
    ensures failed { IfErr result (λ e. e ≡ Stop.Link → Rose (L.faults link.old) (L.faults link.new)) }
    ensures later { L.faults link.old ≤ L.faults link.new }
    ensures closed { L.closed link.new ≡ L.closed link.old }
{
    match ask_relay(rt, alloc, domain, place, turns) {
        Ok(Some(relay)) => match pass_on(alloc, link, unanswered, relay) {
            Ok(()) => Ok(true),
            Err(stop) => Err(stop),
        },
        Ok(None) => Ok(false),
        Err(fault) => Err(Stop::Turn(fault)),
    }
}

// Sends each submission that waits for an answer of this domain.
fn relay_all<R: Wait, L: Link, T: PeerTurns>(
    rt: &R,
    alloc: Global,
    domain: &Domain,
    link: &mut L,
    unanswered: &mut Waitings,
    turns: &mut T,
) -> Result<(), Stop>
    ensures asked { OnOk result
        (RelaysAll L.Link T.PeerTurns domain.now unanswered.old unanswered.new link.old link.new turns.old turns.new) }
    ensures spent { IsTrue T.tells → refusals (T.calls turns.new) ≡ refusals (T.calls turns.old) ++ stop_refused result }
    ensures gifts { IsTrue T.tells → gifts (T.calls turns.new) ≡ gifts (T.calls turns.old) }
    ensures failed { IfErr result (λ e. e ≡ Stop.Link → Rose (L.faults link.old) (L.faults link.new)) }
    ensures later { L.faults link.old ≤ L.faults link.new }
    ensures closed { L.closed link.new ≡ L.closed link.old }
{
    for place in 0..u64::MAX {
        match relay_next(rt, alloc, domain, place, link, unanswered, turns) {
            Ok(true) => {}
            Ok(false) => return Ok(()),
            Err(stop) => return Err(stop),
        }
    }
    Err(Stop::Turn(TurnFault::Memory))
}

// Says how far the copies reach, and sends what waits.
fn tell_and_relay<R: Wait, L: Link, T: PeerTurns>(
    rt: &R,
    alloc: Global,
    domain: &Domain,
    link: &mut L,
    unanswered: &mut Waitings,
    turns: &mut T,
) -> Result<(), Stop>
    requires none { unanswered.old ≡ [] }
    ensures told { OnOk result (Tells L.Link T.PeerTurns domain.now unanswered.new link.old link.new turns.old turns.new) }
    ensures spent { IsTrue T.tells → refusals (T.calls turns.new) ≡ refusals (T.calls turns.old) ++ stop_refused result }
    ensures gifts { IsTrue T.tells → gifts (T.calls turns.new) ≡ gifts (T.calls turns.old) }
    ensures failed { IfErr result (λ e. e ≡ Stop.Link → Rose (L.faults link.old) (L.faults link.new)) }
    ensures later { L.faults link.old ≤ L.faults link.new }
    ensures closed { L.closed link.new ≡ L.closed link.old }
{
    match tell_all(rt, alloc, domain, link, turns) {
        Ok(()) => relay_all(rt, alloc, domain, link, unanswered, turns),
        Err(stop) => Err(stop),
    }
}

/// Begins a new link with another domain: says for which domain this server speaks and how far the copies reach, and sends each
/// submission that waits.
pub(crate) fn greet<R: Wait, L: Link, T: PeerTurns>(
    rt: &R,
    alloc: Global,
    own: &Domain,
    domain: &Domain,
    link: &mut L,
    unanswered: &mut Waitings,
    turns: &mut T,
) -> Result<(), Stop>
    requires none { unanswered.old ≡ [] }
    ensures greeted { OnOk result (Greets L.Link T.PeerTurns domain.now own.now unanswered.new link.old link.new turns.old turns.new) }
    ensures spent { IsTrue T.tells → refusals (T.calls turns.new) ≡ refusals (T.calls turns.old) ++ stop_refused result }
    ensures gifts { IsTrue T.tells → gifts (T.calls turns.new) ≡ gifts (T.calls turns.old) }
    ensures failed { IfErr result (λ e. e ≡ Stop.Link → Rose (L.faults link.old) (L.faults link.new)) }
    ensures later { L.faults link.old ≤ L.faults link.new }
    ensures closed { L.closed link.new ≡ L.closed link.old }
{
    match send_peer(alloc, link, own) {
        Ok(()) => tell_and_relay(rt, alloc, domain, link, unanswered, turns),
        Err(stop) => Err(stop),
    }
}
