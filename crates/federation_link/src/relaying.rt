// Submissions that are passed on to their host.
ghost use Rattle.std.specs.Prelude.{◌≡◌, ◌≤◌, ◌<◌, ◌-◌, ◌++◌, ◌∷◌, [], length, take, IsTrue, IfOk, IfErr, OnOk, OnErr, List};
ghost use Rattle.wave_outside.specs.Counts.{Rose};
ghost use Rattle.peer_turns.specs.Calls.{refusals, gifts};
ghost use Rattle.peer_turns.specs.declared.item.Relay.{Relay};
ghost use Rattle.peer_turns.specs.declared.fault.TurnFault.TheVariants.{Memory};
ghost use Rattle.federation_link.specs.Asking.{HasSentSome};
ghost use Rattle.federation_link.specs.Called.{SendsNext, SendsFresh};
ghost use Rattle.federation_link.specs.Sends.{noted, has, relay};
ghost use Rattle.federation_link.specs.Stops.{IsLinkStop, stop_refused};

use crate::asking::ask_relay;
use crate::sending::send_relay;
use crate::stop::Stop;
use peer_turns::{PeerTurns, Relay, TurnFault};
use session_core::{Waiting, Waitings};
use std::alloc::Global;
use std::sync::Wait;
use wave_base::Domain;
use wave_outside::Link;

// Whether a submission was sent on this link and has no answer yet.
fn has(list: &[Waiting], relay: &Relay) -> bool
    ensures { result ≡ has list.now relay.now }
{
    for waiting in list {
        if waiting.name == relay.name && waiting.id == relay.submission.id {
            return true;
        }
    }
    false
}

// Notes a submission as one that was sent.
fn note(alloc: Global, unanswered: &mut Waitings, relay: &Relay) -> Result<(), Stop>
    ensures ok { OnOk result (unanswered.new ≡ unanswered.old ++ noted relay.now ∷ []) }
    ensures err { OnErr result (unanswered.new ≡ unanswered.old) }
    ensures cause { IfErr result IsLinkStop }
    ensures memory { IfErr result (λ e. e ≡ Stop.Turn Memory) }
{
    let name = relay.name.copy(alloc)?;
    let id = relay.submission.id.copy(alloc)?;
    unanswered.push(Waiting { name, id })?;
    Ok(())
}

// The last one that was noted is forgotten.
fn forget_last(unanswered: &mut Waitings)
    requires { 0 < length unanswered.old }
    ensures { unanswered.new ≡ take (length unanswered.old - 1) unanswered.old }
{
    let last = unanswered.len() - 1;
    unanswered.remove(last);
}

/// Sends a submission, and notes it.
pub(crate) fn pass_on<L: Link>(
    alloc: Global,
    link: &mut L,
    unanswered: &mut Waitings,
    waiting: Relay,
) -> Result<(), Stop>
    ensures sent { IsTrue L.tells → OnOk result (L.events link.new ≡ L.events link.old ++ relay waiting ∷ []) }
    ensures unsent { IsTrue L.tells → OnErr result (L.events link.new ≡ L.events link.old) }
    ensures noted { OnOk result (unanswered.new ≡ unanswered.old ++ noted waiting ∷ []) }
    ensures unnoted { OnErr result (unanswered.new ≡ unanswered.old) }
    ensures cause { IfErr result IsLinkStop }
    ensures failed { IfErr result (λ e. e ≡ Stop.Link → Rose (L.faults link.old) (L.faults link.new)) }
    ensures later { L.faults link.old ≤ L.faults link.new }
    ensures same { (L.closed link.new ≡ L.closed link.old) × (L.looks link.new ≡ L.looks link.old) }
{
    note(alloc, unanswered, &waiting)?;
    match send_relay(alloc, link, waiting) {
        Ok(()) => Ok(()),
        Err(stop) => {
            forget_last(unanswered);
            Err(stop)
        }
    }
}

// Asks for the submission at a place, and sends it if it wasn't sent yet: true where it was sent now. None where there is none.
fn send_next<R: Wait, L: Link, T: PeerTurns>(
    rt: &R,
    alloc: Global,
    domain: &Domain,
    place: u64,
    link: &mut L,
    unanswered: &mut Waitings,
    turns: &mut T,
) -> Result<Option<bool>, Stop>
    ensures next { IfOk result
        (SendsNext L.Link T.PeerTurns domain.now place unanswered.old unanswered.new link.old link.new turns.old turns.new) }
    ensures unsent { OnErr result (HasSentSome L.tells unanswered.old unanswered.new (L.events link.old) (L.events link.new) []) }
    ensures spent { IsTrue T.tells → refusals (T.calls turns.new) ≡ refusals (T.calls turns.old) ++ stop_refused result }
    ensures gifts { IsTrue T.tells → gifts (T.calls turns.new) ≡ gifts (T.calls turns.old) }
    ensures failed { IfErr result (λ e. e ≡ Stop.Link → Rose (L.faults link.old) (L.faults link.new)) }
    ensures later { L.faults link.old ≤ L.faults link.new }
    ensures same { (L.closed link.new ≡ L.closed link.old) × (L.looks link.new ≡ L.looks link.old) }
{
    match ask_relay(rt, alloc, domain, place, turns) {
        Ok(Some(relay)) => {
            if has(unanswered.as_slice(), &relay) {
                return Ok(Some(false));
            }
            match pass_on(alloc, link, unanswered, relay) {
                Ok(()) => Ok(Some(true)),
                Err(stop) => Err(stop),
            }
        }
        Ok(None) => Ok(None),
        Err(fault) => Err(Stop::Turn(fault)),
    }
}

/// Asks for the submissions that wait for an answer of this domain, and sends those that weren't sent yet. True where one was sent.
pub(crate) fn send_fresh<R: Wait, L: Link, T: PeerTurns>(
    rt: &R,
    alloc: Global,
    domain: &Domain,
    link: &mut L,
    unanswered: &mut Waitings,
    turns: &mut T,
) -> Result<bool, Stop>
    ensures asked { IfOk result
        (SendsFresh L.Link T.PeerTurns domain.now unanswered.old unanswered.new link.old link.new turns.old turns.new) }
    ensures sent { OnErr result
        ((rs : List Relay) × HasSentSome L.tells unanswered.old unanswered.new (L.events link.old) (L.events link.new) rs) }
    ensures spent { IsTrue T.tells → refusals (T.calls turns.new) ≡ refusals (T.calls turns.old) ++ stop_refused result }
    ensures gifts { IsTrue T.tells → gifts (T.calls turns.new) ≡ gifts (T.calls turns.old) }
    ensures failed { IfErr result (λ e. e ≡ Stop.Link → Rose (L.faults link.old) (L.faults link.new)) }
    ensures later { L.faults link.old ≤ L.faults link.new }
    ensures same { (L.closed link.new ≡ L.closed link.old) × (L.looks link.new ≡ L.looks link.old) }
{
    let mut any = false;
    for place in 0..u64::MAX {
        match send_next(rt, alloc, domain, place, link, unanswered, turns) {
            Ok(Some(sent)) => any |= sent,
            Ok(None) => return Ok(any),
            Err(stop) => return Err(stop),
        }
    }
    Err(Stop::Turn(TurnFault::Memory))
}
