// One step on a link that is open.
ghost use Rattle.std.specs.Prelude.{◌≡◌, ◌≤◌, ◌++◌, false, IsTrue, IfOk, IfErr};
ghost use mathlib.Core.List.{IsPrefix};
ghost use Rattle.peer_turns.specs.Calls.{refused, refusals};
ghost use Rattle.federation_link.specs.Called.{Sends, StepsOn};
ghost use Rattle.federation_link.specs.Steps.{is_cut, IsHolding};
ghost use Rattle.federation_link.specs.Takes.{HasGiven, Gives, Keeps, heard, settled};

use crate::ear::Ear;
use crate::relaying::send_fresh;
use crate::stepped::Stepped;
use crate::stop::Stop;
use crate::taking::hear;
use peer_turns::{PeerTurns, TurnFault};
use session_core::Waitings;
use std::alloc::Global;
use std::mem::replace;
use std::sync::Wait;
use wave_base::Domain;
use wave_outside::{Link, LinkFault, Polled};

// Takes a message, which is kept where there is no memory or no turn for it.
fn take<R: Wait, T: PeerTurns>(
    rt: &R,
    alloc: Global,
    ear: &mut Ear,
    unanswered: &mut Waitings,
    turns: &mut T,
    bytes: Vec<u8>,
) -> Result<Stepped, TurnFault>
    requires open { ear.old ≡ Ear.Open }
    ensures worked { IfOk result (λ s. s ≡ Stepped.Worked) }
    ensures given { IfOk result (λ _. HasGiven T.tells (Gives (heard bytes.items)) (T.calls turns.old) (T.calls turns.new)) }
    ensures settled { IfOk result (λ _. unanswered.new ≡ settled (heard bytes.items) unanswered.old) }
    ensures free { IfOk result (λ _. ear.new ≡ Ear.Open) }
    ensures kept { IfErr result (λ e. HasGiven T.tells (Keeps e (heard bytes.items)) (T.calls turns.old) (T.calls turns.new)) }
    ensures unsettled { IfErr result (λ _. unanswered.new ≡ unanswered.old) }
    ensures holding { IfErr result (λ _. IsHolding bytes.items ear.new) }
    ensures spent { IsTrue T.tells → refusals (T.calls turns.new) ≡ refusals (T.calls turns.old) ++ refused result }
{
    match hear(rt, alloc, turns, unanswered, bytes.as_slice()) {
        Ok(()) => Ok(Stepped::Worked),
        Err(fault) => {
            *ear = Ear::Holding(bytes);
            Err(fault)
        }
    }
}

// Sends the submissions that weren't sent yet, after nothing came.
fn relay<R: Wait, L: Link, T: PeerTurns>(
    rt: &R,
    alloc: Global,
    domain: &Domain,
    link: &mut L,
    ear: &mut Ear,
    unanswered: &mut Waitings,
    turns: &mut T,
) -> Result<Stepped, TurnFault>
    requires open { ear.old ≡ Ear.Open }
    ensures sent { Sends L.Link T.PeerTurns domain.now link.old link.new ear.new unanswered.old unanswered.new turns.old turns.new result }
    ensures spent { IsTrue T.tells → refusals (T.calls turns.new) ≡ refusals (T.calls turns.old) ++ refused result }
    ensures later { L.faults link.old ≤ L.faults link.new }
    ensures same { (L.closed link.new ≡ L.closed link.old) × (L.looks link.new ≡ L.looks link.old) }
{
    match send_fresh(rt, alloc, domain, link, unanswered, turns) {
        Ok(true) => Ok(Stepped::Worked),
        Ok(false) => Ok(Stepped::Idle),
        Err(Stop::Link) => {
            *ear = Ear::Cut;
            Ok(Stepped::Cut)
        }
        Err(Stop::Turn(fault)) => Err(fault),
    }
}

// Looks at the link: a message that came is taken, and where none came what waits is sent.
fn look<R: Wait, L: Link, T: PeerTurns>(
    rt: &R,
    alloc: Global,
    domain: &Domain,
    link: &mut L,
    ear: &mut Ear,
    unanswered: &mut Waitings,
    turns: &mut T,
) -> Result<Stepped, TurnFault>
    requires open { ear.old ≡ Ear.Open }
    ensures stepped { StepsOn L.Link T.PeerTurns domain.now link.old link.new ear.old ear.new unanswered.old unanswered.new turns.old
        turns.new result }
    ensures spent { IsTrue T.tells → refusals (T.calls turns.new) ≡ refusals (T.calls turns.old) ++ refused result }
    ensures later { L.faults link.old ≤ L.faults link.new }
{
    match link.poll(alloc) {
        Ok(Polled::Message(bytes)) => take(rt, alloc, ear, unanswered, turns, bytes),
        Ok(Polled::Nothing) => relay(rt, alloc, domain, link, ear, unanswered, turns),
        Ok(Polled::Closed) => {
            *ear = Ear::Cut;
            Ok(Stepped::Cut)
        }
        Err(LinkFault::Failed) => {
            *ear = Ear::Cut;
            Ok(Stepped::Cut)
        }
        Err(LinkFault::Memory) => Err(TurnFault::Memory),
    }
}

/// One step on a link that is open: the message that is to be taken is taken, else the link is looked at.
#[tactic(auto, using(crate::proofs::Growing::step_grows))]
pub(crate) fn step<R: Wait, L: Link, T: PeerTurns>(
    rt: &R,
    alloc: Global,
    domain: &Domain,
    link: &mut L,
    ear: &mut Ear,
    unanswered: &mut Waitings,
    turns: &mut T,
) -> Result<Stepped, TurnFault>
    requires open { is_cut ear.old ≡ false }
    ensures stepped { StepsOn L.Link T.PeerTurns domain.now link.old link.new ear.old ear.new unanswered.old unanswered.new turns.old
        turns.new result }
    ensures grows { IsTrue L.tells → IsPrefix (L.events link.old) (L.events link.new) }
    ensures spent { IsTrue T.tells → refusals (T.calls turns.new) ≡ refusals (T.calls turns.old) ++ refused result }
    ensures later { L.faults link.old ≤ L.faults link.new }
{
    match replace(ear, Ear::Open) {
        Ear::Holding(bytes) => take(rt, alloc, ear, unanswered, turns, bytes),
        Ear::Open => look(rt, alloc, domain, link, ear, unanswered, turns),
        Ear::Cut => unreachable!(),
    }
}
