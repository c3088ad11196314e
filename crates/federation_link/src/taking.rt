// Messages that come.
ghost use Rattle.std.specs.Prelude.{◌≡◌, ◌++◌, IsTrue, IfErr, OnOk, OnErr};
ghost use Rattle.peer_turns.specs.Calls.{refused, refusals};
ghost use Rattle.federation_link.specs.Takes.{HasGiven, GivesOf, KeepsOf, Gives, Keeps, heard, settled, settled_by, without, same_as};

use message_json::Message;
use peer_turns::{PeerTurns, TurnFault};
use session_core::{Waiting, Waitings};
use std::alloc::Global;
use std::sync::Wait;
use wave_base::{DeltaId, WaveletName};
use wave_messages::{MAX_PEER, MessageFault, read};
use wavelet_op::{AppliedDelta, Verdict};

// Whether this is the submission of that name and id.
fn is_same(waiting: &Waiting, name: &WaveletName, id: &DeltaId) -> bool
    ensures { result ≡ same_as name.now id.now waiting.now }
{
    waiting.name == *name && waiting.id == *id
}

// The submission of that name and id waits no more.
fn forget(unanswered: &mut Waitings, name: &WaveletName, id: &DeltaId)
    ensures { unanswered.new ≡ without name.now id.now unanswered.old }
{
    let mut place = 0usize;
    while place < unanswered.len() {
        if is_same(&unanswered.as_slice()[place], name, id) {
            unanswered.remove(place);
        } else {
            place += 1;
        }
    }
}

fn give_delta<R: Wait, T: PeerTurns>(
    rt: &R,
    alloc: Global,
    turns: &mut T,
    name: &WaveletName,
    delta: &AppliedDelta,
) -> Result<(), TurnFault>
    ensures given { OnOk result (HasGiven T.tells (GivesOf (Message.Applied name.now delta.now)) (T.calls turns.old) (T.calls turns.new)) }
    ensures kept { IfErr result
        (λ e. HasGiven T.tells (KeepsOf e (Message.Applied name.now delta.now)) (T.calls turns.old) (T.calls turns.new)) }
    ensures spent { IsTrue T.tells → refusals (T.calls turns.new) ≡ refusals (T.calls turns.old) ++ refused result }
{
    match turns.take_applied(rt, alloc, name, delta) {
        Ok(_) => Ok(()),
        Err(fault) => Err(fault),
    }
}

fn give_answer<R: Wait, T: PeerTurns>(
    rt: &R,
    alloc: Global,
    turns: &mut T,
    name: &WaveletName,
    id: &DeltaId,
    verdict: Verdict,
) -> Result<(), TurnFault>
    ensures given { OnOk result
        (HasGiven T.tells (GivesOf (Message.Relayed name.now id.now verdict)) (T.calls turns.old) (T.calls turns.new)) }
    ensures kept { IfErr result
        (λ e. HasGiven T.tells (KeepsOf e (Message.Relayed name.now id.now verdict)) (T.calls turns.old) (T.calls turns.new)) }
    ensures spent { IsTrue T.tells → refusals (T.calls turns.new) ≡ refusals (T.calls turns.old) ++ refused result }
{
    match turns.take_answer(rt, alloc, name, id, verdict) {
        Ok(_) => Ok(()),
        Err(fault) => Err(fault),
    }
}

fn give_drop<R: Wait, T: PeerTurns>(
    rt: &R,
    alloc: Global,
    turns: &mut T,
    name: &WaveletName,
) -> Result<(), TurnFault>
    ensures given { OnOk result (HasGiven T.tells (GivesOf (Message.Dropped name.now)) (T.calls turns.old) (T.calls turns.new)) }
    ensures kept { IfErr result (λ e. HasGiven T.tells (KeepsOf e (Message.Dropped name.now)) (T.calls turns.old) (T.calls turns.new)) }
    ensures spent { IsTrue T.tells → refusals (T.calls turns.new) ≡ refusals (T.calls turns.old) ++ refused result }
{
    match turns.take_dropped(rt, alloc, name) {
        Ok(()) => Ok(()),
        Err(fault) => Err(fault),
    }
}

// Gives the copies what a message says. One that isn't for them is passed over.
fn take<R: Wait, T: PeerTurns>(
    rt: &R,
    alloc: Global,
    turns: &mut T,
    unanswered: &mut Waitings,
    message: &Message,
) -> Result<(), TurnFault>
    ensures given { OnOk result (HasGiven T.tells (GivesOf message.now) (T.calls turns.old) (T.calls turns.new)) }
    ensures kept { IfErr result (λ e. HasGiven T.tells (KeepsOf e message.now) (T.calls turns.old) (T.calls turns.new)) }
    ensures settled { OnOk result (unanswered.new ≡ settled_by message.now unanswered.old) }
    ensures unsettled { OnErr result (unanswered.new ≡ unanswered.old) }
    ensures spent { IsTrue T.tells → refusals (T.calls turns.new) ≡ refusals (T.calls turns.old) ++ refused result }
{
    match message {
        Message::Applied { name, delta } => give_delta(rt, alloc, turns, name, delta),
        Message::Relayed { name, id, verdict } => {
            match give_answer(rt, alloc, turns, name, id, *verdict) {
                Ok(()) => {
                    forget(unanswered, name, id);
                    Ok(())
                }
                Err(fault) => Err(fault),
            }
        }
        Message::Dropped { name } => give_drop(rt, alloc, turns, name),
        Message::Hello { .. } => Ok(()),
        Message::OpenWavelet { .. } => Ok(()),
        Message::Submit { .. } => Ok(()),
        Message::CloseWavelet { .. } => Ok(()),
        Message::Welcome { .. } => Ok(()),
        Message::Opened { .. } => Ok(()),
        Message::Snapshot(_) => Ok(()),
        Message::Unopened { .. } => Ok(()),
        Message::Ack { .. } => Ok(()),
        Message::Refused { .. } => Ok(()),
        Message::Queued { .. } => Ok(()),
        Message::Update { .. } => Ok(()),
        Message::Closed { .. } => Ok(()),
        Message::Bad(_) => Ok(()),
        Message::Peer { .. } => Ok(()),
        Message::Have { .. } => Ok(()),
        Message::Relay { .. } => Ok(()),
    }
}

/// Takes the bytes of a message. Those that are no message are passed over.
pub(crate) fn hear<R: Wait, T: PeerTurns>(
    rt: &R,
    alloc: Global,
    turns: &mut T,
    unanswered: &mut Waitings,
    bytes: &[u8],
) -> Result<(), TurnFault>
    ensures given { OnOk result (HasGiven T.tells (Gives (heard bytes.now)) (T.calls turns.old) (T.calls turns.new)) }
    ensures kept { IfErr result (λ e. HasGiven T.tells (Keeps e (heard bytes.now)) (T.calls turns.old) (T.calls turns.new)) }
    ensures settled { OnOk result (unanswered.new ≡ settled (heard bytes.now) unanswered.old) }
    ensures unsettled { OnErr result (unanswered.new ≡ unanswered.old) }
    ensures spent { IsTrue T.tells → refusals (T.calls turns.new) ≡ refusals (T.calls turns.old) ++ refused result }
{
    match read(alloc, bytes, MAX_PEER) {
        Ok(message) => take(rt, alloc, turns, unanswered, &message),
        Err(MessageFault::BadMessage(_)) => Ok(()),
        Err(MessageFault::Memory) => Err(TurnFault::Memory),
    }
}
