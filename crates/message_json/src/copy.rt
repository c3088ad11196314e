// Copies of messages.
ghost use Rattle.std.specs.Prelude.{◌≡◌, IfOk};

use crate::Message;
use doc_items::{Memory, Text};
use std::alloc::Global;
use wave_base::{DeltaId, Domain, HashedVersion, WaveletName};
use wavelet_json::{ClosedReason, UnopenedReason};
use wavelet_op::{AppliedDelta, Ops, Submission, Verdict};
use wavelet_state::Snapshot;

fn copy_submit(
    alloc: Global,
    name: &WaveletName,
    serial: (u64, u64),
    from: HashedVersion,
    ops: &Ops,
) -> Result<Message, Memory>
    ensures { IfOk result (λ m. m ≡ Message.Submit name.now serial.0 serial.1 from ops.now) }
{
    Ok(Message::Submit {
        name: name.copy(alloc)?,
        client: serial.0,
        number: serial.1,
        at: from,
        ops: ops.copy(alloc)?,
    })
}

fn copy_update(alloc: Global, name: &WaveletName, delta: &AppliedDelta) -> Result<Message, Memory>
    ensures { IfOk result (λ m. m ≡ Message.Update name.now delta.now) }
{
    let name = name.copy(alloc)?;
    let delta = delta.copy(alloc)?;
    Ok(Message::Update { name, delta })
}

fn copy_applied(alloc: Global, name: &WaveletName, delta: &AppliedDelta) -> Result<Message, Memory>
    ensures { IfOk result (λ m. m ≡ Message.Applied name.now delta.now) }
{
    let name = name.copy(alloc)?;
    let delta = delta.copy(alloc)?;
    Ok(Message::Applied { name, delta })
}

fn copy_relay(alloc: Global, name: &WaveletName, submission: &Submission) -> Result<Message, Memory>
    ensures { IfOk result (λ m. m ≡ Message.Relay name.now submission.now) }
{
    let name = name.copy(alloc)?;
    let submission = submission.copy(alloc)?;
    Ok(Message::Relay { name, submission })
}

fn copy_relayed(
    alloc: Global,
    name: &WaveletName,
    id: &DeltaId,
    verdict: Verdict,
) -> Result<Message, Memory>
    ensures { IfOk result (λ m. m ≡ Message.Relayed name.now id.now verdict) }
{
    let name = name.copy(alloc)?;
    let id = id.copy(alloc)?;
    Ok(Message::Relayed { name, id, verdict })
}

fn copy_hello(alloc: Global, user: &Text) -> Result<Message, Memory>
    ensures { IfOk result (λ m. m ≡ Message.Hello user.now) }
{
    let user = user.copy(alloc)?;
    Ok(Message::Hello { user })
}

fn copy_open(
    alloc: Global,
    name: &WaveletName,
    at: Option<HashedVersion>,
) -> Result<Message, Memory>
    ensures { IfOk result (λ m. m ≡ Message.OpenWavelet name.now at) }
{
    let name = name.copy(alloc)?;
    Ok(Message::OpenWavelet { name, at })
}

fn copy_close(alloc: Global, name: &WaveletName) -> Result<Message, Memory>
    ensures { IfOk result (λ m. m ≡ Message.CloseWavelet name.now) }
{
    let name = name.copy(alloc)?;
    Ok(Message::CloseWavelet { name })
}

fn copy_welcome(alloc: Global, user: &Text) -> Result<Message, Memory>
    ensures { IfOk result (λ m. m ≡ Message.Welcome user.now) }
{
    let user = user.copy(alloc)?;
    Ok(Message::Welcome { user })
}

fn copy_opened(alloc: Global, name: &WaveletName, version: u64) -> Result<Message, Memory>
    ensures { IfOk result (λ m. m ≡ Message.Opened name.now version) }
{
    let name = name.copy(alloc)?;
    Ok(Message::Opened { name, version })
}

fn copy_snapshot(alloc: Global, snapshot: &Snapshot) -> Result<Message, Memory>
    ensures { IfOk result (λ m. m ≡ Message.Snapshot snapshot.now) }
{
    let snapshot = snapshot.copy(alloc)?;
    Ok(Message::Snapshot(snapshot))
}

fn copy_unopened(
    alloc: Global,
    name: &WaveletName,
    reason: UnopenedReason,
) -> Result<Message, Memory>
    ensures { IfOk result (λ m. m ≡ Message.Unopened name.now reason) }
{
    let name = name.copy(alloc)?;
    Ok(Message::Unopened { name, reason })
}

fn copy_ack(
    alloc: Global,
    name: &WaveletName,
    serial: (u64, u64),
    at: u64,
    to: HashedVersion,
) -> Result<Message, Memory>
    ensures { IfOk result (λ m. m ≡ Message.Ack name.now serial.0 serial.1 at to) }
{
    let name = name.copy(alloc)?;
    Ok(Message::Ack {
        name,
        client: serial.0,
        number: serial.1,
        at,
        to,
    })
}

fn copy_refused(
    alloc: Global,
    name: &WaveletName,
    serial: (u64, u64),
    verdict: Verdict,
) -> Result<Message, Memory>
    ensures { IfOk result (λ m. m ≡ Message.Refused name.now serial.0 serial.1 verdict) }
{
    let name = name.copy(alloc)?;
    Ok(Message::Refused {
        name,
        client: serial.0,
        number: serial.1,
        verdict,
    })
}

fn copy_queued(alloc: Global, name: &WaveletName, serial: (u64, u64)) -> Result<Message, Memory>
    ensures { IfOk result (λ m. m ≡ Message.Queued name.now serial.0 serial.1) }
{
    let name = name.copy(alloc)?;
    Ok(Message::Queued {
        name,
        client: serial.0,
        number: serial.1,
    })
}

fn copy_closed(alloc: Global, name: &WaveletName, reason: ClosedReason) -> Result<Message, Memory>
    ensures { IfOk result (λ m. m ≡ Message.Closed name.now reason) }
{
    let name = name.copy(alloc)?;
    Ok(Message::Closed { name, reason })
}

fn copy_peer(alloc: Global, domain: &Domain) -> Result<Message, Memory>
    ensures { IfOk result (λ m. m ≡ Message.Peer domain.now) }
{
    let domain = domain.copy(alloc)?;
    Ok(Message::Peer { domain })
}

fn copy_have(alloc: Global, name: &WaveletName, at: HashedVersion) -> Result<Message, Memory>
    ensures { IfOk result (λ m. m ≡ Message.Have name.now at) }
{
    let name = name.copy(alloc)?;
    Ok(Message::Have { name, at })
}

fn copy_dropped(alloc: Global, name: &WaveletName) -> Result<Message, Memory>
    ensures { IfOk result (λ m. m ≡ Message.Dropped name.now) }
{
    let name = name.copy(alloc)?;
    Ok(Message::Dropped { name })
}

impl Message {
    /// An equal message.
    pub fn copy(&self, alloc: Global) -> Result<Message, Memory>
        ensures { IfOk result (λ m. m ≡ self.now) }
    {
        match self {
            Message::Hello { user } => copy_hello(alloc, user),
            Message::OpenWavelet { name, at } => copy_open(alloc, name, *at),
            Message::Submit {
                name,
                client,
                number,
                at,
                ops,
            } => copy_submit(alloc, name, (*client, *number), *at, ops),
            Message::CloseWavelet { name } => copy_close(alloc, name),
            Message::Welcome { user } => copy_welcome(alloc, user),
            Message::Opened { name, version } => copy_opened(alloc, name, *version),
            Message::Snapshot(snapshot) => copy_snapshot(alloc, snapshot),
            Message::Unopened { name, reason } => copy_unopened(alloc, name, *reason),
            Message::Ack {
                name,
                client,
                number,
                at,
                to,
            } => copy_ack(alloc, name, (*client, *number), *at, *to),
            Message::Refused {
                name,
                client,
                number,
                verdict,
            } => copy_refused(alloc, name, (*client, *number), *verdict),
            Message::Queued {
                name,
                client,
                number,
            } => copy_queued(alloc, name, (*client, *number)),
            Message::Update { name, delta } => copy_update(alloc, name, delta),
            Message::Closed { name, reason } => copy_closed(alloc, name, *reason),
            Message::Bad(reason) => Ok(Message::Bad(*reason)),
            Message::Peer { domain } => copy_peer(alloc, domain),
            Message::Have { name, at } => copy_have(alloc, name, *at),
            Message::Relay { name, submission } => copy_relay(alloc, name, submission),
            Message::Applied { name, delta } => copy_applied(alloc, name, delta),
            Message::Relayed { name, id, verdict } => copy_relayed(alloc, name, id, *verdict),
            Message::Dropped { name } => copy_dropped(alloc, name),
        }
    }
}
