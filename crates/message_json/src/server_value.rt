// Messages to a client, written.
ghost use Rattle.std.specs.Prelude.{◌≡◌, ◌≤◌, codes, IfOk, OnOk};
ghost use Rattle.doc_items.specs.Limits.{max_count};
ghost use Rattle.wavelet_op.specs.Acts.{AreNormal};
ghost use Rattle.serde_json.specs.Data.{put as put_data};
ghost use Rattle.serde_json.specs.View.{view, members_view};
ghost use Rattle.snapshot_json.specs.Back.{AreMembersBack, AreDocumentsBack};
ghost use Rattle.snapshot_json.specs.Write.{members_data, documents_data};
ghost use Rattle.message_json.specs.Back.{IsReadBack, InRange};
ghost use Rattle.message_json.specs.Read.{update_from};
ghost use Rattle.message_json.specs.Write.{ack_data, opened_data, snapshot_data, unopened_data, verdict_kind, verdict_data, queued_data, update_data, closed_data, bad_data};

use crate::Message;
use crate::serial::{kind_and_wavelet, put_id, put_ops, serial_members};
use doc_items::Memory;
use json_fields::{put_count, put_text, string_value};
use serde_json::{Map, Value, json, put};
use snapshot_json::{documents_value, members_value};
use std::alloc::Global;
use wave_base::{DeltaId, HashedVersion, WaveletName};
use wavelet_json::{
    BadReason, ClosedReason, UnopenedReason, put_unopened, put_verdict, put_version,
};
use wavelet_op::{AppliedDelta, Ops, Verdict};
use wavelet_state::{Snapshot, WaveletState};

/// An `opened`. The error is want of memory, here and in the others.
#[tactic(auto, using(crate::proofs::Back::opened_back))]
pub fn opened_value(alloc: Global, name: &WaveletName, version: u64) -> Result<Value, Memory>
    ensures value { IfOk result (λ v. view v ≡ opened_data name.now version) }
    ensures back { IfOk result (λ _. InRange (Message.Opened name.now version) → IsReadBack (Message.Opened name.now version)) }
{
    let mut members = kind_and_wavelet(alloc, "opened", name)?;
    put_count(alloc, &mut members, "version", version)?;
    Ok(Value::Object(members))
}

// Puts the documents of a state.
fn put_documents(
    alloc: Global,
    members: &mut Map<String, Value>,
    state: &WaveletState,
) -> Result<(), Memory>
    ensures back { OnOk result (AreDocumentsBack state.now) }
    ensures value { OnOk result
        (members_view members.new.entries ≡ put_data (codes "documents") (documents_data state.now) (members_view members.old.entries)) }
{
    let documents = documents_value(alloc, state)?;
    put(members, alloc, "documents", documents)
}

// Puts the participants of a state.
fn put_participants(
    alloc: Global,
    members: &mut Map<String, Value>,
    state: &WaveletState,
) -> Result<(), Memory>
    ensures back { OnOk result (AreMembersBack state.now) }
    ensures value { OnOk result
        (members_view members.new.entries ≡ put_data (codes "participants") (members_data state.now) (members_view members.old.entries)) }
{
    let participants = members_value(alloc, state)?;
    put(members, alloc, "participants", participants)
}

/// A `snapshot`.
pub fn snapshot_value(alloc: Global, snapshot: &Snapshot) -> Result<Value, Memory>
    ensures value { IfOk result (λ v. view v ≡ snapshot_data snapshot.now) }
    ensures back { IfOk result (λ _. IsReadBack (Message.Snapshot snapshot.now)) }
{
    let from = snapshot.at();
    let inserted = snapshot.inserted();
    let mut members = kind_and_wavelet(alloc, "snapshot", snapshot.name())?;
    put_version(alloc, &mut members, &from)?;
    put_count(alloc, &mut members, "inserted", inserted)?;
    put_documents(alloc, &mut members, snapshot.state())?;
    put_participants(alloc, &mut members, snapshot.state())?;
    Ok(Value::Object(members))
}

/// An `unopened`.
#[tactic(auto, using(crate::proofs::Back::unopened_back))]
pub fn unopened_value(
    alloc: Global,
    name: &WaveletName,
    reason: &UnopenedReason,
) -> Result<Value, Memory>
    ensures back { IfOk result (λ _. IsReadBack (Message.Unopened name.now reason.now)) }
    ensures value { IfOk result (λ v. view v ≡ unopened_data name.now reason.now) }
{
    let mut members = kind_and_wavelet(alloc, "unopened", name)?;
    put_unopened(alloc, &mut members, reason)?;
    Ok(Value::Object(members))
}

fn verdict_kind(verdict: &Verdict) -> &'static str
    ensures { result.now ≡ verdict_kind verdict.now }
{
    match verdict {
        Verdict::Ack { .. } => "ack",
        Verdict::NotParticipant => "refused",
        Verdict::ReadOnly => "refused",
        Verdict::UnknownVersion { .. } => "refused",
        Verdict::WrongHash { .. } => "refused",
        Verdict::Invalid { .. } => "refused",
        Verdict::Full { .. } => "refused",
    }
}

/// An `ack`.
#[tactic(auto, using(crate::proofs::Back::ack_back))]
pub fn ack_value(
    alloc: Global,
    name: &WaveletName,
    serial: (u64, u64),
    place: u64,
    to: HashedVersion,
) -> Result<Value, Memory>
    ensures value { IfOk result (λ v. view v ≡ ack_data name.now serial.0 serial.1 place to) }
    ensures back { IfOk result
        (λ _. InRange (Message.Ack name.now serial.0 serial.1 place to) → IsReadBack (Message.Ack name.now serial.0 serial.1 place to)) }
{
    let mut members = serial_members(alloc, "ack", name, serial.0, serial.1)?;
    let verdict = Verdict::Ack { at: place, to };
    put_verdict(alloc, &mut members, &verdict)?;
    Ok(Value::Object(members))
}

/// A `refused`; a verdict that is an acknowledgement is written as `ack`.
#[tactic(auto, using(crate::proofs::Back::refused_back))]
pub fn verdict_value(
    alloc: Global,
    name: &WaveletName,
    client: u64,
    number: u64,
    verdict: &Verdict,
) -> Result<Value, Memory>
    ensures value { IfOk result (λ v. view v ≡ verdict_data name.now client number verdict.now) }
    ensures back { IfOk result
        (λ _. InRange (Message.Refused name.now client number verdict.now)
        → IsReadBack (Message.Refused name.now client number verdict.now)) }
{
    let mut members = serial_members(alloc, verdict_kind(verdict), name, client, number)?;
    put_verdict(alloc, &mut members, verdict)?;
    Ok(Value::Object(members))
}

/// A `queued`.
#[tactic(auto, using(crate::proofs::Back::queued_back))]
pub fn queued_value(
    alloc: Global,
    name: &WaveletName,
    client: u64,
    number: u64,
) -> Result<Value, Memory>
    ensures value { IfOk result (λ v. view v ≡ queued_data name.now client number) }
    ensures back { IfOk result (λ _. InRange (Message.Queued name.now client number) → IsReadBack (Message.Queued name.now client number)) }
{
    let members = serial_members(alloc, "queued", name, client, number)?;
    Ok(Value::Object(members))
}

// An `update` of these parts.
#[tactic(auto, using(crate::proofs::Back::update_back))]
fn update_of(
    alloc: Global,
    name: &WaveletName,
    id: &DeltaId,
    from: &HashedVersion,
    time: u64,
    ops: &Ops,
) -> Result<Value, Memory>
    requires time { time ≤ max_count }
    requires normal { AreNormal ops.now }
    ensures value { IfOk result (λ v. view v ≡ update_data name.now (record { id = id.now; from = from.now; time = time; ops = ops.now })) }
    ensures back { IfOk result (λ _. IsReadBack (update_from name.now id.now from.now time ops.now)) }
{
    let mut members = kind_and_wavelet(alloc, "update", name)?;
    put_version(alloc, &mut members, from)?;
    put_count(alloc, &mut members, "time", time)?;
    put_ops(alloc, &mut members, ops)?;
    put_id(alloc, &mut members, id)?;
    Ok(Value::Object(members))
}

/// An `update`.
pub fn update_value(
    alloc: Global,
    name: &WaveletName,
    delta: &AppliedDelta,
) -> Result<Value, Memory>
    ensures value { IfOk result (λ v. view v ≡ update_data name.now delta.now) }
    ensures back { IfOk result (λ _. IsReadBack (Message.Update name.now delta.now)) }
{
    update_of(alloc, name, &delta.id, &delta.from, delta.time, &delta.ops)
}

/// A `closed`.
#[tactic(auto, using(crate::proofs::Back::closed_back))]
pub fn closed_value(
    alloc: Global,
    name: &WaveletName,
    reason: ClosedReason,
) -> Result<Value, Memory>
    ensures value { IfOk result (λ v. view v ≡ closed_data name.now reason) }
    ensures back { IfOk result (λ _. IsReadBack (Message.Closed name.now reason)) }
{
    let mut members = kind_and_wavelet(alloc, "closed", name)?;
    put_text(alloc, &mut members, "reason", reason.name())?;
    Ok(Value::Object(members))
}

/// A `bad`.
#[tactic(auto, using(crate::proofs::Back::bad_back))]
pub fn bad_value(alloc: Global, reason: BadReason) -> Result<Value, Memory>
    ensures value { IfOk result (λ v. view v ≡ bad_data reason) }
    ensures back { IfOk result (λ _. IsReadBack (Message.Bad reason)) }
{
    let reason = string_value(alloc, reason.name())?;
    json!(in alloc; {"reason": reason, "type": "bad"})
}
