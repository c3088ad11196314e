// Messages between domains, written.
ghost use Rattle.std.specs.Prelude.{◌≡◌, ◌<◌, length, codes, IfOk, OnOk};
ghost use Rattle.op_codec.specs.Spelling.{limit};
ghost use Rattle.serde_json.specs.Data.{object, no_members, put as put_data};
ghost use Rattle.serde_json.specs.View.{view, members_view};
ghost use Rattle.wavelet_json.specs.Good.{IsGoodVerdict};
ghost use Rattle.wavelet_json.specs.Verdicts.{with_verdict};
ghost use Rattle.wavelet_codec.specs.Spelling.{delta_bytes};
ghost use Rattle.message_json.specs.Back.{IsReadBack, InRange};
ghost use Rattle.message_json.specs.Write.{peer_data, have_data, relay_data, applied_data, relayed_data};

use crate::Message;
use crate::serial::{kind_and_wavelet, put_id, put_ops};
use doc_items::Memory;
use json_fields::string_value;
use serde_json::{Map, Value, json, put};
use std::alloc::Global;
use wave_base::{DeltaId, Domain, HashedVersion, WaveletName};
use wavelet_json::{delta_value, put_verdict, put_version};
use wavelet_op::{AppliedDelta, Submission, Verdict};

/// A `peer`. The error is want of memory, here and in the others.
#[tactic(auto, using(crate::proofs::Back::peer_back))]
pub fn peer_value(alloc: Global, domain: &Domain) -> Result<Value, Memory>
    ensures back { IfOk result (λ _. IsReadBack (Message.Peer domain.now)) }
    ensures value { IfOk result (λ v. view v ≡ peer_data domain.now) }
{
    let domain = string_value(alloc, domain.text())?;
    json!(in alloc; {"domain": domain, "type": "peer"})
}

/// A `have`.
#[tactic(auto, using(crate::proofs::Back::have_back))]
pub fn have_value(alloc: Global, name: &WaveletName, from: &HashedVersion) -> Result<Value, Memory>
    ensures value { IfOk result (λ v. view v ≡ have_data name.now from.now) }
    ensures back { IfOk result (λ _. IsReadBack (Message.Have name.now from.now)) }
{
    let mut members = kind_and_wavelet(alloc, "have", name)?;
    put_version(alloc, &mut members, from)?;
    Ok(Value::Object(members))
}

/// A `relay`.
#[tactic(auto, using(crate::proofs::Back::relay_back))]
pub fn relay_value(
    alloc: Global,
    name: &WaveletName,
    submission: &Submission,
) -> Result<Value, Memory>
    ensures back { IfOk result (λ _. IsReadBack (Message.Relay name.now submission.now)) }
    ensures value { IfOk result (λ v. view v ≡ relay_data name.now submission.now.id submission.now.at submission.now.ops) }
{
    let mut members = kind_and_wavelet(alloc, "relay", name)?;
    put_version(alloc, &mut members, &submission.at)?;
    put_ops(alloc, &mut members, &submission.ops)?;
    put_id(alloc, &mut members, &submission.id)?;
    Ok(Value::Object(members))
}

/// An `applied`, whose delta has fewer than 4,294,967,296 bytes.
#[tactic(auto, using(crate::proofs::Back::applied_back))]
pub fn applied_value(
    alloc: Global,
    name: &WaveletName,
    delta: &AppliedDelta,
) -> Result<Value, Memory>
    requires { length (delta_bytes delta.now) < limit }
    ensures value { IfOk result (λ v. view v ≡ applied_data name.now delta.now) }
    ensures back { IfOk result (λ _. IsReadBack (Message.Applied name.now delta.now)) }
{
    let mut members = kind_and_wavelet(alloc, "applied", name)?;
    put_version(alloc, &mut members, &delta.from)?;
    put(&mut members, alloc, "delta", delta_value(alloc, delta)?)?;
    Ok(Value::Object(members))
}

// Puts the verdict, in an object of its own.
fn put_answer(
    alloc: Global,
    members: &mut Map<String, Value>,
    verdict: &Verdict,
) -> Result<(), Memory>
    ensures good { OnOk result (IsGoodVerdict verdict.now) }
    ensures value { OnOk result
        (members_view members.new.entries
        ≡ put_data (codes "verdict") (object (with_verdict verdict.now no_members)) (members_view members.old.entries)) }
{
    let mut answer = Map::new(alloc);
    put_verdict(alloc, &mut answer, verdict)?;
    put(members, alloc, "verdict", Value::Object(answer))
}

/// A `relayed`.
#[tactic(auto, using(crate::proofs::Back::relayed_back))]
pub fn relayed_value(
    alloc: Global,
    name: &WaveletName,
    id: &DeltaId,
    verdict: &Verdict,
) -> Result<Value, Memory>
    ensures back { IfOk result
        (λ _. InRange (Message.Relayed name.now id.now verdict.now) → IsReadBack (Message.Relayed name.now id.now verdict.now)) }
    ensures value { IfOk result (λ v. view v ≡ relayed_data name.now id.now verdict.now) }
{
    let mut members = kind_and_wavelet(alloc, "relayed", name)?;
    put_answer(alloc, &mut members, verdict)?;
    put_id(alloc, &mut members, id)?;
    Ok(Value::Object(members))
}
