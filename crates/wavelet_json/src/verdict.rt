// Verdicts and reasons not to open a wavelet, read.
ghost use Rattle.std.specs.Prelude.{◌≡◌, ◌≤◌, codes, Some, IfOk, option_map};
ghost use Rattle.serde_json.specs.View.{view};
ghost use Rattle.json_fields.specs.Read.{in_member, version_of, hash_of};
ghost use Rattle.wavelet_json.specs.Operations.{of_members};
ghost use Rattle.wavelet_json.specs.Verdicts.{index_of, refusal_named, refusal_of, ack_of, answer_of, unopened_named, unopened_of};

use crate::UnopenedReason;
use doc_items::Memory;
use json_fields::{count_at, has_members, hash_at, number_at, str_at, version_at};
use serde_json::Value;
use std::alloc::Global;
use wave_base::HashedVersion;
use wavelet_op::Verdict;

// The version that stands in an object of so many members.
fn version_of_members(
    alloc: Global,
    value: &Value,
    count: usize,
) -> Result<Option<HashedVersion>, Memory>
    ensures { IfOk result (λ head. head ≡ of_members count (view value.now) (version_of (view value.now))) }
{
    if has_members(value, count) {
        version_at(alloc, value)
    } else {
        Ok(None)
    }
}

// The hash that stands in an object of so many members.
fn hash_of_members(alloc: Global, value: &Value, count: usize) -> Result<Option<[u8; 32]>, Memory>
    ensures { IfOk result (λ hash. hash ≡ of_members count (view value.now) (in_member hash_of (codes "hash") (view value.now))) }
{
    if has_members(value, count) {
        hash_at(alloc, value, "hash")
    } else {
        Ok(None)
    }
}

// A verdict without members, in an object of so many.
fn plain(value: &Value, count: usize, verdict: Verdict) -> Option<Verdict>
    ensures { result ≡ of_members count (view value.now) (Some verdict) }
{
    if has_members(value, count) {
        Some(verdict)
    } else {
        None
    }
}

fn invalid(value: &Value, count: usize) -> Option<Verdict>
    ensures { result ≡ of_members count (view value.now)
        (option_map Verdict.Invalid (in_member index_of (codes "index") (view value.now))) }
{
    if !has_members(value, count) {
        return None;
    }
    let index = number_at(value, "index", 999)?;
    Some(Verdict::Invalid {
        index: index as u32,
    })
}

fn wrong_hash(alloc: Global, value: &Value, count: usize) -> Result<Option<Verdict>, Memory>
    ensures { IfOk result (λ verdict. verdict
        ≡ of_members count (view value.now) (option_map Verdict.WrongHash (in_member hash_of (codes "hash") (view value.now)))) }
{
    match hash_of_members(alloc, value, count)? {
        Some(host) => Ok(Some(Verdict::WrongHash { host })),
        None => Ok(None),
    }
}

fn refusal_named(
    alloc: Global,
    value: &Value,
    others: usize,
    kind: &str,
) -> Result<Option<Verdict>, Memory>
    requires { others ≤ 9 }
    ensures { IfOk result (λ verdict. verdict ≡ refusal_named others kind.now (view value.now)) }
{
    match kind {
        "NotParticipant" => Ok(plain(value, others + 1, Verdict::NotParticipant)),
        "ReadOnly" => Ok(plain(value, others + 1, Verdict::ReadOnly)),
        "UnknownVersion" => {
            let head = version_of_members(alloc, value, others + 3)?;
            Ok(head.map(|head| Verdict::UnknownVersion { head }))
        }
        "WrongHash" => wrong_hash(alloc, value, others + 2),
        "Invalid" => Ok(invalid(value, others + 2)),
        "Full" => {
            let head = version_of_members(alloc, value, others + 3)?;
            Ok(head.map(|head| Verdict::Full { head }))
        }
        _ => Ok(None),
    }
}

/// The verdict other than an acknowledgement in the member `reason` and those that this reason has, in an object with so many
/// others; None exactly where none stands there. The error is want of memory, here and below.
pub fn refusal_in(alloc: Global, value: &Value, others: usize) -> Result<Option<Verdict>, Memory>
    requires { others ≤ 9 }
    ensures { IfOk result (λ verdict. verdict ≡ refusal_of others (view value.now)) }
{
    match str_at(value, "reason") {
        Some(kind) => refusal_named(alloc, value, others, kind),
        None => Ok(None),
    }
}

/// The acknowledgement in the members `at`, `version` and `hash` of an object with so many others; None exactly where none stands
/// there.
pub fn ack_in(alloc: Global, value: &Value, others: usize) -> Result<Option<Verdict>, Memory>
    requires { others ≤ 9 }
    ensures { IfOk result (λ verdict. verdict ≡ ack_of others (view value.now)) }
{
    if !has_members(value, others + 3) {
        return Ok(None);
    }
    let Some(place) = count_at(value, "at") else {
        return Ok(None);
    };
    let Some(to) = version_at(alloc, value)? else {
        return Ok(None);
    };
    Ok(Some(Verdict::Ack { at: place, to }))
}

fn answer_of(alloc: Global, value: &Value) -> Result<Option<Verdict>, Memory>
    ensures { IfOk result (λ verdict. verdict ≡ answer_of (view value.now)) }
{
    if value.get("reason").is_some() {
        refusal_in(alloc, value, 0)
    } else {
        ack_in(alloc, value, 0)
    }
}

/// The verdict in the member of this name, an object of its own; None exactly where none stands there.
pub fn answer_at(alloc: Global, value: &Value, name: &str) -> Result<Option<Verdict>, Memory>
    ensures { IfOk result (λ verdict. verdict ≡ in_member answer_of name.now (view value.now)) }
{
    match value.get(name) {
        Some(inner) => answer_of(alloc, inner),
        None => Ok(None),
    }
}

// A reason without members, in an object of so many.
fn plain_reason(value: &Value, count: usize, reason: UnopenedReason) -> Option<UnopenedReason>
    ensures { result ≡ of_members count (view value.now) (Some reason) }
{
    if has_members(value, count) {
        Some(reason)
    } else {
        None
    }
}

fn wrong_hash_there(alloc: Global, value: &Value) -> Result<Option<UnopenedReason>, Memory>
    ensures { IfOk result (λ reason. reason
        ≡ of_members 4 (view value.now) (option_map UnopenedReason.WrongHash (in_member hash_of (codes "hash") (view value.now)))) }
{
    match hash_of_members(alloc, value, 4)? {
        Some(host) => Ok(Some(UnopenedReason::WrongHash { host })),
        None => Ok(None),
    }
}

fn unopened_named(
    alloc: Global,
    value: &Value,
    kind: &str,
) -> Result<Option<UnopenedReason>, Memory>
    ensures { IfOk result (λ reason. reason ≡ unopened_named kind.now (view value.now)) }
{
    match kind {
        "NotParticipant" => Ok(plain_reason(value, 3, UnopenedReason::NotParticipant)),
        "UnknownVersion" => {
            let head = version_of_members(alloc, value, 5)?;
            Ok(head.map(|head| UnopenedReason::UnknownVersion { head }))
        }
        "WrongHash" => wrong_hash_there(alloc, value),
        "TooLarge" => Ok(plain_reason(value, 3, UnopenedReason::TooLarge)),
        _ => Ok(None),
    }
}

/// The reason in the member `reason` and those that this reason has, in an object with two others; None exactly where none stands
/// there.
pub fn unopened_in(alloc: Global, value: &Value) -> Result<Option<UnopenedReason>, Memory>
    ensures { IfOk result (λ reason. reason ≡ unopened_of (view value.now)) }
{
    match str_at(value, "reason") {
        Some(kind) => unopened_named(alloc, value, kind),
        None => Ok(None),
    }
}
