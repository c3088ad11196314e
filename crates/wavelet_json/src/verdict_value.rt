// Verdicts and reasons not to open a wavelet, written among the members of an object.
ghost use Rattle.std.specs.Prelude.{◌≡◌, codes, OnOk};
ghost use Rattle.serde_json.specs.Data.{put as put_data};
ghost use Rattle.serde_json.specs.View.{members_view};
ghost use Rattle.json_fields.specs.Write.{bytes_data};
ghost use Rattle.wavelet_json.specs.Good.{IsGoodHash, IsGoodVersion, IsGoodReason, IsGoodVerdict};
ghost use Rattle.wavelet_json.specs.Verdicts.{with_version, with_reason, with_verdict, with_unopened};

use crate::UnopenedReason;
use doc_items::Memory;
use json_fields::{hash_value, put_count, put_text};
use serde_json::{Map, Value, put};
use std::alloc::Global;
use wave_base::HashedVersion;
use wavelet_op::Verdict;

fn put_hash(alloc: Global, members: &mut Map<String, Value>, hash: &[u8; 32]) -> Result<(), Memory>
    ensures good { OnOk result (IsGoodHash hash.now) }
    ensures value { OnOk result
        (members_view members.new.entries ≡ put_data (codes "hash") (bytes_data hash.now) (members_view members.old.entries)) }
{
    let hash = hash_value(alloc, hash)?;
    put(members, alloc, "hash", hash)
}

/// Puts the version and its hash among the members, as `version` and `hash`. After want of memory one of them may be there.
#[tactic(auto, using(crate::proofs::Counts::counts))]
pub fn put_version(
    alloc: Global,
    members: &mut Map<String, Value>,
    at: &HashedVersion,
) -> Result<(), Memory>
    ensures good { OnOk result (IsGoodVersion at.now) }
    ensures value { OnOk result (members_view members.new.entries ≡ with_version at.now (members_view members.old.entries)) }
{
    put_count(alloc, members, "version", at.version)?;
    let hash = at.hash;
    put_hash(alloc, members, &hash)
}

fn put_reason(alloc: Global, members: &mut Map<String, Value>, name: &str) -> Result<(), Memory>
    ensures { OnOk result (members_view members.new.entries ≡ with_reason name.now (members_view members.old.entries)) }
{
    put_text(alloc, members, "reason", name)
}

/// Puts the verdict among the members: an acknowledgement as `at`, `version` and `hash`, another one as `reason` and the members
/// that this reason has. After want of memory, here and below, some of them may be there.
pub fn put_verdict(
    alloc: Global,
    members: &mut Map<String, Value>,
    verdict: &Verdict,
) -> Result<(), Memory>
    ensures good { OnOk result (IsGoodVerdict verdict.now) }
    ensures value { OnOk result (members_view members.new.entries ≡ with_verdict verdict.now (members_view members.old.entries)) }
{
    match verdict {
        Verdict::Ack { at, to } => {
            put_version(alloc, members, to)?;
            put_count(alloc, members, "at", *at)
        }
        Verdict::NotParticipant => put_reason(alloc, members, "NotParticipant"),
        Verdict::ReadOnly => put_reason(alloc, members, "ReadOnly"),
        Verdict::UnknownVersion { head } => {
            put_reason(alloc, members, "UnknownVersion")?;
            put_version(alloc, members, head)
        }
        Verdict::WrongHash { host } => {
            put_reason(alloc, members, "WrongHash")?;
            put_hash(alloc, members, host)
        }
        Verdict::Invalid { index } => {
            put_reason(alloc, members, "Invalid")?;
            put_count(alloc, members, "index", *index as u64)
        }
        Verdict::Full { head } => {
            put_reason(alloc, members, "Full")?;
            put_version(alloc, members, head)
        }
    }
}

/// Puts the reason not to open a wavelet among the members: as `reason` and the members that this reason has.
pub fn put_unopened(
    alloc: Global,
    members: &mut Map<String, Value>,
    reason: &UnopenedReason,
) -> Result<(), Memory>
    ensures good { OnOk result (IsGoodReason reason.now) }
    ensures value { OnOk result (members_view members.new.entries ≡ with_unopened reason.now (members_view members.old.entries)) }
{
    match reason {
        UnopenedReason::NotParticipant => put_reason(alloc, members, "NotParticipant"),
        UnopenedReason::UnknownVersion { head } => {
            put_reason(alloc, members, "UnknownVersion")?;
            put_version(alloc, members, head)
        }
        UnopenedReason::WrongHash { host } => {
            put_reason(alloc, members, "WrongHash")?;
            put_hash(alloc, members, host)
        }
        UnopenedReason::TooLarge => put_reason(alloc, members, "TooLarge"),
    }
}
