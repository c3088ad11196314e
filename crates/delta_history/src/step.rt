// What is tested of the next delta, its state apart.
ghost use Rattle.std.specs.Prelude.{◌≡◌, ◌≤◌, ◌<◌, ℕ, length, take, true, false, IfOk, IfErr, OnOk, MatchOption, IsSome};
ghost use Rattle.wavelet_codec.specs.Spelling.{delta_bytes, IsDelta};
ghost use Rattle.delta_history.specs.Histories.{head_of};
ghost use Rattle.delta_history.specs.Legal.{has_id, max_delta};
ghost use Rattle.wavelet_state.specs.Snapshots.{max_inserted};
ghost use Rattle.delta_history.specs.Steps.{IsWithin, IsWritten, IsFitting, IsStep, IsUnfit, step_after};

use crate::HistoryFault;
use crate::log::Log;
use doc_items::{MAX_COUNT, Memory};
use std::alloc::Global;
use wave_base::HashedVersion;
use wave_hash::next_hash;
use wavelet_codec::{applied_len, write_applied};
use wavelet_op::AppliedDelta;
use wavelet_state::MAX_INSERTED;

/// The most bytes of a delta.
pub const MAX_DELTA: u64 = 1 << 20;

/// What a delta leads to, its state apart.
#[derive(Clone, Copy, Drop)]
pub struct Step {
    /// The hashed version after it.
    pub to: HashedVersion,
    /// How many items are inserted up to there.
    pub inserted: u64,
}

/// What a delta leads to, with its bytes.
pub(crate) struct Written {
    pub step: Step,
    pub bytes: Vec<u8>,
}

impl Drop for Written {
    fn drop(self) {
        let Written {
            step: _step,
            bytes: _bytes,
        } = self;
    }
}

// The bytes of a delta; None where they are more than a delta may have.
fn bytes(alloc: Global, delta: &AppliedDelta) -> Result<Option<Vec<u8>>, Memory>
    ensures bytes { IfOk result
        (λ o. MatchOption o (max_delta < length (delta_bytes delta.now))
        (λ v. (v.items ≡ delta_bytes delta.now) × (length v.items ≤ max_delta))) }
    ensures is { IfOk result (λ o. IsSome o → IsDelta delta.now) }
{
    if applied_len(alloc, delta)? > MAX_DELTA {
        return Ok(None);
    }
    let mut bytes = Vec::new(alloc);
    write_applied(alloc, delta, &mut bytes)?;
    Ok(Some(bytes))
}

/// What a delta of these bytes leads to from a hashed version, where so many items were inserted; None where a bound is broken: on the
/// version, the items or the bytes.
pub fn step_after(at: HashedVersion, count: u64, delta: &AppliedDelta, bytes: &[u8]) -> Option<Step>
    requires count { count ≤ max_inserted }
    requires bytes { bytes.now ≡ delta_bytes delta.now }
    ensures { MatchOption result (¬ (IsWithin at count delta.now)) (IsStep at count delta.now) }
{
    let version = at.version + delta.ops.len();
    let inserted = count + delta.ops.inserted();
    if version > MAX_COUNT || inserted > MAX_INSERTED || bytes.len() as u64 > MAX_DELTA {
        return None;
    }
    let hash = next_hash(&at.hash, bytes);
    let to = HashedVersion { version, hash };
    Some(Step { to, inserted })
}

// What a delta leads to, as `step_after` has it, with its bytes, which are written here.
fn write(
    alloc: Global,
    at: HashedVersion,
    count: u64,
    delta: &AppliedDelta,
) -> Result<Option<Written>, Memory>
    requires { count ≤ max_inserted }
    ensures { IfOk result (λ o. MatchOption o (¬ (IsWithin at count delta.now)) (λ w. IsWritten at count delta.now w.step w.bytes.items)) }
{
    let Some(bytes) = bytes(alloc, delta)? else {
        return Ok(None);
    };
    match step_after(at, count, delta, bytes.as_slice()) {
        Some(step) => Ok(Some(Written { step, bytes })),
        None => Ok(None),
    }
}

// Whether a delta starts at the head, and has a new id. Refusals: `NotNext`, then `NotLegal`.
fn starts(log: &Log, delta: &AppliedDelta) -> Result<(), HistoryFault>
    ensures starts { OnOk result (delta.now.from ≡ (head_of log.now).at) }
    ensures new { OnOk result (has_id delta.now.id log.now.deltas ≡ false) }
    ensures refused { IfErr result (IsUnfit log.now delta.now) }
{
    let have = log.head();
    let got = delta.from;
    if got != have {
        return Err(HistoryFault::NotNext { have, got });
    }
    if log.has(&delta.id) {
        return Err(HistoryFault::NotLegal);
    }
    Ok(())
}

/// What a delta leads to from the head. Refusals: `NotNext`, then `NotLegal` where its id isn't new or a bound is broken.
pub(crate) fn next_step(
    alloc: Global,
    log: &Log,
    delta: &AppliedDelta,
) -> Result<Written, HistoryFault>
    ensures ok { IfOk result (λ w. IsWritten (head_of log.now).at (head_of log.now).count delta.now w.step w.bytes.items) }
    ensures fits { OnOk result (IsFitting log.now delta.now) }
    ensures refused { IfErr result (IsUnfit log.now delta.now) }
{
    starts(log, delta)?;
    match write(alloc, log.head(), log.inserted(), delta)? {
        Some(written) => Ok(written),
        None => Err(HistoryFault::NotLegal),
    }
}

/// What a delta of these bytes leads to from the head, with the refusals of `next_step`.
pub(crate) fn step_of(log: &Log, delta: &AppliedDelta, bytes: &[u8]) -> Result<Step, HistoryFault>
    requires { bytes.now ≡ delta_bytes delta.now }
    ensures ok { IfOk result (λ s. s ≡ step_after (head_of log.now).at (head_of log.now).count delta.now) }
    ensures fits { OnOk result (IsFitting log.now delta.now) }
    ensures refused { IfErr result (IsUnfit log.now delta.now) }
{
    starts(log, delta)?;
    match step_after(log.head(), log.inserted(), delta, bytes) {
        Some(step) => Ok(step),
        None => Err(HistoryFault::NotLegal),
    }
}
