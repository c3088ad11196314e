// What passes between a follower and the host.
ghost use Rattle.std.specs.Prelude.{◌≡◌, ◌≤◌, nat_lt, length, IfOk, OnOk};
ghost use Rattle.delta_history.specs.Places.{started_below, IsRisingFrom};
ghost use Rattle.delta_history.specs.Verdicts.{judge};
ghost use Rattle.follower_rules.specs.Followers.{refuse};
ghost use Rattle.follower_rules.specs.Submitting.{submit};
ghost use Rattle.wave_world.specs.Worlds.{take_answer};
ghost use Rattle.client_control.specs.Parts.{follower_of};
ghost use Rattle.load_script.specs.Exchanges.{meeting, lacking, received, caught_up, answered, submitted, exchanged, settling};
ghost use Rattle.load_script.specs.Names.{the_wavelet};

use crate::host::Host;
use client_control::{Follower, FollowerFault};
use doc_items::Memory;
use std::alloc::{AllocError, Global};
use wave_base::DeltaId;
use wavelet_op::{AppliedDelta, Submission, Verdict};

// Whether a delta starts below a version.
fn starts_below(delta: &AppliedDelta, version: u64) -> bool
    ensures { result ≡ nat_lt delta.now.from.version version }
{
    delta.from.version < version
}

// How many of the deltas start below a version. The walk is from the end, since few don't.
fn started_below(deltas: &[AppliedDelta], version: u64) -> usize
    requires { IsRisingFrom 0 deltas.now }
    ensures value { result ≡ started_below version deltas.now }
    ensures bound { result ≤ length deltas.now }
{
    let mut place = deltas.len();
    while place > 0 {
        if starts_below(&deltas[place - 1], version) {
            return place;
        }
        place -= 1;
    }
    0
}

// The deltas from a version on.
#[tactic(auto, using(delta_history::proofs::Finding::rising))]
fn lacking(host: &Host, version: u64) -> &[AppliedDelta]
    ensures { result.now ≡ lacking host.now version }
{
    let deltas = host.deltas();
    let place = started_below(deltas, version);
    &deltas[place..]
}

// The follower receives deltas in turn.
fn receive(alloc: Global, follower: &mut Follower, deltas: &[AppliedDelta]) -> Result<(), Memory>
    ensures { OnOk result (follower_of follower.new ≡ received (follower_of follower.old) deltas.now) }
{
    for delta in deltas {
        let _received = follower.receive_update(alloc, delta)?;
    }
    Ok(())
}

/// The follower receives every delta from its version on, in order.
#[tactic(auto, unfolding(crate::specs::Exchanges::caught_up))]
pub(crate) fn catch_up(alloc: Global, host: &Host, follower: &mut Follower) -> Result<(), Memory>
    ensures { OnOk result (follower_of follower.new ≡ caught_up host.now (follower_of follower.old)) }
{
    let deltas = lacking(host, follower.at().version);
    receive(alloc, follower, deltas)
}

// The follower takes the verdict on the submission of an id.
fn take_answer(follower: &mut Follower, id: &DeltaId, verdict: Verdict)
    ensures { follower_of follower.new ≡ take_answer (follower_of follower.old) (record { id = id.now; verdict = verdict }) }
{
    match verdict {
        Verdict::Ack { .. } => (),
        Verdict::NotParticipant => refuse(follower, id),
        Verdict::ReadOnly => refuse(follower, id),
        Verdict::UnknownVersion { .. } => refuse(follower, id),
        Verdict::WrongHash { .. } => refuse(follower, id),
        Verdict::Invalid { .. } => refuse(follower, id),
        Verdict::Full { .. } => refuse(follower, id),
    }
}

// The submission of an id was refused.
fn refuse(follower: &mut Follower, id: &DeltaId)
    ensures { follower_of follower.new ≡ (refuse (follower_of follower.old) id.now).1 }
{
    let _mine = follower.receive_refusal(id);
}

// The submission is judged at the time, and the follower takes the verdict.
fn answer(
    alloc: Global,
    host: &mut Host,
    follower: &mut Follower,
    submission: &Submission,
    time: u64,
) -> Result<(), Memory>
    ensures { OnOk result (meeting host.new (follower_of follower.new)
        ≡ answered host.old (follower_of follower.old) submission.now (judge the_wavelet host.old submission.now time)) }
{
    let verdict = host.submit(alloc, submission, time)?;
    take_answer(follower, &submission.id, verdict);
    Ok(())
}

// What waits is submitted at the time. Where the follower refuses to make a submission of it, it is dropped, and nothing is submitted.
fn submit(alloc: Global, host: &mut Host, follower: &mut Follower, time: u64) -> Result<(), Memory>
    ensures { OnOk result (meeting host.new (follower_of follower.new)
        ≡ submitted time (meeting host.old (follower_of follower.old)) (submit (follower_of follower.old))) }
{
    match follower.take_submission(alloc) {
        Ok(Some(submission)) => answer(alloc, host, follower, &submission, time),
        Ok(None) => Ok(()),
        Err(FollowerFault::Memory) => Err(AllocError),
        Err(FollowerFault::TooBig) => {
            follower.drop_pending();
            Ok(())
        }
        Err(FollowerFault::NumbersSpent) => {
            follower.drop_pending();
            Ok(())
        }
        Err(FollowerFault::OpInvalid(_)) => {
            follower.drop_pending();
            Ok(())
        }
        Err(FollowerFault::EditFull) => {
            follower.drop_pending();
            Ok(())
        }
    }
}

/// What waits is submitted at the time, and the follower catches up.
#[tactic(auto, unfolding(crate::specs::Exchanges::exchanged))]
pub(crate) fn exchange(
    alloc: Global,
    host: &mut Host,
    follower: &mut Follower,
    time: u64,
) -> Result<(), Memory>
    ensures { OnOk result (meeting host.new (follower_of follower.new) ≡ exchanged time (meeting host.old (follower_of follower.old))) }
{
    submit(alloc, host, follower, time)?;
    catch_up(alloc, host, follower)
}

/// So again, at most so many times, until nothing is pending.
pub(crate) fn settle(
    alloc: Global,
    host: &mut Host,
    follower: &mut Follower,
    time: u64,
    rounds: u64,
) -> Result<(), Memory>
    ensures { OnOk result (meeting host.new (follower_of follower.new)
        ≡ settling time rounds (meeting host.old (follower_of follower.old))) }
{
    let mut left = rounds;
    while left > 0 {
        if follower.is_settled() {
            return Ok(());
        }
        exchange(alloc, host, follower, time)?;
        left -= 1;
    }
    Ok(())
}
