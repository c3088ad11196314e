// What becomes of a submission, up to the delta that it becomes.
ghost use Rattle.std.specs.Prelude.{◌≡◌, ◌≤◌, length, IsSome, IfOk, OnErr, MatchOption, None};
ghost use Rattle.wavelet_op.specs.Acts.{meanings, AreNormal};
ghost use Rattle.wavelet_op.specs.States.{run, first_invalid};
ghost use Rattle.wavelet_container.specs.Decisions.{IsBase, IsDecided, IsRefusal, IsInvalidAt, IsSubmitted, IsValidBelow, IsFullTold, LooksAtOps, has_room, judged};

use crate::cached::CachedHistory;
use crate::early::{Tested, test};
use crate::passing::passed;
use delta_history::History;
use doc_items::{MAX_COUNT, Memory};
use std::alloc::Global;
use wavelet_op::{AppliedDelta, Ops, Submission, Verdict};
use wavelet_state::MAX_INSERTED;

/// What is decided about a submission.
#[derive(Drop)]
pub(crate) enum Decision {
    /// The verdict.
    Told(Verdict),
    /// The submission was made after so many deltas, and becomes this delta, unless that can't be the next one.
    Near(usize, AppliedDelta),
}

impl CachedHistory {
    /// The verdict, or the delta that the submission becomes at the time. The error is want of memory, which is taken only once the
    /// operations are looked at.
    pub fn decide(
        &mut self,
        alloc: Global,
        submission: &Submission,
        time: u64,
    ) -> Result<Decision, Memory>
        ensures decided { IfOk result (λ r. IsDecided self.old submission.now time r) }
        ensures full { IfOk result (λ r. IsFullTold self.old submission.now time r) }
        ensures late { OnErr result (LooksAtOps (judged self.old submission.now time)) }
        ensures same { self.new ≡ self.old }
    {
        match test(self.history(), submission) {
            Tested::Told(verdict) => Ok(Decision::Told(verdict)),
            Tested::Base(place) => self.decide_from(alloc, submission, time, place),
        }
    }

    // The decision on a submission whose operations were made after so many deltas.
    fn decide_from(
        &mut self,
        alloc: Global,
        submission: &Submission,
        time: u64,
        place: usize,
    ) -> Result<Decision, Memory>
        requires base { IsBase self.old submission.now place }
        ensures decided { IfOk result (λ r. IsDecided self.old submission.now time r) }
        ensures full { IfOk result (λ r. IsFullTold self.old submission.now time r) }
        ensures same { self.new ≡ self.old }
    {
        if place < self.history().deltas().len() {
            return self.decide_below(alloc, submission, time, place);
        }
        self.decide_valid(alloc, submission, time, place)
    }

    // The decision on a submission that was made below the head.
    fn decide_below(
        &mut self,
        alloc: Global,
        submission: &Submission,
        time: u64,
        place: usize,
    ) -> Result<Decision, Memory>
        requires base { IsBase self.old submission.now place }
        ensures decided { IfOk result (λ r. IsDecided self.old submission.now time r) }
        ensures full { IfOk result (λ r. IsFullTold self.old submission.now time r) }
        ensures same { self.new ≡ self.old }
    {
        match self.invalid_at(alloc, &submission.ops, place)? {
            Some(index) => Ok(Decision::Told(Verdict::Invalid { index })),
            None => self.decide_valid(alloc, submission, time, place),
        }
    }

    // The decision on a submission that was made at the head, or below it with operations that are valid at its base.
    fn decide_valid(
        &mut self,
        alloc: Global,
        submission: &Submission,
        time: u64,
        place: usize,
    ) -> Result<Decision, Memory>
        requires base { IsBase self.old submission.now place }
        requires valid { IsValidBelow self.old submission.now place }
        ensures decided { IfOk result (λ r. IsDecided self.old submission.now time r) }
        ensures full { IfOk result (λ r. IsFullTold self.old submission.now time r) }
        ensures same { self.new ≡ self.old }
    {
        // For the proof: the history is legal, and the submission has operations.
        let _deltas = self.history().deltas();
        let _len = submission.ops.len();
        if !has_room(self.history(), &submission.ops) {
            let verdict = self.refuse(alloc, submission, place)?;
            return Ok(Decision::Told(verdict));
        }
        let ops = passed(alloc, &submission.ops, &self.history().deltas()[place..])?;
        let delta = delta_of(alloc, self.history(), submission, time, ops)?;
        Ok(Decision::Near(place, delta))
    }

    /// The verdict where no delta can follow: that the operations aren't valid at their base, or else that there is no room.
    pub fn refuse(
        &mut self,
        alloc: Global,
        submission: &Submission,
        place: usize,
    ) -> Result<Verdict, Memory>
        requires base { IsBase self.old submission.now place }
        ensures verdict { IfOk result (λ v. IsRefusal self.old submission.now place v) }
        ensures same { self.new ≡ self.old }
    {
        let invalid = self.invalid_at(alloc, &submission.ops, place)?;
        let head = self.history().head();
        match invalid {
            Some(index) => Ok(Verdict::Invalid { index }),
            None => Ok(Verdict::Full { head }),
        }
    }
}

// Whether the bounds of versions and of items hold with the operations after the head.
fn has_room(history: &History, ops: &Ops) -> bool
    ensures { result ≡ has_room history.now ops.now }
{
    history.head().version + ops.len() <= MAX_COUNT
        && history.inserted() + ops.inserted() <= MAX_INSERTED
}

// The delta that a submission becomes at the head, with these operations.
fn delta_of(
    alloc: Global,
    history: &History,
    submission: &Submission,
    time: u64,
    ops: Ops,
) -> Result<AppliedDelta, Memory>
    requires { AreNormal ops }
    ensures { IfOk result (λ d. IsSubmitted history.now submission.now time ops d) }
{
    let id = submission.id.copy(alloc)?;
    Ok(AppliedDelta {
        id,
        from: history.head(),
        time: time.min(MAX_COUNT),
        ops,
    })
}
