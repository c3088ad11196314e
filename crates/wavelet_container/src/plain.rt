// Submissions to a history that stands in no journal.
ghost use Rattle.std.specs.Prelude.{◌≡◌, IfOk, OnErr};
ghost use Rattle.wavelet_op.specs.declared.verdict.Verdict.TheVariants.{Ack};
ghost use Rattle.delta_history.specs.Histories.{head_of, IsSameHistory};
ghost use Rattle.delta_history.specs.Legal.{IsLegal};
ghost use Rattle.wavelet_container.specs.Decisions.{IsNear, IsFullFor, LooksAtOps, judged};
ghost use Rattle.wavelet_container.specs.Stores.{IsAnswered};

use crate::cached::CachedHistory;
use crate::decision::Decision;
use delta_history::HistoryFault;
use doc_items::Memory;
use std::alloc::{AllocError, Global};
use wavelet_op::{AppliedDelta, Submission, Verdict};

impl CachedHistory {
    /// The verdict on a submission at the time; the history grows by the delta that is accepted.
    pub fn submit(
        &mut self,
        alloc: Global,
        submission: &Submission,
        time: u64,
    ) -> Result<Verdict, Memory>
        ensures ok { IfOk result (λ v. IsAnswered self.old self.new submission.now time v) }
        ensures full { IfOk result (λ v. IsFullFor self.old submission.now time v) }
        ensures err { OnErr result (IsSameHistory self.old self.new) }
        ensures late { OnErr result (LooksAtOps (judged self.old submission.now time)) }
    {
        match self.decide(alloc, submission, time)? {
            Decision::Told(verdict) => Ok(verdict),
            Decision::Near(place, delta) => self.push(alloc, submission, time, place, delta),
        }
    }

    // The verdict on a submission that becomes this delta, which is then after the others. Its clauses alone speak of the time.
    fn push(
        &mut self,
        alloc: Global,
        submission: &Submission,
        time: u64,
        place: usize,
        delta: AppliedDelta,
    ) -> Result<Verdict, Memory>
        requires { IsNear self.old submission.now time place delta }
        ensures ok { IfOk result (λ v. IsAnswered self.old self.new submission.now time v) }
        ensures full { IfOk result (λ v. IsFullFor self.old submission.now time v) }
        ensures err { OnErr result (IsSameHistory self.old self.new) }
    {
        let at = version(&delta);
        match self.push_applied(alloc, delta) {
            Ok(()) => Ok(self.acknowledged(at)),
            Err(HistoryFault::NotLegal) => self.refuse(alloc, submission, place),
            Err(HistoryFault::Memory) => Err(AllocError),
            Err(HistoryFault::NotNext { .. }) => unreachable!(),
        }
    }

    /// The acknowledgement of the last delta, which was applied at this version.
    pub fn acknowledged(&self, at: u64) -> Verdict
        ensures is { result ≡ Ack at (head_of self.now).at }
        ensures legal { IsLegal self.now.name self.now.deltas }
    {
        // For the proof: the history is legal.
        let _deltas = self.history().deltas();
        let to = self.history().head();
        Verdict::Ack { at, to }
    }
}

/// The version at which a delta is applied.
pub(crate) fn version(delta: &AppliedDelta) -> u64
    ensures { result ≡ delta.now.from.version }
{
    delta.from.version
}
