// Submissions that a follower takes of its queue.
ghost use Rattle.std.specs.Prelude.{◌≡◌, ◌≤◌, Ok, IfOk, IfErr, OnErr};
ghost use Rattle.doc_items.specs.Limits.{max_count};
ghost use Rattle.wavelet_op.specs.Acts.{meanings, AreNormal};
ghost use Rattle.follower_rules.specs.Submitting.{IsFault, sent_by, submit};
ghost use Rattle.client_control.specs.Parts.{follower_of};

use crate::counts::inserted_both;
use crate::flight::InFlight;
use crate::joining::gather;
use crate::{Follower, FollowerFault};
use doc_items::{MAX_COUNT, Memory};
use std::alloc::Global;
use wave_base::DeltaId;
use wavelet_op::{Ops, Submission};

/// The most bytes that the operations of one submission have.
pub const SUBMIT_BYTES: u64 = 100_000;

impl Follower {
    // The submission of these operations.
    fn submission(&self, alloc: Global, ops: &Ops) -> Result<Submission, Memory>
        requires next { self.now.next ≤ max_count }
        requires normal { AreNormal ops.now }
        ensures { IfOk result (λ s. s ≡ sent_by (follower_of self.now) (meanings ops.now)) }
    {
        let author = self.author.copy(alloc)?;
        let ops = ops.copy(alloc)?;
        let id = DeltaId {
            author,
            client: self.client,
            number: self.next,
        };
        Ok(Submission {
            id,
            at: self.at,
            ops,
        })
    }

    /// A submission of what waits, which is in flight then: as many entries as fit into one, joined and compacted. None exactly where
    /// something is in flight already, or nothing waits. Refusals, in this order: `TooBig` exactly where the first entry alone,
    /// compacted, breaks a bound; `NumbersSpent` exactly where the next number would exceed 2^53 - 1. After a refusal, `Memory`
    /// included, the follower is as it was.
    pub fn take_submission(&mut self, alloc: Global) -> Result<Option<Submission>, FollowerFault>
        ensures ok { IfOk result (λ o. submit (follower_of self.old) ≡ Ok (o, follower_of self.new)) }
        ensures refused { IfErr result (λ e. IsFault (submit (follower_of self.old)) e) }
        ensures same { OnErr result (self.new ≡ self.old) }
    {
        if self.flight.is_some() {
            return Ok(None);
        }
        let Some((first, rest)) = self.queue.as_slice().split_first() else {
            return Ok(None);
        };
        let Some(joint) = gather(alloc, first, rest)? else {
            return Err(FollowerFault::TooBig);
        };
        if self.next > MAX_COUNT {
            return Err(FollowerFault::NumbersSpent);
        }
        let sent = self.submission(alloc, &joint.ops)?;
        let taken = sent.copy(alloc)?;
        let queue = self.queue.split_off(joint.entries + 1)?;
        self.held = inserted_both(&joint.ops, queue.as_slice());
        self.queue = queue;
        self.flight = Some(InFlight {
            sent,
            ops: joint.ops,
        });
        self.next += 1;
        Ok(Some(taken))
    }
}
