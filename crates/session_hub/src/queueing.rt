// Submissions that wait at copies.
ghost use Rattle.std.specs.Prelude.{◌≡◌, ◌⊎◌, ℕ, List, false, true, IfOk, OnErr};
ghost use Rattle.turn_lock.specs.Passes.{IsOneMore};
ghost use Rattle.doc_items.specs.Maps.{Key};
ghost use Rattle.wave_base.specs.Grammar.{host_of};
ghost use Rattle.replica_store.specs.Worlds.{world_of, worlds_of};
ghost use Rattle.wavelet_shelf.specs.FileNames.{shard_of};
ghost use Rattle.hosted_copies.specs.Domains.{is_hosted_by};
ghost use Rattle.shard_marks.specs.Answers.{IsJudged};
ghost use Rattle.shard_marks.specs.Servers.{server, is_peer};
ghost use Rattle.session_hub.specs.Entries.{entries_of};
ghost use Rattle.session_hub.specs.Standings.{IsStandingIn, IsStanding, IsNew};

use crate::judging::keep;
use crate::record::Record;
use crate::shard::Shard;
use delta_history::Kept;
use doc_items::Memory;
use replica_store::{Replica, Replicas};
use session_core::SubmitAnswer;
use std::alloc::Global;
use std::snapshot::Snapshot;
use wave_base::{DeltaId, WaveletName};
use wave_outside::Folder;
use wavelet_op::{Submission, Verdict};

/// What a copy has of an id before a submission of it.
#[derive(Clone, Copy, Drop)]
pub(crate) enum Standing {
    /// Its history has a delta of the id, which stands there.
    Kept(Kept),
    /// A submission of it waits for the host's verdict.
    Waits,
    /// Neither.
    New,
}

// What a copy has of an id. Its history is legal, so an id for which nothing is kept is new there.
#[tactic(auto, using(delta_history::proofs::Keeping::kept_there))]
fn standing_in(copy: &Replica, id: &DeltaId) -> Standing
    ensures { IsStandingIn copy.now.history.name (world_of copy.now) id.now result }
{
    let history = copy.history();
    // For the proof: the history is legal.
    let _deltas = history.deltas();
    match history.kept(id) {
        Some(kept) => Standing::Kept(kept),
        None => {
            if copy.is_waiting(id) {
                Standing::Waits
            } else {
                Standing::New
            }
        }
    }
}

// What the copy of the name has of an id. Where there is none, it has nothing.
fn standing_at(replicas: &Replicas, name: &WaveletName, id: &DeltaId) -> Standing
    ensures { IsStanding (worlds_of replicas.now) name.now id.now result }
{
    match replicas.get(name) {
        Some(copy) => standing_in(copy, id),
        None => Standing::New,
    }
}

impl<F: Folder + Drop> Shard<F> {
    /// The answer to a submission to the copy of a wavelet that a peer hosts. Where the copy's history has the id, it is the
    /// acknowledgement of the delta there; else the submission waits for the host's verdict, once. Where it waits from now on, its mark is
    /// the last one, and the room for it was taken first. After want of memory no mark was added.
    pub(crate) fn queue(
        &mut self,
        alloc: Global,
        name: &WaveletName,
        submission: &Submission,
    ) -> Result<SubmitAnswer, Memory>
        requires own { shard_of name.now ≡ self.old.number }
        requires other { is_hosted_by self.old.domain name.now ≡ false }
        ensures judged { IfOk result (λ a. (ps : List Key) (t : ℕ) → is_peer (server self.old.domain ps) (host_of name.now) ≡ true
            → IsJudged (server self.old.domain ps) self.old.number
            (entries_of self.old) (entries_of self.new) name.now submission.now t a) }
        ensures same { OnErr result (entries_of self.new ≡ entries_of self.old) }
        ensures one { (entries_of self.new ≡ entries_of self.old) ⊎ IsOneMore (entries_of self.old) (entries_of self.new) }
    {
        match standing_at(&self.replicas, name, &submission.id) {
            Standing::Kept(kept) => Ok(SubmitAnswer::Verdict(Verdict::Ack {
                at: kept.at,
                to: kept.to,
            })),
            Standing::Waits => Ok(SubmitAnswer::Queued),
            Standing::New => self.queue_new(alloc, name, submission),
        }
    }

    // A submission of an id of which the copy has nothing waits there from now on.
    fn queue_new(
        &mut self,
        alloc: Global,
        name: &WaveletName,
        submission: &Submission,
    ) -> Result<SubmitAnswer, Memory>
        requires own { shard_of name.now ≡ self.old.number }
        requires other { is_hosted_by self.old.domain name.now ≡ false }
        requires new { IsNew (worlds_of self.old.replicas) name.now submission.now.id }
        ensures judged { IfOk result (λ a. (ps : List Key) (t : ℕ) → is_peer (server self.old.domain ps) (host_of name.now) ≡ true
            → IsJudged (server self.old.domain ps) self.old.number
            (entries_of self.old) (entries_of self.new) name.now submission.now t a) }
        ensures same { OnErr result (entries_of self.new ≡ entries_of self.old) }
        ensures one { (entries_of self.new ≡ entries_of self.old) ⊎ IsOneMore (entries_of self.old) (entries_of self.new) }
    {
        self.records.reserve(1)?;
        let waiting = submission.copy(alloc)?;
        let _queued = self.replicas.queue_submission(alloc, name, waiting)?;
        keep(
            &mut self.records,
            Record::Queued {
                name: Snapshot::of(name),
                submission: Snapshot::of(submission),
            },
        );
        Ok(SubmitAnswer::Queued)
    }
}
