ghost use Rattle.std.specs.Prelude.{◌≡◌, false, [], length, Some, IfOk, OnOk, OnErr, option_copied, slice_get};
ghost use Rattle.delta_history.specs.Copying.{IsKeptOutcome};
ghost use Rattle.delta_history.specs.Histories.{head_of};
ghost use Rattle.delta_history.specs.Legal.{has_id, IsNext};
ghost use Rattle.delta_history.specs.Pushes.{IsRefused};
ghost use Rattle.follower_rules.specs.Replicas.{is_waiting, queue, settle};
ghost use Rattle.replica_store.specs.Absorbing.{absorbed, IsAfter};
ghost use Rattle.replica_store.specs.Copies.{in_world, IsSound, IsSameCopy};
ghost use Rattle.replica_store.specs.Settling.{outcome, waits_in, queue_in, note_in, drop_in};

use crate::Queued;
use crate::histories::{kept, push_copy};
use crate::outcomes::{Noted, forget, note, noted_for};
use crate::waiting::{is_waiting, queue, settle};
use delta_history::{History, HistoryFault};
use doc_items::Memory;
use peer_turns::Absorbed;
use std::alloc::{AllocError, Global};
use std::marker::Model;
use wave_base::{DeltaId, WaveletName};
use wavelet_op::{AppliedDelta, Submission, Verdict};

/// A copy of another domain's wavelet: the host's history as far as it came, the submissions that wait for the host's verdict, and
/// the newest verdicts that it gave.
pub struct Replica {
    history: History,
    waiting: Vec<Submission>,
    noted: Vec<Noted>,
    dropped: bool,
}

impl Drop for Replica {
    fn drop(self) {
        let Replica {
            history: _history,
            waiting: _waiting,
            noted: _noted,
            dropped: _dropped,
        } = self;
    }
}

impl Model for Replica {
    ghost use Rattle.std.specs.Coded.{codes};
    ghost use Rattle.delta_history.specs.contracts.history.History as history_row;
    ghost use Rattle.wavelet_op.specs.contracts.delta.Submission as submission_row;
    ghost use Rattle.replica_store.specs.contracts.outcomes.Noted as noted_row;
    ghost use Rattle.replica_store.specs.Copies.{CopyOf, copy, IsSound};

    ghost Value = { CopyOf };

    ghost coded = { Prim.hlevel (codes, history_row.the_row.coded, submission_row.the_row.coded, noted_row.the_row.coded) };

    ghost view = { λ r. copy r.history r.waiting.items r.noted.items r.dropped };

    ghost invariant = { λ r. IsSound (copy r.history r.waiting.items r.noted.items r.dropped) };
}

impl Replica {
    /// A copy without a delta, to which nothing was submitted.
    pub fn new(alloc: Global, name: WaveletName) -> Replica
        ensures name { result.history.name ≡ name }
        ensures empty { result.history.deltas ≡ [] }
        ensures waiting { result.waiting ≡ [] }
        ensures noted { result.noted ≡ [] }
        ensures dropped { result.dropped ≡ false }
    {
        Replica {
            history: History::new(alloc, name),
            waiting: Vec::new(alloc),
            noted: Vec::new(alloc),
            dropped: false,
        }
    }

    /// The history as far as it came.
    pub fn history(&self) -> &History
        ensures { result.now ≡ self.now.history }
    {
        &self.history
    }

    /// Whether the host gives the copy no more: a drop was noted, and no delta was taken since.
    pub fn dropped(&self) -> bool
        ensures { result ≡ self.now.dropped }
    {
        self.dropped
    }

    /// The submission at a place among those that wait for the host's verdict, in the order in which they came; None exactly where the
    /// place isn't below their number. No two of them have one id, and the history has none of the ids.
    pub fn unsettled(&self, place: u64) -> Option<&Submission>
        ensures value { option_copied result ≡ slice_get self.now.waiting place }
        ensures sound { IsSound self.now }
    {
        self.waiting.as_slice().get(place as usize)
    }

    /// How many submissions wait for the host's verdict.
    pub fn unsettled_count(&self) -> u64
        ensures { result ≡ length self.now.waiting }
    {
        self.waiting.len() as u64
    }

    /// Whether a submission of the id waits for the host's verdict.
    pub fn is_waiting(&self, id: &DeltaId) -> bool
        ensures { result ≡ is_waiting id.now self.now.waiting }
    {
        is_waiting(self.waiting.as_slice(), id)
    }

    /// The acknowledgement of the id's delta where the history has it, else the verdict that was noted for the id. None while it
    /// waits, where it was never submitted here, and where 1,024 verdicts were noted since.
    pub fn outcome(&self, id: &DeltaId) -> Option<Verdict>
        ensures value { result ≡ outcome self.now id.now }
        ensures kept { IsKeptOutcome (Some self.now.history) id.now result }
    {
        match self.history.kept(id) {
            Some(kept) => Some(Verdict::Ack {
                at: kept.at,
                to: kept.to,
            }),
            None => noted_for(self.noted.as_slice(), id),
        }
    }

    /// The host gives the copy no more, until it gives a delta.
    pub fn note_dropped(&mut self)
        ensures { self.new ≡ drop_in self.old }
    {
        self.dropped = true;
    }

    /// A submission to the copy. `Kept` exactly where the history has its id; else it waits for the host's verdict, after the others,
    /// unless one of its id does, and nothing is noted for it. After want of memory the copy is as it was.
    pub fn queue_submission(
        &mut self,
        alloc: Global,
        submission: Submission,
    ) -> Result<Queued, Memory>
        ensures ok { IfOk result (λ q. (q, self.new) ≡ queue_in self.old submission) }
        ensures world { OnOk result (in_world self.new ≡ queue (in_world self.old) submission) }
        ensures same { OnErr result (self.new ≡ self.old) }
    {
        match kept(&self.history, &submission.id) {
            Some(kept) => Ok(Queued::Kept(kept)),
            None => {
                self.wait(alloc, submission)?;
                Ok(Queued::Waiting)
            }
        }
    }

    // The submission waits, and nothing is noted for it.
    fn wait(&mut self, alloc: Global, submission: Submission) -> Result<(), Memory>
        requires { has_id submission.id self.old.history.deltas ≡ false }
        ensures ok { OnOk result (self.new ≡ waits_in self.old submission) }
        ensures same { OnErr result (self.new ≡ self.old) }
    {
        let id = submission.id.copy(alloc)?;
        queue(&mut self.waiting, submission)?;
        forget(&mut self.noted, &id);
        Ok(())
    }

    /// The host's verdict on the submission of an id. True exactly where one waits: it waits no more, and the verdict is its outcome,
    /// until 1,024 others were noted. After false, and after want of memory, the copy is as it was.
    pub fn note_answer(
        &mut self,
        alloc: Global,
        id: &DeltaId,
        verdict: Verdict,
    ) -> Result<bool, Memory>
        ensures ok { IfOk result (λ b. (b, self.new) ≡ note_in self.old id.now verdict) }
        ensures world { OnOk result (in_world self.new ≡ settle (in_world self.old) id.now) }
        ensures same { OnErr result (self.new ≡ self.old) }
    {
        if !self.is_waiting(id) {
            return Ok(false);
        }
        note(alloc, &mut self.noted, id, verdict)?;
        settle(&mut self.waiting, id);
        Ok(true)
    }

    /// A delta of the host's history. The first of these that holds: `Old` where the delta starts below the copy's version, `Gap` where
    /// it starts above it, `Diverged` where it starts there with another hash, `NotLegal` where the history with it wouldn't be legal;
    /// else `Took`: the history ends with it, its id waits no more, and the copy isn't dropped. Only `Took` changes the copy. `Old`,
    /// `Gap` and `Diverged` take no memory. After want of memory all but the history's room is as it was.
    pub fn absorb(&mut self, alloc: Global, delta: &AppliedDelta) -> Result<Absorbed, Memory>
        ensures answer { IfOk result (λ a. a ≡ absorbed self.old delta.now) }
        ensures after { IfOk result (λ a. IsAfter self.old delta.now a self.new) }
        ensures next { IfOk result (λ a. a ≡ Absorbed.Took → IsNext self.old.history.name self.old.history.deltas delta.now) }
        ensures illegal { IfOk result (λ a. a ≡ Absorbed.NotLegal → IsRefused self.old.history delta.now HistoryFault.NotLegal) }
        ensures same { OnErr result (IsSameCopy self.old self.new) }
    {
        let head = self.history.head();
        if delta.from.version < head.version {
            return Ok(Absorbed::Old);
        }
        if head.version < delta.from.version {
            return Ok(Absorbed::Gap);
        }
        if delta.from.hash != head.hash {
            return Ok(Absorbed::Diverged {
                mine: head,
                theirs: delta.from,
            });
        }
        self.absorb_here(alloc, delta)
    }

    // The answer to a delta that starts at the head.
    fn absorb_here(&mut self, alloc: Global, delta: &AppliedDelta) -> Result<Absorbed, Memory>
        requires { delta.now.from ≡ (head_of self.old.history).at }
        ensures answer { IfOk result (λ a. a ≡ absorbed self.old delta.now) }
        ensures after { IfOk result (λ a. IsAfter self.old delta.now a self.new) }
        ensures next { IfOk result (λ a. a ≡ Absorbed.Took → IsNext self.old.history.name self.old.history.deltas delta.now) }
        ensures illegal { IfOk result (λ a. a ≡ Absorbed.NotLegal → IsRefused self.old.history delta.now HistoryFault.NotLegal) }
        ensures same { OnErr result (IsSameCopy self.old self.new) }
    {
        match push_copy(alloc, &mut self.history, delta) {
            Ok(()) => {
                settle(&mut self.waiting, &delta.id);
                forget(&mut self.noted, &delta.id);
                self.dropped = false;
                Ok(Absorbed::Took)
            }
            Err(HistoryFault::NotNext { .. }) => unreachable!(),
            Err(HistoryFault::NotLegal) => Ok(Absorbed::NotLegal),
            Err(HistoryFault::Memory) => Err(AllocError),
        }
    }
}
