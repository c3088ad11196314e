// Copies by name.
ghost use Rattle.std.specs.Prelude.{◌≡◌, true, false, None, IsSome, IfSome, is_some, option_copied, IfOk, OnOk, OnErr};
ghost use Rattle.std.specs.FinMap as finite;
ghost use Rattle.replica_store.specs.Listings.{IsSought, relays_of, reaches_of};
ghost use Rattle.replica_store.specs.Worlds.{AreNamed, worlds_of, world_at, answer_at, take_in, queued_at, queue_in, waits_at, answer_in, has_more, drop_in, with_taken};

use crate::sought::Sought;
use crate::{Queued, Replica};
use doc_items::Memory;
use peer_turns::{Absorbed, CopyAt, Relay};
use std::alloc::Global;
use std::collections::BTreeMap;
use std::marker::Model;
use wave_base::{DeltaId, Domain, WaveletName};
use wavelet_op::{AppliedDelta, Submission, Verdict};

/// Copies, in byte order of the names of their wavelets.
pub struct Replicas {
    copies: BTreeMap<WaveletName, Replica>,
}

impl Drop for Replicas {
    fn drop(self) {
        let Replicas { copies: _copies } = self;
    }
}

impl Model for Replicas {
    ghost use Rattle.std.specs.Coded.{coded_list, coded_ℕ};
    ghost use Rattle.std.specs.FinMap.{from_entries, code};
    ghost use Rattle.replica_store.specs.Worlds.{Copies, AreNamed};
    ghost use Rattle.replica_store.specs.contracts.replica.Replica as replica_row;

    ghost Value = { Copies };

    ghost coded = { code (coded_list coded_ℕ) replica_row.the_row.coded };

    ghost view = { λ r. from_entries r.copies.entries };

    ghost invariant = { λ r. AreNamed (from_entries r.copies.entries) };
}

impl Replicas {
    /// No copy.
    pub fn new(alloc: Global) -> Replicas
        ensures { result ≡ finite.empty }
    {
        Replicas {
            copies: BTreeMap::new(alloc),
        }
    }

    /// The copy of the name.
    pub fn get(&self, name: &WaveletName) -> Option<&Replica>
        ensures value { option_copied result ≡ finite.get self.now name.now }
        ensures named { IfSome result (λ c. c.now.history.name ≡ name.now) }
    {
        self.copies.get(name)
    }

    /// The law of copies by name: each is of its name.
    pub fn are_named(&self)
        ensures { AreNamed self.now }
    {
        // For the proof: what replicas keep of themselves.
        let _copies = &self.copies;
    }

    // A copy comes to the others, or in the place of the one of its name.
    fn insert(&mut self, name: WaveletName, copy: Replica) -> Result<(), Memory>
        requires { copy.history.name ≡ name }
        ensures ok { OnOk result (self.new ≡ finite.insert self.old name copy) }
        ensures same { OnErr result (self.new ≡ self.old) }
    {
        let _old = self.copies.insert(name, copy)?;
        Ok(())
    }

    // The answer of a new copy to a delta, which is there once it took one.
    fn absorb_first(
        &mut self,
        alloc: Global,
        name: &WaveletName,
        delta: &AppliedDelta,
    ) -> Result<Absorbed, Memory>
        requires { finite.get self.old name.now ≡ None }
        ensures answer { IfOk result (λ a. a ≡ answer_at (worlds_of self.old) name.now delta.now) }
        ensures after { OnOk result (worlds_of self.new ≡ take_in (worlds_of self.old) name.now delta.now) }
        ensures same { OnErr result (worlds_of self.new ≡ worlds_of self.old) }
    {
        let key = name.copy(alloc)?;
        let mut copy = Replica::new(alloc, name.copy(alloc)?);
        let answer = copy.absorb(alloc, delta)?;
        match answer {
            Absorbed::Took => {
                self.insert(key, copy)?;
                Ok(answer)
            }
            Absorbed::Old => Ok(answer),
            Absorbed::Gap => Ok(answer),
            Absorbed::Diverged { .. } => Ok(answer),
            Absorbed::NotLegal => Ok(answer),
        }
    }

    // The answer of a copy that is there to a delta.
    fn absorb_next(
        &mut self,
        alloc: Global,
        name: &WaveletName,
        delta: &AppliedDelta,
    ) -> Result<Absorbed, Memory>
        requires { IsSome (finite.get self.old name.now) }
        ensures answer { IfOk result (λ a. a ≡ answer_at (worlds_of self.old) name.now delta.now) }
        ensures after { OnOk result (worlds_of self.new ≡ take_in (worlds_of self.old) name.now delta.now) }
        ensures same { OnErr result (worlds_of self.new ≡ worlds_of self.old) }
    {
        let Some(copy) = self.copies.get_mut(name) else {
            unreachable!()
        };
        copy.absorb(alloc, delta)
    }

    /// The answer of the copy of the name to a delta of its host's history. Where there is none, an empty one answers, and is there
    /// from then on if it took the delta. After want of memory all is as it was, but for room.
    pub fn absorb(
        &mut self,
        alloc: Global,
        name: &WaveletName,
        delta: &AppliedDelta,
    ) -> Result<Absorbed, Memory>
        ensures answer { IfOk result (λ a. a ≡ answer_at (worlds_of self.old) name.now delta.now) }
        ensures after { OnOk result (worlds_of self.new ≡ take_in (worlds_of self.old) name.now delta.now) }
        ensures same { OnErr result (worlds_of self.new ≡ worlds_of self.old) }
    {
        if self.get(name).is_some() {
            self.absorb_next(alloc, name, delta)
        } else {
            self.absorb_first(alloc, name, delta)
        }
    }

    // The answer of a new copy to a submission, which waits there.
    fn queue_first(
        &mut self,
        alloc: Global,
        name: &WaveletName,
        submission: Submission,
    ) -> Result<Queued, Memory>
        requires { finite.get self.old name.now ≡ None }
        ensures answer { IfOk result (λ q. q ≡ queued_at (worlds_of self.old) name.now submission) }
        ensures after { OnOk result (worlds_of self.new ≡ queue_in (worlds_of self.old) name.now submission) }
        ensures same { OnErr result (worlds_of self.new ≡ worlds_of self.old) }
    {
        let key = name.copy(alloc)?;
        let mut copy = Replica::new(alloc, name.copy(alloc)?);
        let answer = copy.queue_submission(alloc, submission)?;
        self.insert(key, copy)?;
        Ok(answer)
    }

    // The answer of a copy that is there to a submission.
    fn queue_next(
        &mut self,
        alloc: Global,
        name: &WaveletName,
        submission: Submission,
    ) -> Result<Queued, Memory>
        requires { IsSome (finite.get self.old name.now) }
        ensures answer { IfOk result (λ q. q ≡ queued_at (worlds_of self.old) name.now submission) }
        ensures after { OnOk result (worlds_of self.new ≡ queue_in (worlds_of self.old) name.now submission) }
        ensures same { OnErr result (worlds_of self.new ≡ worlds_of self.old) }
    {
        let Some(copy) = self.copies.get_mut(name) else {
            unreachable!()
        };
        copy.queue_submission(alloc, submission)
    }

    /// A submission to the copy of the name. `Kept` exactly where its history has the id; else it waits there for the host's
    /// verdict, once, and a copy begins with it where there is none. After want of memory all is as it was.
    pub fn queue_submission(
        &mut self,
        alloc: Global,
        name: &WaveletName,
        submission: Submission,
    ) -> Result<Queued, Memory>
        ensures answer { IfOk result (λ q. q ≡ queued_at (worlds_of self.old) name.now submission) }
        ensures after { OnOk result (worlds_of self.new ≡ queue_in (worlds_of self.old) name.now submission) }
        ensures same { OnErr result (worlds_of self.new ≡ worlds_of self.old) }
    {
        if self.get(name).is_some() {
            self.queue_next(alloc, name, submission)
        } else {
            self.queue_first(alloc, name, submission)
        }
    }

    // The host's verdict on the submission of an id at a copy that is there.
    fn settle(
        &mut self,
        alloc: Global,
        name: &WaveletName,
        id: &DeltaId,
        verdict: Verdict,
    ) -> Result<bool, Memory>
        requires { IsSome (finite.get self.old name.now) }
        ensures answer { IfOk result (λ b. b ≡ waits_at (worlds_of self.old) name.now id.now) }
        ensures after { OnOk result (worlds_of self.new ≡ answer_in (worlds_of self.old) name.now id.now verdict) }
        ensures same { OnErr result (worlds_of self.new ≡ worlds_of self.old) }
    {
        let Some(copy) = self.copies.get_mut(name) else {
            unreachable!()
        };
        copy.note_answer(alloc, id, verdict)
    }

    /// The host's verdict on the submission of an id at the copy of the name. True exactly where one waits. After want of memory
    /// all is as it was.
    pub fn note_answer(
        &mut self,
        alloc: Global,
        name: &WaveletName,
        id: &DeltaId,
        verdict: Verdict,
    ) -> Result<bool, Memory>
        ensures answer { IfOk result (λ b. b ≡ waits_at (worlds_of self.old) name.now id.now) }
        ensures after { OnOk result (worlds_of self.new ≡ answer_in (worlds_of self.old) name.now id.now verdict) }
        ensures same { OnErr result (worlds_of self.new ≡ worlds_of self.old) }
    {
        if self.get(name).is_none() {
            return Ok(false);
        }
        self.settle(alloc, name, id, verdict)
    }

    // The host gives a copy that is there no more.
    fn drop_copy(&mut self, name: &WaveletName) -> bool
        requires { IsSome (finite.get self.old name.now) }
        ensures answer { result ≡ has_more (worlds_of self.old) name.now }
        ensures after { worlds_of self.new ≡ drop_in (worlds_of self.old) name.now }
    {
        let Some(copy) = self.copies.get_mut(name) else {
            unreachable!()
        };
        let had_more = !copy.dropped();
        copy.note_dropped();
        had_more
    }

    /// The host gives the copy of the name no more. True exactly where there is one that wasn't dropped.
    pub fn note_dropped(&mut self, name: &WaveletName) -> bool
        ensures answer { result ≡ has_more (worlds_of self.old) name.now }
        ensures after { worlds_of self.new ≡ drop_in (worlds_of self.old) name.now }
    {
        if self.get(name).is_none() {
            return false;
        }
        self.drop_copy(name)
    }

    /// The submission at a place among those that wait for an answer of this domain, in byte order of names and, at one copy, in
    /// the order in which they came. The error is want of memory.
    pub fn relay_at(
        &self,
        alloc: Global,
        domain: &Domain,
        place: u64,
    ) -> Result<Sought<Relay>, Memory>
        ensures { IfOk result (IsSought (relays_of domain.now (worlds_of self.now)) place) }
    {
        let mut left = place;
        for (name, copy) in self.copies.iter() {
            if name.host() == domain.text() {
                match copy.unsettled(left) {
                    Some(submission) => {
                        let name = name.copy(alloc)?;
                        let submission = submission.copy(alloc)?;
                        return Ok(Sought::Found(Relay { name, submission }));
                    }
                    None => left -= copy.unsettled_count(),
                }
            }
        }
        Ok(Sought::Past(left))
    }

    /// How far the copy at a place reaches among those whose host this domain is, in byte order of names. The error is want of memory.
    pub fn reach_at(
        &self,
        alloc: Global,
        domain: &Domain,
        place: u64,
    ) -> Result<Sought<CopyAt>, Memory>
        ensures { IfOk result (IsSought (reaches_of domain.now (worlds_of self.now)) place) }
    {
        let mut left = place;
        for (name, copy) in self.copies.iter() {
            if name.host() == domain.text() {
                if left == 0 {
                    let name = name.copy(alloc)?;
                    let at = copy.history().head();
                    return Ok(Sought::Found(CopyAt { name, at }));
                }
                left -= 1;
            }
        }
        Ok(Sought::Past(left))
    }
}
