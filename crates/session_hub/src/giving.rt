// What the copies of a shard are given by their hosts.
ghost use Rattle.std.specs.Prelude.{◌≡◌, ◌⊎◌, ◌<◌, ◌++◌, false, map, IfOk, OnOk, OnErr, vec_len, vec_capacity};
ghost use Rattle.turn_lock.specs.Passes.{IsOneMore};
ghost use Rattle.replica_store.specs.Worlds.{worlds_of};
ghost use Rattle.wavelet_shelf.specs.FileNames.{shard_of};
ghost use Rattle.hosted_copies.specs.Domains.{is_hosted_by};
ghost use Rattle.shard_marks.specs.Givings.{gift_mark, is_took, given_in, is_taken_in, after_given, unowned, marks_if, IsGivenFrom};
ghost use Rattle.session_hub.specs.Entries.{entries_of};
ghost use Rattle.session_hub.specs.Records.{mark_of};

use crate::judging::keep;
use crate::record::Record;
use crate::shard::Shard;
use doc_items::Memory;
use hosted_copies::is_hosted_by;
use peer_turns::Absorbed;
use replica_store::Replicas;
use shard_marks::{Given, Giving};
use std::alloc::Global;
use std::snapshot::Snapshot;
use wave_base::WaveletName;
use wave_outside::Folder;

// Whether a copy took the delta.
fn has_taken(answer: &Absorbed) -> bool
    ensures { result ≡ is_took answer.now }
{
    match answer {
        Absorbed::Old => false,
        Absorbed::Gap => false,
        Absorbed::Diverged { .. } => false,
        Absorbed::NotLegal => false,
        Absorbed::Took => true,
    }
}

// Gives something to the copy of the name: what is answered, and whether the copy changed. After want of memory all is as it was, but for
// room.
fn give_to(
    alloc: Global,
    replicas: &mut Replicas,
    name: &WaveletName,
    giving: &Giving,
) -> Result<(Given, bool), Memory>
    ensures given { IfOk result (λ r. r.0 ≡ given_in (worlds_of replicas.old) (gift_mark name.now giving.now)) }
    ensures taken { IfOk result (λ r. r.1 ≡ is_taken_in (worlds_of replicas.old) (gift_mark name.now giving.now)) }
    ensures after { OnOk result (worlds_of replicas.new ≡ after_given (worlds_of replicas.old) (gift_mark name.now giving.now)) }
    ensures same { OnErr result (worlds_of replicas.new ≡ worlds_of replicas.old) }
{
    match giving {
        Giving::Delta(delta) => {
            let answer = replicas.absorb(alloc, name, delta)?;
            let took = has_taken(&answer);
            Ok((Given::Absorbed(answer), took))
        }
        Giving::Answer(id, verdict) => {
            let waited = replicas.note_answer(alloc, name, id, *verdict)?;
            Ok((Given::Noted(waited), waited))
        }
        Giving::NoMore => {
            let had_more = replicas.note_dropped(name);
            Ok((Given::Told, had_more))
        }
    }
}

// What is answered for a wavelet that the domain hosts itself.
fn unowned(giving: &Giving, name: &WaveletName) -> Given
    ensures { result ≡ unowned (gift_mark name.now giving.now) }
{
    match giving {
        Giving::Delta(_) => Given::Absorbed(Absorbed::NotLegal),
        Giving::Answer(_, _) => Given::Noted(false),
        Giving::NoMore => Given::Told,
    }
}

// The record of a copy's change. The error is want of memory.
fn gift_record(alloc: Global, name: &WaveletName, giving: &Giving) -> Result<Record, Memory>
    ensures { IfOk result (λ r. mark_of r ≡ gift_mark name.now giving.now) }
{
    match giving {
        Giving::Delta(delta) => {
            let name = name.copy(alloc)?;
            Ok(Record::Applied {
                name,
                delta: Snapshot::of(delta),
            })
        }
        Giving::Answer(id, verdict) => Ok(Record::Answered {
            name: Snapshot::of(name),
            id: Snapshot::of(id),
            verdict: Snapshot::of(verdict),
        }),
        Giving::NoMore => Ok(Record::Dropped {
            name: Snapshot::of(name),
        }),
    }
}

// Keeps a record of a change, for which there is room.
fn keep_if(changed: bool, records: &mut Vec<Record>, newest: Record)
    requires { vec_len records.old < vec_capacity records.old }
    ensures { map mark_of records.new.items ≡ map mark_of records.old.items ++ marks_if changed (mark_of newest) }
{
    if changed {
        keep(records, newest);
    }
}

impl<F: Folder + Drop> Shard<F> {
    /// Gives something to the copy of the name. Of a wavelet that the domain hosts there is none. Where the copy changes, the mark
    /// of what it was given is the last one then. The room for it is taken first. After want of memory no mark was added.
    pub(crate) fn give(
        &mut self,
        alloc: Global,
        name: &WaveletName,
        giving: &Giving,
    ) -> Result<Given, Memory>
        requires own { shard_of name.now ≡ self.old.number }
        ensures given { IfOk result
            (IsGivenFrom self.old.domain self.old.number (entries_of self.old) (entries_of self.new) (gift_mark name.now giving.now)) }
        ensures same { OnErr result (entries_of self.new ≡ entries_of self.old) }
        ensures one { (entries_of self.new ≡ entries_of self.old) ⊎ IsOneMore (entries_of self.old) (entries_of self.new) }
    {
        if is_hosted_by(&self.domain, name) {
            return Ok(unowned(giving, name));
        }
        self.give_copy(alloc, name, giving)
    }

    // Gives something to the copy of a wavelet that another domain hosts.
    fn give_copy(
        &mut self,
        alloc: Global,
        name: &WaveletName,
        giving: &Giving,
    ) -> Result<Given, Memory>
        requires own { shard_of name.now ≡ self.old.number }
        requires other { is_hosted_by self.old.domain name.now ≡ false }
        ensures given { IfOk result
            (IsGivenFrom self.old.domain self.old.number (entries_of self.old) (entries_of self.new) (gift_mark name.now giving.now)) }
        ensures same { OnErr result (entries_of self.new ≡ entries_of self.old) }
        ensures one { (entries_of self.new ≡ entries_of self.old) ⊎ IsOneMore (entries_of self.old) (entries_of self.new) }
    {
        let newest = gift_record(alloc, name, giving)?;
        self.records.reserve(1)?;
        let (given, changed) = give_to(alloc, &mut self.replicas, name, giving)?;
        keep_if(changed, &mut self.records, newest);
        Ok(given)
    }
}
