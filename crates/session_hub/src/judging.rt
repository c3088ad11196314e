// What a shard answers to a submission.
ghost use Rattle.std.specs.Prelude.{◌≡◌, ◌⊎◌, ◌<◌, ◌∷◌, ◌++◌, List, [], true, length, map, slice_get, IfOk, OnErr, vec_len, vec_capacity};
ghost use Rattle.std.specs.List.{list_any};
ghost use Rattle.std.specs.Option.{option_map};
ghost use Rattle.turn_lock.specs.Passes.{IsOneMore};
ghost use Rattle.doc_items.specs.Maps.{Key, same_text};
ghost use Rattle.wave_base.specs.Grammar.{host_of};
ghost use Rattle.wavelet_shelf.specs.FileNames.{shard_of};
ghost use Rattle.wavelet_shelf.specs.Hosting.{deltas_in};
ghost use Rattle.wavelet_shelf.specs.Shelves.{hosted_of};
ghost use Rattle.hosted_copies.specs.Domains.{is_hosted_by, one_of};
ghost use Rattle.session_hub.specs.Entries.{entries_of};
ghost use Rattle.session_hub.specs.Records.{mark_of};
ghost use Rattle.shard_marks.specs.Answers.{IsJudged};
ghost use Rattle.shard_marks.specs.Histories.{hosted_as, is_sound};
ghost use Rattle.shard_marks.specs.Servers.{server};

use crate::record::Record;
use crate::shard::Shard;
use delta_history::Copies;
use doc_items::Memory;
use hosted_copies::is_hosted_by;
use session_core::SubmitAnswer;
use shard_marks::Mark;
use std::alloc::{AllocError, Global};
use std::snapshot::Snapshot;
use turn_lock::Logged;
use wave_base::{Domain, WaveletName};
use wave_outside::Folder;
use wavelet_container::SubmitFault;
use wavelet_op::{AppliedDelta, Submission};
use wavelet_shelf::Shelf;

// The number of deltas of a wavelet.
fn delta_count<F: Folder>(shelf: &Shelf<F>, name: &WaveletName) -> usize
    ensures { result ≡ length (deltas_in (hosted_of shelf.now) name.now) }
{
    shelf.copies_are_hosted();
    match shelf.copy_of(name) {
        Some(history) => history.deltas().len(),
        None => 0,
    }
}

// The delta at a place of a list, as proofs see it.
fn delta_in(deltas: &[AppliedDelta], place: usize) -> Option<Snapshot<AppliedDelta>>
    ensures { option_map (λ s. s.value) result ≡ slice_get deltas.now place }
{
    let delta = deltas.get(place)?;
    Some(Snapshot::of(delta))
}

// The delta at a place of a wavelet's history, as proofs see it. The history is sound.
fn delta_at<F: Folder>(
    shelf: &Shelf<F>,
    name: &WaveletName,
    place: usize,
) -> Option<Snapshot<AppliedDelta>>
    ensures delta { option_map (λ s. s.value) result ≡ slice_get (deltas_in (hosted_of shelf.now) name.now) place }
    ensures sound { is_sound (hosted_as name.now (deltas_in (hosted_of shelf.now) name.now)) ≡ true }
{
    shelf.copies_are_hosted();
    match shelf.copy_of(name) {
        Some(history) => delta_in(history.deltas(), place),
        None => None,
    }
}

// Keeps a record, for which there is room.
pub(crate) fn keep(records: &mut Vec<Record>, newest: Record)
    requires { vec_len records.old < vec_capacity records.old }
    ensures { records.new.items ≡ records.old.items ++ newest ∷ [] }
{
    let _done = records.push(newest);
}

// Keeps a record of the delta at a place of a wavelet's history, where there is one, with the name in it.
fn keep_growth<F: Folder>(
    shelf: &Shelf<F>,
    name: &WaveletName,
    kept: WaveletName,
    place: usize,
    records: &mut Vec<Record>,
)
    requires room { vec_len records.old < vec_capacity records.old }
    requires same { kept ≡ name.now }
    ensures marks { map mark_of records.new.items ≡ map mark_of records.old.items
        ++ one_of (option_map (λ d. Mark.Applied name.now d) (slice_get (deltas_in (hosted_of shelf.now) name.now) place)) }
    ensures sound { is_sound (hosted_as name.now (deltas_in (hosted_of shelf.now) name.now)) ≡ true }
{
    match delta_at(shelf, name, place) {
        Some(delta) => keep(records, Record::Applied { name: kept, delta }),
        None => {}
    }
}

// Whether one of the domains hosts the wavelet of the name.
fn have_host(domains: &[Domain], name: &WaveletName) -> bool
    ensures { result ≡ list_any (λ d. same_text (host_of name.now) d) domains.now }
{
    domains.iter().any(|domain| name.host() == domain.text())
}

impl<F: Folder + Drop> Shard<F> {
    /// The answer to a submission to a wavelet of this shard at the time, in milliseconds, and the length of the history then, where these
    /// are the peers of its domain. The room for a mark is taken first. After want of memory no mark was added.
    pub(crate) fn submit(
        &mut self,
        alloc: Global,
        peers: &[Domain],
        name: &WaveletName,
        submission: &Submission,
        time: u64,
    ) -> Result<(u64, SubmitAnswer), Memory>
        requires own { shard_of name.now ≡ self.old.number }
        ensures length { IfOk result (λ r. r.0 ≡ length (entries_of self.new)) }
        ensures judged { IfOk result (λ r. IsJudged (server self.old.domain peers.now) self.old.number
            (entries_of self.old) (entries_of self.new) name.now submission.now time r.1) }
        ensures same { OnErr result (entries_of self.new ≡ entries_of self.old) }
        ensures one { (entries_of self.new ≡ entries_of self.old) ⊎ IsOneMore (entries_of self.old) (entries_of self.new) }
    {
        let answer = self.answer(alloc, peers, name, submission, time)?;
        Ok((self.length(), answer))
    }

    // The answer alone: of the host, of a copy, or of neither.
    fn answer(
        &mut self,
        alloc: Global,
        peers: &[Domain],
        name: &WaveletName,
        submission: &Submission,
        time: u64,
    ) -> Result<SubmitAnswer, Memory>
        requires own { shard_of name.now ≡ self.old.number }
        ensures judged { IfOk result (IsJudged (server self.old.domain peers.now) self.old.number
            (entries_of self.old) (entries_of self.new) name.now submission.now time) }
        ensures same { OnErr result (entries_of self.new ≡ entries_of self.old) }
        ensures one { (entries_of self.new ≡ entries_of self.old) ⊎ IsOneMore (entries_of self.old) (entries_of self.new) }
    {
        if is_hosted_by(&self.domain, name) {
            return self.judge(alloc, name, submission, time);
        }
        if have_host(peers, name) {
            return self.queue(alloc, name, submission);
        }
        Ok(SubmitAnswer::NoHost)
    }

    // The answer to a submission to a wavelet that the domain hosts.
    fn judge(
        &mut self,
        alloc: Global,
        name: &WaveletName,
        submission: &Submission,
        time: u64,
    ) -> Result<SubmitAnswer, Memory>
        requires own { shard_of name.now ≡ self.old.number }
        requires hosted { is_hosted_by self.old.domain name.now ≡ true }
        ensures judged { IfOk result (λ a. (ps : List Key) → IsJudged (server self.old.domain ps) self.old.number
            (entries_of self.old) (entries_of self.new) name.now submission.now time a) }
        ensures same { OnErr result (entries_of self.new ≡ entries_of self.old) }
        ensures one { (entries_of self.new ≡ entries_of self.old) ⊎ IsOneMore (entries_of self.old) (entries_of self.new) }
    {
        let kept = name.copy(alloc)?;
        self.records.reserve(1)?;
        self.shelf.copies_are_hosted();
        let count = delta_count(&self.shelf, name);
        match self.shelf.submit(alloc, name, submission, time) {
            Ok(verdict) => {
                keep_growth(&self.shelf, name, kept, count, &mut self.records);
                Ok(SubmitAnswer::Verdict(verdict))
            }
            Err(SubmitFault::DiskFault) => {
                keep(
                    &mut self.records,
                    Record::Fault {
                        name: Snapshot::of(name),
                        id: Snapshot::of(&submission.id),
                    },
                );
                Ok(SubmitAnswer::Store)
            }
            Err(SubmitFault::Memory) => Err(AllocError),
        }
    }
}
