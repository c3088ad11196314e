// The history of a wavelet at its host, with its journal.
ghost use Rattle.std.specs.Prelude.{◌≡◌, ◌≤◌, ◌^◌, ◌<◌, [], false, IfOk, OnOk, OnErr, IsErrOf, IsSome, IfSome, IsTrue, Some, None, length};
ghost use Rattle.std.specs.Option.{option_map};
ghost use Rattle.disk_model.specs.Disk.{LeavesJust, Rose};
ghost use Rattle.delta_history.specs.Histories.{IsSameHistory};
ghost use Rattle.delta_journal.specs.Journal.{disk_of, on_disk, left_over, needs_repair, EachImage};
ghost use Rattle.wavelet_container.specs.Decisions.{judged, IsFullFor, LooksAtOps};
ghost use Rattle.wavelet_container.specs.Records.{StandsForHistory};
ghost use Rattle.wavelet_container.specs.Stores.{IsGrownBy, IsStored, IsLeftOver, IsWithin};
ghost use Rattle.wavelet_container.specs.Containers.{history_of, journal_of, OfBoth, Moments, IsHeld};

use crate::cached::CachedHistory;
use crate::stored::submit_stored;
use crate::{SubmitFault, Unstored};
use delta_history::History;
use delta_journal::Journal;
use disk_model::Disk;
use doc_items::Memory;
use std::alloc::Global;
use wave_base::WaveletName;
use wavelet_op::{Submission, Verdict};

/// The history of a wavelet at its host. With a journal, each delta is on the disk before it is acknowledged.
pub struct Container<K: Disk> {
    pub(crate) wavelet: CachedHistory,
    pub(crate) journal: Option<Journal<K>>,
}

impl<K: Disk + Drop> Drop for Container<K> {
    fn drop(self) {
        let Container {
            wavelet: _wavelet,
            journal: _journal,
        } = self;
    }
}

impl<K: Disk> Container<K> {
    /// The empty history, without a journal.
    pub fn new(alloc: Global, name: WaveletName) -> Container<K>
        ensures name { (history_of result).name ≡ name }
        ensures empty { (history_of result).deltas ≡ [] }
        ensures plain { journal_of result ≡ None }
    {
        Container {
            wavelet: CachedHistory::of(History::new(alloc, name)),
            journal: None,
        }
    }

    /// The empty history over a new journal. The disk reads as empty, and a crash leaves it empty, where it tells that. No memory is
    /// taken.
    pub fn over(alloc: Global, unstored: Unstored, disk: K) -> Container<K>
        requires empty { IsTrue K.tells → (K.view disk).seen ≡ [] }
        requires synced { IsTrue K.tells → LeavesJust [] (K.view disk) }
        ensures name { (history_of result).name ≡ unstored.name }
        ensures empty { (history_of result).deltas ≡ [] }
        ensures held { IsTrue K.tells → IsHeld result }
        ensures whole { IfSome (journal_of result) (λ j. needs_repair j ≡ false) }
        ensures disk { option_map disk_of (journal_of result) ≡ Some disk }
    {
        let (name, heading) = unstored.into_parts();
        Container {
            wavelet: CachedHistory::of(History::new(alloc, name)),
            journal: Some(Journal::over(disk, heading)),
        }
    }

    /// `over` with an `Unstored` that is made here. The error is want of memory; the disk is dropped then, and nothing was done to it.
    pub fn start(alloc: Global, name: WaveletName, disk: K) -> Result<Container<K>, Memory>
    where
        K: Drop,
        requires empty { IsTrue K.tells → (K.view disk).seen ≡ [] }
        requires synced { IsTrue K.tells → LeavesJust [] (K.view disk) }
        ensures name { IfOk result (λ c. (history_of c).name ≡ name) }
        ensures empty { IfOk result (λ c. (history_of c).deltas ≡ []) }
        ensures held { IfOk result (λ c. IsTrue K.tells → IsHeld c) }
        ensures whole { IfOk result (λ c. IfSome (journal_of c) (λ j. needs_repair j ≡ false)) }
        ensures disk { IfOk result (λ c. option_map disk_of (journal_of c) ≡ Some disk) }
    {
        let unstored = Unstored::new(alloc, name)?;
        Ok(Container::over(alloc, unstored, disk))
    }

    /// The history.
    pub fn history(&self) -> &History
        ensures { result.now ≡ history_of self.now }
    {
        self.wavelet.history()
    }

    /// Gives the disk; None exactly where there is no journal.
    pub fn close(self) -> Option<K>
        ensures { result ≡ option_map disk_of (journal_of self) }
    {
        let Container {
            wavelet: _,
            journal,
        } = self;
        match journal {
            Some(journal) => Some(journal.close()),
            None => None,
        }
    }

    /// The verdict on a submission at the time, in milliseconds; the history grows by just the delta that is accepted. `Full` comes
    /// only where the operations are valid at their base, and the delta that they become breaks a bound. With a
    /// journal a pending repair comes first, and an accepted delta is on the disk before the history has it: at `Ok` every image
    /// stands for the history. At `DiskFault` and at `Memory` the history is as before. At `DiskFault` each image stands for it, or for
    /// it and the accepted delta, and a repair may be pending; at `Memory` each image stands for just the history, and no repair is
    /// pending. No memory is taken before the operations are looked at: a kept acknowledgement, `NotParticipant`, `ReadOnly`,
    /// `UnknownVersion` and `WrongHash` never become `Memory`.
    pub fn submit(
        &mut self,
        alloc: Global,
        submission: &Submission,
        time: u64,
    ) -> Result<Verdict, SubmitFault>
        ensures verdict { IfOk result (λ v. v ≡ (judged (history_of self.old) submission.now time).0) }
        ensures full { IfOk result (λ v. IsFullFor (history_of self.old) submission.now time v) }
        ensures grown { OnOk result
            (IsGrownBy (history_of self.old) (judged (history_of self.old) submission.now time).1 (history_of self.new)) }
        ensures same { OnErr result (IsSameHistory (history_of self.old) (history_of self.new)) }

        ensures stored { OfBoth (journal_of self.old) (journal_of self.new)
            (λ i j. IsStored (history_of self.old) i → IsStored (history_of self.new) j) }
        ensures any_moment { OfBoth (journal_of self.old) (journal_of self.new)
            (λ i j. IsStored (history_of self.old) i → Moments (history_of self.old) submission.now time i j) }
        ensures every_image { OnOk result
            (OfBoth (journal_of self.old) (journal_of self.new)
            (λ i j. IsStored (history_of self.old) i
            → EachImage j (StandsForHistory (history_of self.new).name (history_of self.new).deltas))) }
        ensures nothing_left { IsErrOf result SubmitFault.Memory
            → OfBoth (journal_of self.old) (journal_of self.new)
            (λ i j. IsStored (history_of self.old) i
            → EachImage j (StandsForHistory (history_of self.new).name (history_of self.new).deltas)) }
        ensures done { OnOk result (OfBoth (journal_of self.old) (journal_of self.new) (λ i j. needs_repair j ≡ false)) }
        ensures untouched { IsErrOf result SubmitFault.Memory
            → OfBoth (journal_of self.old) (journal_of self.new) (λ i j. needs_repair j ≡ false) }
        ensures late { IsErrOf result SubmitFault.Memory → LooksAtOps (judged (history_of self.old) submission.now time) }
        ensures within { OfBoth (journal_of self.old) (journal_of self.new) (λ i j. IsStored (history_of self.old) i → left_over i ≡ []
            → IsWithin (history_of self.old).name (history_of self.old).deltas
            (λ d. (judged (history_of self.old) submission.now time).1 ≡ Some d) j) }
        ensures left_over { OfBoth (journal_of self.old) (journal_of self.new)
            (λ i j. IsLeftOver (left_over i) (judged (history_of self.old) submission.now time).1 (left_over j)) }

        ensures later { OfBoth (journal_of self.old) (journal_of self.new) (λ i j. (on_disk i).faults ≤ (on_disk j).faults) }
        ensures failed { IsErrOf result SubmitFault.DiskFault
            → OfBoth (journal_of self.old) (journal_of self.new) (λ i j. Rose (on_disk i) (on_disk j)) }
        ensures disk { IsErrOf result SubmitFault.DiskFault → IsSome (journal_of self.old) }
    {
        match &mut self.journal {
            Some(journal) => { submit_stored(alloc, &mut self.wavelet, journal, submission, time) }
            None => Ok(self.wavelet.submit(alloc, submission, time)?),
        }
    }
}
