// Submissions to a history that stands in a journal.
ghost use Rattle.std.specs.Prelude.{◌≡◌, ◌⊎◌, ◌≤◌, ◌<◌, ℕ, [], ◌∷◌, ◌++◌, false, Option, Some, IfOk, IfErr, OnOk, OnErr, IsErrOf};
ghost use Rattle.wavelet_op.specs.Deltas.{DeltaOf};
ghost use Rattle.disk_model.specs.Disk.{LeavesOnly, Rose};
ghost use Rattle.delta_journal.specs.File.{StandsForEither};
ghost use Rattle.delta_history.specs.Histories.{head_of, IsSameHistory, IsGrown};
ghost use Rattle.delta_history.specs.Legal.{IsLegal, IsNext};
ghost use Rattle.delta_history.specs.Pushes.{IsReady};
ghost use Rattle.delta_journal.specs.Journal.{IsJournal, WhereHeld, on_disk, left_over, needs_repair};
ghost use Rattle.wavelet_container.specs.Decisions.{judged, IsBase, IsNear, IsRefusal, IsFullFor, LooksAtOps};
ghost use Rattle.wavelet_container.specs.Stores.{IsAnswered, IsMoved};

use crate::SubmitFault;
use crate::cached::CachedHistory;
use crate::decision::Decision;
use crate::fault::AddFault;
use crate::plain::version;
use delta_history::{HistoryFault, Prepared};
use delta_journal::{Journal, JournalFault};
use disk_model::Disk;
use std::alloc::Global;
use wavelet_op::{AppliedDelta, Submission, Verdict};

// The delta with what it leads to, and room for it.
fn prepared(
    alloc: Global,
    wavelet: &mut CachedHistory,
    delta: AppliedDelta,
) -> Result<Prepared, AddFault>
    requires { delta.from ≡ (head_of wavelet.old).at }
    ensures delta { IfOk result (λ p. p.delta ≡ delta) }
    ensures ready { IfOk result (λ p. IsReady wavelet.old delta p.after) }
    ensures room { OnOk result (0 < wavelet.new.spare) }
    ensures refused { IsErrOf result AddFault.NotLegal → IsLegal wavelet.old.name (wavelet.old.deltas ++ delta ∷ []) → ⊥ }
    ensures no_disk { IsErrOf result AddFault.DiskFault → ⊥ }
    ensures same { IsSameHistory wavelet.old wavelet.new }
{
    match wavelet.prepare(alloc, delta) {
        Ok(prepared) => Ok(prepared),
        Err(HistoryFault::NotLegal) => Err(AddFault::NotLegal),
        Err(HistoryFault::Memory) => Err(AddFault::Memory),
        Err(HistoryFault::NotNext { .. }) => unreachable!(),
    }
}

// Adds one record.
fn append<K: Disk>(alloc: Global, journal: &mut Journal<K>, bytes: &[u8]) -> Result<(), AddFault>
    requires whole { needs_repair journal.old ≡ false }
    ensures any_moment { WhereHeld journal.old
        (λ name records. LeavesOnly (on_disk journal.old) (on_disk journal.new) (StandsForEither name records (bytes.now ∷ []))) }
    ensures ok { OnOk result (WhereHeld journal.old (λ name records. IsJournal name (records ++ bytes.now ∷ []) journal.new)) }
    ensures done { OnOk result (needs_repair journal.new ≡ false) }
    ensures err { OnErr result (WhereHeld journal.old (λ name records. IsJournal name records journal.new)) }
    ensures left_over { OnErr result ((left_over journal.new ≡ []) ⊎ (left_over journal.new ≡ bytes.now ∷ [])) }
    ensures memory { IsErrOf result AddFault.Memory → journal.new ≡ journal.old }
    ensures legal { IsErrOf result AddFault.NotLegal → ⊥ }
    ensures later { (on_disk journal.old).faults ≤ (on_disk journal.new).faults }
    ensures failed { IsErrOf result AddFault.DiskFault → Rose (on_disk journal.old) (on_disk journal.new) }
{
    match journal.append(alloc, bytes) {
        Ok(()) => Ok(()),
        Err(JournalFault::DiskFault) => Err(AddFault::DiskFault),
        Err(JournalFault::Memory) => Err(AddFault::Memory),
        Err(JournalFault::Damaged { .. }) => unreachable!(),
    }
}

// Puts the delta on the disk, by the bytes that were hashed, and then after the others.
fn store<K: Disk>(
    alloc: Global,
    wavelet: &mut CachedHistory,
    journal: &mut Journal<K>,
    delta: AppliedDelta,
) -> Result<(), AddFault>
    requires whole { needs_repair journal.old ≡ false }
    requires starts { delta.from ≡ (head_of wavelet.old).at }
    ensures grown { OnOk result (IsGrown wavelet.old delta wavelet.new) }
    ensures same { OnErr result (IsSameHistory wavelet.old wavelet.new) }
    ensures refused { IsErrOf result AddFault.NotLegal → IsLegal wavelet.old.name (wavelet.old.deltas ++ delta ∷ []) → ⊥ }
    ensures moved { (added : Option DeltaOf) → (IsNext wavelet.old.name wavelet.old.deltas delta → added ≡ Some delta)
        → IsMoved wavelet.old wavelet.new journal.old journal.new added }
    ensures done { OnOk result (needs_repair journal.new ≡ false) }
    ensures unwritten { IsErrOf result AddFault.NotLegal → needs_repair journal.new ≡ false }
    ensures untouched { IsErrOf result AddFault.Memory → needs_repair journal.new ≡ false }
    ensures failed { IsErrOf result AddFault.DiskFault → Rose (on_disk journal.old) (on_disk journal.new) }
{
    let ready = prepared(alloc, wavelet, delta)?;
    append(alloc, journal, ready.bytes())?;
    wavelet.commit(ready);
    Ok(())
}

// The verdict on a submission that becomes this delta.
fn answer<K: Disk>(
    alloc: Global,
    wavelet: &mut CachedHistory,
    journal: &mut Journal<K>,
    submission: &Submission,
    time: u64,
    place: usize,
    delta: AppliedDelta,
) -> Result<Verdict, SubmitFault>
    requires whole { needs_repair journal.old ≡ false }
    requires near { IsNear wavelet.old submission.now time place delta }
    ensures answered { IfOk result (λ v. IsAnswered wavelet.old wavelet.new submission.now time v) }
    ensures full { IfOk result (λ v. IsFullFor wavelet.old submission.now time v) }
    ensures same { OnErr result (IsSameHistory wavelet.old wavelet.new) }
    ensures moved { IsMoved wavelet.old wavelet.new journal.old journal.new (judged wavelet.old submission.now time).1 }
    ensures done { OnOk result (needs_repair journal.new ≡ false) }
    ensures untouched { IsErrOf result SubmitFault.Memory → needs_repair journal.new ≡ false }
    ensures failed { IsErrOf result SubmitFault.DiskFault → Rose (on_disk journal.old) (on_disk journal.new) }
{
    let at = version(&delta);
    match store(alloc, wavelet, journal, delta) {
        Ok(()) => Ok(wavelet.acknowledged(at)),
        Err(AddFault::NotLegal) => refused(alloc, wavelet, submission, place),
        Err(AddFault::DiskFault) => Err(SubmitFault::DiskFault),
        Err(AddFault::Memory) => Err(SubmitFault::Memory),
    }
}

// The verdict where no delta can follow.
fn refused(
    alloc: Global,
    wavelet: &mut CachedHistory,
    submission: &Submission,
    place: usize,
) -> Result<Verdict, SubmitFault>
    requires { IsBase wavelet.old submission.now place }
    ensures verdict { IfOk result (λ v. IsRefusal wavelet.old submission.now place v) }
    ensures same { wavelet.new ≡ wavelet.old }
    ensures no_disk { IsErrOf result SubmitFault.DiskFault → ⊥ }
{
    match wavelet.refuse(alloc, submission, place) {
        Ok(verdict) => Ok(verdict),
        Err(_) => Err(SubmitFault::Memory),
    }
}

// The verdict on a submission, where no repair is pending.
fn submit_repaired<K: Disk>(
    alloc: Global,
    wavelet: &mut CachedHistory,
    journal: &mut Journal<K>,
    submission: &Submission,
    time: u64,
) -> Result<Verdict, SubmitFault>
    requires whole { needs_repair journal.old ≡ false }
    ensures answered { IfOk result (λ v. IsAnswered wavelet.old wavelet.new submission.now time v) }
    ensures full { IfOk result (λ v. IsFullFor wavelet.old submission.now time v) }
    ensures same { OnErr result (IsSameHistory wavelet.old wavelet.new) }
    ensures moved { IsMoved wavelet.old wavelet.new journal.old journal.new (judged wavelet.old submission.now time).1 }
    ensures done { OnOk result (needs_repair journal.new ≡ false) }
    ensures untouched { IsErrOf result SubmitFault.Memory → needs_repair journal.new ≡ false }
    ensures late { IsErrOf result SubmitFault.Memory → LooksAtOps (judged wavelet.old submission.now time) }
    ensures failed { IsErrOf result SubmitFault.DiskFault → Rose (on_disk journal.old) (on_disk journal.new) }
{
    match wavelet.decide(alloc, submission, time) {
        Ok(Decision::Told(verdict)) => Ok(verdict),
        Ok(Decision::Near(place, delta)) => {
            answer(alloc, wavelet, journal, submission, time, place, delta)
        }
        Err(_) => Err(SubmitFault::Memory),
    }
}

/// The verdict on a submission at the time. A pending repair comes first. The delta that is accepted is on the disk before the
/// history grows by it.
pub(crate) fn submit_stored<K: Disk>(
    alloc: Global,
    wavelet: &mut CachedHistory,
    journal: &mut Journal<K>,
    submission: &Submission,
    time: u64,
) -> Result<Verdict, SubmitFault>
    ensures answered { IfOk result (λ v. IsAnswered wavelet.old wavelet.new submission.now time v) }
    ensures full { IfOk result (λ v. IsFullFor wavelet.old submission.now time v) }
    ensures same { OnErr result (IsSameHistory wavelet.old wavelet.new) }
    ensures moved { IsMoved wavelet.old wavelet.new journal.old journal.new (judged wavelet.old submission.now time).1 }
    ensures done { OnOk result (needs_repair journal.new ≡ false) }
    ensures untouched { IsErrOf result SubmitFault.Memory → needs_repair journal.new ≡ false }
    ensures late { IsErrOf result SubmitFault.Memory → LooksAtOps (judged wavelet.old submission.now time) }
    ensures failed { IsErrOf result SubmitFault.DiskFault → Rose (on_disk journal.old) (on_disk journal.new) }
{
    match journal.repair() {
        Ok(()) => submit_repaired(alloc, wavelet, journal, submission, time),
        Err(_) => Err(SubmitFault::DiskFault),
    }
}
