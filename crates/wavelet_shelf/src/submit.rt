// Submissions to a shelf.
ghost use Rattle.std.specs.Prelude.{◌≡◌, ◌≢◌, ◌⊎◌, ◌==◌, ◌≤◌, ◌<◌, ℕ, List, [], true, false, None, is_some, IsTrue, IsSome, IfOk, IfSome, OnOk, OnErr, IsErrOf, string_bytes};
ghost use Rattle.std.specs.Cmp.Lexicographic.{pointwise};
ghost use Rattle.std.specs.Map.{lookup};
ghost use Rattle.doc_items.specs.Maps.{Key};
ghost use Rattle.indexmap.specs.IndexMap.{spare};
ghost use Rattle.wave_outside.specs.Counts.{Rose};
ghost use Rattle.wave_outside.specs.Folders.{IsUnmade};
ghost use Rattle.wavelet_container.specs.Containers.{history_of, journal_of};
ghost use Rattle.wavelet_container.specs.Decisions.{LooksAtOps};
ghost use Rattle.wavelet_shelf.specs.Entries.{IsFileWithin, IsWrittenOn, IsSafe};
ghost use Rattle.wavelet_shelf.specs.FileNames.{file_name_of};
ghost use Rattle.wavelet_shelf.specs.Folders.{IsUsed, IsUsedIn, IsUnmadeIn};
ghost use Rattle.wavelet_shelf.specs.Hosting.{deltas_in, judged_in, after_submission};
ghost use Rattle.wavelet_shelf.specs.Shelves.{entries_of, in_folder, folder_faults, hosted_of, container_in, fault_count, IsKept, IsSettled, AreApart, IsNewFile, IsOneMoreOf};
ghost use Rattle.wavelet_shelf.specs.Steps.{IsHosted, IsStarted, IsTakenFirst};

use crate::Shelf;
use crate::filed::Filed;
use crate::journal_name::file_name;
use crate::taking::taken;
use disk_model::Disk;
use doc_items::Memory;
use std::alloc::Global;
use wave_base::WaveletName;
use wave_outside::{Folder, FolderFault};
use wavelet_container::{Container, SubmitFault, Unstored, first_verdict};
use wavelet_op::{Submission, Verdict};

impl<F: Folder + Drop> Shelf<F> {
    /// The verdict on a submission to the wavelet of this name at the time, in milliseconds; a name that isn't there counts as an
    /// empty history. The history of the name grows by just the delta that is accepted, and that of every other name stays as it
    /// is. Over a folder the delta is in the wavelet's file before the history has it. `DiskFault` where the folder or the disk
    /// failed; the file then stands for the history, or for it and the delta that was accepted. No memory is taken before the
    /// operations are looked at, and after `Memory` nothing new is left for a crash to add. A file is made only for the first delta
    /// of a name, and never anew; where no container came to the shelf it is as it was, or emptied.
    pub fn submit(
        &mut self,
        alloc: Global,
        name: &WaveletName,
        submission: &Submission,
        time: u64,
    ) -> Result<Verdict, SubmitFault>
        ensures verdict { IfOk result (λ v. v ≡ (judged_in (hosted_of self.old) name.now submission.now time).0) }
        ensures grown { OnOk result (hosted_of self.new ≡ after_submission (hosted_of self.old) name.now submission.now time) }
        ensures same { OnErr result (hosted_of self.new ≡ hosted_of self.old) }
        ensures others { (m : Key) → m ≢ name.now → container_in self.new m ≡ container_in self.old m }
        ensures begun { IsSome (container_in self.new name.now)
            → IsSome (container_in self.old name.now) ⊎ IsSome (judged_in (hosted_of self.old) name.now submission.now time).1 }

        ensures kept { IsKept self.old → IsKept self.new }
        ensures stored { OnOk result (IsKept self.old → IfSome (container_in self.new name.now) IsSafe) }
        ensures settled { OnOk result (IsKept self.old → IsSettled self.old → IsSettled self.new) }
        ensures untouched { IsErrOf result SubmitFault.Memory → IsKept self.old → IsSettled self.old → IsSettled self.new }
        ensures within { IsKept self.old → IsSettled self.old
            → IfSome (container_in self.new name.now)
            (IsFileWithin name.now (deltas_in (hosted_of self.old) name.now)
            (judged_in (hosted_of self.old) name.now submission.now time).1) }
        ensures late { IsErrOf result SubmitFault.Memory → LooksAtOps (judged_in (hosted_of self.old) name.now submission.now time) }
        ensures apart { AreApart self.old
            → ((m : Key) → IsSome (container_in self.old m) → file_name_of m ≡ file_name_of name.now → m ≡ name.now) → AreApart self.new }

        ensures moments { IsKept self.old → IsSettled self.old
            → IsWrittenOn (container_in self.old name.now) (container_in self.new name.now)
            (IsOneMoreOf self.old name.now submission.now time) }
        ensures folder { IsUsedIn F.Folder (IsNewFile self.old name.now submission.now time) (in_folder self.old) (in_folder self.new) }
        ensures later { fault_count self.old ≤ fault_count self.new }
        ensures failed { IsErrOf result SubmitFault.DiskFault → Rose (fault_count self.old) (fault_count self.new) }
        ensures unmade { container_in self.new name.now ≡ None
            → IsUnmadeIn F.Folder F.Disk.Disk (file_name_of name.now) (in_folder self.old) (in_folder self.new) }
        ensures disk { IsErrOf result SubmitFault.DiskFault → IsSome (in_folder self.old) }
    {
        self.answer(alloc, name, submission, time)
    }

    // `submit`, with all that it promises as one fact.
    fn answer(
        &mut self,
        alloc: Global,
        name: &WaveletName,
        submission: &Submission,
        time: u64,
    ) -> Result<Verdict, SubmitFault>
        ensures { IsHosted name.now submission.now time self.old self.new result }
    {
        if self.containers.has(name) {
            self.containers.submit(alloc, name, submission, time)
        } else {
            self.submit_first(alloc, name, submission, time)
        }
    }

    // `answer` where the name isn't there.
    fn submit_first(
        &mut self,
        alloc: Global,
        name: &WaveletName,
        submission: &Submission,
        time: u64,
    ) -> Result<Verdict, SubmitFault>
        requires absent { is_some (lookup (pointwise ◌==◌ name.now) (entries_of self.old)) ≡ false }
        ensures { IsHosted name.now submission.now time self.old self.new result }
    {
        match first_verdict(name, submission) {
            Some(verdict) => Ok(verdict),
            None => self.submit_new(alloc, name, submission, time),
        }
    }

    // `answer` where the name isn't there and the operations decide.
    fn submit_new(
        &mut self,
        alloc: Global,
        name: &WaveletName,
        submission: &Submission,
        time: u64,
    ) -> Result<Verdict, SubmitFault>
        requires absent { is_some (lookup (pointwise ◌==◌ name.now) (entries_of self.old)) ≡ false }
        requires late { LooksAtOps (judged_in (hosted_of self.old) name.now submission.now time) }
        ensures { IsHosted name.now submission.now time self.old self.new result }
    {
        let mut plain = empty(alloc, name)?;
        match taken(alloc, &mut plain, submission, time) {
            Ok(verdict) => self.host(alloc, name, submission, time, plain, verdict),
            Err(fault) => Err(fault),
        }
    }

    // The same where a container without a journal answered.
    fn host(
        &mut self,
        alloc: Global,
        name: &WaveletName,
        submission: &Submission,
        time: u64,
        plain: Container<F::Disk>,
        verdict: Verdict,
    ) -> Result<Verdict, SubmitFault>
        requires absent { is_some (lookup (pointwise ◌==◌ name.now) (entries_of self.old)) ≡ false }
        requires taken { IsTakenFirst name.now submission.now time plain verdict }
        requires late { LooksAtOps (judged_in (hosted_of self.old) name.now submission.now time) }
        ensures { IsHosted name.now submission.now time self.old self.new result }
    {
        if plain.history().deltas().is_empty() {
            Ok(verdict)
        } else if self.folder.is_none() {
            self.keep(alloc, name, submission, time, plain, verdict)
        } else {
            self.store(alloc, name, submission, time)
        }
    }

    // The same where there is no folder, and a delta is accepted.
    fn keep(
        &mut self,
        alloc: Global,
        name: &WaveletName,
        submission: &Submission,
        time: u64,
        plain: Container<F::Disk>,
        verdict: Verdict,
    ) -> Result<Verdict, SubmitFault>
        requires absent { is_some (lookup (pointwise ◌==◌ name.now) (entries_of self.old)) ≡ false }
        requires plain { in_folder self.old ≡ None }
        requires taken { IsTakenFirst name.now submission.now time plain verdict }
        requires accepted { IsSome (judged_in (hosted_of self.old) name.now submission.now time).1 }
        requires late { LooksAtOps (judged_in (hosted_of self.old) name.now submission.now time) }
        ensures { IsHosted name.now submission.now time self.old self.new result }
    {
        let (key, file) = self.place(alloc, name)?;
        self.containers.put(
            key,
            Filed {
                file,
                container: plain,
            },
        );
        Ok(verdict)
    }

    // The same where there is a folder, and a delta is accepted.
    fn store(
        &mut self,
        alloc: Global,
        name: &WaveletName,
        submission: &Submission,
        time: u64,
    ) -> Result<Verdict, SubmitFault>
        requires absent { is_some (lookup (pointwise ◌==◌ name.now) (entries_of self.old)) ≡ false }
        requires filed { IsSome (in_folder self.old) }
        requires accepted { IsSome (judged_in (hosted_of self.old) name.now submission.now time).1 }
        requires late { LooksAtOps (judged_in (hosted_of self.old) name.now submission.now time) }
        ensures { IsHosted name.now submission.now time self.old self.new result }
    {
        let (key, file) = self.place(alloc, name)?;
        let mut container = self.start(alloc, name, file.as_str())?;
        let answer = taken(alloc, &mut container, submission, time);
        self.containers.put(key, Filed { file, container });
        answer
    }

    // The name and the file of one more container, for which there is room. The error is want of memory.
    fn place(&mut self, alloc: Global, name: &WaveletName) -> Result<(WaveletName, String), Memory>
        ensures key { IfOk result (λ p. p.0 ≡ name.now) }
        ensures file { IfOk result (λ p. string_bytes p.1 ≡ file_name_of name.now) }
        ensures room { OnOk result (0 < spare self.new.containers.map) }
        ensures same { entries_of self.new ≡ entries_of self.old }
        ensures folder { in_folder self.new ≡ in_folder self.old }
    {
        let key = name.copy(alloc)?;
        let file = file_name(alloc, name)?;
        self.containers.reserve()?;
        Ok((key, file))
    }

    // The empty history over a new file of the folder.
    fn start(
        &mut self,
        alloc: Global,
        name: &WaveletName,
        file: &str,
    ) -> Result<Container<F::Disk>, SubmitFault>
        requires filed { IsSome (in_folder self.old) }
        requires file { file.now ≡ file_name_of name.now }
        ensures started { IfOk result (λ c. IsStarted name.now c) }
        ensures room { OnOk result (IfSome (in_folder self.new) (λ f. F.room f file.now ≡ true)) }
        ensures map { self.new.containers.map ≡ self.old.containers.map }
        ensures filed { IsSome (in_folder self.new) }
        ensures used { IsUsedIn F.Folder (λ m. m ≡ file.now) (in_folder self.old) (in_folder self.new) }
        ensures unmade { OnErr result (IsUnmadeIn F.Folder F.Disk.Disk file.now (in_folder self.old) (in_folder self.new)) }
        ensures later { folder_faults F.faults (in_folder self.old) ≤ folder_faults F.faults (in_folder self.new) }
        ensures failed { IsErrOf result SubmitFault.DiskFault
            → Rose (folder_faults F.faults (in_folder self.old)) (folder_faults F.faults (in_folder self.new)) }
    {
        match &mut self.folder {
            Some(folder) => started(alloc, folder, file, name),
            None => Err(SubmitFault::Memory),
        }
    }
}

// The empty history, without a journal. The error is want of memory.
fn empty<K: Disk>(alloc: Global, name: &WaveletName) -> Result<Container<K>, Memory>
    ensures name { IfOk result (λ c. (history_of c).name ≡ name.now) }
    ensures empty { IfOk result (λ c. (history_of c).deltas ≡ []) }
    ensures plain { IfOk result (λ c. journal_of c ≡ None) }
{
    Ok(Container::new(alloc, name.copy(alloc)?))
}

// The empty history over a new file of the folder.
fn started<F: Folder>(
    alloc: Global,
    folder: &mut F,
    file: &str,
    name: &WaveletName,
) -> Result<Container<F::Disk>, SubmitFault>
    ensures started { IfOk result (λ c. IsStarted name.now c) }
    ensures out { OnOk result (F.room folder.new file.now ≡ true) }
    ensures room { (m : List ℕ) → F.room folder.old m ≡ true → F.room folder.new m ≡ true }
    ensures used { IsUsed F.Folder (λ m. m ≡ file.now) folder.old folder.new }
    ensures unmade { OnErr result (IsTrue F.tells → IsUnmade F.Disk.view (F.files folder.old file.now) (F.files folder.new file.now)) }
    ensures later { F.faults folder.old ≤ F.faults folder.new }
    ensures failed { IsErrOf result SubmitFault.DiskFault → Rose (F.faults folder.old) (F.faults folder.new) }
{
    let name = name.copy(alloc)?;
    let unstored = Unstored::new(alloc, name)?;
    match folder.fresh(alloc, file) {
        Ok(disk) => Ok(Container::over(alloc, unstored, disk)),
        Err(FolderFault::Failed) => Err(SubmitFault::DiskFault),
        Err(FolderFault::Memory) => Err(SubmitFault::Memory),
    }
}
