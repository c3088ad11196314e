// Starting a journal, and loading one from its disk.
ghost use Rattle.std.specs.Prelude.{◌≡◌, ◌≢◌, ◌^◌, ◌<◌, ◌≤◌, ℕ, List, [], ◌∷◌, ◌++◌, length, false, IfOk, IfErr, OnOk, IsTrue};
ghost use Rattle.disk_model.specs.Disk.{LeavesJust, OnlyRead, Rose};
ghost use Rattle.delta_journal.specs.File.{StandsFor, IsDamaged, header};
ghost use Rattle.delta_journal.specs.Shape.{HasShape};
ghost use Rattle.delta_journal.specs.Stage.{front_at, shape_at, IsEmptyAt, HasBlock, is_unsure_at, least_length};
ghost use Rattle.delta_journal.specs.Stored.{bytes_of, StandFrom};
ghost use Rattle.delta_journal.specs.Journal.{IsHeadingOf, IsJournal, disk_of, on_disk, needs_repair};

use crate::reading::{Parsed, parse};
use crate::stage::Stage;
use crate::{Heading, Journal, JournalFault, StoredRecords};
use disk_model::{Disk, DiskError};
use std::alloc::{AllocError, Global};

/// A journal and the records that it holds.
#[derive(Drop)]
pub struct Loaded<K: Disk> {
    pub journal: Journal<K>,
    pub records: StoredRecords,
}

/// A disk from which no journal was loaded, and why.
#[derive(Drop)]
pub struct Unloaded<K> {
    pub disk: K,
    pub fault: JournalFault,
}

// All the bytes of a file, once they are synced.
fn read_all<K: Disk>(alloc: Global, disk: &mut K) -> Result<Vec<u8>, JournalFault>
    ensures bytes { IfOk result (λ v. IsTrue K.tells → v.items ≡ (K.view disk.old).seen) }
    ensures small { IfOk result (λ v. length v.items < 2 ^ 63) }
    ensures synced { OnOk result (LeavesJust (K.view disk.old).seen (K.view disk.new)) }
    ensures read { OnlyRead (K.view disk.old) (K.view disk.new) }
    ensures failed { IfErr result (λ e. e ≡ JournalFault.DiskFault → Rose (K.view disk.old) (K.view disk.new)) }
    ensures whole { IfErr result (λ e. (offset : ℕ) → e ≢ JournalFault.Damaged offset) }
{
    disk.sync()?;
    let length = disk.length()?;
    match disk.read(alloc, 0, length) {
        Ok(bytes) => Ok(bytes),
        Err(DiskError::Failed) => Err(JournalFault::DiskFault),
        Err(DiskError::Memory) => Err(JournalFault::Memory),
    }
}

// What the file stands for under the name of this header, which has a closed gate after it.
fn read_journal<K: Disk>(
    alloc: Global,
    disk: &mut K,
    name: &[u8],
    spelled: &[u8],
) -> Result<Parsed, JournalFault>
    requires { spelled.now ≡ header name.now ++ 0 ∷ [] }
    ensures shape { IfOk result (λ p. IsTrue K.tells → HasShape (shape_at p.stage name.now (bytes_of p.records)) (K.view disk.old).seen) }
    ensures empty { IfOk result (λ p. IsEmptyAt p.stage (bytes_of p.records)) }
    ensures block { IfOk result (λ p. HasBlock p.stage) }
    ensures sure { IfOk result (λ p. is_unsure_at p.stage ≡ false) }
    ensures place { IfOk result (λ p. p.place ≡ length (front_at p.stage name.now (bytes_of p.records))) }
    ensures small { IfOk result (λ p. p.place < 2 ^ 63) }
    ensures least { IfOk result (λ p. IsTrue K.tells → least_length p.stage p.place ≤ length (K.view disk.old).seen) }
    ensures gates { IfOk result (λ p. StandFrom (length (1 ∷ header name.now)) p.records) }
    ensures synced { OnOk result (LeavesJust (K.view disk.old).seen (K.view disk.new)) }
    ensures read { OnlyRead (K.view disk.old) (K.view disk.new) }
    ensures failed { IfErr result (λ e. e ≡ JournalFault.DiskFault → Rose (K.view disk.old) (K.view disk.new)) }
    ensures damaged { IfErr result
        (λ e. (offset : ℕ) → e ≡ JournalFault.Damaged offset → IsTrue K.tells → IsDamaged name.now offset (K.view disk.old).seen) }
{
    let file = match read_all(alloc, disk) {
        Ok(file) => file,
        Err(fault) => return Err(fault),
    };
    parse(alloc, name, &spelled[..spelled.len() - 1], &file)
}

impl<K: Disk> Journal<K> {
    /// A journal with no header and no records, over a disk with an empty file that is synced. The header that it will have is there
    /// already, so no memory is taken.
    pub fn over(disk: K, heading: Heading) -> Journal<K>
        requires empty { IsTrue K.tells → (K.view disk).seen ≡ [] }
        requires synced { IsTrue K.tells → LeavesJust [] (K.view disk) }
        ensures journal { (name : List ℕ) → IsHeadingOf name heading → IsTrue K.tells → IsJournal name [] result }
        ensures whole { needs_repair result ≡ false }
        ensures same { disk_of result ≡ disk }
    {
        Journal {
            disk,
            header: heading.bytes,
            stage: Stage::Blank,
            place: 0,
        }
    }

    /// The same journal, with a header that is made here. The error is want of memory.
    pub fn start(alloc: Global, disk: K, name: &str) -> Result<Journal<K>, AllocError>
    where
        K: Drop,
        requires short { length name.now < 2 ^ 32 }
        requires empty { IsTrue K.tells → (K.view disk).seen ≡ [] }
        requires synced { IsTrue K.tells → LeavesJust [] (K.view disk) }
        ensures journal { IfOk result (λ journal. IsTrue K.tells → IsJournal name.now [] journal) }
        ensures whole { IfOk result (λ journal. needs_repair journal ≡ false) }
        ensures same { IfOk result (λ journal. disk_of journal ≡ disk) }
    {
        let heading = Heading::new(alloc, name)?;
        Ok(Journal::over(disk, heading))
    }

    /// Syncs the file of a disk, reads it, and gives the journal of this name with exactly the records that the
    /// file stands for. A refusal hands the disk back: `Damaged` with the offset at which the file isn't a journal
    /// of this name, and `DiskFault` where the disk failed.
    pub fn load(alloc: Global, disk: K, name: &str) -> Result<Loaded<K>, Unloaded<K>>
        requires { length name.now < 2 ^ 32 }
        ensures exact { IfOk result (λ l. IsTrue K.tells → StandsFor name.now (bytes_of l.records) (K.view disk).seen) }
        ensures gates { IfOk result (λ l. StandFrom (length (1 ∷ header name.now)) l.records) }
        ensures journal { IfOk result (λ l. IsTrue K.tells → IsJournal name.now (bytes_of l.records) l.journal) }
        ensures whole { IfOk result (λ l. needs_repair l.journal ≡ false) }
        ensures synced { IfOk result (λ l. LeavesJust (K.view disk).seen (on_disk l.journal)) }
        ensures read { IfOk result (λ l. OnlyRead (K.view disk) (on_disk l.journal)) }

        ensures damaged { IfErr result
            (λ u. (offset : ℕ) → u.fault ≡ JournalFault.Damaged offset → IsTrue K.tells → IsDamaged name.now offset (K.view disk).seen) }
        ensures handed_back { IfErr result (λ u. OnlyRead (K.view disk) (K.view u.disk)) }
        ensures failed { IfErr result (λ u. u.fault ≡ JournalFault.DiskFault → Rose (K.view disk) (K.view u.disk)) }
    {
        let mut disk = disk;
        let heading = match Heading::new(alloc, name) {
            Ok(heading) => heading,
            Err(_) => return Err(Unloaded {
                disk,
                fault: JournalFault::Memory,
            }),
        };
        match read_journal(alloc, &mut disk, name.as_bytes(), &heading.bytes) {
            Ok(parsed) => Ok(Loaded {
                journal: Journal {
                    disk,
                    header: heading.bytes,
                    stage: parsed.stage,
                    place: parsed.place,
                },
                records: parsed.records,
            }),
            Err(fault) => Err(Unloaded { disk, fault }),
        }
    }
}
