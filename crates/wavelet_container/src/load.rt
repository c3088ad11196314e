// Histories read from their journals.
ghost use Rattle.std.specs.Prelude.{◌≡◌, ◌≢◌, ℕ, List, [], ◌∷◌, ◌+◌, length, IfOk, IfErr, OnOk, OnErr, IsErrOf, MatchResult, IsTrue, IfSome, Some, false};
ghost use Rattle.std.specs.List.{AllByRecursion};
ghost use Rattle.disk_model.specs.Disk.{LeavesJust, OnlyRead, Rose};
ghost use Rattle.wavelet_op.specs.Deltas.{DeltaOf};
ghost use Rattle.wavelet_codec.specs.Spelling.{IsDelta};
ghost use Rattle.delta_history.specs.Histories.{IsSameHistory};
ghost use Rattle.delta_history.specs.Legal.{IsLegal};
ghost use Rattle.delta_journal.specs.File.{header, StandsFor};
ghost use Rattle.delta_journal.specs.Journal.{IsJournal, disk_of, on_disk, needs_repair};
ghost use Rattle.delta_journal.specs.Stored.{bytes_of, StandFrom};
ghost use Rattle.wavelet_container.specs.Containers.{history_of, journal_of, IsHeld};
ghost use Rattle.wavelet_container.specs.Records.{records_of, StandsForHistory, IsDamagedHistory, HasIllegal, IsIllegal};
ghost use Rattle.wavelet_container.specs.Loads.{IsRead, IsPushed, IsContained, IsTurnedDown};

use crate::cached::CachedHistory;
use crate::{Container, LoadFault};
use delta_history::{History, HistoryFault};
use delta_journal::{Journal, JournalFault, Loaded, Stored, Unloaded};
use disk_model::Disk;
use op_codec::CodecFault;
use std::alloc::Global;
use wave_base::WaveletName;
use wavelet_codec::read_applied;
use wavelet_op::AppliedDelta;

/// A disk from which no history was loaded, and why.
#[derive(Drop)]
pub struct LoadRefused<K> {
    pub disk: K,
    pub fault: LoadFault,
}

// Why a record isn't after the others.
#[derive(Clone, Copy)]
enum RecordFault {
    Illegal,
    Memory,
}

// The delta of a record, whose hash is that at the head.
fn read(alloc: Global, history: &History, bytes: &[u8]) -> Result<AppliedDelta, RecordFault>
    ensures read { IfOk result (λ d. IsRead history.now bytes.now d) }
    ensures refused { IfErr result (λ e. e ≡ RecordFault.Illegal → IsIllegal history.now.name history.now.deltas bytes.now) }
{
    let head = history.head();
    match read_applied(alloc, bytes, &head.hash) {
        Ok(delta) => Ok(delta),
        Err(CodecFault::BadBytes) => Err(RecordFault::Illegal),
        Err(CodecFault::Memory) => Err(RecordFault::Memory),
    }
}

// Puts the delta of a record after the others, if it is the next one.
fn push(alloc: Global, history: &mut History, bytes: &[u8]) -> Result<(), RecordFault>
    ensures ok { OnOk result (IsPushed history.old bytes.now history.new) }
    ensures refused { IfErr result (λ e. e ≡ RecordFault.Illegal → IsIllegal history.old.name history.old.deltas bytes.now) }
    ensures legal { IsLegal history.old.name history.old.deltas }
    ensures same { OnErr result (IsSameHistory history.old history.new) }
{
    // For the proof: the history is legal.
    let _deltas = history.deltas();
    let delta = read(alloc, history, bytes)?;
    match history.push_read(alloc, delta, bytes) {
        Ok(()) => Ok(()),
        Err(HistoryFault::NotNext { .. }) => Err(RecordFault::Illegal),
        Err(HistoryFault::NotLegal) => Err(RecordFault::Illegal),
        Err(HistoryFault::Memory) => Err(RecordFault::Memory),
    }
}

// Puts the deltas of the records one after another into a history that was empty.
fn push_all(alloc: Global, history: &mut History, records: &[Stored]) -> Result<(), LoadFault>
    requires empty { history.old.deltas ≡ [] }
    requires gates { StandFrom (length (1 ∷ header history.old.name)) records.now }
    ensures name { history.new.name ≡ history.old.name }
    ensures records { OnOk result (records_of history.new.deltas ≡ bytes_of records.now) }
    ensures spelled { OnOk result (AllByRecursion IsDelta history.new.deltas) }
    ensures damaged { IfErr result
        (λ e. (offset : ℕ) → e ≡ LoadFault.Damaged offset → HasIllegal history.old.name offset (bytes_of records.now)) }
    ensures no_disk { IsErrOf result LoadFault.DiskFault → ⊥ }
{
    for stored in records {
        match push(alloc, history, stored.bytes.as_slice()) {
            Ok(()) => {}
            Err(RecordFault::Illegal) => {
                return Err(LoadFault::Damaged {
                    offset: stored.offset,
                });
            }
            Err(RecordFault::Memory) => return Err(LoadFault::Memory),
        }
    }
    Ok(())
}

// The container of a journal that was loaded under this name.
fn contained<K: Disk>(
    alloc: Global,
    name: WaveletName,
    loaded: Loaded<K>,
) -> Result<Container<K>, LoadRefused<K>>
    requires gates { StandFrom (length (1 ∷ header name)) loaded.records }
    ensures ok { IfOk result (λ c. IsContained name loaded c) }
    ensures err { IfErr result (λ r. IsTurnedDown name loaded r) }
{
    let Loaded { journal, records } = loaded;
    let mut history = History::new(alloc, name);
    match push_all(alloc, &mut history, records.as_slice()) {
        Ok(()) => Ok(Container {
            wavelet: CachedHistory::of(history),
            journal: Some(journal),
        }),
        Err(fault) => Err(LoadRefused {
            disk: journal.close(),
            fault,
        }),
    }
}

// The refusal of a journal that wasn't loaded.
fn unread<K>(unloaded: Unloaded<K>) -> LoadRefused<K>
    ensures disk { result.disk ≡ unloaded.disk }
    ensures damaged { (offset : ℕ) → result.fault ≡ LoadFault.Damaged offset → unloaded.fault ≡ JournalFault.Damaged offset }
    ensures failed { result.fault ≡ LoadFault.DiskFault → unloaded.fault ≡ JournalFault.DiskFault }
{
    let fault = match unloaded.fault {
        JournalFault::Damaged { offset } => LoadFault::Damaged { offset },
        JournalFault::DiskFault => LoadFault::DiskFault,
        JournalFault::Memory => LoadFault::Memory,
    };
    LoadRefused {
        disk: unloaded.disk,
        fault,
    }
}

impl<K: Disk> Container<K> {
    /// Syncs and reads the file of a disk, and gives the history of this name that it stands for. A refusal hands the disk back:
    /// `Damaged` with the offset at which the file isn't the journal of a legal history of this name, `DiskFault` where the disk
    /// failed.
    pub fn load(alloc: Global, name: WaveletName, disk: K) -> Result<Container<K>, LoadRefused<K>>
        ensures name { IfOk result (λ c. (history_of c).name ≡ name) }
        ensures exact { IfOk result (λ c. IsTrue K.tells → StandsForHistory name (history_of c).deltas (K.view disk).seen) }
        ensures held { IfOk result (λ c. IsTrue K.tells → IsHeld c) }
        ensures whole { IfOk result (λ c. IfSome (journal_of c) (λ j. needs_repair j ≡ false)) }
        ensures synced { IfOk result (λ c. IfSome (journal_of c) (λ j. LeavesJust (K.view disk).seen (on_disk j))) }
        ensures read { IfOk result (λ c. IfSome (journal_of c) (λ j. OnlyRead (K.view disk) (on_disk j))) }

        ensures again { IsTrue K.tells → (ds : List DeltaOf) → StandsForHistory name ds (K.view disk).seen
            → MatchResult result (λ c. (history_of c).deltas ≡ ds) (λ r. (offset : ℕ) → r.fault ≢ LoadFault.Damaged offset) }

        ensures damaged { IfErr result
            (λ r. (offset : ℕ) → r.fault ≡ LoadFault.Damaged offset → IsTrue K.tells → IsDamagedHistory name offset (K.view disk).seen) }
        ensures handed_back { IfErr result (λ r. OnlyRead (K.view disk) (K.view r.disk)) }
        ensures failed { IfErr result (λ r. r.fault ≡ LoadFault.DiskFault → Rose (K.view disk) (K.view r.disk)) }
    {
        match Journal::load(alloc, disk, name.text()) {
            Ok(loaded) => contained(alloc, name, loaded),
            Err(unloaded) => Err(unread(unloaded)),
        }
    }
}
