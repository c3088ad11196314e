// The files of wavelets, as they are opened.
ghost use Rattle.std.specs.Prelude.{◌≡◌, ◌≤◌, ℕ, List, Some, IsTrue, IfOk, IfErr, MatchOption};
ghost use Rattle.doc_items.specs.Maps.{Key};
ghost use Rattle.disk_model.specs.Disk.{DiskView};
ghost use Rattle.delta_journal.specs.File.{HasName};
ghost use Rattle.wavelet_shelf.specs.Loads.{IsOwnName, IsOpened, IsUnopened};

use crate::journal_name::file_name;
use delta_journal::{JournalFault, stored_name};
use disk_model::Disk;
use doc_items::Memory;
use std::alloc::{AllocError, Global};
use std::str;
use wave_base::{BaseFault, WaveletName};
use wavelet_container::{Container, LoadFault, LoadRefused};

/// What a file holds.
#[derive(Drop)]
pub(crate) enum Opened<K: Disk> {
    /// The history of the wavelet of this name.
    Read(WaveletName, Container<K>),
    /// No header.
    Passed(K),
}

/// What the file of this name, whose disk this is, holds. A refusal hands the disk back: `Damaged` at offset 0 too, where the name in
/// the header isn't that of this file's wavelet.
pub(crate) fn open_file<K: Disk>(
    alloc: Global,
    disk: K,
    file: &str,
) -> Result<Opened<K>, LoadRefused<K>>
    ensures ok { IfOk result (IsOpened file.now (K.view disk)) }
    ensures err { IfErr result (IsUnopened K.Disk file.now (K.view disk)) }
{
    let mut disk = disk;
    match stored_name(alloc, &mut disk) {
        Ok(None) => Ok(Opened::Passed(disk)),
        Ok(Some(bytes)) => open_as(alloc, disk, file, &bytes),
        Err(fault) => Err(LoadRefused {
            disk,
            fault: fault_of(fault),
        }),
    }
}

// The same where these bytes are the name in its header.
fn open_as<K: Disk>(
    alloc: Global,
    disk: K,
    file: &str,
    bytes: &[u8],
) -> Result<Opened<K>, LoadRefused<K>>
    requires { IsTrue K.tells → HasName (Some bytes.now) (K.view disk).seen }
    ensures ok { IfOk result (IsOpened file.now (K.view disk)) }
    ensures err { IfErr result (IsUnopened K.Disk file.now (K.view disk)) }
{
    match own_name(alloc, bytes, file) {
        Ok(Some(name)) => read(alloc, disk, name),
        Ok(None) => Err(LoadRefused {
            disk,
            fault: LoadFault::Damaged { offset: 0 },
        }),
        Err(_) => Err(LoadRefused {
            disk,
            fault: LoadFault::Memory,
        }),
    }
}

// The same where this is its wavelet.
fn read<K: Disk>(alloc: Global, disk: K, name: WaveletName) -> Result<Opened<K>, LoadRefused<K>>
    ensures ok { IfOk result (λ o. (m : List ℕ) → IsOwnName name m → (IsTrue K.tells → HasName (Some name) (K.view disk).seen)
        → IsOpened m (K.view disk) o) }
    ensures err { IfErr result
        (λ r. (m : List ℕ) → IsOwnName name m → (IsTrue K.tells → HasName (Some name) (K.view disk).seen)
        → IsUnopened K.Disk m (K.view disk) r) }
{
    let Ok(key) = name.copy(alloc) else {
        return Err(LoadRefused {
            disk,
            fault: LoadFault::Memory,
        });
    };
    match Container::load(alloc, name, disk) {
        Ok(container) => Ok(Opened::Read(key, container)),
        Err(refused) => Err(refused),
    }
}

// The name of these bytes, if it is that of a wavelet, and this is the wavelet's file. The error is want of memory.
fn own_name(alloc: Global, bytes: &[u8], file: &str) -> Result<Option<WaveletName>, Memory>
    ensures { IfOk result (λ o. MatchOption o (IsOwnName bytes.now file.now → ⊥) (λ n. (n ≡ bytes.now) × IsOwnName n file.now)) }
{
    let Ok(text) = str::from_utf8(bytes) else {
        return Ok(None);
    };
    match WaveletName::parse(alloc, text) {
        Ok(name) => own(alloc, name, file),
        Err(BaseFault::Memory) => Err(AllocError),
        Err(_) => Ok(None),
    }
}

// The name, if this is the wavelet's file.
fn own(alloc: Global, name: WaveletName, file: &str) -> Result<Option<WaveletName>, Memory>
    ensures { IfOk result (λ o. MatchOption o (IsOwnName name file.now → ⊥) (λ n. (n ≡ name) × IsOwnName n file.now)) }
{
    if file_name(alloc, &name)?.as_str() == file {
        Ok(Some(name))
    } else {
        Ok(None)
    }
}

// Why no name was read, as the container tells it.
fn fault_of(fault: JournalFault) -> LoadFault
    ensures damaged { (offset : ℕ) → result ≡ LoadFault.Damaged offset → fault ≡ JournalFault.Damaged offset }
    ensures failed { result ≡ LoadFault.DiskFault → fault ≡ JournalFault.DiskFault }
{
    match fault {
        JournalFault::Damaged { offset } => LoadFault::Damaged { offset },
        JournalFault::DiskFault => LoadFault::DiskFault,
        JournalFault::Memory => LoadFault::Memory,
    }
}
