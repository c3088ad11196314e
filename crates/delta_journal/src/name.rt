// The name in a file's header.
ghost use Rattle.std.specs.Prelude.{◌≡◌, ◌≢◌, ◌+◌, ◌^◌, ◌<◌, ◌≤◌, List, ℕ, ◌++◌, length, take, drop, codes, IfOk, IfErr, IfSome, MatchOption, Option, IsTrue, Some, None};
ghost use Rattle.std.specs.Int.{w32, to_be_bytes};
ghost use Rattle.disk_model.specs.Disk.{OnlyRead, Rose};
ghost use Rattle.delta_journal.specs.File.{HasName, HasNoHeader, HasBrokenHeader, header};
ghost use Rattle.delta_journal.specs.Name.{IsFront, TellsName};

use crate::JournalFault;
use crate::reading::after_open;
use disk_model::{Disk, DiskError};
use std::alloc::Global;

// The offset of the name: after the gate, eight bytes of mark and four of length.
const NAME: u64 = 13;

// What a file's header tells.
enum Header {
    /// There is none.
    Missing,
    /// It is no name's.
    Broken,
    /// A name of this many bytes and a gate after it are there.
    Named(u32),
}

// The length of the name, from the 12 bytes after an open gate.
fn count_in(behind: &[u8]) -> Option<u32>
    ensures { MatchOption result ((name more : List ℕ) → length name < 2 ^ 32 → behind.now ≡ take 12 (header name ++ more) → ⊥)
        (λ count. behind.now ≡ codes "WAVEJNL1" ++ to_be_bytes w32 count) }
{
    let [b'W', b'A', b'V', b'E', b'J', b'N', b'L', b'1', a, b, c, d] = behind else {
        return None;
    };
    Some(u32::from_be_bytes([*a, *b, *c, *d]))
}

fn read<K: Disk>(alloc: Global, disk: &mut K, at: u64, count: u64) -> Result<Vec<u8>, JournalFault>
    requires { IsTrue K.tells → at + count ≤ length (K.view disk.old).seen }
    ensures bytes { IfOk result (λ v. IsTrue K.tells → v.items ≡ take count (drop at (K.view disk.old).seen)) }
    ensures count { IfOk result (λ v. length v.items ≡ count) }
    ensures read { OnlyRead (K.view disk.old) (K.view disk.new) }
    ensures failed { IfErr result (λ e. e ≡ JournalFault.DiskFault → Rose (K.view disk.old) (K.view disk.new)) }
    ensures whole { IfErr result (λ e. (offset : ℕ) → e ≢ JournalFault.Damaged offset) }
{
    match disk.read(alloc, at, count) {
        Ok(bytes) => Ok(bytes),
        Err(DiskError::Failed) => Err(JournalFault::DiskFault),
        Err(DiskError::Memory) => Err(JournalFault::Memory),
    }
}

// What the first 13 bytes of a file of this length tell, or all its bytes where it has fewer.
fn header_in(front: &[u8], size: u64) -> Header
    requires { 0 < length front.now }
    ensures { (file : List ℕ) → IsFront front.now size file → TellsName result file }
{
    let Some(behind) = after_open(front) else {
        return Header::Missing;
    };
    let Some(count) = count_in(behind) else {
        return Header::Broken;
    };
    if size <= NAME + count as u64 {
        return Header::Broken;
    }
    Header::Named(count)
}

/// The name in the header of a disk's file, as it is read: None exactly where the file stands for no header.
/// `Damaged` at offset 0 exactly where the header after an open gate is no name's, and `DiskFault` where the disk
/// failed.
pub fn stored_name<K: Disk>(alloc: Global, disk: &mut K) -> Result<Option<Vec<u8>>, JournalFault>
    ensures name { IfOk result
        (λ found. IsTrue K.tells → MatchOption found (HasNoHeader (K.view disk.old).seen)
        (λ name. HasName (Some name.items) (K.view disk.old).seen)) }
    ensures short { IfOk result (λ found. IfSome found (λ name. length name.items < 2 ^ 32)) }
    ensures damaged { IfErr result
        (λ e. (offset : ℕ) → e ≡ JournalFault.Damaged offset → (offset ≡ 0) × (IsTrue K.tells → HasBrokenHeader (K.view disk.old).seen)) }
    ensures read { OnlyRead (K.view disk.old) (K.view disk.new) }
    ensures failed { IfErr result (λ e. e ≡ JournalFault.DiskFault → Rose (K.view disk.old) (K.view disk.new)) }
{
    let size = disk.length()?;
    if size < 2 {
        return Ok(None);
    }
    let front = read(alloc, disk, 0, size.min(NAME))?;
    match header_in(&front, size) {
        Header::Missing => Ok(None),
        Header::Broken => Err(JournalFault::Damaged { offset: 0 }),
        Header::Named(count) => match read(alloc, disk, NAME, count as u64) {
            Ok(name) => Ok(Some(name)),
            Err(fault) => Err(fault),
        },
    }
}
