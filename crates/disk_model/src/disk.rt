ghost use Rattle.std.specs.Prelude.{◌≡◌, ◌+◌, ◌^◌, ◌<◌, ◌≤◌, Bool, length, take, drop, IfOk, OnOk, OnErr, IsErrOf, IsTrue};
ghost use Rattle.disk_model.specs.declared.disk.DiskError.TheVariants.{Failed};
ghost use Rattle.disk_model.specs.Disk.{DiskView, overwritten, Torn, IsWritten, LeavesJust, Elapses, IsUntouched, HasCause, Rose, IsClocked};

use std::alloc::Global;

/// A call on the disk failed, and its count of faults tells so.
#[derive(Clone, Copy, Debug, PartialEq, Eq)]
pub struct DiskFault;

/// Why a read gave nothing.
#[derive(Clone, Copy, Debug, PartialEq, Eq)]
pub enum DiskError {
    /// The disk failed, and its count of faults tells so.
    Failed,
    /// There was no memory for the bytes.
    Memory,
}

/// One file on a disk that may fail and crash. Offsets and counts are in bytes.
///
/// A crash at some moment leaves one of the images of that moment. Until a sync succeeds, the range of a write and
/// what lies past the old end may hold any bytes in an image; after it an image is what a read gives.
pub trait Disk {
    /// Whether the disk tells what a read gives. A file of the operating system doesn't.
    ghost tells: { Bool };

    /// What the disk means now: its bytes, its images, its clock and its count of faults.
    ghost view: { Self → DiskView };

    /// The length of the file, at most 2 ^ 63 - 1.
    fn length(&mut self) -> Result<u64, DiskFault>
        ensures value { IfOk result (λ n. IsTrue tells → n ≡ length (view self.old).seen) }
        ensures bound { IfOk result (λ n. n < 2 ^ 63) }
        ensures untouched { IsUntouched (view self.old) (view self.new) }
        ensures time { Elapses (view self.old) (view self.new) }
        ensures cause { HasCause (view self.old) (view self.new) result };

    /// `count` bytes from the offset `at` on. Both ends lie within the file.
    fn read(&mut self, alloc: Global, at: u64, count: u64) -> Result<Vec<u8>, DiskError>
        requires { IsTrue tells → at + count ≤ length (view self.old).seen }
        ensures bytes { IfOk result (λ bytes. IsTrue tells → bytes.items ≡ take count (drop at (view self.old).seen)) }
        ensures count { IfOk result (λ bytes. length bytes.items ≡ count) }
        ensures untouched { IsUntouched (view self.old) (view self.new) }
        ensures time { Elapses (view self.old) (view self.new) }
        ensures later { (view self.old).faults ≤ (view self.new).faults }
        ensures failed { IsErrOf result Failed → Rose (view self.old) (view self.new) };

    /// Writes over what is there, and past the end, from an offset within the file on. A write that would make the
    /// file longer than 2 ^ 63 - 1 bytes fails. One that fails may have written any bytes in the range.
    fn write_at(&mut self, at: u64, bytes: &[u8]) -> Result<(), DiskFault>
        requires { IsTrue tells → at ≤ length (view self.old).seen }
        ensures whole { OnOk result (IsTrue tells → (view self.new).seen ≡ overwritten (view self.old).seen at bytes.now) }
        ensures bound { OnOk result (at + length bytes.now < 2 ^ 63) }
        ensures torn { Torn at (length bytes.now) (view self.old).seen (view self.new).seen }
        ensures crash { IsWritten at (length bytes.now) (view self.old) (view self.new) }
        ensures time { Elapses (view self.old) (view self.new) }
        ensures cause { HasCause (view self.old) (view self.new) result };

    /// After it a crash leaves what a read gives. One that fails changes nothing.
    fn sync(&mut self) -> Result<(), DiskFault>
        ensures durable { OnOk result (LeavesJust (view self.old).seen (view self.new)) }
        ensures seen { (view self.new).seen ≡ (view self.old).seen }
        ensures crash { OnErr result (IsUntouched (view self.old) (view self.new)) }
        ensures time { Elapses (view self.old) (view self.new) }
        ensures cause { HasCause (view self.old) (view self.new) result };

    /// The clock's law: this moment is one of those since an earlier one, and since this moment there is no other.
    ghost clocked: { (disk : Self) → IsClocked (view disk) };

    /// A file that is told is at most 2 ^ 63 - 1 bytes long.
    ghost bounded: { (disk : Self) → IsTrue tells → length (view disk).seen < 2 ^ 63 };
}
