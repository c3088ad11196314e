ghost use Rattle.std.specs.Prelude.{◌≡◌, ◌≢◌, ◌≤◌, ◌+◌, ◌-◌, ◌^◌, ℕ, min, Bool, true, List, Option, string_bytes, map, IsTrue, IfOk, IfErr, OnOk, OnErr};
ghost use Rattle.wave_outside.specs.Counts.{Rose};
ghost use Rattle.wave_outside.specs.Folders.{IsEmptyFile, IsUnmade, IsHanded, IsPutBack, IsElsewhere, IsSame, IsReadAlike, AreNames, FolderLog, entered, used_log};
ghost use Rattle.wave_outside.specs.declared.folder.FolderFault.TheVariants.{Failed};

use disk_model::Disk;
use std::alloc::{AllocError, Global};

/// Why a call on a folder gave nothing.
#[derive(Clone, Copy, Debug, PartialEq, Eq)]
pub enum FolderFault {
    /// The folder failed, and its count of faults tells so.
    Failed,
    /// Want of memory.
    Memory,
}

impl From<AllocError> for FolderFault {
    ghost use Rattle.std.specs.Prelude.{◌≡◌};
    ghost use Rattle.wave_outside.specs.declared.folder.FolderFault.TheVariants.{Memory};

    ghost from_gives = { λ _ e. e ≡ Memory };

    fn from(_: AllocError) -> Self {
        FolderFault::Memory
    }
}

impl From<crate::Failed> for FolderFault {
    ghost use Rattle.std.specs.Prelude.{◌≡◌};
    ghost use Rattle.wave_outside.specs.declared.folder.FolderFault.TheVariants.{Failed};

    ghost from_gives = { λ _ e. e ≡ Failed };

    fn from(_: crate::Failed) -> Self {
        FolderFault::Failed
    }
}

/// A folder of files. A disk is handed out for a file, with a count of faults of its own that begins at 0, and is put back under the
/// same name; the folder then counts its faults too. A folder whose disks tell what a read gives tells its files. A file whose name isn't
/// text is no file of the folder.
pub trait Folder {
    type Disk: Disk + Drop;

    /// Whether the folder tells its files and the paths that it was asked to enter. One of the operating system doesn't.
    ghost tells: { Bool };

    /// The paths that it was asked to enter, in order, each with whether its files were used before that.
    ghost log: { Self → FolderLog };

    /// The files that stand in the folder; what stands under a name whose disk is handed out means nothing.
    ghost files: { Self → List ℕ → Option Self.Disk };

    /// Whether a disk can be put back under the name.
    ghost room: { Self → List ℕ → Bool };

    /// How many calls have failed, those of disks that were put back included.
    ghost faults: { Self → ℕ };

    /// Opens the folder of this path, and makes it where it isn't there.
    fn enter(&mut self, alloc: Global, path: &str) -> Result<(), FolderFault>
        ensures log { IsTrue tells → log self.new ≡ entered result path.now (log self.old) }
        ensures files { IsTrue tells → IsSame (files self.old) (files self.new) }
        ensures room { IsSame (room self.old) (room self.new) }
        ensures later { faults self.old ≤ faults self.new }
        ensures failed { IfErr result (λ e. e ≡ Failed → Rose (faults self.old) (faults self.new)) };

    /// The names of all files, in any order.
    fn names(&mut self, alloc: Global) -> Result<Vec<String>, FolderFault>
        ensures told { IsTrue Self.Disk.tells → IsTrue tells }
        ensures log { IsTrue tells → log self.new ≡ used_log (log self.old) }
        ensures names { IfOk result (λ v. IsTrue tells → AreNames (files self.old) (map string_bytes v.items)) }
        ensures files { IsTrue tells → IsSame (files self.old) (files self.new) }
        ensures room { IsSame (room self.old) (room self.new) }
        ensures later { faults self.old ≤ faults self.new }
        ensures failed { IfErr result (λ e. e ≡ Failed → Rose (faults self.old) (faults self.new)) };

    /// The disk of the file of this name, which is made, empty, where it isn't there.
    fn file(&mut self, alloc: Global, name: &str) -> Result<Self::Disk, FolderFault>
        ensures told { IsTrue Self.Disk.tells → IsTrue tells }
        ensures log { IsTrue tells → log self.new ≡ used_log (log self.old) }
        ensures given { IfOk result (λ d. IsTrue tells → IsHanded Self.Disk.view (files self.old name.now) (Self.Disk.view d)) }
        ensures uncounted { IfOk result (λ d. (Self.Disk.view d).faults ≡ 0) }
        ensures out { OnOk result (room self.new name.now ≡ true) }
        ensures others { IsTrue tells → IsElsewhere name.now (files self.old) (files self.new) }
        ensures other_room { IsElsewhere name.now (room self.old) (room self.new) }
        ensures room_stays { room self.old name.now ≡ true → room self.new name.now ≡ true }
        ensures kept { OnErr result (IsTrue tells → IsSame (files self.old) (files self.new)) }
        ensures later { faults self.old ≤ faults self.new }
        ensures failed { IfErr result (λ e. e ≡ Failed → Rose (faults self.old) (faults self.new)) };

    /// The disk of the file of this name, which reads as empty, and which a crash leaves empty, whatever stood there. After an error the
    /// file is as it was, or emptied.
    fn fresh(&mut self, alloc: Global, name: &str) -> Result<Self::Disk, FolderFault>
        ensures told { IsTrue Self.Disk.tells → IsTrue tells }
        ensures log { IsTrue tells → log self.new ≡ used_log (log self.old) }
        ensures empty { IfOk result (λ d. IsTrue tells → IsEmptyFile (Self.Disk.view d)) }
        ensures uncounted { IfOk result (λ d. (Self.Disk.view d).faults ≡ 0) }
        ensures out { OnOk result (room self.new name.now ≡ true) }
        ensures others { IsTrue tells → IsElsewhere name.now (files self.old) (files self.new) }
        ensures other_room { IsElsewhere name.now (room self.old) (room self.new) }
        ensures room_stays { room self.old name.now ≡ true → room self.new name.now ≡ true }
        ensures unmade { OnErr result (IsTrue tells → IsUnmade Self.Disk.view (files self.old name.now) (files self.new name.now)) }
        ensures later { faults self.old ≤ faults self.new }
        ensures failed { IfErr result (λ e. e ≡ Failed → Rose (faults self.old) (faults self.new)) };

    /// Takes back a disk that was handed out under this name. Its faults count as the folder's.
    fn put(&mut self, name: &str, disk: Self::Disk)
        requires { room self.old name.now ≡ true }
        ensures told { IsTrue Self.Disk.tells → IsTrue tells }
        ensures log { IsTrue tells → log self.new ≡ used_log (log self.old) }
        ensures there { IsTrue tells → IsPutBack Self.Disk.view (Self.Disk.view disk) (files self.new name.now) }
        ensures others { IsTrue tells → IsElsewhere name.now (files self.old) (files self.new) }
        ensures room { IsSame (room self.old) (room self.new) }
        ensures counted { faults self.new ≡ min (faults self.old + (Self.Disk.view disk).faults) (2 ^ 64 - 1) };

    /// The same folder, with a count of its own that begins at 0: the same paths were entered, the files read the same, and each has
    /// room that had it. One in memory has files of its own.
    fn another(&self, alloc: Global) -> Result<Self, FolderFault>
    where
        Self: Sized,
        ensures log { IfOk result (λ f. IsTrue tells → log f ≡ log self.now) }
        ensures files { IfOk result (λ f. IsTrue tells → (m : List ℕ) → IsReadAlike Self.Disk.view (files self.now m) (files f m)) }
        ensures room { IfOk result (λ f. IsSame (room self.now) (room f)) }
        ensures uncounted { IfOk result (λ f. faults f ≡ 0) }
        ensures failed { IfErr result (λ e. e ≢ Failed) };
}
