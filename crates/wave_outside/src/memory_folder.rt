// A folder in memory.
ghost use Rattle.std.specs.Prelude.{◌≡◌, ◌≢◌, ◌++◌, ◌∷◌, ◌≤◌, ◌+◌, ◌-◌, ◌^◌, min, [], true, false, Some, None, IsSome, IfOk, IfErr, OnOk, OnErr, IfSome, option_copied, is_some, string_bytes, map};
ghost use Rattle.disk_model.specs.Memory.{disk_view};
ghost use Rattle.wave_outside.specs.Counts.{Rose};
ghost use Rattle.wave_outside.specs.Folders.{IsEmptyFile, IsSameFile, IsHanded, IsPutBack, IsElsewhere, IsSame, AreNames, one_entered};
ghost use Rattle.wave_outside.specs.MemoryFolders.{file_in, file_names, has_file, entry_of, IsExchanged, IsMade, AreForks};
ghost use Rattle.wave_outside.specs.declared.folder.FolderFault.TheVariants.{Failed as HasFailed};

use crate::calls::Calls;
use crate::{Folder, FolderFault};
use disk_model::MemoryDisk;
use std::alloc::{AllocError, Global};
use std::mem::replace;

/// A file of a folder in memory.
pub struct StoredFile {
    pub name: String,
    pub disk: MemoryDisk,
}

impl Drop for StoredFile {
    fn drop(self) {
        let StoredFile {
            name: _name,
            disk: _disk,
        } = self;
    }
}

/// A path that a folder in memory was asked to enter.
#[derive(Drop)]
pub struct Entered {
    pub path: String,
    /// Whether files were listed, handed out or put back between the path before it and this one.
    pub after_use: bool,
}

/// A folder in memory. Whatever path is entered, its files are the same.
pub struct MemoryFolder {
    alloc: Global,
    list: Vec<StoredFile>,
    entered: Vec<Entered>,
    used: bool,
    calls: Calls,
}

impl Drop for MemoryFolder {
    fn drop(self) {
        let MemoryFolder {
            alloc: _alloc,
            list: _list,
            entered: _entered,
            used: _used,
            calls: _calls,
        } = self;
    }
}

// A disk without bytes.
fn empty(alloc: Global) -> MemoryDisk
    ensures empty { IsEmptyFile (disk_view result) }
    ensures faults { (disk_view result).faults ≡ 0 }
{
    MemoryDisk::new(alloc, Vec::new(alloc), Vec::new(alloc), None)
}

// Whether the file is there.
fn has(list: &[StoredFile], name: &str) -> bool
    ensures { result ≡ has_file list.now name.now }
{
    let Some((first, rest)) = list.split_first() else {
        return false;
    };
    first.name.as_str() == name || has(rest, name)
}

// Puts another disk in the place of the file's, and gives that.
fn exchange(list: &mut [StoredFile], name: &str, disk: MemoryDisk) -> Option<MemoryDisk>
    ensures value { result ≡ file_in list.old name.now }
    ensures exchanged { IsExchanged name.now disk list.old list.new }
{
    let Some((first, rest)) = list.split_first_mut() else {
        return None;
    };
    if first.name.as_str() == name {
        Some(replace(&mut first.disk, disk))
    } else {
        exchange(rest, name, disk)
    }
}

// One more file, which is empty.
fn push_empty(alloc: Global, list: &mut Vec<StoredFile>, name: &str) -> Result<(), AllocError>
    requires { has_file list.old.items name.now ≡ false }
    ensures made { OnOk result (IsMade name.now list.old.items list.new.items) }
    ensures kept { OnErr result (list.new.items ≡ list.old.items) }
{
    let name = String::from_str(alloc, name)?;
    let disk = empty(alloc);
    list.push(StoredFile { name, disk })?;
    Ok(())
}

// The names of the files.
fn names_of(alloc: Global, list: &[StoredFile]) -> Result<Vec<String>, AllocError>
    ensures { IfOk result (λ v. map string_bytes v.items ≡ file_names list.now) }
{
    let mut names = Vec::new(alloc);
    for file in list {
        let name = String::from_str(alloc, file.name.as_str())?;
        names.push(name)?;
    }
    Ok(names)
}

// Files of their own that read the same.
fn forked(alloc: Global, list: &[StoredFile]) -> Result<Vec<StoredFile>, AllocError>
    ensures { IfOk result (λ v. AreForks list.now v.items) }
{
    let mut files = Vec::new(alloc);
    for file in list {
        let name = String::from_str(alloc, file.name.as_str())?;
        let disk = file.disk.fork(alloc)?;
        files.push(StoredFile { name, disk })?;
    }
    Ok(files)
}

// The same paths once more.
fn copied(alloc: Global, all: &[Entered]) -> Result<Vec<Entered>, AllocError>
    ensures { IfOk result (λ v. map entry_of v.items ≡ map entry_of all.now) }
{
    let mut copies = Vec::new(alloc);
    for one in all {
        let path = String::from_str(alloc, one.path.as_str())?;
        copies.push(Entered {
            path,
            after_use: one.after_use,
        })?;
    }
    Ok(copies)
}

impl MemoryFolder {
    ghost use Rattle.wave_outside.specs.Folders.{no_entries};
    ghost use Rattle.wave_outside.specs.MemoryFolders.{folder_files, folder_calls, folder_log};
    ghost use Rattle.wave_outside.specs.Memory.{IsUncalled};

    /// The folder of these files; of two of one name the first counts. The calls whose numbers are in `failing` fail, counted from 0.
    pub fn new(alloc: Global, files: Vec<StoredFile>, failing: Vec<u64>) -> MemoryFolder
        ensures files { folder_files result ≡ files.items }
        ensures log { folder_log result ≡ no_entries }
        ensures calls { IsUncalled (folder_calls result) failing.items }
    {
        MemoryFolder {
            alloc,
            list: files,
            entered: Vec::new(alloc),
            used: false,
            calls: Calls::new(failing),
        }
    }

    /// The files, with those whose disks are handed out.
    pub fn files(&self) -> &[StoredFile]
        ensures { result.now ≡ folder_files self.now }
    {
        self.list.as_slice()
    }

    /// The paths that were to be entered, in order.
    pub fn entered(&self) -> &[Entered]
        ensures { map entry_of result.now ≡ (folder_log self.now).entries }
    {
        self.entered.as_slice()
    }

    // Keeps a path that is entered. Its files weren't used since.
    fn keep(&mut self, alloc: Global, path: &str) -> Result<(), AllocError>
        ensures kept { OnOk result (folder_log self.new ≡ one_entered path.now (folder_log self.old)) }
        ensures unkept { OnErr result (folder_log self.new ≡ folder_log self.old) }
        ensures files { folder_files self.new ≡ folder_files self.old }
        ensures calls { folder_calls self.new ≡ folder_calls self.old }
    {
        let path = String::from_str(alloc, path)?;
        let after_use = self.used;
        self.entered.push(Entered { path, after_use })?;
        self.used = false;
        Ok(())
    }

    // There is a file of the name, which is empty where there was none.
    fn make(&mut self, alloc: Global, name: &str) -> Result<(), FolderFault>
        ensures log { folder_log self.new ≡ folder_log self.old }
        ensures made { OnOk result (IsMade name.now (folder_files self.old) (folder_files self.new)) }
        ensures kept { OnErr result (folder_files self.new ≡ folder_files self.old) }
        ensures calls { folder_calls self.new ≡ folder_calls self.old }
        ensures fault { IfErr result (λ e. e ≢ HasFailed) }
    {
        if has(self.list.as_slice(), name) {
            return Ok(());
        }
        Ok(push_empty(alloc, &mut self.list, name)?)
    }

    // The disk of a file that is there. An empty one stands in its place.
    fn take(&mut self, name: &str) -> MemoryDisk
        requires there { has_file (folder_files self.old) name.now ≡ true }
        ensures value { file_in (folder_files self.old) name.now ≡ Some result }
        ensures others { IsElsewhere name.now (file_in (folder_files self.old)) (file_in (folder_files self.new)) }
        ensures names { IsSame (has_file (folder_files self.old)) (has_file (folder_files self.new)) }
        ensures log { folder_log self.new ≡ folder_log self.old }
        ensures calls { folder_calls self.new ≡ folder_calls self.old }
    {
        let empty = empty(self.alloc);
        match exchange(self.list.as_mut_slice(), name, empty) {
            Some(disk) => disk,
            None => unreachable!(),
        }
    }
}

impl Folder for MemoryFolder {
    ghost use Rattle.std.specs.Prelude.{◌≡◌, true};
    ghost use Rattle.wave_outside.specs.MemoryFolders.{file_in, has_file, folder_files, folder_calls, folder_log};

    type Disk = MemoryDisk;

    ghost tells = { true };

    ghost log = { λ f. folder_log f };

    ghost files = { λ f n. file_in (folder_files f) n };

    ghost room = { λ f n. has_file (folder_files f) n };

    ghost faults = { λ f. (folder_calls f).faults.count };

    fn enter(&mut self, alloc: Global, path: &str) -> Result<(), FolderFault> {
        let made = self.calls.make();
        self.keep(alloc, path)?;
        made?;
        Ok(())
    }

    fn names(&mut self, alloc: Global) -> Result<Vec<String>, FolderFault> {
        self.used = true;
        self.calls.make()?;
        Ok(names_of(alloc, self.list.as_slice())?)
    }

    fn file(&mut self, alloc: Global, name: &str) -> Result<MemoryDisk, FolderFault> {
        self.used = true;
        self.calls.make()?;
        self.make(alloc, name)?;
        let (disk, _faults) = uncounted(self.take(name));
        Ok(disk)
    }

    fn fresh(&mut self, alloc: Global, name: &str) -> Result<MemoryDisk, FolderFault> {
        self.used = true;
        self.calls.make()?;
        self.make(alloc, name)?;
        Ok(empty(self.alloc))
    }

    fn put(&mut self, name: &str, disk: MemoryDisk) {
        self.used = true;
        let (disk, faults) = uncounted(disk);
        let _before = exchange(self.list.as_mut_slice(), name, disk);
        self.calls.faults.add(faults);
    }

    fn another(&self, alloc: Global) -> Result<MemoryFolder, FolderFault> {
        let list = forked(alloc, self.list.as_slice())?;
        let entered = copied(alloc, self.entered.as_slice())?;
        let mut failing = Vec::new(alloc);
        failing.extend_from_slice(self.calls.failing.as_slice())?;
        Ok(MemoryFolder {
            alloc,
            list,
            entered,
            used: self.used,
            calls: Calls::new(failing),
        })
    }
}

// The disk, with no fault counted, and how many were.
fn uncounted(disk: MemoryDisk) -> (MemoryDisk, u64)
    ensures same { IsSameFile (disk_view disk) (disk_view result.0) }
    ensures uncounted { (disk_view result.0).faults ≡ 0 }
    ensures faults { result.1 ≡ (disk_view disk).faults }
{
    let mut disk = disk;
    let faults = disk.take_faults();
    (disk, faults)
}
