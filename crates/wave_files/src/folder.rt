// A folder of files.
ghost use Rattle.std.specs.Prelude.{◌≡◌, ◌≤◌};
ghost use Rattle.wave_outside.specs.Counts.{Rose};
ghost use Rattle.wave_outside.specs.declared.folder.FolderFault.TheVariants.{Failed as HasFailed};

use crate::FileDisk;
use std::alloc::{AllocError, Global};
use std::fs::{File, OpenOptions, create_dir, metadata, read_dir};
use std::io;
use std::rt::Files;
use wave_outside::{Folder, FolderFault};

/// A folder of the operating system, which is the working directory until one is entered. The one that is entered is locked, so that
/// no other process enters it.
#[derive(Drop)]
pub struct FileFolder<R: Files<File = File> + Alloc<A = Global> + Clone + Drop> {
    rt: R,
    path: String,
    lock: Option<File>,
    faults: u64,
}

impl<R: Files<File = File> + Alloc<A = Global> + Clone + Drop> FileFolder<R> {
    /// The working directory, with no fault counted.
    pub fn new(rt: R, alloc: Global) -> Self {
        FileFolder {
            rt,
            path: String::new(alloc),
            lock: None,
            faults: 0,
        }
    }

    // Counts a fault, but for want of memory.
    fn fault(&mut self, error: io::Error) -> FolderFault
        ensures later { self.old.faults ≤ self.new.faults }
        ensures failed { result ≡ HasFailed → Rose self.old.faults self.new.faults }
    {
        if error.kind() == io::ErrorKind::OutOfMemory {
            return FolderFault::Memory;
        }
        self.faults = self.faults.saturating_add(1);
        FolderFault::Failed
    }

    // The path of a file.
    fn path_of(&self, alloc: Global, name: &str) -> Result<String, AllocError> {
        if self.path.is_empty() {
            return String::from_str(alloc, name);
        }
        format!(in alloc; "{}/{}", self.path.as_str(), name)
    }
}

// What the folder synced has in it stays there after a crash.
fn sync_folder<R: Files<File = File>>(rt: &R, path: &str) -> io::Result<()> {
    let path = if path.is_empty() { "." } else { path };
    File::open(rt, path)?.sync_all()
}

// The folder in which the path's last name stands.
fn parent(path: &str) -> &str {
    match path.rsplit_once('/') {
        Some(("", _)) => "/",
        Some((parent, _)) => parent,
        None => "",
    }
}

// Makes the folder where it isn't there, in one that is, also after a crash.
fn make_in_parent<R: Files<File = File>>(rt: &R, path: &str) -> io::Result<()> {
    match create_dir(rt, path) {
        Ok(()) => sync_folder(rt, parent(path)),
        Err(error) => match metadata(rt, path) {
            Ok(found) if found.is_dir() => Ok(()),
            _ => Err(error),
        },
    }
}

// Makes the folder where it isn't there, and so each on the way.
fn make_all<R: Files<File = File>>(rt: &R, path: &str) -> io::Result<()> {
    for end in 1..=path.len() {
        match path.split_at_checked(end) {
            Some((front, rest)) if rest.is_empty() || rest.starts_with('/') => {
                make_in_parent(rt, front)?;
            }
            _ => {}
        }
    }
    Ok(())
}

// The folder, which is made where it isn't there, as nobody else has it who asks for its lock.
fn locked<R: Files<File = File>>(rt: &R, path: &str) -> io::Result<File> {
    make_all(rt, path)?;
    let folder = File::open(rt, path)?;
    folder.try_lock()?;
    Ok(folder)
}

// Opens the file, and makes it where it isn't there.
fn open<R: Files<File = File>>(rt: &R, path: &str) -> io::Result<File> {
    OpenOptions::new()
        .read(true)
        .write(true)
        .create(true)
        .open(rt, path)
}

// The file without bytes, whatever stood there, also after a crash.
fn open_fresh<R: Files<File = File>>(rt: &R, folder: &str, path: &str) -> io::Result<File> {
    let file = OpenOptions::new()
        .read(true)
        .write(true)
        .create(true)
        .truncate(true)
        .open(rt, path)?;
    file.sync_all()?;
    sync_folder(rt, folder)?;
    Ok(file)
}

// The names of the files. One that isn't text is passed over.
fn names_in<R: Files<File = File> + Alloc<A = Global> + Clone + Drop>(
    rt: &R,
    alloc: Global,
    path: &str,
) -> io::Result<Vec<String>> {
    let mut names = Vec::new(alloc);
    let path = if path.is_empty() { "." } else { path };
    for entry in read_dir(rt, path)? {
        match entry {
            Ok(entry) => names.push(String::from_str(alloc, entry.file_name())?)?,
            Err(error) if error.kind() == io::ErrorKind::InvalidFilename => {}
            Err(error) => return Err(error),
        }
    }
    Ok(names)
}

impl<R: Files<File = File> + Alloc<A = Global> + Clone + Drop> Folder for FileFolder<R> {
    ghost use Rattle.std.specs.Prelude.{false, true, None};
    ghost use Rattle.wave_outside.specs.Folders.{no_entries};

    type Disk = FileDisk;

    ghost tells = { false };

    ghost log = { λ _. no_entries };

    ghost files = { λ _ _. None };

    ghost room = { λ _ _. true };

    ghost faults = { λ f. f.faults };

    fn enter(&mut self, alloc: Global, path: &str) -> Result<(), FolderFault> {
        let text = String::from_str(alloc, path)?;
        match locked(&self.rt, path) {
            Ok(lock) => {
                self.path = text;
                self.lock = Some(lock);
                Ok(())
            }
            Err(error) => Err(self.fault(error)),
        }
    }

    fn names(&mut self, alloc: Global) -> Result<Vec<String>, FolderFault> {
        match names_in(&self.rt, alloc, self.path.as_str()) {
            Ok(names) => Ok(names),
            Err(error) => Err(self.fault(error)),
        }
    }

    fn file(&mut self, alloc: Global, name: &str) -> Result<FileDisk, FolderFault> {
        let path = self.path_of(alloc, name)?;
        match open(&self.rt, path.as_str()) {
            Ok(file) => Ok(FileDisk::new(file)),
            Err(error) => Err(self.fault(error)),
        }
    }

    fn fresh(&mut self, alloc: Global, name: &str) -> Result<FileDisk, FolderFault> {
        let path = self.path_of(alloc, name)?;
        match open_fresh(&self.rt, self.path.as_str(), path.as_str()) {
            Ok(file) => Ok(FileDisk::new(file)),
            Err(error) => Err(self.fault(error)),
        }
    }

    fn put(&mut self, _name: &str, disk: FileDisk) {
        self.faults = self.faults.saturating_add(disk.faults());
    }

    fn another(&self, alloc: Global) -> Result<Self, FolderFault> {
        let path = String::from_str(alloc, self.path.as_str())?;
        let Ok(rt) = self.rt.clone() else {
            return Err(FolderFault::Memory);
        };
        Ok(FileFolder {
            rt,
            path,
            lock: None,
            faults: 0,
        })
    }
}
