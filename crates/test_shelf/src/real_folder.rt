// A folder of the operating system: a shelf writes a history there, another reads it, and so do shelves over the file cut at every byte.
use crate::first_delta::{is_submitted, name};
use delta_history::Copies;
use std::alloc::Global;
use std::fs;
use std::test::Fail;
use wave_files::FileFolder;
use wave_outside::{Folder, FolderFault, MemoryFolder};
use wavelet_shelf::{Shelf, ShelfFault, file_name};

const TOP: &str = "shelf_tests_folder";

const FOLDER: &str = "shelf_tests_folder/below/it";

// The bytes of the file of a history with the first delta.
fn stored(alloc: Global) -> Result<Vec<u8>, Fail> {
    let folder = MemoryFolder::new(alloc, Vec::new(alloc), Vec::new(alloc));
    let mut shelf = Shelf::over(alloc, folder);
    is_submitted(alloc, &mut shelf)?;
    match shelf.close() {
        Some(folder) => match folder.files().first() {
            Some(file) => Ok(file.disk.image(alloc, u64::MAX)?),
            None => Ok(Vec::new(alloc)),
        },
        None => Ok(Vec::new(alloc)),
    }
}

// The folder, which is made where it isn't there, with those above it.
fn entered(rt: &HostRuntime) -> Result<FileFolder<HostRuntime>, Fail> {
    let alloc = rt.alloc();
    let mut folder = FileFolder::new(rt.clone()?, alloc);
    folder.enter(alloc, FOLDER)?;
    Ok(folder)
}

fn is_written(rt: &HostRuntime) -> Result<bool, Fail> {
    let alloc = rt.alloc();
    let mut shelf = Shelf::over(alloc, entered(rt)?);
    is_submitted(alloc, &mut shelf)
}

// The version that is read, or the offset of the damage.
fn read_history(rt: &HostRuntime) -> Result<Result<u64, u64>, Fail> {
    let alloc = rt.alloc();
    let mut shelf = Shelf::over(alloc, entered(rt)?);
    match shelf.load(alloc) {
        Ok(()) => Ok(Ok(match shelf.copy_of(&name(alloc)?) {
            Some(history) => history.head().version,
            None => 0,
        })),
        Err(ShelfFault::Damaged { offset, .. }) => Ok(Err(offset)),
        Err(_) => Ok(Err(u64::MAX)),
    }
}

// The header ends after the first record's gate, at 37, and the file is whole with 134 bytes.
fn expected(length: usize) -> Result<u64, u64> {
    match length {
        0..=1 => Ok(0),
        2..=37 => Err(0),
        38..=133 => Err(37),
        _ => Ok(2),
    }
}

// Whether a folder that is entered can't be entered a second time.
fn is_locked(rt: &HostRuntime) -> Result<bool, Fail> {
    let alloc = rt.alloc();
    let _first = entered(rt)?;
    let mut second = FileFolder::new(rt.clone()?, alloc);
    Ok(second.enter(alloc, FOLDER) == Err(FolderFault::Failed))
}

#[test]
fn a_real_folder_is_read_again(rt: HostRuntime) -> Result<(), Fail> {
    let alloc = rt.alloc();
    let _before = fs::remove_dir_all(&rt, TOP);
    assert!(rt; is_written(&rt)?);
    let other = format!(in alloc; "{}/old.wave", FOLDER)?;
    fs::write(&rt, other.as_str(), b"\x01W".as_slice())?;
    assert!(rt; is_locked(&rt)?);
    assert!(rt; read_history(&rt)? == Ok(2));
    let file = file_name(alloc, &name(alloc)?)?;
    let path = format!(in alloc; "{}/{}", FOLDER, file.as_str())?;
    let bytes = fs::read(&rt, path.as_str())?;
    assert!(rt; bytes == stored(alloc)?);
    for length in 0..=bytes.len() {
        fs::write(&rt, path.as_str(), &bytes[..length])?;
        assert!(rt; read_history(&rt)? == expected(length), "cut to {length}");
    }
    fs::remove_dir_all(&rt, TOP)?;
    Ok(())
}
