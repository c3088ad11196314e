// A folder in memory that fails where the file of a first delta is asked for.
use crate::first_delta::{first, is_submitted, name};
use std::alloc::Global;
use std::test::Fail;
use wave_outside::MemoryFolder;
use wavelet_container::SubmitFault;
use wavelet_shelf::Shelf;

fn failing(alloc: Global) -> Result<Shelf<MemoryFolder>, Fail> {
    let mut calls = Vec::new(alloc);
    calls.push(0)?;
    Ok(Shelf::over(alloc, MemoryFolder::new(alloc, Vec::new(alloc), calls)))
}

// Whether the first delta is refused for the folder's fault.
fn is_refused(alloc: Global, shelf: &mut Shelf<MemoryFolder>) -> Result<bool, Fail> {
    let name = name(alloc)?;
    let made = first(alloc, &name)?;
    Ok(match shelf.submit(alloc, &name, &made, 1000) {
        Err(SubmitFault::DiskFault) => true,
        _ => false,
    })
}

#[test]
fn a_first_delta_that_fails_leaves_no_file(rt: HostRuntime) -> Result<(), Fail> {
    let alloc = rt.alloc();
    let mut shelf = failing(alloc)?;
    assert!(rt; is_refused(alloc, &mut shelf)?);
    let folder = shelf.close();
    let left = match &folder {
        Some(folder) => folder.files().len(),
        None => 1,
    };
    assert!(rt; left == 0);
    let mut again = match folder {
        Some(folder) => Shelf::over(alloc, folder),
        None => Shelf::new(alloc),
    };
    assert!(rt; is_submitted(alloc, &mut again)?);
    Ok(())
}
