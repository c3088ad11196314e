// Shelves that are new.
ghost use Rattle.std.specs.Prelude.{◌≡◌, [], Some, None, IsTrue, is_some, option_copied};
ghost use Rattle.wavelet_shelf.specs.Shelves.{in_folder, entries_of, container_in, hosted_of, IsKept};

use crate::Shelf;
use crate::containers::Containers;
use std::alloc::Global;
use wave_base::WaveletName;
use wave_outside::Folder;
use wavelet_container::Container;

impl<F: Folder + Drop> Shelf<F> {
    /// A shelf without histories and without a folder.
    pub fn new(alloc: Global) -> Shelf<F>
        ensures plain { in_folder result ≡ None }
        ensures empty { entries_of result ≡ [] }
        ensures hosted { hosted_of result ≡ [] }
    {
        Shelf {
            folder: None,
            containers: Containers::new(alloc),
        }
    }

    /// A shelf without histories, over a folder.
    pub fn over(alloc: Global, folder: F) -> Shelf<F>
        ensures folder { in_folder result ≡ Some folder }
        ensures empty { entries_of result ≡ [] }
        ensures hosted { hosted_of result ≡ [] }
        ensures kept { IsTrue F.Disk.tells → IsKept result }
    {
        Shelf {
            folder: Some(folder),
            containers: Containers::new(alloc),
        }
    }

    /// Whether the shelf is over a folder.
    pub fn is_stored(&self) -> bool
        ensures { result ≡ is_some (in_folder self.now) }
    {
        self.folder.is_some()
    }
}
