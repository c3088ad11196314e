ghost use Rattle.wavelet_shelf.specs.Entries.{FitFolder, FitFolder-prop};

use crate::containers::Containers;
use wave_outside::Folder;

/// The histories of wavelets at their host, by name in byte order. Over a folder each stands in a file of its own.
#[derive(Drop)]
pub struct Shelf<F: Folder> {
    pub(crate) folder: Option<F>,
    pub(crate) containers: Containers<F::Disk>,
    ghost fit: { FitFolder F.room folder containers.map.entries } by { FitFolder-prop F.room folder containers.map.entries },
}
