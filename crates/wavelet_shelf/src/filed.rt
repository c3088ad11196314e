// A container with its file's name.
ghost use Rattle.std.specs.Prelude.{◌≡◌};

use disk_model::Disk;
use wavelet_container::Container;

/// A container, with the name of its file.
pub(crate) struct Filed<K: Disk> {
    pub file: String,
    pub container: Container<K>,
}

impl<K: Disk + Drop> Drop for Filed<K> {
    fn drop(self) {
        let Filed {
            file: _file,
            container: _container,
        } = self;
    }
}

impl<K: Disk> Filed<K> {
    /// The file's name and the container, by value.
    pub fn into_parts(self) -> (String, Container<K>)
        ensures { result ≡ (self.file, self.container) }
    {
        let Filed { file, container } = self;
        (file, container)
    }
}
