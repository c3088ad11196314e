// A walk over the histories of a shelf.
ghost use Rattle.std.specs.Prelude.{◌≡◌, length, option_copied, slice_get};
ghost use Rattle.std.specs.Option.{option_map};
ghost use Rattle.wavelet_shelf.specs.Walks.{histories_of, as_hosted};

use crate::Shelf;
use delta_history::History;
use wave_outside::Folder;

impl<F: Folder> Shelf<F> {
    /// The number of histories, of which some may have no delta.
    pub fn count(&self) -> usize
        ensures { result ≡ length (histories_of self.now) }
    {
        self.containers.map.len()
    }

    /// The history at a place in byte order of names, which may have no delta; None exactly where the place isn't below their number.
    pub fn history(&self, place: usize) -> Option<&History>
        ensures { option_map as_hosted (option_copied result) ≡ slice_get (histories_of self.now) place }
    {
        let (_, filed) = self.containers.map.get_index(place)?;
        Some(filed.container.history())
    }
}
