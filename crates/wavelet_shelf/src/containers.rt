// Containers by name.
ghost use Rattle.std.specs.Prelude.{◌≡◌, true};
ghost use Rattle.std.specs.Coded.{→_prop};
ghost use Rattle.wavelet_shelf.specs.Entries.{AreInOrder, AreInOrder-prop, HaveADelta, HaveADelta-prop};

use crate::filed::Filed;
use disk_model::Disk;
use indexmap::IndexMap;
use wave_base::WaveletName;

/// Containers, in byte order of their names.
#[derive(Drop)]
pub(crate) struct Containers<K: Disk> {
    pub map: IndexMap<WaveletName, Filed<K>>,
    // Whether each surely has a delta.
    pub begun: bool,
    ghost in_order: { AreInOrder map.entries } by { AreInOrder-prop map.entries },
    ghost all_begun: { begun ≡ true → HaveADelta map.entries } by { →_prop (HaveADelta-prop map.entries) },
}
