// A shelf as the copies of the wavelets that are hosted here.
ghost use Rattle.std.specs.Prelude.{◌≡◌, ◌≢◌, [], IfSome, IsSome, option_copied, slice_get};
ghost use Rattle.std.specs.Map.{keys_of};
ghost use Rattle.delta_history.specs.Copying.{AreAscending, IsKeptOutcome};
ghost use Rattle.wavelet_shelf.specs.Entries.{hosting};
ghost use Rattle.wavelet_shelf.specs.Hosting.{names_of};
ghost use Rattle.wavelet_shelf.specs.Shelves.{hosted_of, copies_of, outcome_of};

use crate::Shelf;
use crate::containers::Containers;
use crate::filed::Filed;
use delta_history::{Copies, History};
use disk_model::Disk;
use indexmap::IndexMap;
use indexmap::map::Slice;
use wave_base::{DeltaId, WaveletName};
use wave_outside::Folder;
use wavelet_op::Verdict;

// The name at a place among those that have a delta.
fn host_at<'a, K: Disk>(
    entries: Slice<'a, WaveletName, Filed<K>>,
    place: u64,
) -> Option<&'a WaveletName>
    ensures { option_copied result ≡ slice_get (names_of (hosting entries.entry)) place }
{
    let mut left = place;
    let mut rest = entries;
    while let Some(((name, filed), more)) = rest.split_first() {
        if !filed.container.history().deltas().is_empty() {
            if left == 0 {
                return Some(name);
            }
            left -= 1;
        }
        rest = more;
    }
    None
}

// The name at a place among all.
fn name_at<K: Disk>(map: &IndexMap<WaveletName, Filed<K>>, place: u64) -> Option<&WaveletName>
    ensures { option_copied result ≡ slice_get (keys_of map.now.entries) place }
{
    let (name, _) = map.get_index(place as usize)?;
    Some(name)
}

impl<K: Disk> Containers<K> {
    /// The name at a place among those that have a delta. Where all have one it is found at once.
    pub(crate) fn hosted(&self, place: u64) -> Option<&WaveletName>
        ensures { option_copied result ≡ slice_get (names_of (hosting self.now.map.entries)) place }
    {
        if self.begun {
            name_at(&self.map, place)
        } else {
            host_at(self.map.as_slice(), place)
        }
    }
}

impl<F: Folder> Copies for Shelf<F> {
    ghost use Rattle.std.specs.Prelude.{false};
    ghost use Rattle.wavelet_shelf.specs.Hosting.{names_of};
    ghost use Rattle.wavelet_shelf.specs.Shelves.{hosted_of, copies_of, outcome_of};

    ghost copies = { λ s n. copies_of s n };

    ghost hosts = { λ s. names_of (hosted_of s) };

    ghost drops = { λ _ _. false };

    ghost outcomes = { λ s n i. outcome_of s n i };

    fn copy_of(&self, name: &WaveletName) -> Option<&History> {
        let filed = self.containers.map.get(name)?;
        let history = filed.container.history();
        if history.deltas().is_empty() {
            None
        } else {
            Some(history)
        }
    }

    fn hosted(&self, place: u64) -> Option<&WaveletName> {
        self.containers.hosted(place)
    }

    fn dropped(&self, _name: &WaveletName) -> bool {
        false
    }

    fn outcome(&self, name: &WaveletName, id: &DeltaId) -> Option<Verdict> {
        let kept = self.copy_of(name)?.kept(id)?;
        Some(Verdict::Ack {
            at: kept.at,
            to: kept.to,
        })
    }
}

impl<F: Folder> Shelf<F> {
    ghost use Rattle.doc_items.specs.Maps.{Key};
    ghost use Rattle.wavelet_shelf.specs.Hosting.{copy_in, IsCopyOf, HaveDeltas};

    /// The law of a shelf's copies: they are its hosted histories, which have deltas, and whose names ascend.
    pub fn copies_are_hosted(&self)
        ensures copies { (n : Key) → IsCopyOf (copies_of self.now n) (copy_in (hosted_of self.now) n) }
        ensures deltas { HaveDeltas (hosted_of self.now) }
        ensures ascending { AreAscending (names_of (hosted_of self.now)) }
    {
        // For the proof: what containers keep of themselves.
        let _containers = &self.containers;
    }
}
