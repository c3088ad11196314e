// What is done with containers by name.
ghost use Rattle.std.specs.Prelude.{◌≡◌, ◌==◌, ◌<◌, ◌++◌, ◌∷◌, [], true, false, length, None, is_some, IfNone, IfSome, OnOk};
ghost use Rattle.std.specs.Cmp.Lexicographic.{pointwise};
ghost use Rattle.std.specs.Map.{lookup};
ghost use Rattle.doc_items.specs.Maps.{Key};
ghost use Rattle.indexmap.specs.IndexMap.{spare};
ghost use Rattle.wavelet_container.specs.Containers.{history_of};
ghost use Rattle.wavelet_shelf.specs.Entries.{IsNamed, IsPut};
ghost use Rattle.wavelet_shelf.specs.Steps.{IsAnswered};

use crate::containers::Containers;
use crate::filed::Filed;
use crate::taking::taken;
use disk_model::Disk;
use doc_items::Memory;
use indexmap::IndexMap;
use std::alloc::Global;
use wave_base::WaveletName;
use wavelet_container::SubmitFault;
use wavelet_op::{Submission, Verdict};

// Whether each surely has a delta, with one container more.
fn is_begun_with<K: Disk>(begun: bool, filed: &Filed<K>) -> bool
    ensures before { result ≡ true → begun ≡ true }
    ensures this { result ≡ true → (length (history_of filed.now.container).deltas == 0) ≡ false }
{
    begun && !filed.container.history().deltas().is_empty()
}

impl<K: Disk + Drop> Containers<K> {
    /// No containers.
    pub fn new(alloc: Global) -> Containers<K>
        ensures { result.map.entries ≡ [] }
    {
        Containers {
            map: IndexMap::new(alloc),
            begun: true,
        }
    }

    /// Whether there is a container of the name.
    pub fn has(&self, name: &WaveletName) -> bool
        ensures { result ≡ is_some (lookup (pointwise ◌==◌ name.now) self.now.map.entries) }
    {
        self.map.contains_key(name)
    }

    /// The verdict of the container of this name.
    pub fn submit(
        &mut self,
        alloc: Global,
        name: &WaveletName,
        submission: &Submission,
        time: u64,
    ) -> Result<Verdict, SubmitFault>
        requires { is_some (lookup (pointwise ◌==◌ name.now) self.old.map.entries) ≡ true }
        ensures { IsAnswered name.now submission.now time self.old.map.entries self.new.map.entries result }
    {
        match self.map.get_mut(name) {
            Some(filed) => taken(alloc, &mut filed.container, submission, time),
            None => unreachable!(),
        }
    }

    /// Makes room for one more container. The error is want of memory.
    pub fn reserve(&mut self) -> Result<(), Memory>
        ensures room { OnOk result (0 < spare self.new.map) }
        ensures same { self.new.map.entries ≡ self.old.map.entries }
    {
        self.map.reserve(1)
    }

    /// Puts one more container into the room that is there.
    pub fn put(&mut self, name: WaveletName, filed: Filed<K>)
        requires named { IsNamed (name, filed) }
        requires absent { lookup (pointwise ◌==◌ name) self.old.map.entries ≡ None }
        requires room { 0 < spare self.old.map }
        ensures { IsPut name filed self.old.map.entries self.new.map.entries }
    {
        let begun = is_begun_with(self.begun, &filed);
        let _before = self.map.insert_sorted(name, filed);
        self.begun = begun;
    }

    /// Takes the last one away.
    pub fn pop(&mut self) -> Option<(WaveletName, Filed<K>)>
        ensures none { IfNone result (self.old.map.entries ≡ []) }
        ensures last { IfSome result (λ e. self.old.map.entries ≡ self.new.map.entries ++ e ∷ []) }
        ensures empty { IfNone result (self.new.map.entries ≡ []) }
    {
        self.map.pop()
    }
}
