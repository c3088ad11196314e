// What a user has read.
ghost use Rattle.std.specs.Prelude.{◌≡◌, ℕ, cond, OnOk, OnErr};
ghost use Rattle.doc_items.specs.Maps.{Key, same_text};
ghost use Rattle.wave_index.specs.Marks.{mark_in};

use doc_items::Memory;
use std::alloc::Global;
use std::collections::BTreeMap;
use wave_base::WaveletName;

/// The version up to which each wavelet is read, 0 where none was set.
pub struct Marks {
    pub(crate) versions: BTreeMap<WaveletName, u64>,
}

impl Drop for Marks {
    fn drop(self) {
        let Marks {
            versions: _versions,
        } = self;
    }
}

impl Marks {
    /// No wavelet is read.
    pub fn new(alloc: Global) -> Marks
        ensures { (n : Key) → mark_in result n ≡ 0 }
    {
        Marks {
            versions: BTreeMap::new(alloc),
        }
    }

    /// The version up to which the wavelet is read.
    pub fn get(&self, name: &WaveletName) -> u64
        ensures { result ≡ mark_in self.now name.now }
    {
        match self.versions.get(name) {
            Some(version) => *version,
            None => 0,
        }
    }

    /// The wavelet is read up to this version, which may be below the one before. After want of memory all is as it was.
    pub fn set(&mut self, alloc: Global, name: &WaveletName, version: u64) -> Result<(), Memory>
        ensures ok { OnOk result ((n : Key) → mark_in self.new n ≡ cond (same_text name.now n) version (mark_in self.old n)) }
        ensures err { OnErr result ((n : Key) → mark_in self.new n ≡ mark_in self.old n) }
    {
        let name = name.copy(alloc)?;
        let _old = self.versions.insert(name, version)?;
        Ok(())
    }
}
