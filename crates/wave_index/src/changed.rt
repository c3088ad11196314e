// The changed versions of documents.
ghost use Rattle.std.specs.Prelude.{◌≡◌, cond, OnOk};
ghost use Rattle.std.specs.List.{All};
ghost use Rattle.doc_items.specs.Maps.{Key, same_text};
ghost use Rattle.wavelet_op.specs.Acts.{meaning, meanings, IsNormal, AreNormal};
ghost use Rattle.wave_index.specs.Changes.{changes, is_changed};
ghost use Rattle.wave_index.specs.Versions.{version_in, IsThere, HasRoom, KeepsAll};

use crate::changing::is_changing;
use doc_items::Memory;
use std::alloc::Global;
use std::collections::BTreeMap;
use wave_base::DocumentName;
use wavelet_op::WaveletOp;

/// The versions after the last deltas that changed documents, by name.
pub(crate) struct ChangedVersions {
    pub map: BTreeMap<DocumentName, u64>,
}

impl Drop for ChangedVersions {
    fn drop(self) {
        let ChangedVersions { map: _map } = self;
    }
}

impl ChangedVersions {
    /// No document changed.
    pub fn new(alloc: Global) -> ChangedVersions
        ensures { (d : Key) → version_in result.map d ≡ 0 }
    {
        ChangedVersions {
            map: BTreeMap::new(alloc),
        }
    }

    /// The changed version of a document; 0 where there is none.
    pub fn get(&self, name: &DocumentName) -> u64
        ensures { result ≡ version_in self.now.map name.now }
    {
        match self.map.get(name) {
            Some(version) => *version,
            None => 0,
        }
    }

    // Makes room for the version of a document.
    fn reserve(&mut self, alloc: Global, name: &DocumentName) -> Result<(), Memory>
        ensures same { KeepsAll self.old.map self.new.map }
        ensures room { OnOk result (IsThere self.new.map name.now) }
    {
        if self.map.contains_key(name) {
            return Ok(());
        }
        let name = name.copy(alloc)?;
        let _old = self.map.insert(name, 0)?;
        Ok(())
    }

    // Makes room for the version of the document that an operation is on.
    fn reserve_for(&mut self, alloc: Global, op: &WaveletOp) -> Result<(), Memory>
        ensures same { KeepsAll self.old.map self.new.map }
        ensures room { OnOk result (HasRoom self.new.map op.now) }
    {
        match op {
            WaveletOp::NoOp => Ok(()),
            WaveletOp::Add(_) => Ok(()),
            WaveletOp::Remove(_) => Ok(()),
            WaveletOp::Mutate { document, .. } => self.reserve(alloc, document),
            WaveletOp::SetRole { .. } => Ok(()),
        }
    }

    /// Makes room for the versions of the documents that operations are on. The versions stay.
    pub fn reserve_all(&mut self, alloc: Global, ops: &[WaveletOp]) -> Result<(), Memory>
        ensures same { KeepsAll self.old.map self.new.map }
        ensures room { OnOk result (All (HasRoom self.new.map) ops.now) }
    {
        for op in ops {
            self.reserve_for(alloc, op)?;
        }
        Ok(())
    }

    // The document changed last at this version.
    fn set(&mut self, name: &DocumentName, version: u64)
        requires { IsThere self.old.map name.now }
        ensures is { (d : Key) → version_in self.new.map d ≡ cond (same_text name.now d) version (version_in self.old.map d) }
        ensures stay { (d : Key) → IsThere self.old.map d → IsThere self.new.map d }
    {
        if let Some(place) = self.map.get_mut(name) {
            *place = version;
        }
    }

    // What an operation in normal form changes was changed last at this version.
    fn note(&mut self, op: &WaveletOp, version: u64)
        requires room { HasRoom self.old.map op.now }
        requires normal { IsNormal op.now }
        ensures is { (d : Key) → version_in self.new.map d ≡ cond (changes d (meaning op.now)) version (version_in self.old.map d) }
        ensures stay { (d : Key) → IsThere self.old.map d → IsThere self.new.map d }
    {
        if let WaveletOp::Mutate { document, op } = op {
            if is_changing(op) {
                self.set(document, version);
            }
        }
    }

    /// What operations in normal form change was changed last at this version.
    pub fn note_all(&mut self, ops: &[WaveletOp], version: u64)
        requires room { All (HasRoom self.old.map) ops.now }
        requires normal { AreNormal ops.now }
        ensures { (d : Key) → version_in self.new.map d ≡ cond (is_changed d (meanings ops.now)) version (version_in self.old.map d) }
    {
        for op in ops {
            self.note(op, version);
        }
    }
}
