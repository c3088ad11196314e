// How often a word stands in the documents of wavelets.
ghost use Rattle.std.specs.Prelude.{◌≡◌, ◌+◌, ◌-◌, ℕ, ◌&&◌, false, nat_lt, cond, map, None, IsSome, IsTrue, IfOk, OnOk};
ghost use Rattle.std.specs.BTreeMap as tree;
ghost use Rattle.std.specs.Cmp.Lexicographic.{slice_cmp};
ghost use Rattle.std.specs.Map.{keys_of};
ghost use Rattle.std.specs.Ordering.{nat_cmp};
ghost use Rattle.doc_items.specs.Maps.{Key, same_text};
ghost use Rattle.document_words.specs.Places.{count_at, held_at, AreInOrder, is_among};

use crate::counts::DocumentCounts;
use doc_items::Memory;
use std::alloc::Global;
use std::collections::BTreeMap;
use wave_base::{DocumentName, WaveletName};

/// How often a word stands in each document of each wavelet.
pub(crate) struct WaveletCounts {
    pub wavelets: BTreeMap<WaveletName, DocumentCounts>,
}

impl Drop for WaveletCounts {
    fn drop(self) {
        let WaveletCounts {
            wavelets: _wavelets,
        } = self;
    }
}

impl WaveletCounts {
    /// In none.
    pub fn new(alloc: Global) -> WaveletCounts
        ensures { (n d : Key) → count_at result n d ≡ 0 }
    {
        WaveletCounts {
            wavelets: BTreeMap::new(alloc),
        }
    }

    /// Whether no wavelet is kept.
    pub fn is_empty(&self) -> bool
        ensures { IsTrue result → (n d : Key) → count_at self.now n d ≡ 0 }
    {
        self.wavelets.is_empty()
    }

    /// The wavelets that are kept, in byte order. The error is want of memory.
    pub fn names(&self, alloc: Global) -> Result<Vec<&WaveletName>, Memory>
        ensures value { IfOk result (λ list. map (λ n. n.now) list.items ≡ keys_of self.entry.now.wavelets.entries) }
        ensures order { OnOk result (AreInOrder (keys_of self.entry.now.wavelets.entries)) }
        ensures rest { OnOk result
            ((n d : Key) → is_among n (keys_of self.entry.now.wavelets.entries) ≡ false → count_at self.entry.now n d ≡ 0) }
    {
        let mut list = Vec::new(alloc);
        for name in self.wavelets.keys() {
            list.push(name)?;
        }
        Ok(list)
    }

    /// The documents of a wavelet in which it stands, in byte order. The error is want of memory.
    pub fn holders(&self, alloc: Global, name: &WaveletName) -> Result<Vec<&DocumentName>, Memory>
        ensures value { IfOk result (λ list. map (λ d. d.now) list.items ≡ held_at self.entry.now name.now) }
        ensures order { OnOk result (AreInOrder (held_at self.entry.now name.now)) }
        ensures among { OnOk result
            ((d : Key) → is_among d (held_at self.entry.now name.now) ≡ nat_lt 0 (count_at self.entry.now name.now d)) }
    {
        match self.wavelets.get(name) {
            Some(counts) => counts.holders(alloc),
            None => Ok(Vec::new(alloc)),
        }
    }

    // Once more in a document of a wavelet that is kept.
    fn put_again(
        &mut self,
        alloc: Global,
        name: &WaveletName,
        document: &DocumentName,
    ) -> Result<(), Memory>
        requires { IsSome (tree.get (slice_cmp nat_cmp) self.old.wavelets name.now) }
        ensures { OnOk result ((n d : Key) → count_at self.new n d ≡ count_at self.old n d
            + cond (same_text name.now n && same_text document.now d) 1 0) }
    {
        let Some(counts) = self.wavelets.get_mut(name) else {
            return Ok(());
        };
        counts.put(alloc, document)
    }

    // Once in a document of a wavelet that isn't kept.
    fn put_first(
        &mut self,
        alloc: Global,
        name: &WaveletName,
        document: &DocumentName,
    ) -> Result<(), Memory>
        requires { tree.get (slice_cmp nat_cmp) self.old.wavelets name.now ≡ None }
        ensures { OnOk result ((n d : Key) → count_at self.new n d ≡ count_at self.old n d
            + cond (same_text name.now n && same_text document.now d) 1 0) }
    {
        let mut counts = DocumentCounts::new(alloc);
        counts.put(alloc, document)?;
        let name = name.copy(alloc)?;
        let _old = self.wavelets.insert(name, counts)?;
        Ok(())
    }

    /// Once more in a document of a wavelet. The error is want of memory.
    pub fn put(
        &mut self,
        alloc: Global,
        name: &WaveletName,
        document: &DocumentName,
    ) -> Result<(), Memory>
        ensures { OnOk result ((n d : Key) → count_at self.new n d ≡ count_at self.old n d
            + cond (same_text name.now n && same_text document.now d) 1 0) }
    {
        if self.wavelets.contains_key(name) {
            self.put_again(alloc, name, document)
        } else {
            self.put_first(alloc, name, document)
        }
    }

    // A wavelet isn't kept, if no document of it is.
    fn forget_empty(&mut self, name: &WaveletName)
        ensures { (n d : Key) → count_at self.new n d ≡ count_at self.old n d }
    {
        let Some(counts) = self.wavelets.get(name) else {
            return;
        };
        if counts.is_empty() {
            let _old = self.wavelets.remove(name);
        }
    }

    // Once less in a document of a wavelet.
    fn lower(&mut self, name: &WaveletName, document: &DocumentName)
        ensures { (n d : Key) → count_at self.new n d
            ≡ count_at self.old n d - cond (same_text name.now n && same_text document.now d) 1 0 }
    {
        if let Some(counts) = self.wavelets.get_mut(name) {
            counts.take_out(document);
        }
    }

    /// Once less in a document of a wavelet, which isn't kept where it then stands in none.
    pub fn take_out(&mut self, name: &WaveletName, document: &DocumentName)
        ensures { (n d : Key) → count_at self.new n d
            ≡ count_at self.old n d - cond (same_text name.now n && same_text document.now d) 1 0 }
    {
        self.lower(name, document);
        self.forget_empty(name);
    }
}
