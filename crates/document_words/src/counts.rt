// How often a word stands in documents.
ghost use Rattle.std.specs.Prelude.{◌≡◌, ◌+◌, ◌-◌, ◌<◌, ℕ, nat_lt, cond, map, IsTrue, IfOk, OnOk};
ghost use Rattle.doc_items.specs.Maps.{Key, same_text};
ghost use Rattle.document_words.specs.Places.{count_of, held, AreInOrder, is_among};

use doc_items::Memory;
use std::alloc::{AllocError, Global};
use std::collections::BTreeMap;
use wave_base::DocumentName;

/// How often a word stands in each document.
pub(crate) struct DocumentCounts {
    pub counts: BTreeMap<DocumentName, u64>,
}

impl Drop for DocumentCounts {
    fn drop(self) {
        let DocumentCounts { counts: _counts } = self;
    }
}

impl DocumentCounts {
    /// In none.
    pub fn new(alloc: Global) -> DocumentCounts
        ensures { (q : Key) → count_of result q ≡ 0 }
    {
        DocumentCounts {
            counts: BTreeMap::new(alloc),
        }
    }

    /// Whether no document is kept.
    pub fn is_empty(&self) -> bool
        ensures { IsTrue result → (q : Key) → count_of self.now q ≡ 0 }
    {
        self.counts.is_empty()
    }

    /// The documents in which it stands, in byte order. The error is want of memory.
    pub fn holders(&self, alloc: Global) -> Result<Vec<&DocumentName>, Memory>
        ensures value { IfOk result (λ list. map (λ d. d.now) list.items ≡ held self.entry.now) }
        ensures order { OnOk result (AreInOrder (held self.entry.now)) }
        ensures among { OnOk result ((d : Key) → is_among d (held self.entry.now) ≡ nat_lt 0 (count_of self.entry.now d)) }
    {
        let mut list = Vec::new(alloc);
        for (document, count) in self.counts.iter() {
            if *count > 0 {
                list.push(document)?;
            }
        }
        Ok(list)
    }

    // How often in a document.
    fn get(&self, document: &DocumentName) -> u64
        ensures { result ≡ count_of self.now document.now }
    {
        match self.counts.get(document) {
            Some(count) => *count,
            None => 0,
        }
    }

    // So often in a document that is kept.
    fn set(&mut self, document: &DocumentName, count: u64)
        requires { 0 < count_of self.old document.now }
        ensures { (q : Key) → count_of self.new q ≡ cond (same_text document.now q) count (count_of self.old q) }
    {
        if let Some(place) = self.counts.get_mut(document) {
            *place = count;
        }
    }

    // Once in a document in which it didn't stand. The error is want of memory.
    fn put_first(&mut self, alloc: Global, document: &DocumentName) -> Result<(), Memory>
        ensures { OnOk result ((q : Key) → count_of self.new q ≡ cond (same_text document.now q) 1 (count_of self.old q)) }
    {
        let document = document.copy(alloc)?;
        let _old = self.counts.insert(document, 1)?;
        Ok(())
    }

    // Nowhere in a document.
    fn forget(&mut self, document: &DocumentName)
        ensures { (q : Key) → count_of self.new q ≡ cond (same_text document.now q) 0 (count_of self.old q) }
    {
        let _old = self.counts.remove(document);
    }

    /// Once more in a document. The error is want of memory.
    pub fn put(&mut self, alloc: Global, document: &DocumentName) -> Result<(), Memory>
        ensures { OnOk result ((q : Key) → count_of self.new q ≡ count_of self.old q + cond (same_text document.now q) 1 0) }
    {
        let count = self.get(document);
        if count == 0 {
            return self.put_first(alloc, document);
        }
        match count.checked_add(1) {
            Some(more) => {
                self.set(document, more);
                Ok(())
            }
            None => Err(AllocError),
        }
    }

    /// Once less in a document.
    pub fn take_out(&mut self, document: &DocumentName)
        ensures { (q : Key) → count_of self.new q ≡ count_of self.old q - cond (same_text document.now q) 1 0 }
    {
        let count = self.get(document);
        if count > 1 {
            self.set(document, count - 1);
        } else {
            self.forget(document);
        }
    }
}
