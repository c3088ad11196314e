// In which documents of which wavelets words stand.
ghost use Rattle.std.specs.Prelude.{◌≡◌, ◌+◌, ◌-◌, ℕ, ◌&&◌, false, nat_lt, cond, map, None, IsSome, IfOk, OnOk};
ghost use Rattle.std.specs.BTreeMap as tree;
ghost use Rattle.std.specs.Cmp.Lexicographic.{slice_cmp};
ghost use Rattle.std.specs.Ordering.{nat_cmp};
ghost use Rattle.doc_items.specs.Maps.{Key, same_text};
ghost use Rattle.document_words.specs.Places.{count_in, holders, wavelets_of, AreInOrder, is_among};
ghost use Rattle.document_words.specs.Words.{occurrences};

use crate::Word;
use crate::wavelets::WaveletCounts;
use doc_items::Memory;
use std::alloc::Global;
use std::collections::BTreeMap;
use wave_base::{DocumentName, WaveletName};

/// Words with the documents in which they stand, and how often.
pub struct WordPlaces {
    pub(crate) words: BTreeMap<Word, WaveletCounts>,
}

impl Drop for WordPlaces {
    fn drop(self) {
        let WordPlaces { words: _words } = self;
    }
}

impl WordPlaces {
    /// No word.
    pub fn new(alloc: Global) -> WordPlaces
        ensures { (w n d : Key) → count_in result w n d ≡ 0 }
    {
        WordPlaces {
            words: BTreeMap::new(alloc),
        }
    }

    /// The wavelets that are kept for a word, in byte order; it stands in no document of another. The error is want of memory.
    pub fn wavelets(&self, alloc: Global, word: &Word) -> Result<Vec<&WaveletName>, Memory>
        ensures value { IfOk result (λ list. map (λ n. n.now) list.items ≡ wavelets_of self.entry.now word.now) }
        ensures order { OnOk result (AreInOrder (wavelets_of self.entry.now word.now)) }
        ensures rest { OnOk result
            ((n d : Key) → is_among n (wavelets_of self.entry.now word.now) ≡ false → count_in self.entry.now word.now n d ≡ 0) }
    {
        match self.words.get(word) {
            Some(counts) => counts.names(alloc),
            None => Ok(Vec::new(alloc)),
        }
    }

    /// The documents of a wavelet in which a word stands, in byte order. The error is want of memory.
    pub fn holders(
        &self,
        alloc: Global,
        word: &Word,
        name: &WaveletName,
    ) -> Result<Vec<&DocumentName>, Memory>
        ensures value { IfOk result (λ list. map (λ d. d.now) list.items ≡ holders self.entry.now word.now name.now) }
        ensures order { OnOk result (AreInOrder (holders self.entry.now word.now name.now)) }
        ensures among { OnOk result
            ((d : Key) → is_among d (holders self.entry.now word.now name.now) ≡ nat_lt 0 (count_in self.entry.now word.now name.now d)) }
    {
        match self.words.get(word) {
            Some(counts) => counts.holders(alloc, name),
            None => Ok(Vec::new(alloc)),
        }
    }

    // A word that is kept stands once more in a document.
    fn put_again(
        &mut self,
        alloc: Global,
        word: &Word,
        name: &WaveletName,
        document: &DocumentName,
    ) -> Result<(), Memory>
        requires { IsSome (tree.get (slice_cmp nat_cmp) self.old.words word.now) }
        ensures { OnOk result ((w n d : Key) → count_in self.new w n d ≡ count_in self.old w n d
            + cond (same_text word.now w && (same_text name.now n && same_text document.now d)) 1 0) }
    {
        let Some(counts) = self.words.get_mut(word) else {
            return Ok(());
        };
        counts.put(alloc, name, document)
    }

    // A word that isn't kept stands once in a document.
    fn put_first(
        &mut self,
        alloc: Global,
        word: &Word,
        name: &WaveletName,
        document: &DocumentName,
    ) -> Result<(), Memory>
        requires { tree.get (slice_cmp nat_cmp) self.old.words word.now ≡ None }
        ensures { OnOk result ((w n d : Key) → count_in self.new w n d ≡ count_in self.old w n d
            + cond (same_text word.now w && (same_text name.now n && same_text document.now d)) 1 0) }
    {
        let mut counts = WaveletCounts::new(alloc);
        counts.put(alloc, name, document)?;
        let word = word.copy(alloc)?;
        let _old = self.words.insert(word, counts)?;
        Ok(())
    }

    // The word stands once more in a document.
    fn put(
        &mut self,
        alloc: Global,
        word: &Word,
        name: &WaveletName,
        document: &DocumentName,
    ) -> Result<(), Memory>
        ensures { OnOk result ((w n d : Key) → count_in self.new w n d ≡ count_in self.old w n d
            + cond (same_text word.now w && (same_text name.now n && same_text document.now d)) 1 0) }
    {
        if self.words.contains_key(word) {
            self.put_again(alloc, word, name, document)
        } else {
            self.put_first(alloc, word, name, document)
        }
    }

    // The word isn't kept, if no document with it is.
    fn forget_empty(&mut self, word: &Word)
        ensures { (w n d : Key) → count_in self.new w n d ≡ count_in self.old w n d }
    {
        let Some(counts) = self.words.get(word) else {
            return;
        };
        if counts.is_empty() {
            let _old = self.words.remove(word);
        }
    }

    // The word stands once less in a document.
    fn lower(&mut self, word: &Word, name: &WaveletName, document: &DocumentName)
        ensures { (w n d : Key) → count_in self.new w n d
            ≡ count_in self.old w n d - cond (same_text word.now w && (same_text name.now n && same_text document.now d)) 1 0 }
    {
        if let Some(counts) = self.words.get_mut(word) {
            counts.take_out(name, document);
        }
    }

    // The word stands once less in a document, and isn't kept where it then stands in none.
    fn take_out(&mut self, word: &Word, name: &WaveletName, document: &DocumentName)
        ensures { (w n d : Key) → count_in self.new w n d
            ≡ count_in self.old w n d - cond (same_text word.now w && (same_text name.now n && same_text document.now d)) 1 0 }
    {
        self.lower(word, name, document);
        self.forget_empty(word);
    }

    /// Each of the words stands once more in a document. The error is want of memory.
    pub fn put_all(
        &mut self,
        alloc: Global,
        words: &[Word],
        name: &WaveletName,
        document: &DocumentName,
    ) -> Result<(), Memory>
        ensures { OnOk result ((w n d : Key) → count_in self.new w n d ≡ count_in self.old w n d
            + cond (same_text name.now n && same_text document.now d) (occurrences w words.now) 0) }
    {
        for word in words {
            self.put(alloc, word, name, document)?;
        }
        Ok(())
    }

    /// Each of the words stands once less in a document.
    pub fn take_out_all(&mut self, words: &[Word], name: &WaveletName, document: &DocumentName)
        ensures { (w n d : Key) → count_in self.new w n d
            ≡ count_in self.old w n d - cond (same_text name.now n && same_text document.now d) (occurrences w words.now) 0 }
    {
        for word in words {
            self.take_out(word, name, document);
        }
    }
}
