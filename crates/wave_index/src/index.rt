// The index of all histories.
ghost use Rattle.std.specs.Prelude.{◌≡◌, ◌++◌, ℕ, None, IsSome, is_some, IfOk, IfErr, OnOk, OnErr};
ghost use Rattle.std.specs.FinMap as finite;
ghost use Rattle.delta_history.specs.Pushes.{IsRefused};
ghost use Rattle.doc_items.specs.Maps.{Key};
ghost use Rattle.document_words.specs.Places.{count_in};
ghost use Rattle.wave_index.specs.Counts.{counts_in, CountsAs};
ghost use Rattle.wave_index.specs.Inboxes.{inbox, hits_at, search};
ghost use Rattle.wave_index.specs.Marks.{mark_in};
ghost use Rattle.wave_index.specs.Taken.{history_in, with_delta};

use crate::answers::{Hit, InboxLine};
use crate::kept::KeptWords;
use crate::marks::Marks;
use crate::wavelet::Wavelet;
use delta_history::HistoryFault;
use doc_items::Memory;
use document_words::{Word, WordPlaces};
use std::alloc::Global;
use std::collections::BTreeMap;
use std::marker::Model;
use std::mem::replace;
use wave_base::{Address, WaveletName};
use wavelet_op::AppliedDelta;

/// Why a delta isn't taken: it doesn't start at what the index has of the wavelet, the history wouldn't be legal with it, or want of
/// memory.
pub type IndexFault = HistoryFault;

/// Histories by the names of their wavelets, and what is asked of them.
pub struct Index {
    wavelets: BTreeMap<WaveletName, Wavelet>,
    words: KeptWords,
}

impl Drop for Index {
    fn drop(self) {
        let Index {
            wavelets: _wavelets,
            words: _words,
        } = self;
    }
}

impl Model for Index {
    ghost use Rattle.std.specs.Coded.{coded_list, coded_ℕ};
    ghost use Rattle.std.specs.FinMap.{from_entries, code};
    ghost use Rattle.wave_index.specs.Counts.{counts_in, CountsAs};
    ghost use Rattle.wave_index.specs.Taken.{Histories, AreNamed};
    ghost use Rattle.wave_index.specs.contracts.wavelet.Wavelet as wavelet_row;

    ghost Value = { Histories };

    ghost coded = { code (coded_list coded_ℕ) wavelet_row.the_row.coded };

    ghost view = { λ i. from_entries i.wavelets.entries };

    ghost invariant = { λ i. record {
      named : AreNamed (from_entries i.wavelets.entries);
      words : CountsAs i.words.places
          (counts_in (from_entries i.wavelets.entries));
    } };
}

impl Index {
    /// No history.
    pub fn new(alloc: Global) -> Index
        ensures { result ≡ finite.empty }
    {
        Index {
            wavelets: BTreeMap::new(alloc),
            words: KeptWords::new(alloc),
        }
    }

    // Whether there is a history of the name.
    fn has(&self, name: &WaveletName) -> bool
        ensures { result ≡ is_some (finite.get self.now name.now) }
    {
        self.wavelets.contains_key(name)
    }

    // Puts a history of a name at that name, with the words that are kept then.
    fn insert(
        &mut self,
        alloc: Global,
        name: &WaveletName,
        wavelet: Wavelet,
        words: KeptWords,
    ) -> Result<(), Memory>
        requires named { wavelet.name ≡ name.now }
        requires words { CountsAs words.places (counts_in (finite.insert self.old name.now wavelet)) }
        ensures ok { OnOk result (self.new ≡ finite.insert self.old name.now wavelet) }
        ensures same { OnErr result (self.new ≡ self.old) }
    {
        let name = name.copy(alloc)?;
        let _old = self.wavelets.insert(name, wavelet)?;
        self.words = words;
        Ok(())
    }

    // The words that are kept; from then on none are.
    fn give_words(&mut self) -> KeptWords
        ensures words { CountsAs result.places (counts_in self.old) }
        ensures same { self.new ≡ self.old }
    {
        replace(&mut self.words, KeptWords::none())
    }

    // Takes the first delta of a history.
    fn take_first(
        &mut self,
        alloc: Global,
        name: &WaveletName,
        delta: &AppliedDelta,
    ) -> Result<(), IndexFault>
        requires { finite.get self.old name.now ≡ None }
        ensures ok { OnOk result (self.new ≡ with_delta self.old name.now delta.now) }
        ensures refused { IfErr result (IsRefused (history_in self.old name.now) delta.now) }
        ensures same { OnErr result (self.new ≡ self.old) }
    {
        let mut wavelet = Wavelet::new(alloc, name.copy(alloc)?);
        let mut words = self.give_words();
        match wavelet.take(alloc, delta, &mut words) {
            Ok(()) => {
                self.insert(alloc, name, wavelet, words)?;
                Ok(())
            }
            Err(fault) => {
                self.words = words;
                Err(fault)
            }
        }
    }

    // Takes the next delta of a history.
    fn take_next(
        &mut self,
        alloc: Global,
        name: &WaveletName,
        delta: &AppliedDelta,
    ) -> Result<(), IndexFault>
        requires { IsSome (finite.get self.old name.now) }
        ensures ok { OnOk result (self.new ≡ with_delta self.old name.now delta.now) }
        ensures refused { IfErr result (IsRefused (history_in self.old name.now) delta.now) }
        ensures same { OnErr result (self.new ≡ self.old) }
    {
        let Some(wavelet) = self.wavelets.get_mut(name) else {
            return Err(HistoryFault::Memory);
        };
        wavelet.take(alloc, delta, &mut self.words)
    }

    /// Takes the next delta of a wavelet. Refusals: `NotNext` exactly where it doesn't start at what the index has of the wavelet, which
    /// is version 0 with the zero hash where it has nothing; then `NotLegal` exactly where the longer history wouldn't be legal. After
    /// a refusal, and after want of memory, the index is as it was.
    pub fn take(
        &mut self,
        alloc: Global,
        name: &WaveletName,
        delta: &AppliedDelta,
    ) -> Result<(), IndexFault>
        ensures ok { OnOk result (self.new ≡ with_delta self.old name.now delta.now) }
        ensures refused { IfErr result (IsRefused (history_in self.old name.now) delta.now) }
        ensures same { OnErr result (self.new ≡ self.old) }
    {
        if self.has(name) {
            self.take_next(alloc, name, delta)
        } else {
            self.take_first(alloc, name, delta)
        }
    }

    /// What the user's inbox shows of each wavelet in which the user is a participant at the head, by name. The error is want of memory.
    pub fn inbox(
        &self,
        alloc: Global,
        user: &Address,
        marks: &Marks,
    ) -> Result<Vec<InboxLine>, Memory>
        ensures { IfOk result (λ v. v.items ≡ inbox self.now user.now (mark_in marks.now)) }
    {
        let mut lines = Vec::new(alloc);
        for (name, wavelet) in self.wavelets.iter() {
            wavelet.put_line(alloc, user, marks.get(name), &mut lines)?;
        }
        Ok(lines)
    }

    // The documents, but for manifests, that have the word; all are read.
    fn read_hits(&self, alloc: Global, user: &Address, word: &Word) -> Result<Vec<Hit>, Memory>
        ensures { IfOk result (λ v. v.items ≡ search self.now user.now word.now) }
    {
        let mut hits = Vec::new(alloc);
        for (_, wavelet) in self.wavelets.iter() {
            wavelet.put_hits(alloc, user, word, &mut hits)?;
        }
        Ok(hits)
    }

    // Puts those of a wavelet that is kept for the word after the others.
    fn put_held(
        &self,
        alloc: Global,
        user: &Address,
        places: &WordPlaces,
        word: &Word,
        name: &WaveletName,
        hits: &mut Vec<Hit>,
    ) -> Result<(), Memory>
        requires { (w n d : Key) → count_in places.now w n d ≡ counts_in self.now w n d }
        ensures { OnOk result (hits.new.items ≡ hits.old.items ++ hits_at self.now user.now word.now name.now) }
    {
        match self.wavelets.get(name) {
            Some(wavelet) => wavelet.put_held(alloc, user, places, word, hits),
            None => Ok(()),
        }
    }

    // The documents, but for manifests, that have the word, by the words that are kept.
    fn held_hits(
        &self,
        alloc: Global,
        user: &Address,
        places: &WordPlaces,
        word: &Word,
    ) -> Result<Vec<Hit>, Memory>
        requires { (w n d : Key) → count_in places.now w n d ≡ counts_in self.now w n d }
        ensures { IfOk result (λ v. v.items ≡ search self.now user.now word.now) }
    {
        let mut hits = Vec::new(alloc);
        for name in places.wavelets(alloc, word)?.as_slice() {
            self.put_held(alloc, user, places, word, name, &mut hits)?;
        }
        Ok(hits)
    }

    // The documents, but for manifests, that have the word.
    fn hits(&self, alloc: Global, user: &Address, word: &Word) -> Result<Vec<Hit>, Memory>
        ensures { IfOk result (λ v. v.items ≡ search self.now user.now word.now) }
    {
        match &self.words.places {
            Some(places) => self.held_hits(alloc, user, places, word),
            None => self.read_hits(alloc, user, word),
        }
    }

    /// The documents, but for manifests, that have the word, in the wavelets in which the user is a participant at the head, by names
    /// of wavelets and documents. The error is want of memory.
    pub fn search(&self, alloc: Global, user: &Address, word: &str) -> Result<Vec<Hit>, Memory>
        ensures { IfOk result (λ v. v.items ≡ search self.now user.now word.now) }
    {
        let word = Word::from_str(alloc, word)?;
        self.hits(alloc, user, &word)
    }
}
