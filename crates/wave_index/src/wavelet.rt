// A wavelet of an index.
ghost use Rattle.std.specs.Prelude.{◌≡◌, ◌++◌, ◌∷◌, [], ℕ, cond, IfOk, IfErr, OnOk, OnErr};
ghost use Rattle.doc_items.specs.Maps.{Key, same_text};
ghost use Rattle.document_words.specs.Places.{count_in};
ghost use Rattle.delta_history.specs.Pushes.{IsRefused};
ghost use Rattle.wave_index.specs.Blips.{named_version, is_unread, unread};
ghost use Rattle.wave_index.specs.Changes.{end_of_delta};
ghost use Rattle.wave_index.specs.Counts.{counted, CountsAs, IsOf};
ghost use Rattle.wave_index.specs.Inboxes.{sees, line, line_for, hits_for};
ghost use Rattle.wave_index.specs.Taken.{history_of, point_of};

use crate::answers::{Hit, InboxLine};
use crate::blips::{is_live, threads, title_of};
use crate::changed::ChangedVersions;
use crate::hits::{put_held, put_hits};
use crate::kept::{KeptWords, Way};
use conversation::{Id, Node};
use delta_history::{History, HistoryFault};
use doc_items::Memory;
use document_words::{Word, WordPlaces};
use std::alloc::{AllocError, Global};
use std::marker::Model;
use wave_base::{Address, BaseFault, DocumentName, WaveletName};
use wavelet_op::AppliedDelta;

/// A history, with the changed versions of its documents.
pub(crate) struct Wavelet {
    history: History,
    changed: ChangedVersions,
}

impl Drop for Wavelet {
    fn drop(self) {
        let Wavelet {
            history: _history,
            changed: _changed,
        } = self;
    }
}

impl Model for Wavelet {
    ghost use Rattle.wavelet_op.specs.contracts.delta.AppliedDelta as delta_row;
    ghost use Rattle.wave_index.specs.Taken.{TakenOf, taken_code};
    ghost use Rattle.wave_index.specs.Versions.{KeepsVersions};

    ghost Value = { TakenOf };

    ghost coded = { taken_code delta_row.the_row.coded };

    ghost view = { λ w. record { name = w.history.name; deltas = w.history.deltas } };

    ghost invariant = { λ w. KeepsVersions w.changed.map w.history.deltas };
}

// The version after a delta.
fn end_of(delta: &AppliedDelta) -> u64
    ensures { result ≡ end_of_delta delta.now }
{
    let at = delta.from;
    at.version + delta.ops.len()
}

impl Wavelet {
    /// The wavelet of this name, without deltas.
    pub fn new(alloc: Global, name: WaveletName) -> Wavelet
        ensures { result ≡ record { name = name; deltas = [] } }
    {
        Wavelet {
            history: History::new(alloc, name),
            changed: ChangedVersions::new(alloc),
        }
    }

    /// The delta is after the others, and the words that are kept of all wavelets go with it. The refusals are those of `push_applied`;
    /// after one, and after want of memory, the wavelet is as it was.
    pub fn take(
        &mut self,
        alloc: Global,
        delta: &AppliedDelta,
        words: &mut KeptWords,
    ) -> Result<(), HistoryFault>
        ensures ok { OnOk result (self.new ≡ record { name = self.old.name; deltas = self.old.deltas ++ delta.now ∷ [] }) }
        ensures refused { IfErr result (IsRefused (history_of self.old) delta.now) }
        ensures same { OnErr result (self.new ≡ self.old) }
        ensures named { self.new.name ≡ self.old.name }
        ensures words_ok { OnOk result
            ((f : Key → Key → Key → ℕ) → IsOf f self.old.name (point_of self.old).state → CountsAs words.old.places f
            → CountsAs words.new.places (λ w n d. cond (same_text self.old.name n) (counted (point_of self.new).state w d) (f w n d))) }
        ensures words_err { OnErr result
            ((f : Key → Key → Key → ℕ) → IsOf f self.old.name (point_of self.old).state → CountsAs words.old.places f
            → CountsAs words.new.places f) }
    {
        let end = end_of(delta);
        let ops = delta.ops.as_slice();
        self.changed.reserve_all(alloc, ops)?;
        let copy = delta.copy(alloc)?;
        words.shift(
            alloc,
            self.history.name(),
            self.history.state(),
            ops,
            Way::Out,
        );
        match self.history.push_applied(alloc, copy) {
            Ok(()) => {
                // The history is legal.
                let _deltas = self.history.deltas();
                self.changed.note_all(ops, end);
                words.shift(
                    alloc,
                    self.history.name(),
                    self.history.state(),
                    ops,
                    Way::In,
                );
                Ok(())
            }
            Err(fault) => {
                words.shift(
                    alloc,
                    self.history.name(),
                    self.history.state(),
                    ops,
                    Way::In,
                );
                Err(fault)
            }
        }
    }

    // Whether the address is a participant at the head.
    fn is_seen_by(&self, user: &Address) -> bool
        ensures { result ≡ sees self.now user.now }
    {
        self.history.state().has(user)
    }

    // The changed version of the document that an id names; 0 where it names none.
    fn version_of(&self, alloc: Global, id: &Id) -> Result<u64, Memory>
        ensures { IfOk result (λ v. v ≡ named_version self.now.deltas id.now) }
    {
        match DocumentName::parse(alloc, id.as_str()) {
            Ok(name) => Ok(self.changed.get(&name)),
            Err(BaseFault::BadName) => Ok(0),
            Err(BaseFault::BadAddress) => unreachable!(),
            Err(BaseFault::Memory) => Err(AllocError),
        }
    }

    // Whether this is a blip that isn't deleted, and changed after the mark.
    fn is_unread(&self, alloc: Global, node: &Node, mark: u64) -> Result<bool, Memory>
        ensures { IfOk result (λ b. b ≡ is_unread self.now.deltas mark node.now) }
    {
        if !is_live(node.part) {
            return Ok(false);
        }
        let version = self.version_of(alloc, &node.id)?;
        Ok(version > mark)
    }

    // How many of the blips there are that aren't deleted, and changed after the mark.
    fn unread(&self, alloc: Global, nodes: &[Node], mark: u64) -> Result<u64, Memory>
        ensures { IfOk result (λ n. n ≡ unread self.now.deltas mark nodes.now) }
    {
        let mut count = 0u64;
        for node in nodes {
            if self.is_unread(alloc, node, mark)? {
                count += 1;
            }
        }
        Ok(count)
    }

    // What an inbox shows.
    fn line(&self, alloc: Global, mark: u64) -> Result<InboxLine, Memory>
        ensures { IfOk result (λ l. l ≡ line self.now mark) }
    {
        let threads = threads(alloc, self.history.state())?;
        let unread = self.unread(alloc, threads.as_slice(), mark)?;
        let title = title_of(alloc, self.history.state(), threads.as_slice())?;
        let name = self.history.name().copy(alloc)?;
        Ok(InboxLine {
            name,
            version: self.history.head().version,
            unread,
            title,
        })
    }

    /// Puts what the user's inbox shows, if the user is a participant, after the others. The error is want of memory.
    pub fn put_line(
        &self,
        alloc: Global,
        user: &Address,
        mark: u64,
        lines: &mut Vec<InboxLine>,
    ) -> Result<(), Memory>
        ensures { OnOk result (lines.new.items ≡ lines.old.items ++ line_for self.now user.now mark) }
    {
        if self.is_seen_by(user) {
            lines.push(self.line(alloc, mark)?)?;
        }
        Ok(())
    }

    /// Puts the documents that have the word, if the user is a participant, after the others. The documents are read for it. The error
    /// is want of memory.
    pub fn put_hits(
        &self,
        alloc: Global,
        user: &Address,
        word: &Word,
        hits: &mut Vec<Hit>,
    ) -> Result<(), Memory>
        ensures { OnOk result (hits.new.items ≡ hits.old.items ++ hits_for self.now user.now word.now) }
    {
        if self.is_seen_by(user) {
            put_hits(alloc, self.history.name(), self.history.state(), word, hits)?;
        }
        Ok(())
    }

    /// As `put_hits`, by the words that are kept.
    pub fn put_held(
        &self,
        alloc: Global,
        user: &Address,
        places: &WordPlaces,
        word: &Word,
        hits: &mut Vec<Hit>,
    ) -> Result<(), Memory>
        requires { (w d : Key) → count_in places.now w self.now.name d ≡ counted (point_of self.now).state w d }
        ensures { OnOk result (hits.new.items ≡ hits.old.items ++ hits_for self.now user.now word.now) }
    {
        if self.is_seen_by(user) {
            let history = &self.history;
            put_held(alloc, history.name(), history.state(), places, word, hits)?;
        }
        Ok(())
    }
}
