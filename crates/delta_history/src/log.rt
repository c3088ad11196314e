// The deltas of a legal history, without its state.
ghost use Rattle.std.specs.Prelude.{◌≡◌, ◌≤◌, ◌<◌, ◌++◌, ◌∷◌, [], length, slice_get, IfSome, OnOk};
ghost use Rattle.std.specs.Option.{option_map};
ghost use Rattle.delta_history.specs.Histories.{head_of, hash_found, IsSameHistory, IsGrown};
ghost use Rattle.delta_history.specs.Legal.{has_id, IsLegal, IsNext};
ghost use Rattle.wavelet_state.specs.Snapshots.{max_inserted};
ghost use Rattle.delta_history.specs.Places.{count_at, place_from, stands_at, from_or, if_at};
ghost use Rattle.delta_history.specs.Points.{start, end_of};
ghost use Rattle.delta_history.specs.Verdicts.{kept};

use crate::Kept;
use crate::ids::Ids;
use crate::places::{place_from, started_below};
use doc_items::Memory;
use std::alloc::Global;
use std::marker::Model;
use wave_base::{DeltaId, HashedVersion, WaveletName};
use wave_hash::zero_hash;
use wavelet_op::AppliedDelta;

/// The deltas of a legal history, with what finds them: the head, and the places of ids. The index may lack the last deltas.
pub(crate) struct Log {
    name: WaveletName,
    list: Vec<AppliedDelta>,
    head: HashedVersion,
    inserted: u64,
    ids: Ids,
    indexed: usize,
}

impl Drop for Log {
    fn drop(self) {
        let Log {
            name: _name,
            list: _list,
            head: _head,
            inserted: _inserted,
            ids: _ids,
            indexed: _indexed,
        } = self;
    }
}

impl Model for Log {
    ghost use Rattle.std.specs.Prelude.{◌≡◌, ◌≤◌, ◌-◌, length};
    ghost use Rattle.std.specs.Coded.{codes};
    ghost use Rattle.wavelet_op.specs.contracts.delta.AppliedDelta as delta_row;
    ghost use Rattle.delta_history.specs.Histories.{HistoryOf};
    ghost use Rattle.delta_history.specs.Legal.{IsLegal};
    ghost use Rattle.delta_history.specs.Places.{IsIndex};
    ghost use Rattle.delta_history.specs.Points.{end_of};

    ghost Value = { HistoryOf };

    ghost coded = { Prim.hlevel (codes, delta_row.the_row.coded) };

    ghost view = { λ l. record { name = l.name; deltas = l.list.items; spare = l.list.cap - l.list.len } };

    ghost invariant = { λ l. record {
      legal : IsLegal l.name l.list.items;
      head : (end_of l.name l.list.items).at
          ≡ l.head;
      inserted : (end_of l.name l.list.items).count ≡ l.inserted;
      indexed : l.indexed
          ≤ length l.list.items;
      index : IsIndex l.ids.authors l.indexed l.list.items;
    } };
}

impl Log {
    /// No delta.
    pub fn new(alloc: Global, name: WaveletName) -> Log
        ensures name { result.name ≡ name }
        ensures empty { result.deltas ≡ [] }
    {
        let head = HashedVersion {
            version: 0,
            hash: zero_hash(&name),
        };
        Log {
            name,
            list: Vec::new(alloc),
            head,
            inserted: 0,
            ids: Ids::new(alloc),
            indexed: 0,
        }
    }

    /// The name of the wavelet.
    pub fn name(&self) -> &WaveletName
        ensures { result.now ≡ self.now.name }
    {
        &self.name
    }

    /// The deltas, in order.
    pub fn deltas(&self) -> &[AppliedDelta]
        ensures value { result.now ≡ self.now.deltas }
        ensures legal { IsLegal self.now.name self.now.deltas }
    {
        self.list.as_slice()
    }

    /// The head.
    pub fn head(&self) -> HashedVersion
        ensures { result ≡ (head_of self.now).at }
    {
        self.head
    }

    /// The number of items that the deltas insert.
    pub fn inserted(&self) -> u64
        ensures value { result ≡ (head_of self.now).count }
        ensures bound { result ≤ max_inserted }
    {
        self.inserted
    }

    /// The number of deltas that there is room for.
    pub fn spare(&self) -> u64
        ensures { result ≡ self.now.spare }
    {
        (self.list.capacity() - self.list.len()) as u64
    }

    // The hashed version at which the delta at a place was applied, or the head after the last.
    fn at(&self, place: usize) -> HashedVersion
        ensures { result ≡ from_or (head_of self.now).at (slice_get self.now.deltas place) }
    {
        match self.list.get(place) {
            Some(delta) => delta.from,
            None => self.head,
        }
    }

    /// The hash at a version; None exactly where no delta ends there, and it isn't 0.
    pub fn hash_at(&self, version: u64) -> Option<[u8; 32]>
        ensures { result ≡ hash_found self.now version }
    {
        let place = started_below(self.deltas(), version);
        hash_if(self.at(place), version)
    }

    /// How many deltas lead up to a version; None exactly where no delta ends there, and it isn't 0.
    pub fn count_at(&self, version: u64) -> Option<usize>
        ensures value { result ≡ count_at version (head_of self.now).at self.now.deltas }
        ensures bound { IfSome result (λ k. k ≤ length self.now.deltas) }
    {
        let place = started_below(self.deltas(), version);
        if self.at(place).version == version {
            Some(place)
        } else {
            None
        }
    }

    // The place of the delta of an id.
    fn place(&self, id: &DeltaId) -> Option<usize>
        ensures { result ≡ place_from id.now 0 self.now.deltas }
    {
        match self.ids.get(id) {
            Some(place) => Some(place),
            None => place_from(self.list.as_slice(), self.indexed, id),
        }
    }

    /// Whether a delta has the id.
    pub fn has(&self, id: &DeltaId) -> bool
        ensures { result ≡ has_id id.now self.now.deltas }
    {
        self.place(id).is_some()
    }

    // Where the delta at a place stands.
    fn stands(&self, place: usize) -> Option<Kept>
        ensures { result ≡ stands_at (head_of self.now).at self.now.deltas place }
    {
        if place >= self.list.len() {
            return None;
        }
        let at = self.at(place).version;
        let to = self.at(place + 1);
        Some(Kept { at, to })
    }

    /// Where the delta of an id stands; None exactly where none has it.
    pub fn kept(&self, id: &DeltaId) -> Option<Kept>
        ensures { result ≡ kept id.now (start self.now.name) self.now.deltas }
    {
        // For the proof: the history is legal.
        let _deltas = self.deltas();
        match self.place(id) {
            Some(place) => self.stands(place),
            None => None,
        }
    }

    // Puts one more delta into the index, if it lacks one.
    fn index_next(&mut self, alloc: Global) -> Result<(), Memory>
        ensures { self.new ≡ self.old }
    {
        let Some(delta) = self.list.get(self.indexed) else {
            return Ok(());
        };
        self.ids.put(alloc, &delta.id, self.indexed)?;
        self.indexed += 1;
        Ok(())
    }

    /// Makes room for a delta. After want of memory all but the room is as it was.
    pub fn reserve(&mut self, alloc: Global) -> Result<(), Memory>
        ensures same { IsSameHistory self.old self.new }
        ensures room { OnOk result (0 < self.new.spare) }
    {
        let lacking = self.list.len() - self.indexed;
        for _ in 0..lacking {
            self.index_next(alloc)?;
        }
        self.list.reserve(1)?;
        Ok(())
    }

    /// Puts the delta, which may come next, after the others. The head is at `head` then, and so many items are inserted.
    pub fn push(&mut self, delta: AppliedDelta, head: HashedVersion, inserted: u64)
        requires next { IsNext self.old.name self.old.deltas delta }
        requires room { 0 < self.old.spare }
        requires head { (end_of self.old.name (self.old.deltas ++ delta ∷ [])).at ≡ head }
        requires inserted { (end_of self.old.name (self.old.deltas ++ delta ∷ [])).count ≡ inserted }
        ensures { IsGrown self.old delta self.new }
    {
        match self.list.push(delta) {
            Ok(()) => {}
            Err(_) => unreachable!(),
        }
        self.head = head;
        self.inserted = inserted;
    }
}

// The hash there, if it is at this version.
fn hash_if(at: HashedVersion, version: u64) -> Option<[u8; 32]>
    ensures { result ≡ option_map (λ a. a.hash) (if_at version at) }
{
    if at.version == version {
        Some(at.hash)
    } else {
        None
    }
}
