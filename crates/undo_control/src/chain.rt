// A user's chain of undo.
ghost use Rattle.std.specs.Prelude.{◌≡◌, ◌<◌, ◌∷◌, [], length, take, slice_get, IsSome, Some, None, MatchOption, IfOk, IfSome, IfErr, OnOk, OnErr};
ghost use Rattle.std.specs.Option.{option_copied};
ghost use Rattle.std.specs.Vec.{vec_len, vec_capacity};
ghost use Rattle.wavelet_op.specs.Acts.{meanings, AreNormal};
ghost use Rattle.wavelet_op.specs.States.{run};
ghost use Rattle.wavelet_state.specs.Drafts.{IsRefused};
ghost use Rattle.undo_control.specs.Chains.{max_entries, edited, changed, undone};
ghost use Rattle.undo_control.specs.Parts.{chain, chain_of, IsPast, IsRefusedChange};

use client_control::rebase;
use doc_items::Memory;
use std::alloc::Global;
use std::marker::Model;
use wavelet_op::{Ops, WaveletFault};
use wavelet_state::{WaveletState, apply_delta, apply_inverting, apply_valid};

// The most edits that can be taken back.
const MAX_ENTRIES: usize = 100;

/// A state, and what takes the newest edits of a user back that led there: at most 100 entries, the newest first. They are valid in
/// turn at the state, whatever others did since.
pub struct UndoChain {
    state: WaveletState,
    entries: Vec<Ops>,
}

impl Drop for UndoChain {
    fn drop(self) {
        let UndoChain {
            state: _state,
            entries: _entries,
        } = self;
    }
}

impl Model for UndoChain {
    ghost use Rattle.std.specs.Coded.{codes};
    ghost use Rattle.wavelet_op.specs.contracts.op.WaveletOp as op_row;
    ghost use Rattle.wavelet_state.specs.contracts.state.WaveletState as state_row;
    ghost use Rattle.undo_control.specs.Parts.{Chain, chain, IsKept};

    ghost Value = { Chain };

    ghost coded = { Prim.hlevel (codes, op_row.the_row.coded, state_row.the_row.coded) };

    ghost view = { λ c. chain c.state c.entries.items };

    ghost invariant = { λ c. IsKept (chain c.state c.entries.items) };
}

impl UndoChain {
    /// A state at which nothing can be taken back.
    pub fn new(alloc: Global, state: WaveletState) -> UndoChain
        ensures { result ≡ chain state [] }
    {
        UndoChain {
            state,
            entries: Vec::new(alloc),
        }
    }

    /// The state.
    pub fn state(&self) -> &WaveletState
        ensures { result.now ≡ self.now.state }
    {
        &self.state
    }

    /// The number of edits that can be taken back.
    pub fn len(&self) -> u64
        ensures { result ≡ length self.now.entries }
    {
        self.entries.len() as u64
    }

    /// What takes the newest edit back, in normal form and valid at the state; None exactly where nothing can be taken back.
    pub fn front(&self) -> Option<&Ops>
        ensures value { option_copied result ≡ slice_get self.now.entries 0 }
        ensures normal { IfSome result (λ ops. AreNormal ops.now) }
        ensures valid { IfSome result (λ ops. IsSome (run self.now.state (meanings ops.now))) }
    {
        self.entries.as_slice().first()
    }

    /// The user made an edit: the state moves, and what takes the edit back is the first entry. The last of more than 100 entries is
    /// dropped; where the edit's inverse has more than 1,000 operations nothing can be taken back any more. The refusal is
    /// `OpInvalid` with the first operation that isn't valid, exactly where there is one. After it, and after want of memory, the
    /// chain is as it was.
    pub fn note_edit(&mut self, alloc: Global, ops: &Ops) -> Result<(), WaveletFault>
        ensures ok { OnOk result (edited (chain_of self.old) (meanings ops.now) ≡ Some (chain_of self.new)) }
        ensures refused { IfErr result (IsRefused self.old.state (meanings ops.now)) }
        ensures kept { OnErr result (self.new ≡ self.old) }
    {
        // A delta has an operation, and so has what takes it back.
        let _count = ops.len();
        self.entries.reserve(1)?;
        let back = match apply_inverting(alloc, &mut self.state, ops) {
            Ok(back) => back,
            Err(refusal) => return Err(refusal),
        };
        match back.into_ops() {
            Some(entry) => put_first(&mut self.entries, entry),
            None => self.entries.clear(),
        }
        Ok(())
    }

    /// Others made a change: the state moves, and the change passes through the entries. Refusals: `OpInvalid` with the first
    /// operation that isn't valid, exactly where there is one; `CountTooLarge` exactly where two operations that meet are over more
    /// items together than a document may have. After them, and after want of memory, the chain is as it was.
    pub fn note_change(&mut self, alloc: Global, ops: &Ops) -> Result<(), WaveletFault>
        ensures ok { OnOk result (changed (chain_of self.old) (meanings ops.now) ≡ Some (chain_of self.new)) }
        ensures refused { IfErr result (IsRefusedChange (chain_of self.old) (meanings ops.now)) }
        ensures kept { OnErr result (self.new ≡ self.old) }
    {
        let Some(entries) = self.past(alloc, ops)? else {
            return Err(self.refusal(alloc, ops));
        };
        if let Err(refusal) = apply_delta(alloc, &mut self.state, ops) {
            return Err(refusal);
        }
        self.entries = entries;
        Ok(())
    }

    /// The first entry took its edit back: the state moves by it, and it is an entry no more. After want of memory the chain is as
    /// it was.
    pub fn note_undone(&mut self, alloc: Global) -> Result<(), Memory>
        requires { 0 < length self.old.entries }
        ensures ok { OnOk result (undone (chain_of self.old) ≡ Some (chain_of self.new)) }
        ensures kept { OnErr result (self.new ≡ self.old) }
    {
        let Some(first) = self.entries.as_slice().first() else {
            unreachable!()
        };
        apply_valid(alloc, &mut self.state, first)?;
        let _done = self.entries.remove(0);
        Ok(())
    }

    // The entries past the operations; None where these aren't valid, or meet one with which they are over too many items.
    fn past(&self, alloc: Global, ops: &Ops) -> Result<Option<Vec<Ops>>, Memory>
        ensures { IfOk result (λ o. MatchOption o (changed (chain_of self.now) (meanings ops.now) ≡ None)
            (λ es. IsPast (chain_of self.now) (meanings ops.now) es.items)) }
    {
        if !ops.is_structured() {
            return Ok(None);
        }
        let ops = ops.copy(alloc)?;
        match rebase(alloc, self.entries.as_slice(), ops)? {
            Some(rebased) => Ok(Some(rebased.entries)),
            None => Ok(None),
        }
    }

    // Why the operations aren't taken as a change made by others. They are tried on a copy, since what isn't valid comes first.
    fn refusal(&self, alloc: Global, ops: &Ops) -> WaveletFault
        requires { changed (chain_of self.now) (meanings ops.now) ≡ None }
        ensures { IsRefusedChange (chain_of self.now) (meanings ops.now) result }
    {
        let mut trial = match self.state.copy(alloc) {
            Ok(trial) => trial,
            Err(_) => return WaveletFault::Memory,
        };
        match apply_delta(alloc, &mut trial, ops) {
            Ok(()) => WaveletFault::CountTooLarge,
            Err(refusal) => refusal,
        }
    }
}

// One entry more, in front, for which there is room; the last of more than 100 is dropped.
fn put_first(entries: &mut Vec<Ops>, entry: Ops)
    requires { vec_len entries.old < vec_capacity entries.old }
    ensures { entries.new.items ≡ take max_entries (entry ∷ entries.old.items) }
{
    match entries.insert(0, entry) {
        Ok(()) => entries.truncate(MAX_ENTRIES),
        Err(_) => unreachable!(),
    }
}
