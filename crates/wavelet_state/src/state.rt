// The state of a wavelet.
ghost use Rattle.std.specs.Prelude.{◌≡◌, ◌↔◌, ◌≤◌, IsTrue, IsSome, is_some, Some, IfSome, IfOk, IfErr, OnOk, OnErr, slice_get, length, map};
ghost use Rattle.std.specs.Option.{option_copied};
ghost use Rattle.std.specs.FinMap as finite;
ghost use Rattle.std.specs.List.{All};
ghost use Rattle.doc_items.specs.Balance.{Balanced};
ghost use Rattle.wavelet_op.specs.Acts.{meaning, meanings};
ghost use Rattle.wavelet_op.specs.States.{apply_act, document_of, empty_state, kept, role_of, run};
ghost use Rattle.wavelet_op.specs.Laws.{IsWhole};
ghost use Rattle.wavelet_state.specs.Drafts.{IsRefused};
ghost use Rattle.wavelet_state.specs.Inverses.{inverse_act, inverse_acts, acts_back, led};
ghost use Rattle.wavelet_state.specs.Parts.{item_count, IsStepFault};

use crate::back::Back;
use crate::documents::Documents;
use crate::draft::Draft;
use crate::roles::Roles;
use doc_items::{Document, Memory};
use doc_rope::Rope;
use std::alloc::Global;
use std::marker::Model;
use wave_base::{Address, DocumentName};
use wavelet_op::{Role, WaveletFault, WaveletOp};

/// The state of a wavelet: its participants with their roles, and its documents. Each document is balanced, and one that is empty
/// isn't kept.
pub struct WaveletState {
    pub(crate) draft: Draft,
}

impl Drop for WaveletState {
    fn drop(self) {
        let WaveletState { draft: _draft } = self;
    }
}

impl Model for WaveletState {
    ghost use Rattle.std.specs.Prelude.{List, refl};
    ghost use Rattle.std.specs.Coded.{coded_list, coded_ℕ, coded×, code_by};
    ghost use Rattle.std.specs.FinMap.{code};
    ghost use Rattle.doc_items.specs.declared.item.Item.{Item};
    ghost use Rattle.doc_items.specs.contracts.item.Item as item_row;
    ghost use Rattle.wavelet_op.specs.States.{State};
    ghost use Rattle.wavelet_op.specs.contracts.role.Role as role_row;
    ghost use Rattle.wavelet_state.specs.Drafts.{whole, parts, parts_code};
    ghost use Rattle.wavelet_state.specs.Parts.{IsTrim};

    ghost Value = { State };

    ghost coded = { parts_code role_row.the_row.coded item_row.the_row.coded };

    ghost view = { λ s. whole s.draft.roles s.draft.documents };

    ghost invariant = { λ s. IsTrim s.draft.documents };
}

impl WaveletState {
    /// The state without participants and documents.
    pub fn new(alloc: Global) -> WaveletState
        ensures { result ≡ empty_state }
    {
        WaveletState {
            draft: Draft {
                roles: Roles::new(alloc),
                documents: Documents::new(alloc),
            },
        }
    }

    /// Whether the address is a participant.
    pub fn has(&self, address: &Address) -> bool
        ensures { result ≡ is_some (role_of self.now address.now) }
    {
        self.role(address).is_some()
    }

    /// The address's role; None exactly where it is no participant.
    pub fn role(&self, address: &Address) -> Option<Role>
        ensures { result ≡ role_of self.now address.now }
    {
        self.draft.roles.get(address)
    }

    /// The participant at a place in byte order; None exactly where the place isn't below the number of participants.
    pub fn participant(&self, place: u64) -> Option<&Address>
        ensures { option_copied result ≡ slice_get (finite.keys self.now.roles) place }
    {
        self.draft.roles.at(place as usize)
    }

    /// The participants in byte order, in one walk. The error is want of memory.
    pub fn participants(&self, alloc: Global) -> Result<Vec<&Address>, Memory>
        ensures { IfOk result (λ list. map (λ a. a.now) list.items ≡ finite.keys self.entry.now.roles) }
    {
        self.draft.roles.addresses(alloc)
    }

    /// A copy of the document; None exactly where it is empty. The error is want of memory.
    pub fn document(&self, alloc: Global, name: &DocumentName) -> Result<Option<Document>, Memory>
        ensures value { IfOk result (λ d. d ≡ kept (document_of self.now name.now)) }
        ensures balanced { Balanced (document_of self.now name.now) }
    {
        match self.rope(name) {
            Some(rope) => Ok(Some(rope.list(alloc)?)),
            None => Ok(None),
        }
    }

    /// The document in pieces; None exactly where it is empty.
    pub fn rope(&self, name: &DocumentName) -> Option<&Rope>
        ensures value { option_copied result ≡ kept (document_of self.now name.now) }
        ensures balanced { Balanced (document_of self.now name.now) }
    {
        self.draft.documents.get(name)
    }

    /// The name at a place in byte order, of the documents that aren't empty; None exactly where the place isn't below their
    /// number.
    pub fn document_name(&self, place: u64) -> Option<&DocumentName>
        ensures value { option_copied result ≡ slice_get (finite.keys self.now.documents) place }
        ensures some { IfSome result (λ name. IsSome (kept (document_of self.now name.now))) }
    {
        self.draft.documents.at(place as usize)
    }

    /// The names of the documents that aren't empty, in byte order, in one walk. The error is want of memory.
    pub fn document_names(&self, alloc: Global) -> Result<Vec<&DocumentName>, Memory>
        ensures value { IfOk result (λ list. map (λ name. name.now) list.items ≡ finite.keys self.entry.now.documents) }
        ensures there { All (λ name. IsSome (kept (document_of self.entry.now name))) (finite.keys self.entry.now.documents) }
    {
        self.draft.documents.names(alloc)
    }

    /// Whether all documents together have at most so many items.
    pub fn fits(&self, limit: u64) -> bool
        ensures { IsTrue result ↔ (item_count self.now.documents ≤ limit) }
    {
        self.draft.documents.fit(limit)
    }

    /// An equal state.
    pub fn copy(&self, alloc: Global) -> Result<WaveletState, Memory>
        ensures { IfOk result (λ s. s ≡ self.now) }
    {
        let draft = self.draft.copy(alloc)?;
        Ok(WaveletState { draft })
    }

    // Nothing is done: it says for proofs that each document is balanced, and none that is kept is empty.
    pub(crate) fn whole(&self)
        ensures { IsWhole self.now }
    {
        self.draft.documents.balanced();
    }

    /// Applies one operation, and puts what takes it back in front, where that is kept. Refusals, `Memory` included, leave the state
    /// as it was.
    pub(crate) fn apply(
        &mut self,
        alloc: Global,
        op: &WaveletOp,
        back: &mut Option<Back>,
    ) -> Result<(), WaveletFault>
        ensures ok { OnOk result (apply_act self.old (meaning op.now) ≡ Some self.new) }
        ensures back { OnOk result (acts_back back.new ≡ led (inverse_act self.old (meaning op.now)) (acts_back back.old)) }
        ensures refused { IfErr result (IsStepFault 0 (apply_act self.old (meaning op.now))) }
        ensures kept { OnErr result (self.new ≡ self.old) }
    {
        if let Err(invalid) = self.draft.keep_inverse(alloc, op, 0, back) {
            return Err(invalid);
        }
        self.draft.step(alloc, op, 0)
    }

    /// Applies operations in turn, and puts what takes them back in front, where that is kept. Refusals, `Memory` included, leave
    /// the state as it was.
    pub(crate) fn apply_all(
        &mut self,
        alloc: Global,
        ops: &[WaveletOp],
        back: &mut Option<Back>,
    ) -> Result<(), WaveletFault>
        requires { length ops.now ≤ 1000 }
        ensures ok { OnOk result (run self.old (meanings ops.now) ≡ Some self.new) }
        ensures back { OnOk result (acts_back back.new ≡ led (inverse_acts self.old (meanings ops.now)) (acts_back back.old)) }
        ensures refused { IfErr result (IsRefused self.old (meanings ops.now)) }
        ensures kept { OnErr result (self.new ≡ self.old) }
    {
        let roles = self.draft.roles.copy(alloc)?;
        match self.draft.run(alloc, ops, 0, back) {
            Ok(()) => Ok(()),
            Err(fault) => {
                self.draft.roles = roles;
                Err(fault)
            }
        }
    }
}
