// States that are kept and not edited.
ghost use Rattle.std.specs.Prelude.{◌≡◌, IfOk};

use crate::documents::Documents;
use crate::draft::Draft;
use crate::roles::Roles;
use crate::state::WaveletState;
use doc_items::Memory;
use doc_pack::PackedDocument;
use std::alloc::Global;
use std::collections::BTreeMap;
use std::marker::Model;
use wave_base::DocumentName;

/// Documents by their names, in few bytes.
pub(crate) struct PackedDocuments {
    map: BTreeMap<DocumentName, PackedDocument>,
}

impl Drop for PackedDocuments {
    fn drop(self) {
        let PackedDocuments { map: _map } = self;
    }
}

impl Model for PackedDocuments {
    ghost use Rattle.std.specs.Prelude.{List};
    ghost use Rattle.std.specs.Coded.{coded_list, coded_ℕ};
    ghost use Rattle.std.specs.FinMap.{from_entries, code};
    ghost use Rattle.doc_items.specs.Maps.{Map};
    ghost use Rattle.doc_items.specs.declared.item.Item.{Item};
    ghost use Rattle.doc_items.specs.contracts.item.Item as item_row;
    ghost use Rattle.wavelet_state.specs.Parts.{AreBalanced};

    ghost Value = { Map (List Item) };

    ghost coded = { code (coded_list coded_ℕ) (coded_list item_row.the_row.coded) };

    ghost view = { λ d. from_entries d.map.entries };

    ghost invariant = { λ d. AreBalanced (from_entries d.map.entries) };
}

impl PackedDocuments {
    /// Equal documents, which can be edited. The error is want of memory.
    pub fn unpack(&self, alloc: Global) -> Result<Documents, Memory>
        ensures { IfOk result (λ d. d ≡ self.now) }
    {
        let mut map = BTreeMap::new(alloc);
        for (name, packed) in self.map.iter() {
            let name = name.copy(alloc)?;
            let rope = packed.unpack(alloc)?;
            let _old = map.insert(name, rope)?;
        }
        Ok(Documents { map })
    }
}

impl Documents {
    /// Equal documents, in few bytes, which share what they can with earlier ones. The error is want of memory.
    pub fn pack(
        &self,
        alloc: Global,
        earlier: Option<&PackedDocuments>,
    ) -> Result<PackedDocuments, Memory>
        ensures { IfOk result (λ d. d ≡ self.now) }
    {
        let mut map = BTreeMap::new(alloc);
        for (name, rope) in self.map.iter() {
            let name = name.copy(alloc)?;
            let before = earlier_document(earlier, &name);
            let packed = PackedDocument::pack(alloc, rope, before)?;
            let _old = map.insert(name, packed)?;
        }
        Ok(PackedDocuments { map })
    }
}

// The document of this name among earlier ones.
fn earlier_document<'a>(
    earlier: Option<&'a PackedDocuments>,
    name: &DocumentName,
) -> Option<&'a PackedDocument> {
    match earlier {
        Some(documents) => documents.map.get(name),
        None => None,
    }
}

/// A state of a wavelet that is kept and not edited, seen as the state. Characters in a row that have the same annotations take
/// little more than their UTF-8 bytes, and pieces of documents that an earlier state had are shared with that one.
pub struct PackedState {
    roles: Roles,
    documents: PackedDocuments,
}

impl Drop for PackedState {
    fn drop(self) {
        let PackedState {
            roles: _roles,
            documents: _documents,
        } = self;
    }
}

impl Model for PackedState {
    ghost use Rattle.std.specs.Prelude.{List, refl};
    ghost use Rattle.std.specs.Coded.{coded_list, coded_ℕ, coded×, code_by};
    ghost use Rattle.std.specs.FinMap.{code};
    ghost use Rattle.doc_items.specs.declared.item.Item.{Item};
    ghost use Rattle.doc_items.specs.contracts.item.Item as item_row;
    ghost use Rattle.wavelet_op.specs.States.{State};
    ghost use Rattle.wavelet_op.specs.contracts.role.Role as role_row;
    ghost use Rattle.wavelet_state.specs.Drafts.{whole, parts, parts_code};
    ghost use Rattle.wavelet_state.specs.Parts.{IsTrim};

    ghost Value = { State };

    ghost coded = { parts_code role_row.the_row.coded item_row.the_row.coded };

    ghost view = { λ s. whole s.roles s.documents };

    ghost invariant = { λ s. IsTrim s.documents };
}

impl PackedState {
    /// An equal state, which shares what it can with an earlier one. The error is want of memory.
    pub fn pack(
        alloc: Global,
        state: &WaveletState,
        earlier: Option<&PackedState>,
    ) -> Result<PackedState, Memory>
        ensures { IfOk result (λ s. s ≡ state.now) }
    {
        let roles = state.draft.roles.copy(alloc)?;
        let before = earlier_documents(earlier);
        let documents = state.draft.documents.pack(alloc, before)?;
        Ok(PackedState { roles, documents })
    }

    /// An equal state, which can be edited. The error is want of memory.
    pub fn unpack(&self, alloc: Global) -> Result<WaveletState, Memory>
        ensures { IfOk result (λ s. s ≡ self.now) }
    {
        let roles = self.roles.copy(alloc)?;
        let documents = self.documents.unpack(alloc)?;
        let draft = Draft { roles, documents };
        Ok(WaveletState { draft })
    }
}

fn earlier_documents(earlier: Option<&PackedState>) -> Option<&PackedDocuments> {
    match earlier {
        Some(state) => Some(&state.documents),
        None => None,
    }
}
