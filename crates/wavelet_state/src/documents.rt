// A wavelet's documents.
ghost use Rattle.std.specs.Prelude.{◌≡◌, ◌≢◌, ◌+◌, ◌≤◌, List, length, map, IsSome, IfSome, Option, Some, None, [], ◌↔◌, OnOk, OnErr, IfOk, IfErr, IsTrue, is_some, slice_get};
ghost use Rattle.std.specs.Option.{option_copied};
ghost use Rattle.std.specs.FinMap as finite;
ghost use Rattle.doc_items.specs.Balance.{Balanced};
ghost use Rattle.doc_items.specs.Limits.{max_count};
ghost use Rattle.doc_items.specs.Maps.{Key, set_key};
ghost use Rattle.doc_op.specs.Apply.{valid};
ghost use Rattle.doc_rope.specs.Replacements.{replaced};
ghost use Rattle.op_validity.specs.declared.fault.CheckFault.TheVariants as of_check;
ghost use Rattle.doc_op.specs.Actions.{actions};
ghost use Rattle.wavelet_op.specs.Acts.{Mutates};
ghost use Rattle.wavelet_op.specs.States.{kept};
ghost use Rattle.wavelet_state.specs.Parts.{AreBalanced, document, item_count, is_empty_there, put_back, on_documents, IsEdit, IsBack, IsStepFault, IsTrimAt};

use crate::fault::fault_at;
use crate::stretch::edit;
use doc_items::Memory;
use doc_op::DocOp;
use doc_rope::{Replacement, Rope};
use op_validity::{CheckFault, apply_rope};
use std::alloc::Global;
use std::collections::BTreeMap;
use std::marker::Model;
use wave_base::DocumentName;
use wavelet_op::WaveletFault;

/// Documents in pieces by their names, in byte order of the names. Each is balanced; one may be empty.
pub(crate) struct Documents {
    pub(crate) map: BTreeMap<DocumentName, Rope>,
}

impl Drop for Documents {
    fn drop(self) {
        let Documents { map: _map } = self;
    }
}

impl Model for Documents {
    ghost use Rattle.std.specs.Prelude.{List};
    ghost use Rattle.std.specs.Coded.{coded_list, coded_ℕ};
    ghost use Rattle.std.specs.FinMap.{from_entries, code};
    ghost use Rattle.doc_items.specs.Maps.{Map};
    ghost use Rattle.doc_items.specs.declared.item.Item.{Item};
    ghost use Rattle.doc_items.specs.contracts.item.Item as item_row;
    ghost use Rattle.wavelet_state.specs.Parts.{AreBalanced};

    ghost Value = { Map (List Item) };

    ghost coded = { code (coded_list coded_ℕ) (coded_list item_row.the_row.coded) };

    ghost view = { λ d. from_entries d.map.entries };

    ghost invariant = { λ d. AreBalanced (from_entries d.map.entries) };
}

impl Documents {
    /// No document.
    pub fn new(alloc: Global) -> Documents
        ensures { result ≡ finite.empty }
    {
        Documents {
            map: BTreeMap::new(alloc),
        }
    }

    /// The number of documents.
    pub fn len(&self) -> usize
        ensures { result ≡ length (finite.entries self.now) }
    {
        self.map.len()
    }

    /// The document; None exactly where it isn't there.
    pub fn get(&self, name: &DocumentName) -> Option<&Rope>
        ensures value { option_copied result ≡ finite.get self.now name.now }
        ensures balanced { IfSome result (λ r. Balanced r.now) }
    {
        self.map.get(name)
    }

    // Nothing is done: it says for proofs that each document is balanced.
    pub fn balanced(&self)
        ensures { AreBalanced self.now }
    {
        // For the proof: what documents keep of themselves.
        let _count = self.map.len();
    }

    // Whether the document is there.
    fn has(&self, name: &DocumentName) -> bool
        ensures { result ≡ is_some (finite.get self.now name.now) }
    {
        self.map.contains_key(name)
    }

    /// The name at a place in byte order; None exactly where the place isn't below the number of documents.
    pub fn at(&self, place: usize) -> Option<&DocumentName>
        ensures { option_copied result ≡ slice_get (finite.keys self.now) place }
    {
        let mut left = place;
        for name in self.map.keys() {
            if left == 0 {
                return Some(name);
            }
            left -= 1;
        }
        None
    }

    /// The names in byte order. The error is want of memory.
    pub fn names(&self, alloc: Global) -> Result<Vec<&DocumentName>, Memory>
        ensures { IfOk result (λ list. map (λ name. name.now) list.items ≡ finite.keys self.entry.now) }
    {
        let mut list = Vec::new(alloc);
        for name in self.map.keys() {
            list.push(name)?;
        }
        Ok(list)
    }

    /// Equal documents.
    pub fn copy(&self, alloc: Global) -> Result<Documents, Memory>
        ensures { IfOk result (λ d. d ≡ self.now) }
    {
        let mut map = BTreeMap::new(alloc);
        for (name, rope) in self.map.iter() {
            let name = name.copy(alloc)?;
            let rope = rope.copy(alloc)?;
            let _old = map.insert(name, rope)?;
        }
        Ok(Documents { map })
    }

    /// Whether all documents together have at most so many items.
    pub fn fit(&self, limit: u64) -> bool
        ensures { IsTrue result ↔ (item_count self.now ≤ limit) }
    {
        let mut left = limit;
        for (_, rope) in self.map.iter() {
            let count = rope.len();
            if count > left {
                return false;
            }
            left -= count;
        }
        true
    }

    fn insert(&mut self, alloc: Global, name: &DocumentName, rope: Rope) -> Result<(), Memory>
        requires { Balanced rope }
        ensures ok { OnOk result (self.new ≡ finite.insert self.old name.now rope) }
        ensures err { OnErr result (self.new ≡ self.old) }
    {
        let name = name.copy(alloc)?;
        let _old = self.map.insert(name, rope)?;
        Ok(())
    }

    fn remove(&mut self, name: &DocumentName)
        ensures { self.new ≡ finite.remove self.old name.now }
    {
        let _old = self.map.remove(name);
    }

    /// Takes the document away if it is empty.
    pub fn trim(&mut self, name: &DocumentName)
        ensures { self.new ≡ set_key self.old name.now (kept (document self.old name.now)) }
    {
        if self.is_empty(name) {
            self.remove(name);
        }
    }

    /// Applies the operation to the document, which is empty where it isn't there. It is there afterwards, also where it became
    /// empty. Refusals, `Memory` included, leave all as it was.
    pub fn edit(&mut self, alloc: Global, name: &DocumentName, op: &DocOp) -> Result<(), CheckFault>
        ensures ok { OnOk result (IsEdit op.now name.now self.old self.new) }
        ensures invalid { IfErr result (λ e. e ≢ of_check.Memory → valid op.now (document self.old name.now) ≡ None) }
        ensures kept { OnErr result (self.new ≡ self.old) }
    {
        if self.has(name) {
            self.change(alloc, name, op)
        } else {
            self.begin(alloc, name, op)
        }
    }

    /// Applies the operation as `edit` does, and gives what takes it back.
    pub fn try_edit(
        &mut self,
        alloc: Global,
        name: &DocumentName,
        op: &DocOp,
    ) -> Result<Option<Replacement>, CheckFault>
        ensures ok { OnOk result (IsEdit op.now name.now self.old self.new) }
        ensures back { IfOk result (λ back. IsBack back name.now self.old self.new) }
        ensures invalid { IfErr result (λ e. e ≢ of_check.Memory → valid op.now (document self.old name.now) ≡ None) }
        ensures kept { OnErr result (self.new ≡ self.old) }
    {
        if self.has(name) {
            let back = self.try_change(alloc, name, op)?;
            Ok(Some(back))
        } else {
            self.begin(alloc, name, op)?;
            Ok(None)
        }
    }

    // Applies the operation to a document that is there.
    fn change(&mut self, alloc: Global, name: &DocumentName, op: &DocOp) -> Result<(), CheckFault>
        requires { IsSome (finite.get self.old name.now) }
        ensures ok { OnOk result (IsEdit op.now name.now self.old self.new) }
        ensures invalid { IfErr result (λ e. e ≢ of_check.Memory → valid op.now (document self.old name.now) ≡ None) }
        ensures kept { OnErr result (self.new ≡ self.old) }
    {
        let Some(rope) = self.map.get_mut(name) else {
            return Ok(());
        };
        apply_rope(alloc, op, rope)
    }

    // Applies the operation to a document that is there, and gives what takes it back.
    fn try_change(
        &mut self,
        alloc: Global,
        name: &DocumentName,
        op: &DocOp,
    ) -> Result<Replacement, CheckFault>
        requires { IsSome (finite.get self.old name.now) }
        ensures ok { OnOk result (IsEdit op.now name.now self.old self.new) }
        ensures back { IfOk result (λ back. IsBack (Some back) name.now self.old self.new) }
        ensures invalid { IfErr result (λ e. e ≢ of_check.Memory → valid op.now (document self.old name.now) ≡ None) }
        ensures kept { OnErr result (self.new ≡ self.old) }
    {
        let Some(rope) = self.map.get_mut(name) else {
            return Err(CheckFault::Memory);
        };
        edit(alloc, op, rope)
    }

    // Applies the operation to a document that isn't there.
    fn begin(&mut self, alloc: Global, name: &DocumentName, op: &DocOp) -> Result<(), CheckFault>
        requires { finite.get self.old name.now ≡ None }
        ensures ok { OnOk result (IsEdit op.now name.now self.old self.new) }
        ensures invalid { IfErr result (λ e. e ≢ of_check.Memory → valid op.now (document self.old name.now) ≡ None) }
        ensures kept { OnErr result (self.new ≡ self.old) }
    {
        let mut rope = Rope::new(alloc);
        apply_rope(alloc, op, &mut rope)?;
        self.insert(alloc, name, rope)?;
        Ok(())
    }

    /// Takes an edit back.
    pub fn take_back(&mut self, name: &DocumentName, back: Option<Replacement>)
        requires there { IfSome back (λ r. IsSome (finite.get self.old name.now)) }
        requires inside { IfSome back (λ r. r.from + r.count ≤ length (document self.old name.now)) }
        requires balanced { IfSome back (λ r. Balanced (replaced r (document self.old name.now))) }
        requires bound { IfSome back (λ r. length (replaced r (document self.old name.now)) ≤ max_count) }
        ensures { self.new ≡ set_key self.old name.now (put_back back (document self.old name.now)) }
    {
        match back {
            Some(replacement) => self.put(name, replacement),
            None => self.remove(name),
        }
    }

    fn put(&mut self, name: &DocumentName, back: Replacement)
        requires there { IsSome (finite.get self.old name.now) }
        requires inside { back.from + back.count ≤ length (document self.old name.now) }
        requires balanced { Balanced (replaced back (document self.old name.now)) }
        requires bound { length (replaced back (document self.old name.now)) ≤ max_count }
        ensures { self.new ≡ set_key self.old name.now (Some (replaced back (document self.old name.now))) }
    {
        let Some(rope) = self.map.get_mut(name) else {
            return;
        };
        rope.put(back.from, back.count, back.items);
    }

    /// Applies the operation to the document; one that becomes empty is taken away. Refusals: `OpInvalid` with this index.
    pub fn mutate(
        &mut self,
        alloc: Global,
        name: &DocumentName,
        op: &DocOp,
        index: u32,
    ) -> Result<(), WaveletFault>
        ensures ok { OnOk result (on_documents self.old (Mutates name.now (actions op.now)) ≡ Some self.new) }
        ensures trim { OnOk result ((q : Key) → IsTrimAt self.old q → IsTrimAt self.new q) }
        ensures refused { IfErr result (IsStepFault index (on_documents self.old (Mutates name.now (actions op.now)))) }
        ensures kept { OnErr result (self.new ≡ self.old) }
    {
        match self.edit(alloc, name, op) {
            Ok(()) => {
                self.trim(name);
                Ok(())
            }
            Err(fault) => Err(fault_at(fault, index)),
        }
    }

    // Whether the document is there, and empty.
    fn is_empty(&self, name: &DocumentName) -> bool
        ensures { result ≡ is_empty_there (finite.get self.now name.now) }
    {
        match self.map.get(name) {
            Some(rope) => rope.len() == 0,
            None => false,
        }
    }
}
