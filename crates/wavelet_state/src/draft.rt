// The two parts of a state, while operations apply to them.
ghost use Rattle.std.specs.Prelude.{◌≡◌, ◌+◌, ◌^◌, ◌<◌, ◌≤◌, length, Some, OnOk, OnErr, IfErr, IfOk};
ghost use Rattle.doc_items.specs.Maps.{Key};
ghost use Rattle.wavelet_op.specs.Acts.{meaning, meanings};
ghost use Rattle.wavelet_op.specs.States.{apply_act, run};
ghost use Rattle.wavelet_state.specs.Drafts.{seen, whole, IsRefusedFrom};
ghost use Rattle.wavelet_state.specs.Inverses.{inverse_acts, acts_back, led};
ghost use Rattle.wavelet_state.specs.Parts.{IsTrimAt, IsStepFault};

use crate::back::Back;
use crate::documents::Documents;
use crate::fault::fault_at;
use crate::roles::Roles;
use doc_items::Memory;
use std::alloc::Global;
use wavelet_op::{WaveletFault, WaveletOp};

/// The roles and the documents of a state.
pub(crate) struct Draft {
    pub roles: Roles,
    pub documents: Documents,
}

impl Drop for Draft {
    fn drop(self) {
        let Draft {
            roles: _roles,
            documents: _documents,
        } = self;
    }
}

impl Draft {
    /// An equal draft.
    pub fn copy(&self, alloc: Global) -> Result<Draft, Memory>
        ensures roles { IfOk result (λ d. d.roles ≡ self.now.roles) }
        ensures documents { IfOk result (λ d. d.documents ≡ self.now.documents) }
    {
        let roles = self.roles.copy(alloc)?;
        let documents = self.documents.copy(alloc)?;
        Ok(Draft { roles, documents })
    }

    /// Applies one operation. Refusals: `OpInvalid` with this index. They, and want of memory, leave all as it was.
    pub fn step(&mut self, alloc: Global, op: &WaveletOp, index: u32) -> Result<(), WaveletFault>
        ensures ok { OnOk result (apply_act (whole self.old.roles self.old.documents) (meaning op.now)
            ≡ Some (whole self.new.roles self.new.documents)) }
        ensures trim { OnOk result ((q : Key) → IsTrimAt self.old.documents q → IsTrimAt self.new.documents q) }
        ensures refused { IfErr result (IsStepFault index (apply_act (whole self.old.roles self.old.documents) (meaning op.now))) }
        ensures kept_roles { OnErr result (self.new.roles ≡ self.old.roles) }
        ensures kept_documents { OnErr result (self.new.documents ≡ self.old.documents) }
    {
        match op {
            WaveletOp::NoOp => Ok(()),
            WaveletOp::Add(_) => self.roles.step(alloc, op, index),
            WaveletOp::Remove(_) => self.roles.step(alloc, op, index),
            WaveletOp::Mutate { document, op } => self.documents.mutate(alloc, document, op, index),
            WaveletOp::SetRole { .. } => self.roles.step(alloc, op, index),
        }
    }

    /// Applies the operations in turn, and puts what takes them back in front, where that is kept. Refusals: `OpInvalid` with the
    /// first one that isn't valid, counted from this index. They, and want of memory, leave the documents as they were.
    pub fn run(
        &mut self,
        alloc: Global,
        ops: &[WaveletOp],
        index: u32,
        back: &mut Option<Back>,
    ) -> Result<(), WaveletFault>
        requires { index + length ops.now < 2 ^ 32 }
        ensures ok { OnOk result (run (seen self.old.roles self.old.documents) (meanings ops.now)
            ≡ Some (seen self.new.roles self.new.documents)) }
        ensures back { OnOk result
            (acts_back back.new ≡ led (inverse_acts (seen self.old.roles self.old.documents) (meanings ops.now)) (acts_back back.old)) }
        ensures trim { OnOk result ((q : Key) → IsTrimAt self.old.documents q → IsTrimAt self.new.documents q) }
        ensures refused { IfErr result (IsRefusedFrom index (seen self.old.roles self.old.documents) (meanings ops.now)) }
        ensures kept { OnErr result (self.new.documents ≡ self.old.documents) }
    {
        let Some((op, rest)) = ops.split_first() else {
            return Ok(());
        };
        if let Err(invalid) = self.keep_inverse(alloc, op, index, back) {
            return Err(invalid);
        }
        let WaveletOp::Mutate {
            document,
            op: change,
        } = op
        else {
            if let Err(refusal) = self.roles.step(alloc, op, index) {
                return Err(refusal);
            }
            return self.run(alloc, rest, index + 1, back);
        };
        let before = match self.documents.try_edit(alloc, document, change) {
            Ok(before) => before,
            Err(fault) => return Err(fault_at(fault, index)),
        };
        match self.run(alloc, rest, index + 1, back) {
            Ok(()) => {
                self.documents.trim(document);
                Ok(())
            }
            Err(fault) => {
                self.documents.take_back(document, before);
                Err(fault)
            }
        }
    }
}
