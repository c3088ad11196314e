// What takes an operation back at a draft.
ghost use Rattle.std.specs.Prelude.{◌≡◌, ◌≢◌, ◌∷◌, ◌++◌, OnOk, IfErr, IfOk, None};
ghost use Rattle.doc_op.specs.Actions.{actions};
ghost use Rattle.doc_op.specs.Apply.{valid};
ghost use Rattle.op_invert.specs.Inverse.{IsInverse};
ghost use Rattle.op_validity.specs.declared.fault.CheckFault.TheVariants as of_check;
ghost use Rattle.wavelet_op.specs.Acts.{meaning, meanings, Adds, Removes, Sets, Mutates};
ghost use Rattle.wavelet_state.specs.Inverses.{readded, back_at, acts_back, led};
ghost use Rattle.wavelet_state.specs.Parts.{document, IsStepFault};
ghost use Rattle.wavelet_state.specs.Drafts.{act_at};

use crate::back::Back;
use crate::documents::Documents;
use crate::draft::Draft;
use crate::fault::fault_at;
use doc_items::Memory;
use doc_op::DocOp;
use doc_rope::Rope;
use op_invert::invert_rope;
use op_validity::CheckFault;
use std::alloc::Global;
use wave_base::{Address, DocumentName};
use wavelet_op::{Role, WaveletFault, WaveletOp};

impl Documents {
    /// The inverse of the operation at the document, which is empty where it isn't there. The refusals are those of `check`.
    pub fn inverse(
        &self,
        alloc: Global,
        name: &DocumentName,
        op: &DocOp,
    ) -> Result<DocOp, CheckFault>
        ensures ok { IfOk result (λ o. IsInverse op.now (document self.now name.now) o) }
        ensures invalid { IfErr result (λ e. e ≢ of_check.Memory → valid op.now (document self.now name.now) ≡ None) }
    {
        match self.get(name) {
            Some(rope) => invert_rope(alloc, op, rope),
            None => {
                let empty = Rope::new(alloc);
                invert_rope(alloc, op, &empty)
            }
        }
    }
}

impl Draft {
    /// Puts what takes the operation back here in front, where that is kept. Refusals: `OpInvalid` with this index, only where the
    /// operation doesn't apply.
    pub fn keep_inverse(
        &self,
        alloc: Global,
        op: &WaveletOp,
        index: u32,
        kept: &mut Option<Back>,
    ) -> Result<(), WaveletFault>
        ensures ok { OnOk result (acts_back kept.new
            ≡ led (back_at self.now.roles self.now.documents (meaning op.now)) (acts_back kept.old)) }
        ensures refused { IfErr result (IsStepFault index (act_at self.now.roles self.now.documents (meaning op.now))) }
    {
        match kept {
            Some(back) => self.put_inverse(alloc, op, index, back),
            None => Ok(()),
        }
    }

    // Puts what takes the operation back here in front.
    fn put_inverse(
        &self,
        alloc: Global,
        op: &WaveletOp,
        index: u32,
        back: &mut Back,
    ) -> Result<(), WaveletFault>
        ensures ok { OnOk result (meanings back.new ≡ back_at self.now.roles self.now.documents (meaning op.now) ++ meanings back.old) }
        ensures refused { IfErr result (IsStepFault index (act_at self.now.roles self.now.documents (meaning op.now))) }
    {
        match op {
            WaveletOp::NoOp => {
                back.put(WaveletOp::NoOp)?;
                Ok(())
            }
            WaveletOp::Add(address) => {
                put_removal(alloc, address, back)?;
                Ok(())
            }
            WaveletOp::Remove(address) => {
                put_return(alloc, address, self.roles.get(address), back)?;
                Ok(())
            }
            WaveletOp::Mutate { document, op } => self.put_edit(alloc, document, op, index, back),
            WaveletOp::SetRole { address, old, new } => {
                put_role(alloc, address, *new, *old, back)?;
                Ok(())
            }
        }
    }

    // Puts the inverse of an operation on a document in front.
    fn put_edit(
        &self,
        alloc: Global,
        document: &DocumentName,
        op: &DocOp,
        index: u32,
        back: &mut Back,
    ) -> Result<(), WaveletFault>
        ensures ok { OnOk result (meanings back.new ≡ back_at self.now.roles self.now.documents (Mutates document.now (actions op.now))
            ++ meanings back.old) }
        ensures refused { IfErr result
            (IsStepFault index (act_at self.now.roles self.now.documents (Mutates document.now (actions op.now)))) }
    {
        let op = match self.documents.inverse(alloc, document, op) {
            Ok(inverse) => inverse,
            Err(fault) => return Err(fault_at(fault, index)),
        };
        let document = document.copy(alloc)?;
        back.put(WaveletOp::Mutate { document, op })?;
        Ok(())
    }
}

// The address is added.
fn put_addition(alloc: Global, address: &Address, back: &mut Back) -> Result<(), Memory>
    ensures { OnOk result (meanings back.new ≡ Adds address.now ∷ meanings back.old) }
{
    let address = address.copy(alloc)?;
    back.put(WaveletOp::Add(address))
}

// The address is taken away.
fn put_removal(alloc: Global, address: &Address, back: &mut Back) -> Result<(), Memory>
    ensures { OnOk result (meanings back.new ≡ Removes address.now ∷ meanings back.old) }
{
    let address = address.copy(alloc)?;
    back.put(WaveletOp::Remove(address))
}

// The address gets a role in place of another.
fn put_role(
    alloc: Global,
    address: &Address,
    old: Role,
    new: Role,
    back: &mut Back,
) -> Result<(), Memory>
    ensures { OnOk result (meanings back.new ≡ Sets address.now old new ∷ meanings back.old) }
{
    let address = address.copy(alloc)?;
    back.put(WaveletOp::SetRole { address, old, new })
}

// An address that was taken away comes back, with its role.
fn put_return(
    alloc: Global,
    address: &Address,
    role: Option<Role>,
    back: &mut Back,
) -> Result<(), Memory>
    ensures { OnOk result (meanings back.new ≡ readded address.now role ++ meanings back.old) }
{
    match role {
        Some(Role::ReadOnly) => {
            put_role(alloc, address, Role::Full, Role::ReadOnly, back)?;
            put_addition(alloc, address, back)
        }
        Some(Role::Full) => put_addition(alloc, address, back),
        None => put_addition(alloc, address, back),
    }
}
