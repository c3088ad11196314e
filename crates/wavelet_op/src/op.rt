ghost use Rattle.std.specs.Prelude.{◌≡◌, ◌≤◌, ◌↔◌, IfOk, IsTrue};
ghost use Rattle.doc_items.specs.Limits.{max_count};
ghost use Rattle.wavelet_op.specs.Acts.{inserted_act, meaning, IsNormal, IsStructuredAct};

use crate::Role;
use doc_items::Memory;
use doc_op::DocOp;
use std::alloc::Global;
use wave_base::{Address, DocumentName};

/// An operation on a wavelet.
pub enum WaveletOp {
    /// Nothing.
    NoOp,
    /// An address that is absent becomes a participant, with the role `Full`.
    Add(Address),
    /// A participant is no more.
    Remove(Address),
    /// An operation on a document; one that was never mutated is empty.
    Mutate {
        document: DocumentName,
        op: DocOp,
    },
    /// A participant with the old role gets the new one.
    SetRole {
        address: Address,
        old: Role,
        new: Role,
    },
}

impl Drop for WaveletOp {
    fn drop(self) {
        match self {
            WaveletOp::NoOp => {}
            WaveletOp::Add(_part0) => {}
            WaveletOp::Remove(_part0) => {}
            WaveletOp::Mutate {
                document: _document,
                op: _op,
            } => {}
            WaveletOp::SetRole {
                address: _address,
                old: _old,
                new: _new,
            } => {}
        }
    }
}

impl WaveletOp {
    /// The number of items that the operation inserts.
    #[tactic(auto, unfolding(crate::specs::Acts::inserted_act))]
    pub fn inserted(&self) -> u64
        ensures value { result ≡ inserted_act (meaning self.now) }
        ensures bound { result ≤ max_count }
    {
        match self {
            WaveletOp::NoOp => 0,
            WaveletOp::Add(_) => 0,
            WaveletOp::Remove(_) => 0,
            WaveletOp::Mutate { op, .. } => op.inserted(),
            WaveletOp::SetRole { .. } => 0,
        }
    }

    /// Whether an operation on a document is structured; every other one is.
    pub fn is_structured(&self) -> bool
        ensures { IsTrue result ↔ IsStructuredAct (meaning self.now) }
    {
        match self {
            WaveletOp::NoOp => true,
            WaveletOp::Add(_) => true,
            WaveletOp::Remove(_) => true,
            WaveletOp::Mutate { op, .. } => op.is_structured(),
            WaveletOp::SetRole { .. } => true,
        }
    }

    /// An equal operation.
    pub fn copy(&self, alloc: Global) -> Result<WaveletOp, Memory>
        ensures { IfOk result (λ o. o ≡ self.now) }
    {
        match self {
            WaveletOp::NoOp => Ok(WaveletOp::NoOp),
            WaveletOp::Add(address) => Ok(WaveletOp::Add(address.copy(alloc)?)),
            WaveletOp::Remove(address) => Ok(WaveletOp::Remove(address.copy(alloc)?)),
            WaveletOp::Mutate { document, op } => {
                let document = document.copy(alloc)?;
                let op = op.copy(alloc)?;
                Ok(WaveletOp::Mutate { document, op })
            }
            WaveletOp::SetRole { address, old, new } => {
                let address = address.copy(alloc)?;
                Ok(WaveletOp::SetRole {
                    address,
                    old: *old,
                    new: *new,
                })
            }
        }
    }

    /// The operation with the same meaning whose operation on a document is in normal form.
    pub fn normal(&self, alloc: Global) -> Result<WaveletOp, Memory>
        ensures same { IfOk result (λ o. meaning o ≡ meaning self.now) }
        ensures normal { IfOk result IsNormal }
    {
        match self {
            WaveletOp::NoOp => Ok(WaveletOp::NoOp),
            WaveletOp::Add(address) => Ok(WaveletOp::Add(address.copy(alloc)?)),
            WaveletOp::Remove(address) => Ok(WaveletOp::Remove(address.copy(alloc)?)),
            WaveletOp::Mutate { document, op } => {
                let document = document.copy(alloc)?;
                let op = op.normal(alloc)?;
                Ok(WaveletOp::Mutate { document, op })
            }
            WaveletOp::SetRole { address, old, new } => {
                let address = address.copy(alloc)?;
                Ok(WaveletOp::SetRole {
                    address,
                    old: *old,
                    new: *new,
                })
            }
        }
    }
}
