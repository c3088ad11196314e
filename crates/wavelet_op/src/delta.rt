ghost use Rattle.std.specs.Prelude.{◌≡◌, ◌≤◌, IfOk};
ghost use Rattle.doc_items.specs.Limits.{max_count};
ghost use Rattle.wavelet_op.specs.Acts.{AreNormal};

use crate::Ops;
use doc_items::Memory;
use std::alloc::Global;
use std::marker::Model;
use wave_base::{DeltaId, HashedVersion};

/// Operations that a client made at a version, and hands in.
pub struct Submission {
    pub id: DeltaId,
    /// The version at which the operations were made.
    pub at: HashedVersion,
    pub ops: Ops,
}

impl Drop for Submission {
    fn drop(self) {
        let Submission {
            id: _id,
            at: _at,
            ops: _ops,
        } = self;
    }
}

impl Submission {
    /// An equal submission.
    pub fn copy(&self, alloc: Global) -> Result<Submission, Memory>
        ensures { IfOk result (λ s. s ≡ self.now) }
    {
        let id = self.id.copy(alloc)?;
        let ops = self.ops.copy(alloc)?;
        Ok(Submission {
            id,
            at: self.at,
            ops,
        })
    }
}

/// A delta of a history: operations that were applied at a version. Those on documents are in normal form.
pub struct AppliedDelta {
    pub id: DeltaId,
    /// The version at which the operations were applied.
    pub from: HashedVersion,
    /// When they were applied, at most 2^53 - 1.
    pub time: u64,
    pub ops: Ops,
}

impl Drop for AppliedDelta {
    fn drop(self) {
        let AppliedDelta {
            id: _id,
            from: _from,
            time: _time,
            ops: _ops,
        } = self;
    }
}

impl Model for AppliedDelta {
    ghost use Rattle.std.specs.Prelude.{◌≤◌};
    ghost use Rattle.doc_items.specs.Limits.{max_count};
    ghost use Rattle.wavelet_op.specs.Acts.{AreNormal};
    ghost use Rattle.std.specs.Coded.{codes};
    ghost use Rattle.wavelet_op.specs.Deltas.{DeltaOf};
    ghost use Rattle.wavelet_op.specs.contracts.op.WaveletOp as op_row;

    ghost Value = { DeltaOf };

    ghost coded = { Prim.hlevel (codes, op_row.the_row.coded) };

    ghost view = { λ d. record { id = d.id; from = d.from; time = d.time; ops = d.ops } };

    ghost invariant = { λ d. (d.time ≤ max_count) × AreNormal d.ops };

    ghost inverse = { λ d. record { id = d.id; from = d.from; time = d.time; ops = d.ops } };
}

impl AppliedDelta {
    /// The operations, by value.
    pub fn into_ops(self) -> Ops
        ensures { result ≡ self.ops }
    {
        let AppliedDelta {
            id: _id,
            from: _from,
            time: _time,
            ops,
        } = self;
        ops
    }

    /// An equal delta.
    pub fn copy(&self, alloc: Global) -> Result<AppliedDelta, Memory>
        ensures { IfOk result (λ d. d ≡ self.now) }
    {
        let id = self.id.copy(alloc)?;
        let ops = self.ops.copy(alloc)?;
        Ok(AppliedDelta {
            id,
            from: self.from,
            time: self.time,
            ops,
        })
    }
}
