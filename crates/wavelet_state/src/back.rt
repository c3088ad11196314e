// What takes operations back.
ghost use Rattle.std.specs.Prelude.{◌≡◌, ◌∷◌, [], cond, length, Some, None, OnOk, OnErr};
ghost use Rattle.wavelet_op.specs.Acts.{IsNormal, AreNormal};
ghost use Rattle.wavelet_op.specs.Deltas.{is_count};

use doc_items::Memory;
use std::alloc::Global;
use std::marker::Model;
use wavelet_op::{Ops, WaveletOp};

/// What takes operations back: operations in normal form, in the order in which they apply.
#[derive(Drop)]
pub struct Back {
    // The one that applies first is the last.
    list: Vec<WaveletOp>,
}

impl Model for Back {
    ghost use Rattle.std.specs.Prelude.{List, reverse};
    ghost use Rattle.std.specs.Coded.{coded_list};
    ghost use Rattle.wavelet_op.specs.Acts.{AreNormal};
    ghost use Rattle.wavelet_op.specs.declared.op.WaveletOp.{WaveletOp};
    ghost use Rattle.wavelet_op.specs.contracts.op.WaveletOp as op_row;

    ghost Value = { List WaveletOp };

    ghost coded = { coded_list op_row.the_row.coded };

    ghost view = { λ b. reverse b.list.items };

    ghost invariant = { λ b. AreNormal (reverse b.list.items) };
}

impl Back {
    /// Nothing.
    pub(crate) fn new(alloc: Global) -> Back
        ensures { result ≡ [] }
    {
        Back {
            list: Vec::new(alloc),
        }
    }

    /// Puts an operation in normal form in front. The error is want of memory.
    pub(crate) fn put(&mut self, op: WaveletOp) -> Result<(), Memory>
        requires { IsNormal op }
        ensures ok { OnOk result (self.new ≡ op ∷ self.old) }
        ensures kept { OnErr result (self.new ≡ self.old) }
    {
        self.list.push(op)?;
        Ok(())
    }

    /// The number of operations.
    pub fn len(&self) -> u64
        ensures value { result ≡ length self.now }
        ensures normal { AreNormal self.now }
    {
        self.list.len() as u64
    }

    /// The operations as those of a delta; None exactly where there are none, or more than 1,000.
    pub fn into_ops(self) -> Option<Ops>
        ensures value { result ≡ cond (is_count (length self)) (Some self) None }
        ensures normal { AreNormal self }
    {
        let mut list = self.list;
        list.reverse();
        Ops::new(list)
    }
}
