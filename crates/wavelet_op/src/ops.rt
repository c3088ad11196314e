ghost use Rattle.std.specs.Prelude.{◌≡◌, ◌<◌, ◌≤◌, ◌*◌, ◌↔◌, cond, length, Some, None, IfOk, IsTrue};
ghost use Rattle.doc_items.specs.Limits.{max_count};
ghost use Rattle.wavelet_op.specs.Acts.{inserted, meanings, AreNormal, AreStructuredActs};
ghost use Rattle.wavelet_op.specs.Deltas.{is_count};

use crate::WaveletOp;
use doc_items::Memory;
use std::alloc::Global;
use std::marker::Model;

/// The most operations that a delta has.
pub const MAX_OPS: usize = 1000;

/// The operations of a delta, in order: 1 to 1,000 of them.
#[derive(Drop)]
pub struct Ops {
    list: Vec<WaveletOp>,
}

impl Model for Ops {
    ghost use Rattle.std.specs.Prelude.{List, length, ◌<◌, ◌≤◌};
    ghost use Rattle.std.specs.Coded.{coded_list};
    ghost use Rattle.wavelet_op.specs.declared.op.WaveletOp.{WaveletOp};
    ghost use Rattle.wavelet_op.specs.contracts.op.WaveletOp as op_row;

    ghost Value = { List WaveletOp };

    ghost coded = { coded_list op_row.the_row.coded };

    ghost view = { λ o. o.list.items };

    ghost invariant = { λ o. (0 < length o.list.items) × (length o.list.items ≤ 1000) };
}

impl Ops {
    /// The operations of this list; None exactly where it is empty or longer than 1,000.
    pub fn new(list: Vec<WaveletOp>) -> Option<Ops>
        ensures { result ≡ cond (is_count (length list.items)) (Some list.items) None }
    {
        if list.is_empty() || list.len() > MAX_OPS {
            return None;
        }
        Some(Ops { list })
    }

    /// The operations of this list, which is neither empty nor longer than 1,000.
    pub(crate) fn of(list: Vec<WaveletOp>) -> Ops
        requires some { 0 < length list.items }
        requires bound { length list.items ≤ 1000 }
        ensures { result ≡ list.items }
    {
        Ops { list }
    }

    /// The operations, in order.
    pub fn as_slice(&self) -> &[WaveletOp]
        ensures value { result.now ≡ self.now }
        ensures some { 0 < length self.now }
        ensures bound { length self.now ≤ 1000 }
    {
        self.list.as_slice()
    }

    /// The number of operations.
    pub fn len(&self) -> u64
        ensures value { result ≡ length self.now }
        ensures some { 0 < result }
        ensures bound { result ≤ 1000 }
    {
        self.list.len() as u64
    }

    /// The number of items that the operations insert.
    pub fn inserted(&self) -> u64
        ensures value { result ≡ inserted (meanings self.now) }
        ensures bound { result ≤ 1000 * max_count }
    {
        let list = self.as_slice();
        let mut sum = 0;
        for op in list {
            sum += op.inserted();
        }
        sum
    }

    /// Whether each operation on a document is structured.
    pub fn is_structured(&self) -> bool
        ensures { IsTrue result ↔ AreStructuredActs (meanings self.now) }
    {
        for op in self.as_slice() {
            if !op.is_structured() {
                return false;
            }
        }
        true
    }

    /// Equal operations.
    pub fn copy(&self, alloc: Global) -> Result<Ops, Memory>
        ensures { IfOk result (λ o. o ≡ self.now) }
    {
        let mut list = Vec::with_capacity(alloc, self.list.len())?;
        for op in self.list.as_slice() {
            list.push(op.copy(alloc)?)?;
        }
        Ok(Ops { list })
    }

    /// The operations with the same meanings, those on documents in normal form.
    pub fn normal(&self, alloc: Global) -> Result<Ops, Memory>
        ensures same { IfOk result (λ o. meanings o ≡ meanings self.now) }
        ensures normal { IfOk result AreNormal }
    {
        let mut list = Vec::with_capacity(alloc, self.list.len())?;
        for op in self.list.as_slice() {
            list.push(op.normal(alloc)?)?;
        }
        Ok(Ops { list })
    }
}
