// Operations on their way through others.
ghost use Rattle.std.specs.Prelude.{◌≡◌, IfOk, IfSome};
ghost use Rattle.std.specs.List.{All};
ghost use Rattle.wavelet_op.specs.Acts.{meaning, meanings, IsNormal, AreNormal};
ghost use Rattle.wavelet_op.specs.Passing.{held, act_held, acts_held, IsSettled, after};

use crate::WaveletOp;
use doc_items::Memory;
use std::alloc::Global;

/// An operation on its way: as it was lent, or made since, and then in normal form.
pub(crate) enum Held<'a> {
    Lent(&'a WaveletOp),
    Made(WaveletOp),
}

impl<'a> Drop for Held<'a> {
    fn drop(self) {
        match self {
            Held::Lent(_part0) => {}
            Held::Made(_part0) => {}
        }
    }
}

impl<'a> Held<'a> {
    /// The operation.
    pub fn op(&self) -> &WaveletOp
        ensures { result.now ≡ held self.now }
    {
        match self {
            Held::Lent(op) => op,
            Held::Made(op) => op,
        }
    }

    /// What the operation becomes; it stays as it is where `change` is None.
    pub fn turned(self, change: Option<WaveletOp>) -> Held<'a>
        requires normal { IfSome change IsNormal }
        requires settled { IsSettled self }
        ensures value { held result ≡ after (held self.entry) change }
        ensures settled { IsSettled result }
    {
        match change {
            Some(op) => Held::Made(op),
            None => self,
        }
    }

    /// The operation in normal form.
    pub fn finish(self, alloc: Global) -> Result<WaveletOp, Memory>
        requires settled { IsSettled self }
        ensures same { IfOk result (λ o. meaning o ≡ act_held self.entry) }
        ensures normal { IfOk result IsNormal }
    {
        match self {
            Held::Lent(op) => op.normal(alloc),
            Held::Made(op) => Ok(op),
        }
    }
}

/// Operations as they are lent.
pub(crate) fn lent(alloc: Global, ops: &[WaveletOp]) -> Result<Vec<Held<'_>>, Memory>
    ensures acts { IfOk result (λ v. acts_held v.items ≡ meanings ops.now) }
    ensures settled { IfOk result (λ v. All IsSettled v.items) }
{
    let mut list = Vec::with_capacity(alloc, ops.len())?;
    for op in ops {
        list.push(Held::Lent(op))?;
    }
    Ok(list)
}

/// Operations in normal form.
pub(crate) fn finished<'a>(alloc: Global, list: Vec<Held<'a>>) -> Result<Vec<WaveletOp>, Memory>
    requires settled { All IsSettled list.items }
    ensures same { IfOk result (λ v. meanings v.items ≡ acts_held list.entry.items) }
    ensures normal { IfOk result (λ v. AreNormal v.items) }
{
    let mut ops = Vec::with_capacity(alloc, list.len())?;
    for op in list {
        let op = op.finish(alloc)?;
        ops.push(op)?;
    }
    Ok(ops)
}
