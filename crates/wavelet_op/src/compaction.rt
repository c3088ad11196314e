ghost use Rattle.std.specs.Prelude.{IfOk, IfErr};
ghost use Rattle.wavelet_op.specs.Results.{IsCompaction, IsUnfit};

use crate::held::Held;
use crate::joining::{put, step};
use crate::{Ops, WaveletFault};
use std::alloc::Global;

/// Fewer operations that do the same: from the left, neighbouring operations on one document are composed. Those on documents
/// are in normal form. A refusal is that of the first two that can't be composed: `CountTooLarge`, `DontFit`.
pub fn compact(alloc: Global, ops: &Ops) -> Result<Ops, WaveletFault>
    ensures ok { IfOk result (λ fewer. IsCompaction ops.now fewer) }
    ensures refused { IfErr result (λ f. IsUnfit ops.now f) }
{
    let list = ops.as_slice();
    let mut done = Vec::with_capacity(alloc, list.len())?;
    let mut last = Held::Lent(&list[0]);
    for index in 1..list.len() {
        last = step(alloc, &mut done, last, &list[index])?;
    }
    let last = last.finish(alloc)?;
    put(&mut done, last)?;
    Ok(Ops::of(done))
}
