// A submission's operations on their way through the deltas that came since they were made.
ghost use Rattle.std.specs.Prelude.{◌≡◌, ◌⊎◌, List, [], length, Some, IfOk, IsSome};
ghost use Rattle.wavelet_op.specs.Acts.{Act, meanings, AreNormal};
ghost use Rattle.wavelet_op.specs.Grids.{grid};
ghost use Rattle.wavelet_container.specs.Passing.{CanCross, CanPass, IsPast, Passes};

use doc_items::Memory;
use std::alloc::{AllocError, Global};
use wavelet_op::{AppliedDelta, Ops, WaveletFault, transform_delta};

// The operations past others that are valid at the same state. The error is want of memory.
fn past(alloc: Global, ops: &Ops, earlier: &Ops) -> Result<Ops, Memory>
    requires { CanCross (meanings ops.now) (meanings earlier.now) }
    ensures { IfOk result (λ o. IsPast ops.now earlier.now o) }
{
    match transform_delta(alloc, ops, earlier) {
        Ok(pair) => Ok(pair.later),
        Err(fault) => Err(memory(fault)),
    }
}

// A fault that can only be want of memory.
fn memory(fault: WaveletFault) -> Memory
    requires { fault ≡ WaveletFault.Memory }
{
    // For the proof alone it is given.
    let _ = fault;
    AllocError
}

/// The operations passed through deltas, in normal form. The error is want of memory.
pub(crate) fn passed(alloc: Global, ops: &Ops, since: &[AppliedDelta]) -> Result<Ops, Memory>
    requires { (since.now ≡ []) ⊎ CanPass (meanings ops.now) since.now }
    ensures { IfOk result (λ o. Passes (meanings ops.now) since.now o) }
{
    match since.split_first() {
        None => ops.normal(alloc),
        Some((first, rest)) => {
            let passed = past(alloc, ops, &first.ops)?;
            pass_rest(alloc, passed, rest)
        }
    }
}

// The same for operations that are in normal form already.
fn pass_rest(alloc: Global, ops: Ops, since: &[AppliedDelta]) -> Result<Ops, Memory>
    requires can { CanPass (meanings ops) since.now }
    requires normal { AreNormal ops }
    ensures { IfOk result (λ o. Passes (meanings ops) since.now o) }
{
    let mut passed = ops;
    for delta in since {
        passed = past(alloc, &passed, &delta.ops)?;
    }
    Ok(passed)
}
