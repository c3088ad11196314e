// How operations and deltas apply to a state.
ghost use Rattle.std.specs.Prelude.{◌≡◌, ◌≢◌, ◌≤◌, ◌∷◌, [], None, Some, IfSome, IfOk, IfErr, OnOk, OnErr, length};
ghost use Rattle.wavelet_op.specs.Acts.{meaning, meanings, AreNormal};
ghost use Rattle.wavelet_op.specs.States.{apply_act, run};
ghost use Rattle.wavelet_state.specs.Drafts.{IsRefused, IsOutcome};
ghost use Rattle.wavelet_state.specs.Inverses.{inverse_acts, acts_back, led, TakesBack};

use crate::WaveletState;
use crate::back::Back;
use doc_items::Memory;
use std::alloc::{AllocError, Global};
use wavelet_op::{Ops, WaveletFault, WaveletOp};

/// Applies the operation to the state. The refusal is `OpInvalid(0)`, exactly where it isn't valid there. After it, and after want
/// of memory, the state is as it was.
pub fn apply_op(alloc: Global, state: &mut WaveletState, op: &WaveletOp) -> Result<(), WaveletFault>
    ensures ok { OnOk result (apply_act state.old (meaning op.now) ≡ Some state.new) }
    ensures refused { IfErr result (IsRefused state.old (meaning op.now ∷ [])) }
    ensures kept { OnErr result (state.new ≡ state.old) }
{
    let mut back = None;
    state.apply(alloc, op, &mut back)
}

/// Applies the delta's operations to the state, in turn. The refusal is `OpInvalid` with the index of the first one that isn't
/// valid where the ones before it lead, exactly where there is one. After it, and after want of memory, the state is as it was.
pub fn apply_delta(alloc: Global, state: &mut WaveletState, ops: &Ops) -> Result<(), WaveletFault>
    ensures ok { OnOk result (run state.old (meanings ops.now) ≡ Some state.new) }
    ensures refused { IfErr result (IsRefused state.old (meanings ops.now)) }
    ensures kept { OnErr result (state.new ≡ state.old) }
{
    let mut back = None;
    apply_list(alloc, state, ops.as_slice(), &mut back)
}

/// Applies the delta's operations, and answers None; or the index of the first one that isn't valid where the ones before it lead, after
/// which the state is as it was, as it is after want of memory.
pub fn try_delta(alloc: Global, state: &mut WaveletState, ops: &Ops) -> Result<Option<u32>, Memory>
    ensures outcome { IfOk result (λ invalid. IsOutcome state.old (meanings ops.now) invalid state.new) }
    ensures kept { OnErr result (state.new ≡ state.old) }
{
    match apply_delta(alloc, state, ops) {
        Ok(()) => Ok(None),
        Err(WaveletFault::OpInvalid(index)) => Ok(Some(index)),
        Err(WaveletFault::Memory) => Err(AllocError),
        Err(_) => unreachable!(),
    }
}

/// Applies operations that are valid at the state. After want of memory, the only error, the state is as it was.
pub fn apply_valid(alloc: Global, state: &mut WaveletState, ops: &Ops) -> Result<(), Memory>
    requires { run state.old (meanings ops.now) ≢ None }
    ensures ok { OnOk result (run state.old (meanings ops.now) ≡ Some state.new) }
    ensures kept { OnErr result (state.new ≡ state.old) }
{
    match try_delta(alloc, state, ops)? {
        None => Ok(()),
        Some(_) => unreachable!(),
    }
}

/// Applies operations that are valid at the state, and gives what takes them back. After want of memory, the only error, the state is
/// as it was.
pub fn invert_valid(alloc: Global, state: &mut WaveletState, ops: &Ops) -> Result<Back, Memory>
    requires { run state.old (meanings ops.now) ≢ None }
    ensures ok { OnOk result (run state.old (meanings ops.now) ≡ Some state.new) }
    ensures back { IfOk result (λ back. run state.new (meanings back) ≡ Some state.old) }
    ensures normal { IfOk result AreNormal }
    ensures kept { OnErr result (state.new ≡ state.old) }
{
    match apply_inverting(alloc, state, ops) {
        Ok(back) => Ok(back),
        Err(WaveletFault::Memory) => Err(AllocError),
        Err(_) => unreachable!(),
    }
}

/// Applies the delta's operations to the state as `apply_delta` does, and gives what takes them back: their inverses in reverse
/// order, each at the state before its operation. What an operation deletes is copied, and nothing else of the state.
pub fn apply_inverting(
    alloc: Global,
    state: &mut WaveletState,
    ops: &Ops,
) -> Result<Back, WaveletFault>
    ensures ok { OnOk result (run state.old (meanings ops.now) ≡ Some state.new) }
    ensures value { IfOk result (λ back. meanings back ≡ inverse_acts state.old (meanings ops.now)) }
    ensures back { IfOk result (λ back. run state.new (meanings back) ≡ Some state.old) }
    ensures normal { IfOk result AreNormal }
    ensures refused { IfErr result (IsRefused state.old (meanings ops.now)) }
    ensures kept { OnErr result (state.new ≡ state.old) }
{
    state.whole();
    let mut kept = Some(Back::new(alloc));
    if let Err(refusal) = apply_list(alloc, state, ops.as_slice(), &mut kept) {
        return Err(refusal);
    }
    match kept {
        Some(back) => {
            // Each operation is in normal form.
            let _count = back.len();
            Ok(back)
        }
        None => unreachable!(),
    }
}

// Applies operations in turn, and puts what takes them back in front, where that is kept.
fn apply_list(
    alloc: Global,
    state: &mut WaveletState,
    list: &[WaveletOp],
    back: &mut Option<Back>,
) -> Result<(), WaveletFault>
    requires { length list.now ≤ 1000 }
    ensures ok { OnOk result (run state.old (meanings list.now) ≡ Some state.new) }
    ensures back { OnOk result (acts_back back.new ≡ led (inverse_acts state.old (meanings list.now)) (acts_back back.old)) }
    ensures refused { IfErr result (IsRefused state.old (meanings list.now)) }
    ensures kept { OnErr result (state.new ≡ state.old) }
{
    match only(list) {
        Some(op) => state.apply(alloc, op, back),
        None => state.apply_all(alloc, list, back),
    }
}

// The only operation of a list; None where there are more, or none.
fn only(list: &[WaveletOp]) -> Option<&WaveletOp>
    ensures { IfSome result (λ op. list.now ≡ op.now ∷ []) }
{
    match list {
        [op] => Some(op),
        _ => None,
    }
}

/// The law of inverses: operations that are valid at a state, and then what takes them back, lead to the state before them.
#[tactic(auto, using(crate::proofs::Inverses::acts_back_law))]
pub fn inverses_take_back()
    ensures { TakesBack }
{}
