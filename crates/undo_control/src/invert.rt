// What takes a delta's operations back.
ghost use Rattle.std.specs.Prelude.{◌≡◌, IsSome, IfOk, IfErr, OnOk};
ghost use Rattle.wavelet_op.specs.Acts.{meanings, AreNormal};
ghost use Rattle.wavelet_op.specs.States.{run};
ghost use Rattle.wavelet_state.specs.Drafts.{IsRefused};
ghost use Rattle.wavelet_state.specs.Inverses.{inverse_acts};

use std::alloc::Global;
use wavelet_op::{Ops, WaveletFault};
use wavelet_state::{Back, WaveletState, apply_inverting};

/// What takes the operations back that are valid at the state: their inverses in reverse order, each at the state before its
/// operation. The refusal is `OpInvalid` with the first operation that isn't valid, exactly where there is one. It copies the
/// state; who moves it calls `apply_inverting`, which doesn't.
pub fn invert_delta(alloc: Global, ops: &Ops, state: &WaveletState) -> Result<Back, WaveletFault>
    ensures value { IfOk result (λ back. meanings back ≡ inverse_acts state.now (meanings ops.now)) }
    ensures normal { IfOk result AreNormal }
    ensures valid { OnOk result (IsSome (run state.now (meanings ops.now))) }
    ensures refused { IfErr result (IsRefused state.now (meanings ops.now)) }
{
    let mut after = state.copy(alloc)?;
    apply_inverting(alloc, &mut after, ops)
}
