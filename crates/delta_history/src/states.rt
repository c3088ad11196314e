// States after deltas that are known to be valid.
ghost use Rattle.std.specs.Prelude.{◌≡◌, Some, IsSome, IfOk, OnOk, OnErr};
ghost use Rattle.wavelet_op.specs.States.{empty_state, run};
ghost use Rattle.delta_history.specs.Points.{acts_of, run_all};

use doc_items::Memory;
use std::alloc::Global;
use wavelet_op::AppliedDelta;
use wavelet_state::{WaveletState, apply_valid};

/// Applies a delta that is valid at the state. After want of memory, the only error, the state is as it was.
pub fn lead_on(alloc: Global, state: &mut WaveletState, delta: &AppliedDelta) -> Result<(), Memory>
    requires { IsSome (run state.old (acts_of delta.now)) }
    ensures ok { OnOk result (run state.old (acts_of delta.now) ≡ Some state.new) }
    ensures kept { OnErr result (state.new ≡ state.old) }
{
    apply_valid(alloc, state, &delta.ops)
}

/// The state after the deltas, which are valid in turn from the empty state on.
pub(crate) fn state_after(alloc: Global, deltas: &[AppliedDelta]) -> Result<WaveletState, Memory>
    requires { IsSome (run_all empty_state deltas.now) }
    ensures { IfOk result (λ s. run_all empty_state deltas.now ≡ Some s) }
{
    let mut state = WaveletState::new(alloc);
    for delta in deltas {
        lead_on(alloc, &mut state, delta)?;
    }
    Ok(state)
}
