// The screen, made anew.
ghost use Rattle.std.specs.Prelude.{◌≡◌, ◌≢◌, map, None, Some, IfOk, OnOk, OnErr};
ghost use Rattle.wavelet_op.specs.Acts.{meanings};
ghost use Rattle.wavelet_op.specs.States.{run};
ghost use Rattle.follower_rules.specs.Followers.{run_all};
ghost use Rattle.client_control.specs.Parts.{ops_flying};

use crate::flight::InFlight;
use doc_items::Memory;
use std::alloc::Global;
use wavelet_op::Ops;
use wavelet_state::{WaveletState, apply_valid};

/// The state after entries in turn, which are valid there.
pub(crate) fn run_all(
    alloc: Global,
    state: WaveletState,
    queue: &[Ops],
) -> Result<WaveletState, Memory>
    requires { run_all state (map meanings queue.now) ≢ None }
    ensures { IfOk result (λ t. run_all state (map meanings queue.now) ≡ Some t) }
{
    let mut state = state;
    for ops in queue {
        apply_valid(alloc, &mut state, ops)?;
    }
    Ok(state)
}

/// The state after the flight, which is valid there.
pub(crate) fn run_flight(
    alloc: Global,
    state: WaveletState,
    flight: &Option<InFlight>,
) -> Result<WaveletState, Memory>
    requires { run_all state (map meanings (ops_flying flight.now)) ≢ None }
    ensures { IfOk result (λ t. run_all state (map meanings (ops_flying flight.now)) ≡ Some t) }
{
    let Some(flight) = flight else {
        return Ok(state);
    };
    let mut state = state;
    apply_valid(alloc, &mut state, &flight.ops)?;
    Ok(state)
}
