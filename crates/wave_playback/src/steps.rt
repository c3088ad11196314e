// One delta on, and one back.
ghost use Rattle.std.specs.Prelude.{◌≡◌, ◌<◌, ◌≤◌, ◌+◌, ◌-◌, ◌++◌, ◌∷◌, [], length, Some, IsSome, IfOk, IfSome, OnOk, OnErr};
ghost use Rattle.std.specs.Vec.{vec_len, vec_capacity};
ghost use Rattle.wavelet_op.specs.Acts.{meanings};
ghost use Rattle.wavelet_op.specs.States.{run};
ghost use Rattle.state_cache.specs.States.{state_after};
ghost use Rattle.wave_playback.specs.Places.{AreBacks};

use crate::places::version_at;
use delta_history::{History, lead_on};
use doc_items::Memory;
use std::alloc::Global;
use wavelet_op::Ops;
use wavelet_state::{WaveletState, apply_valid, invert_valid};

/// What takes the first deltas of a history back, each from the state after it to the one before; None where that has more
/// operations than a delta may have.
pub(crate) type Backs = Vec<Option<Ops>>;

// One more, for which there is room.
fn keep(backs: &mut Backs, back: Option<Ops>)
    requires { vec_len backs.old < vec_capacity backs.old }
    ensures { backs.new.items ≡ backs.old.items ++ back ∷ [] }
{
    match backs.push(back) {
        Ok(()) => {}
        Err(_) => unreachable!(),
    }
}

// The state is after the delta at the place, whose inverse is the next to be kept.
fn step_first(
    alloc: Global,
    history: &History,
    place: usize,
    state: &mut WaveletState,
    backs: &mut Backs,
) -> Result<(), Memory>
    requires inside { place < length history.now.deltas }
    requires here { state_after history.now.deltas place ≡ Some state.old }
    requires backs { AreBacks history.now.deltas backs.old.items }
    requires next { length backs.old.items ≡ place }
    ensures ok { OnOk result (state_after history.now.deltas (place + 1) ≡ Some state.new) }
    ensures kept { OnErr result (state.new ≡ state.old) }
    ensures backs { AreBacks history.now.deltas backs.new.items }
    ensures longer { length backs.old.items ≤ length backs.new.items }
    ensures reached { OnOk result (place < length backs.new.items) }
{
    let delta = &history.deltas()[place];
    backs.reserve(1)?;
    let back = invert_valid(alloc, state, &delta.ops)?;
    keep(backs, back.into_ops());
    Ok(())
}

// The state is after the delta at the place, whose inverse is kept.
fn step_again(
    alloc: Global,
    history: &History,
    place: usize,
    state: &mut WaveletState,
) -> Result<(), Memory>
    requires inside { place < length history.now.deltas }
    requires here { state_after history.now.deltas place ≡ Some state.old }
    ensures ok { OnOk result (state_after history.now.deltas (place + 1) ≡ Some state.new) }
    ensures kept { OnErr result (state.new ≡ state.old) }
{
    lead_on(alloc, state, &history.deltas()[place])
}

/// The state is after the delta at the place, and what takes it back is kept. After want of memory the state is as it was.
pub(crate) fn step_on(
    alloc: Global,
    history: &History,
    place: usize,
    state: &mut WaveletState,
    backs: &mut Backs,
) -> Result<(), Memory>
    requires inside { place < length history.now.deltas }
    requires here { state_after history.now.deltas place ≡ Some state.old }
    requires backs { AreBacks history.now.deltas backs.old.items }
    requires reached { place ≤ length backs.old.items }
    ensures ok { OnOk result (state_after history.now.deltas (place + 1) ≡ Some state.new) }
    ensures kept { OnErr result (state.new ≡ state.old) }
    ensures backs { AreBacks history.now.deltas backs.new.items }
    ensures longer { length backs.old.items ≤ length backs.new.items }
    ensures reached { OnOk result (place < length backs.new.items) }
{
    if place < backs.len() {
        return step_again(alloc, history, place, state);
    }
    step_first(alloc, history, place, state, backs)
}

/// The state after the first `place` deltas, which are applied for it.
pub(crate) fn replayed(
    alloc: Global,
    history: &History,
    place: usize,
) -> Result<WaveletState, Memory>
    requires { place ≤ length history.now.deltas }
    ensures { IfOk result (λ s. state_after history.now.deltas place ≡ Some s) }
{
    // The history is legal.
    let _deltas = history.deltas();
    let version = version_at(history, place);
    match history.state_at(alloc, version)? {
        Some(state) => Ok(state),
        None => unreachable!(),
    }
}

/// The state is before the last of the first `place` deltas, by what takes that one back. After want of memory it is as it was.
pub(crate) fn step_back(
    alloc: Global,
    history: &History,
    place: usize,
    state: &mut WaveletState,
    backs: &Backs,
) -> Result<(), Memory>
    requires some { 0 < place }
    requires inside { place ≤ length history.now.deltas }
    requires here { state_after history.now.deltas place ≡ Some state.old }
    requires backs { AreBacks history.now.deltas backs.now.items }
    requires reached { place ≤ length backs.now.items }
    ensures ok { OnOk result (state_after history.now.deltas (place - 1) ≡ Some state.new) }
    ensures kept { OnErr result (state.new ≡ state.old) }
{
    // The history is legal.
    let _deltas = history.deltas();
    match &backs[place - 1] {
        Some(ops) => {
            apply_valid(alloc, state, ops)?;
            Ok(())
        }
        None => {
            *state = replayed(alloc, history, place - 1)?;
            Ok(())
        }
    }
}
