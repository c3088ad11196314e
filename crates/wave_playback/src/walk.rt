// Many deltas on, or back.
ghost use Rattle.std.specs.Prelude.{◌≡◌, ◌≤◌, length, Some, IfOk, OnOk, OnErr};
ghost use Rattle.state_cache.specs.States.{state_after};
ghost use Rattle.wave_playback.specs.Places.{AreBacks};

use crate::steps::{Backs, replayed, step_back, step_on};
use delta_history::History;
use doc_items::Memory;
use std::alloc::Global;
use wavelet_state::WaveletState;

// The state after the first `from` deltas is led on to the one after the first `to`. After want of memory it is one between them.
fn walk_on(
    alloc: Global,
    history: &History,
    from: usize,
    to: usize,
    state: &mut WaveletState,
    backs: &mut Backs,
) -> Result<(), Memory>
    requires order { from ≤ to }
    requires inside { to ≤ length history.now.deltas }
    requires here { state_after history.now.deltas from ≡ Some state.old }
    requires backs { AreBacks history.now.deltas backs.old.items }
    requires reached { from ≤ length backs.old.items }
    ensures ok { OnOk result (state_after history.now.deltas to ≡ Some state.new) }
    ensures backs { AreBacks history.now.deltas backs.new.items }
    ensures longer { length backs.old.items ≤ length backs.new.items }
    ensures reached { OnOk result (to ≤ length backs.new.items) }
{
    for place in from..to {
        step_on(alloc, history, place, state, backs)?;
    }
    Ok(())
}

// The state after the first `from` deltas is led back to the one after the first `to`. After want of memory it is one between them.
fn walk_back(
    alloc: Global,
    history: &History,
    from: usize,
    to: usize,
    state: &mut WaveletState,
    backs: &Backs,
) -> Result<(), Memory>
    requires order { to ≤ from }
    requires inside { from ≤ length history.now.deltas }
    requires here { state_after history.now.deltas from ≡ Some state.old }
    requires backs { AreBacks history.now.deltas backs.now.items }
    requires reached { from ≤ length backs.now.items }
    ensures ok { OnOk result (state_after history.now.deltas to ≡ Some state.new) }
{
    let mut place = from;
    while place > to {
        step_back(alloc, history, place, state, backs)?;
        place -= 1;
    }
    Ok(())
}

// The state after the first `to` deltas, from a copy of the one after the first `from`.
fn from_here(
    alloc: Global,
    history: &History,
    from: usize,
    to: usize,
    shown: &WaveletState,
    backs: &mut Backs,
) -> Result<WaveletState, Memory>
    requires from { from ≤ length history.now.deltas }
    requires to { to ≤ length history.now.deltas }
    requires here { state_after history.now.deltas from ≡ Some shown.now }
    requires backs { AreBacks history.now.deltas backs.old.items }
    requires reached { from ≤ length backs.old.items }
    ensures ok { IfOk result (λ s. state_after history.now.deltas to ≡ Some s) }
    ensures backs { AreBacks history.now.deltas backs.new.items }
    ensures longer { length backs.old.items ≤ length backs.new.items }
    ensures reached { OnOk result (to ≤ length backs.new.items) }
{
    let mut state = shown.copy(alloc)?;
    if from <= to {
        walk_on(alloc, history, from, to, &mut state, backs)?;
        Ok(state)
    } else {
        walk_back(alloc, history, from, to, &mut state, backs)?;
        Ok(state)
    }
}

// The state after the first `to` deltas, from a copy of the history's own.
fn from_head(
    alloc: Global,
    history: &History,
    to: usize,
    backs: &Backs,
) -> Result<WaveletState, Memory>
    requires to { to ≤ length history.now.deltas }
    requires backs { AreBacks history.now.deltas backs.now.items }
    requires reached { length history.now.deltas ≤ length backs.now.items }
    ensures ok { IfOk result (λ s. state_after history.now.deltas to ≡ Some s) }
{
    let all = history.deltas().len();
    let mut state = history.state().copy(alloc)?;
    walk_back(alloc, history, all, to, &mut state, backs)?;
    Ok(state)
}

// The state after the first `to` deltas, from the nearest state that is there: the empty one, the history's own where all inverses are
// kept, or the one after the first `from`.
fn reach(
    alloc: Global,
    history: &History,
    from: usize,
    to: usize,
    shown: &WaveletState,
    backs: &mut Backs,
) -> Result<WaveletState, Memory>
    requires from { from ≤ length history.now.deltas }
    requires to { to ≤ length history.now.deltas }
    requires here { state_after history.now.deltas from ≡ Some shown.now }
    requires backs { AreBacks history.now.deltas backs.old.items }
    requires reached { from ≤ length backs.old.items }
    ensures ok { IfOk result (λ s. state_after history.now.deltas to ≡ Some s) }
    ensures backs { AreBacks history.now.deltas backs.new.items }
    ensures longer { length backs.old.items ≤ length backs.new.items }
    ensures reached { OnOk result (to ≤ length backs.new.items) }
{
    let here = from.abs_diff(to);
    if to < here {
        return replayed(alloc, history, to);
    }
    let all = history.deltas().len();
    if all - to < here && all <= backs.len() {
        return from_head(alloc, history, to, backs);
    }
    from_here(alloc, history, from, to, shown, backs)
}

/// The state after the first `from` deltas becomes the one after the first `to`. A single delta is taken in place; for more of them a
/// state of its own is led there, since after want of memory the state is as it was.
pub(crate) fn go(
    alloc: Global,
    history: &History,
    from: usize,
    to: usize,
    state: &mut WaveletState,
    backs: &mut Backs,
) -> Result<(), Memory>
    requires from { from ≤ length history.now.deltas }
    requires to { to ≤ length history.now.deltas }
    requires here { state_after history.now.deltas from ≡ Some state.old }
    requires backs { AreBacks history.now.deltas backs.old.items }
    requires reached { from ≤ length backs.old.items }
    ensures ok { OnOk result (state_after history.now.deltas to ≡ Some state.new) }
    ensures kept { OnErr result (state.new ≡ state.old) }
    ensures backs { AreBacks history.now.deltas backs.new.items }
    ensures longer { length backs.old.items ≤ length backs.new.items }
    ensures reached { OnOk result (to ≤ length backs.new.items) }
{
    if to == from {
        return Ok(());
    }
    if to == from + 1 {
        return step_on(alloc, history, from, state, backs);
    }
    if to < from && from - to == 1 {
        return step_back(alloc, history, from, state, backs);
    }
    *state = reach(alloc, history, from, to, state, backs)?;
    Ok(())
}
