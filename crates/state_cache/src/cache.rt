// Kept states.
ghost use Rattle.std.specs.Prelude.{◌≡◌, ◌+◌, ◌-◌, ◌*◌, ◌<◌, ◌≤◌, ◌++◌, ◌∷◌, [], length, take, Some, IsSome, IfOk, OnOk, OnErr};
ghost use Rattle.wavelet_op.specs.Acts.{meanings};
ghost use Rattle.wavelet_op.specs.States.{empty_state, run};
ghost use Rattle.delta_history.specs.Points.{run_all};
ghost use Rattle.state_cache.specs.States.{state_after, AreKept, IsCacheOf, IsBegun};

use crate::Steps;
use delta_history::lead_on;
use doc_items::Memory;
use std::alloc::Global;
use std::marker::Model;
use std::sync::ledger::Ledger;
use wavelet_op::AppliedDelta;
use wavelet_state::{PackedState, WaveletState};

// How many deltas there are from one kept state to the next.
const INTERVAL: usize = 64;

/// The states after 0, 64, 128 and so on of the deltas that it was grown over, in few bytes.
#[derive(Drop)]
pub struct StateCache {
    states: Vec<PackedState>,
}

impl Model for StateCache {
    ghost use Rattle.std.specs.Prelude.{List};
    ghost use Rattle.std.specs.Coded.{coded_list};
    ghost use Rattle.wavelet_op.specs.States.{State};
    ghost use Rattle.wavelet_state.specs.contracts.packed.PackedState as state_row;

    ghost Value = { List State };

    ghost coded = { coded_list state_row.the_row.coded };

    ghost view = { λ c. c.states.items };
}

impl StateCache {
    /// The cache of no deltas, which keeps the state without anything. The error is want of memory.
    pub fn new(alloc: Global) -> Result<StateCache, Memory>
        ensures { IfOk result (λ c. IsCacheOf [] c) }
    {
        let mut states = Vec::new(alloc);
        let first = PackedState::pack(alloc, &WaveletState::new(alloc), None)?;
        states.push(first)?;
        Ok(StateCache { states })
    }

    /// Grows the cache over deltas that are valid in turn from the state without anything on, and that begin with those that it
    /// was grown over. It is the cache of all of them then. After want of memory it is as it was.
    pub fn grow(&mut self, alloc: Global, deltas: &[AppliedDelta]) -> Result<(), Memory>
        requires valid { IsSome (run_all empty_state deltas.now) }
        requires begins { IsBegun deltas.now self.old }
        ensures ok { OnOk result (IsCacheOf deltas.now self.new) }
        ensures same { OnErr result (self.new ≡ self.old) }
    {
        let count = self.states.len();
        match self.keep_all(alloc, deltas) {
            Ok(()) => Ok(()),
            Err(memory) => {
                self.states.truncate(count);
                Err(memory)
            }
        }
    }

    // Keeps the states that are still to be kept. After want of memory some may stand after the others.
    fn keep_all(&mut self, alloc: Global, deltas: &[AppliedDelta]) -> Result<(), Memory>
        requires valid { IsSome (run_all empty_state deltas.now) }
        requires begins { IsBegun deltas.now self.old }
        ensures ok { OnOk result (IsCacheOf deltas.now self.new) }
        ensures front { take (length self.old) self.new ≡ self.old }
    {
        let count = self.states.len();
        let all = deltas.len() / INTERVAL + 1;
        if count == all {
            return Ok(());
        }
        let mut state = self.states[count - 1].unpack(alloc)?;
        for _ in count..all {
            self.keep_next(alloc, deltas, &mut state)?;
        }
        Ok(())
    }

    // Keeps one state more. The given state is the last one that is kept, before and afterwards.
    fn keep_next(
        &mut self,
        alloc: Global,
        deltas: &[AppliedDelta],
        state: &mut WaveletState,
    ) -> Result<(), Memory>
        requires valid { IsSome (run_all empty_state deltas.now) }
        requires kept { AreKept deltas.now self.old }
        requires some { 0 < length self.old }
        requires more { 64 * length self.old ≤ length deltas.now }
        requires last { state_after deltas.now ((length self.old - 1) * 64) ≡ Some state.old }
        ensures kept { OnOk result (AreKept deltas.now self.new) }
        ensures longer { OnOk result (length self.new ≡ length self.old + 1) }
        ensures last { OnOk result (state_after deltas.now (length self.old * 64) ≡ Some state.new) }
        ensures front { take (length self.old) self.new ≡ self.old }
        ensures same { OnErr result (self.new ≡ self.old) }
    {
        let last = self.states.len() - 1;
        let from = last * INTERVAL;
        apply_all(alloc, state, &deltas[from..from + INTERVAL])?;
        let packed = PackedState::pack(alloc, state, Some(&self.states[last]))?;
        self.states.push(packed)?;
        Ok(())
    }

    /// The state after the first `count` of the deltas that the cache was grown over, with at most 63 steps: one for each delta
    /// that is applied. The error is want of memory.
    pub fn state_at<L: Ledger>(
        &self,
        alloc: Global,
        deltas: &[AppliedDelta],
        count: u64,
        steps: &mut Steps<L>,
    ) -> Result<WaveletState, Memory>
        requires valid { IsSome (run_all empty_state deltas.now) }
        requires cached { IsCacheOf deltas.now self.now }
        requires inside { count ≤ length deltas.now }
        ensures value { IfOk result (λ s. state_after deltas.now count ≡ Some s) }
        ensures cost { steps.new ≤ steps.old + 63 }
    {
        let count = count as usize;
        let place = count / INTERVAL;
        let mut state = self.states[place].unpack(alloc)?;
        apply_counted(alloc, &mut state, &deltas[place * INTERVAL..count], steps)?;
        Ok(state)
    }
}

// The state is after the deltas, which are valid in turn.
fn apply_all(alloc: Global, state: &mut WaveletState, deltas: &[AppliedDelta]) -> Result<(), Memory>
    requires { IsSome (run_all state.old deltas.now) }
    ensures { OnOk result (run_all state.old deltas.now ≡ Some state.new) }
{
    for delta in deltas {
        lead_on(alloc, state, delta)?;
    }
    Ok(())
}

// The state is after the deltas, which are valid in turn, with a step for each of them.
fn apply_counted<L: Ledger>(
    alloc: Global,
    state: &mut WaveletState,
    deltas: &[AppliedDelta],
    steps: &mut Steps<L>,
) -> Result<(), Memory>
    requires { IsSome (run_all state.old deltas.now) }
    ensures value { OnOk result (run_all state.old deltas.now ≡ Some state.new) }
    ensures cost { steps.new ≤ steps.old + length deltas.now }
{
    for delta in deltas {
        steps.tick();
        lead_on(alloc, state, delta)?;
    }
    Ok(())
}
