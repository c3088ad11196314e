// The states after the first deltas of a history.
ghost use Rattle.std.specs.Prelude.{◌≡◌, ◌≤◌, ◌<◌, suc, length, Some, IsSome, IfOk, OnOk, OnErr};
ghost use Rattle.wavelet_op.specs.States.{empty_state, run};
ghost use Rattle.delta_history.specs.Points.{acts_of, run_all};
ghost use Rattle.state_cache.specs.States.{state_after};
ghost use Rattle.robot_host.specs.Walks.{IsReached, IsThere};

use delta_history::{History, lead_on};
use doc_items::Memory;
use std::alloc::Global;
use wavelet_op::AppliedDelta;
use wavelet_state::WaveletState;

/// A walk over the deltas of a history: how many it went over, and the state after them.
pub(crate) struct Walk {
    pub place: usize,
    pub state: WaveletState,
}

impl Drop for Walk {
    fn drop(self) {
        let Walk {
            place: _place,
            state: _state,
        } = self;
    }
}

impl Walk {
    /// A walk that is at the start.
    pub fn new(alloc: Global) -> Walk
        ensures place { result.place ≡ 0 }
        ensures state { result.state ≡ empty_state }
    {
        Walk {
            place: 0,
            state: WaveletState::new(alloc),
        }
    }

    // Goes one delta on.
    fn step(&mut self, alloc: Global, deltas: &[AppliedDelta]) -> Result<(), Memory>
        requires valid { IsSome (run_all empty_state deltas.now) }
        requires within { self.old.place < length deltas.now }
        requires reached { IsReached deltas.now self.old }
        ensures reached { IsReached deltas.now self.new }
        ensures place { OnOk result (self.new.place ≡ suc self.old.place) }
    {
        lead_on(alloc, &mut self.state, &deltas[self.place])?;
        self.place += 1;
        Ok(())
    }

    // Goes on to a place that it isn't past.
    fn on(&mut self, alloc: Global, deltas: &[AppliedDelta], place: usize) -> Result<(), Memory>
        requires valid { IsSome (run_all empty_state deltas.now) }
        requires before { self.old.place ≤ place }
        requires within { place ≤ length deltas.now }
        requires reached { IsReached deltas.now self.old }
        ensures reached { IsReached deltas.now self.new }
        ensures place { OnOk result (self.new.place ≡ place) }
    {
        for _ in self.place..place {
            self.step(alloc, deltas)?;
        }
        Ok(())
    }

    // Goes to a place, from the start again where it is past that.
    fn go(&mut self, alloc: Global, deltas: &[AppliedDelta], place: usize) -> Result<(), Memory>
        requires valid { IsSome (run_all empty_state deltas.now) }
        requires within { place ≤ length deltas.now }
        requires reached { IsReached deltas.now self.old }
        ensures reached { IsReached deltas.now self.new }
        ensures place { OnOk result (self.new.place ≡ place) }
    {
        if place < self.place {
            self.place = 0;
            self.state = WaveletState::new(alloc);
        }
        self.on(alloc, deltas, place)
    }

    /// Goes to a place of the history, so that `state` may be asked for there. The error is want of memory.
    pub fn reach(&mut self, alloc: Global, history: &History, place: usize) -> Result<(), Memory>
        requires within { place ≤ length history.now.deltas }
        requires reached { IsReached history.now.deltas self.old }
        ensures reached { IsReached history.now.deltas self.new }
        ensures there { OnOk result (IsThere history.now.deltas place self.new) }
    {
        let deltas = history.deltas();
        if place == deltas.len() {
            return Ok(());
        }
        self.go(alloc, deltas, place)
    }

    /// The state after the first `place` deltas of the history; at its head it is the history's own.
    pub fn state<'a>(&'a self, history: &'a History, place: usize) -> &'a WaveletState
        requires reached { IsReached history.now.deltas self.now }
        requires there { IsThere history.now.deltas place self.now }
        ensures { state_after history.now.deltas place ≡ Some result.now }
    {
        if place == history.deltas().len() {
            return history.state();
        }
        &self.state
    }
}
