// A history with kept states of its past.
ghost use Rattle.std.specs.Prelude.{◌≡◌, ◌≤◌, ◌<◌, List, length, Some, IsSome, IfSome, IfOk, IfErr, OnOk, OnErr};
ghost use Rattle.wavelet_op.specs.Acts.{meanings};
ghost use Rattle.wavelet_op.specs.Deltas.{DeltaOf};
ghost use Rattle.wavelet_op.specs.States.{empty_state};
ghost use Rattle.delta_history.specs.Histories.{IsSameHistory, IsGrown};
ghost use Rattle.delta_history.specs.Legal.{IsLegal};
ghost use Rattle.delta_history.specs.Pushes.{IsReady, IsRefused};
ghost use Rattle.delta_history.specs.Points.{run_all};
ghost use Rattle.state_cache.specs.States.{state_after, IsBegun, IsCacheOf};
ghost use Rattle.wavelet_container.specs.Decisions.{IsInvalidAt};
ghost use Rattle.wavelet_container.specs.Trails.{IsTrail, IsReached, place_of};

use crate::trail::{Trail, Tried, reach};
use delta_history::{History, HistoryFault, Prepared};
use doc_items::Memory;
use state_cache::{StateCache, Steps};
use std::alloc::Global;
use std::marker::{Brand, Model};
use std::sync::ledger::{Blank, Ledger};
use wavelet_op::{AppliedDelta, Ops};
use wavelet_state::WaveletState;

/// The history of a wavelet, with states of its past that are kept once one of them was asked for.
pub(crate) struct CachedHistory {
    history: History,
    cache: Option<StateCache>,
    trail: Option<Trail>,
}

impl Drop for CachedHistory {
    fn drop(self) {
        let CachedHistory {
            history: _history,
            cache: _cache,
            trail: _trail,
        } = self;
    }
}

impl Model for CachedHistory {
    ghost use Rattle.std.specs.Prelude.{IfSome};
    ghost use Rattle.delta_history.specs.Histories.{HistoryOf};
    ghost use Rattle.delta_history.specs.contracts.history.History as history_row;
    ghost use Rattle.state_cache.specs.States.{IsBegun};
    ghost use Rattle.wavelet_container.specs.Trails.{IsTrail};

    ghost Value = { HistoryOf };

    ghost coded = { history_row.the_row.coded };

    ghost view = { λ c. c.history };

    ghost invariant = { λ c. IfSome c.cache (λ states. IsBegun c.history.deltas states) × IfSome c.trail (IsTrail c.history.deltas) };
}

impl CachedHistory {
    /// This history.
    pub fn of(history: History) -> CachedHistory
        ensures { result ≡ history }
    {
        CachedHistory {
            history,
            cache: None,
            trail: None,
        }
    }

    /// The history.
    pub fn history(&self) -> &History
        ensures value { result.now ≡ self.now }
    {
        &self.history
    }

    /// The state after the first `place` deltas. The error is want of memory.
    pub fn state_after(&mut self, alloc: Global, place: usize) -> Result<WaveletState, Memory>
        requires { place ≤ length self.old.deltas }
        ensures value { IfOk result (λ s. state_after self.old.deltas place ≡ Some s) }
        ensures same { self.new ≡ self.old }
    {
        if place == self.history.deltas().len() {
            return self.history.state().copy(alloc);
        }
        let mut cache = begun(alloc, self.cache.take())?;
        let found = look_up(alloc, &self.history, &mut cache, place);
        self.cache = Some(cache);
        found
    }

    // The state that goes with the submissions, at this place; None where it isn't kept, or is too far from there.
    fn reached(&mut self, alloc: Global, place: usize) -> Result<Option<Trail>, Memory>
        requires { place ≤ length self.old.deltas }
        ensures reached { IfOk result (IsReached self.old.deltas place) }
        ensures same { self.new ≡ self.old }
    {
        match self.trail.take() {
            Some(trail) => reach(alloc, trail, self.history.deltas(), place),
            None => Ok(None),
        }
    }

    // The same, made anew where it isn't there.
    fn trail_at(&mut self, alloc: Global, place: usize) -> Result<Trail, Memory>
        requires { place ≤ length self.old.deltas }
        ensures trail { IfOk result (λ t. IsTrail self.old.deltas t × (place_of t ≡ place)) }
        ensures same { self.new ≡ self.old }
    {
        match self.reached(alloc, place)? {
            Some(trail) => Ok(trail),
            None => {
                let state = self.state_after(alloc, place)?;
                Ok(Trail::at(alloc, state, place))
            }
        }
    }

    /// The index of the first operation that isn't valid after the first `place` deltas; None where all are. The error is want of
    /// memory.
    pub fn invalid_at(
        &mut self,
        alloc: Global,
        ops: &Ops,
        place: usize,
    ) -> Result<Option<u32>, Memory>
        requires { place ≤ length self.old.deltas }
        ensures invalid { IfOk result (λ o. IsInvalidAt self.old place (meanings ops.now) o) }
        ensures same { self.new ≡ self.old }
    {
        let trail = self.trail_at(alloc, place)?;
        let tried = trail.try_at(alloc, ops)?;
        let Tried { invalid, trail } = tried;
        self.trail = trail;
        Ok(invalid)
    }
}

impl CachedHistory {
    /// The delta is after the others, with the clauses of `History::push_applied`.
    pub fn push_applied(&mut self, alloc: Global, delta: AppliedDelta) -> Result<(), HistoryFault>
        ensures ok { OnOk result (IsGrown self.old delta self.new) }
        ensures refused { IfErr result (IsRefused self.old delta) }
        ensures same { OnErr result (IsSameHistory self.old self.new) }
        ensures legal { IsLegal self.old.name self.old.deltas }
    {
        // For the proof: the history is legal.
        let _deltas = self.history.deltas();
        self.history.push_applied(alloc, delta)
    }

    /// The delta, prepared as by `History::prepare`.
    pub fn prepare(&mut self, alloc: Global, delta: AppliedDelta) -> Result<Prepared, HistoryFault>
        ensures delta { IfOk result (λ p. p.delta ≡ delta) }
        ensures ready { IfOk result (λ p. IsReady self.old delta p.after) }
        ensures room { OnOk result (0 < self.new.spare) }
        ensures refused { IfErr result (IsRefused self.old delta) }
        ensures same { IsSameHistory self.old self.new }
    {
        self.history.prepare(alloc, delta)
    }

    /// The prepared delta is after the others, with the conditions of `History::commit`.
    pub fn commit(&mut self, prepared: Prepared)
        requires ready { IsReady self.old prepared.delta prepared.after }
        requires room { 0 < self.old.spare }
        ensures { IsGrown self.old prepared.delta self.new }
    {
        self.history.commit(prepared)
    }
}

// The cache, or a new one.
fn begun(alloc: Global, cache: Option<StateCache>) -> Result<StateCache, Memory>
    ensures { IfOk result (λ states. (ds : List DeltaOf) → IfSome cache (λ kept. IsBegun ds kept) → IsBegun ds states) }
{
    match cache {
        Some(cache) => Ok(cache),
        None => StateCache::new(alloc),
    }
}

// The state after the first `place` deltas, by the cache, which is that of all deltas then.
fn look_up(
    alloc: Global,
    history: &History,
    cache: &mut StateCache,
    place: usize,
) -> Result<WaveletState, Memory>
    requires begins { IsBegun history.now.deltas cache.old }
    requires inside { place ≤ length history.now.deltas }
    ensures value { IfOk result (λ s. state_after history.now.deltas place ≡ Some s) }
    ensures begins { IsBegun history.now.deltas cache.new }
{
    let deltas = history.deltas();
    cache.grow(alloc, deltas)?;
    state_counted::<Brand>(alloc, cache, deltas, place, Blank::new(1))
}

// The state after the first `place` deltas, with its steps in the ledger of this blank.
fn state_counted<L: Ledger>(
    alloc: Global,
    cache: &StateCache,
    deltas: &[AppliedDelta],
    place: usize,
    blank: Blank,
) -> Result<WaveletState, Memory>
    requires name { blank.name ≡ L.name }
    requires parts { blank.parts ≡ L.parts }
    requires some { 0 < blank.parts }
    requires valid { IsSome (run_all empty_state deltas.now) }
    requires cached { IsCacheOf deltas.now cache.now }
    requires inside { place ≤ length deltas.now }
    ensures { IfOk result (λ s. state_after deltas.now place ≡ Some s) }
{
    let mut steps = Steps::new(blank);
    cache.state_at::<L>(alloc, deltas, place as u64, &mut steps)
}
