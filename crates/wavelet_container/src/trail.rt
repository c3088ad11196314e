// A state of the past that goes with the submissions, most of which are made a few deltas before the head.
ghost use Rattle.std.specs.Prelude.{◌≡◌, ◌≤◌, ◌<◌, ◌+◌, ◌-◌, ◌^◌, ℕ, List, length, IsSome, IfSome, IfOk, OnOk};
ghost use Rattle.wavelet_op.specs.Acts.{meanings, AreNormal};
ghost use Rattle.wavelet_op.specs.Deltas.{DeltaOf};
ghost use Rattle.wavelet_op.specs.States.{empty_state, run};
ghost use Rattle.delta_history.specs.Points.{run_all};
ghost use Rattle.state_cache.specs.States.{state_after};
ghost use Rattle.wavelet_container.specs.Trails.{IsTrail, IsReached, IsKeptBack, IsTriedAt, place_of};
ghost use Rattle.std.specs.Prelude.{Some};

use doc_items::Memory;
use std::alloc::{AllocError, Global};
use wavelet_op::{AppliedDelta, Ops, WaveletFault};
use wavelet_state::{Back, WaveletState, apply_inverting, apply_valid, invert_valid};

// The most deltas that a state goes forward: to a place that is farther, a kept state is nearer.
const FAR: usize = 64;

/// A state after some deltas of a history, with what takes the last of them back.
pub(crate) struct Trail {
    pub state: WaveletState,
    /// How many deltas come before those that can be taken back.
    pub first: usize,
    /// What takes each of the deltas after them back.
    pub backs: Vec<Ops>,
}

impl Drop for Trail {
    fn drop(self) {
        let Trail {
            state: _state,
            first: _first,
            backs: _backs,
        } = self;
    }
}

/// What is found where operations are tried.
#[derive(Drop)]
pub(crate) struct Tried {
    /// The index of the first one that isn't valid; None where all are.
    pub invalid: Option<u32>,
    /// The state as it was, unless it couldn't be had back.
    pub trail: Option<Trail>,
}

impl Trail {
    /// The state after so many deltas, none of which can be taken back.
    pub fn at(alloc: Global, state: WaveletState, place: usize) -> Trail
        ensures { (ds : List DeltaOf) → place ≤ length ds → state_after ds place ≡ Some state → IsTrail ds result
            × (place_of result ≡ place) }
    {
        Trail {
            state,
            first: place,
            backs: Vec::new(alloc),
        }
    }

    // Keeps what takes the last delta back; where that is more than a delta may be, nothing before it can be taken back.
    fn keep(&mut self, alloc: Global, place: usize, back: Back) -> Result<(), Memory>
        requires { place < 2 ^ 64 - 1 }
        ensures state { self.new.state ≡ self.old.state }
        ensures kept { OnOk result (IsKeptBack place back self.old self.new) }
    {
        match back.into_ops() {
            Some(ops) => {
                self.backs.push(ops)?;
                Ok(())
            }
            None => {
                self.backs = Vec::new(alloc);
                self.first = place + 1;
                Ok(())
            }
        }
    }

    // Keeps no more of what takes deltas back than reaches back as far as a state goes forward.
    fn trim(&mut self)
        requires { place_of self.old < 2 ^ 64 - 1 }
        ensures trail { (ds : List DeltaOf) → IsTrail ds self.old → IsTrail ds self.new }
        ensures place { place_of self.new ≡ place_of self.old }
    {
        if self.backs.len() > FAR {
            let _oldest = self.backs.remove(0);
            self.first += 1;
        }
    }

    // Goes forward by a delta. After an error it means nothing.
    fn forward(&mut self, alloc: Global, deltas: &[AppliedDelta]) -> Result<(), Memory>
        requires valid { IsSome (run_all empty_state deltas.now) }
        requires trail { IsTrail deltas.now self.old }
        requires before { place_of self.old < length deltas.now }
        ensures trail { OnOk result (IsTrail deltas.now self.new) }
        ensures place { OnOk result (place_of self.new ≡ place_of self.old + 1) }
    {
        let place = self.first + self.backs.len();
        let delta = &deltas[place];
        let back = invert_valid(alloc, &mut self.state, &delta.ops)?;
        self.keep(alloc, place, back)
    }

    // Goes back by a delta. After an error it means nothing.
    fn back(&mut self, alloc: Global, deltas: &[AppliedDelta]) -> Result<(), Memory>
        requires valid { IsSome (run_all empty_state deltas.now) }
        requires trail { IsTrail deltas.now self.old }
        requires some { 0 < length self.old.backs.items }
        ensures trail { OnOk result (IsTrail deltas.now self.new) }
        ensures first { self.new.first ≡ self.old.first }
        ensures place { OnOk result (place_of self.new + 1 ≡ place_of self.old) }
    {
        match self.backs.pop() {
            Some(ops) => apply_valid(alloc, &mut self.state, &ops),
            None => unreachable!(),
        }
    }

    /// What is found where the operations are tried at the state.
    pub fn try_at(self, alloc: Global, ops: &Ops) -> Result<Tried, Memory>
        ensures invalid { IfOk result (λ t. IsTriedAt self.state (meanings ops.now) t.invalid) }
        ensures trail { IfOk result (λ t. IfSome t.trail (λ u. (ds : List DeltaOf) → IsTrail ds self → IsTrail ds u)) }
    {
        let mut trail = self;
        match apply_inverting(alloc, &mut trail.state, ops) {
            Ok(back) => {
                let trail = trail.undone(alloc, back)?;
                Ok(Tried {
                    invalid: None,
                    trail,
                })
            }
            Err(WaveletFault::OpInvalid(index)) => Ok(Tried {
                invalid: Some(index),
                trail: Some(trail),
            }),
            Err(WaveletFault::Memory) => Err(AllocError),
            Err(_) => unreachable!(),
        }
    }

    // The state from which these operations lead back, unless they are more than a delta may have.
    fn undone(self, alloc: Global, back: Back) -> Result<Option<Trail>, Memory>
        requires { IsSome (run self.state (meanings back)) }
        ensures state { IfOk result (λ o. IfSome o (λ u. run self.state (meanings back) ≡ Some u.state)) }
        ensures first { IfOk result (λ o. IfSome o (λ u. u.first ≡ self.first)) }
        ensures backs { IfOk result (λ o. IfSome o (λ u. u.backs ≡ self.backs)) }
    {
        let mut trail = self;
        match back.into_ops() {
            Some(ops) => {
                apply_valid(alloc, &mut trail.state, &ops)?;
                Ok(Some(trail))
            }
            None => Ok(None),
        }
    }
}

// Goes back to the state after so many deltas, where it is after more.
fn go_back(
    alloc: Global,
    trail: &mut Trail,
    deltas: &[AppliedDelta],
    place: usize,
) -> Result<(), Memory>
    requires valid { IsSome (run_all empty_state deltas.now) }
    requires trail { IsTrail deltas.now trail.old }
    requires kept { trail.old.first ≤ place }
    ensures trail { OnOk result (IsTrail deltas.now trail.new) }
    ensures place { OnOk result (place_of trail.new ≤ place) }
{
    while trail.first + trail.backs.len() > place {
        trail.back(alloc, deltas)?;
    }
    Ok(())
}

// Goes forward to the state after so many deltas.
fn go_forward(
    alloc: Global,
    trail: &mut Trail,
    deltas: &[AppliedDelta],
    place: usize,
) -> Result<(), Memory>
    requires valid { IsSome (run_all empty_state deltas.now) }
    requires trail { IsTrail deltas.now trail.old }
    requires inside { place ≤ length deltas.now }
    requires before { place_of trail.old ≤ place }
    ensures trail { OnOk result (IsTrail deltas.now trail.new) }
    ensures place { OnOk result (place_of trail.new ≡ place) }
{
    while trail.first + trail.backs.len() < place {
        trail.trim();
        trail.forward(alloc, deltas)?;
    }
    Ok(())
}

/// Goes to the state after so many deltas; None where it can't go back so far, or would go far.
pub(crate) fn reach(
    alloc: Global,
    trail: Trail,
    deltas: &[AppliedDelta],
    place: usize,
) -> Result<Option<Trail>, Memory>
    requires valid { IsSome (run_all empty_state deltas.now) }
    requires trail { IsTrail deltas.now trail }
    requires inside { place ≤ length deltas.now }
    ensures { IfOk result (IsReached deltas.now place) }
{
    let mut trail = trail;
    if place < trail.first || is_far(&trail, place) {
        return Ok(None);
    }
    go_back(alloc, &mut trail, deltas, place)?;
    go_forward(alloc, &mut trail, deltas, place)?;
    Ok(Some(trail))
}

// Whether the place is more than `FAR` deltas farther.
fn is_far(trail: &Trail, place: usize) -> bool {
    place.saturating_sub(FAR) > trail.first.saturating_add(trail.backs.len())
}
