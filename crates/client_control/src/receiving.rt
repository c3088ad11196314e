// What a follower answers to a delta.
ghost use Rattle.std.specs.Prelude.{◌≡◌, [], Some, None, MatchOption, IfOk, IfSome, OnErr};
ghost use Rattle.std.specs.Option.{option_map};
ghost use Rattle.wavelet_codec.specs.Spelling.{delta_bytes, IsDelta};
ghost use Rattle.wavelet_op.specs.Acts.{meanings, AreNormal};
ghost use Rattle.wavelet_op.specs.States.{run};
ghost use Rattle.delta_history.specs.Points.{acts_of};
ghost use Rattle.follower_rules.specs.Receiving.{advance, receive_other, receive_flight, receive};
ghost use Rattle.client_control.specs.Parts.{follower_of, with_ops};
ghost use Rattle.client_control.specs.Steps.{IsComparison, IsMeeting, IsOver};

use crate::bytes::bytes;
use crate::counts::inserted_all;
use crate::flight::InFlight;
use crate::past::{Passed, pass_over};
use crate::{Follower, Received};
use delta_history::step_after;
use doc_items::Memory;
use std::alloc::Global;
use wavelet_op::{AppliedDelta, Ops};
use wavelet_state::{WaveletState, try_delta};

// What a delta that starts where the follower is, is to its flight.
#[derive(Drop)]
pub(crate) enum Meeting {
    // It has another id, or nothing is in flight.
    Other,
    // It has the flight's id and operations.
    Own,
    // It has the flight's id and other operations.
    Clash { mine: Ops, theirs: Ops },
}

impl Follower {
    /// What the follower answers to a delta of the history, and what becomes of it. The first of these that holds: `Old` where the
    /// delta starts below the follower's version, `Gap` where it starts above it, `Diverged` where it starts there with another hash,
    /// `OtherFlight` where it has the flight's id and other operations, `NotNext` where its operations aren't valid there or a bound
    /// would be broken, else `Advanced`. Only `Advanced` changes the follower. `Old`, `Gap` and `Diverged` never become `Memory`.
    pub fn receive_update(
        &mut self,
        alloc: Global,
        delta: &AppliedDelta,
    ) -> Result<Received, Memory>
        ensures ok { IfOk result (λ answer. (answer, follower_of self.new) ≡ receive (follower_of self.old) delta.now) }
        ensures same { OnErr result (self.new ≡ self.old) }
        ensures late { OnErr result (delta.now.from ≡ (follower_of self.old).here.at) }
    {
        if delta.from.version < self.at.version {
            return Ok(Received::Old);
        }
        if self.at.version < delta.from.version {
            return Ok(Received::Gap);
        }
        if delta.from.hash != self.at.hash {
            return Ok(Received::Diverged {
                mine: self.at,
                theirs: delta.from,
            });
        }
        self.receive_here(alloc, delta)
    }

    // The answer to a delta at the follower's hashed version.
    fn receive_here(&mut self, alloc: Global, delta: &AppliedDelta) -> Result<Received, Memory>
        ensures ok { IfOk result (λ answer. (answer, follower_of self.new)
            ≡ receive_flight (follower_of self.old) delta.now (follower_of self.old).flight) }
        ensures same { OnErr result (self.new ≡ self.old) }
    {
        let spelled = bytes(alloc, delta)?;
        match self.meet(alloc, delta, spelled.as_slice())? {
            Meeting::Other => self.receive_other(alloc, delta, spelled.as_slice()),
            Meeting::Own => self.receive_own(alloc, delta, spelled.as_slice()),
            Meeting::Clash { mine, theirs } => Ok(Received::OtherFlight { mine, theirs }),
        }
    }

    #[tactic(auto, using(crate::proofs::Receipts::compared, crate::proofs::Receipts::met_none, crate::proofs::Receipts::met_other))]
    // What the delta is to the flight. It is the flight's own where both spell alike.
    fn meet(&self, alloc: Global, delta: &AppliedDelta, spelled: &[u8]) -> Result<Meeting, Memory>
        requires bytes { spelled.now ≡ delta_bytes delta.now }
        requires is { IsDelta delta.now }
        ensures { IfOk result (λ m. IsMeeting (follower_of self.now) delta.now m) }
    {
        let Some(flight) = &self.flight else {
            return Ok(Meeting::Other);
        };
        if delta.id != flight.sent.id {
            return Ok(Meeting::Other);
        }
        compare(alloc, flight, delta, spelled)
    }

    // The answer where the follower doesn't advance: the first operation that isn't valid, or their number where all are.
    fn refuse(&self, alloc: Global, delta: &AppliedDelta) -> Result<Received, Memory>
        ensures { IfOk result (λ answer. (answer, follower_of self.now) ≡ advance (follower_of self.now) delta.now None) }
    {
        let mut trial = self.state.copy(alloc)?;
        match try_delta(alloc, &mut trial, &delta.ops)? {
            None => Ok(Received::NotNext {
                index: delta.ops.len() as u32,
            }),
            Some(index) => Ok(Received::NotNext { index }),
        }
    }

    // The answer to the flight's own delta.
    fn receive_own(
        &mut self,
        alloc: Global,
        delta: &AppliedDelta,
        spelled: &[u8],
    ) -> Result<Received, Memory>
        requires bytes { spelled.now ≡ delta_bytes delta.now }
        requires own { MatchOption self.old.flight ⊥ (λ g. acts_of delta.now ≡ meanings g.ops) }
        ensures ok { IfOk result (λ answer. (answer, follower_of self.new)
            ≡ advance (follower_of self.old) delta.now (Some ((None, (follower_of self.old).queue), []))) }
        ensures same { OnErr result (self.new ≡ self.old) }
    {
        let Some(step) = step_after(self.at, self.count, delta, spelled) else {
            return self.refuse(alloc, delta);
        };
        match try_delta(alloc, &mut self.state, &delta.ops)? {
            None => {
                self.at = step.to;
                self.count = step.inserted;
                self.held -= delta.ops.inserted();
                self.flight = None;
                Ok(Received::Advanced)
            }
            Some(index) => Ok(Received::NotNext { index }),
        }
    }

    // What is pending past the delta; None where there is no transform, as where the delta isn't valid.
    fn pass(&self, alloc: Global, delta: &AppliedDelta) -> Result<Option<Passed>, Memory>
        ensures { IfOk result (λ o. MatchOption o
            (receive_other (follower_of self.now) delta.now ≡ advance (follower_of self.now) delta.now None)
            (λ p. IsOver self.now.flight self.now.queue delta.now.ops p)) }
    {
        if !delta.ops.is_structured() {
            return Ok(None);
        }
        pass_over(alloc, &self.flight, self.queue.as_slice(), &delta.ops)
    }

    // The answer to another's delta.
    fn receive_other(
        &mut self,
        alloc: Global,
        delta: &AppliedDelta,
        spelled: &[u8],
    ) -> Result<Received, Memory>
        requires bytes { spelled.now ≡ delta_bytes delta.now }
        ensures ok { IfOk result (λ answer. (answer, follower_of self.new) ≡ receive_other (follower_of self.old) delta.now) }
        ensures same { OnErr result (self.new ≡ self.old) }
    {
        let Some(step) = step_after(self.at, self.count, delta, spelled) else {
            return self.refuse(alloc, delta);
        };
        let Some(passed) = self.pass(alloc, delta)? else {
            return self.refuse(alloc, delta);
        };
        match try_delta(alloc, &mut self.state, &delta.ops)? {
            None => {
                self.at = step.to;
                self.count = step.inserted;
                self.held = inserted_all(&passed.flight, passed.queue.as_slice());
                self.shown = moved(alloc, self.shown.take(), &passed.left);
                self.flight = flown(self.flight.take(), passed.flight);
                self.queue = passed.queue;
                Ok(Received::Advanced)
            }
            Some(index) => Ok(Received::NotNext { index }),
        }
    }
}

// What the delta is to the flight, whose id it has.
fn compare(
    alloc: Global,
    flight: &InFlight,
    delta: &AppliedDelta,
    spelled: &[u8],
) -> Result<Meeting, Memory>
    requires normal { AreNormal flight.now.ops }
    requires bytes { spelled.now ≡ delta_bytes delta.now }
    requires is { IsDelta delta.now }
    ensures { IfOk result (λ m. IsComparison flight.now delta.now m) }
{
    let mine = flight.ops.copy(alloc)?;
    let own = as_flown(alloc, delta, mine)?;
    let spelled_own = bytes(alloc, &own)?;
    let theirs = delta.ops.copy(alloc)?;
    if spelled == spelled_own.as_slice() {
        Ok(Meeting::Own)
    } else {
        Ok(Meeting::Clash {
            mine: own.into_ops(),
            theirs,
        })
    }
}

// The delta with these operations in the place of its own.
fn as_flown(alloc: Global, delta: &AppliedDelta, ops: Ops) -> Result<AppliedDelta, Memory>
    requires { AreNormal ops }
    ensures { IfOk result (λ d. d ≡ record { id = delta.now.id; from = delta.now.from; time = delta.now.time; ops = ops }) }
{
    let id = delta.id.copy(alloc)?;
    Ok(AppliedDelta {
        id,
        from: delta.from,
        time: delta.time,
        ops,
    })
}

// A screen after operations; None where it wasn't kept, or can't be.
fn moved(alloc: Global, shown: Option<WaveletState>, ops: &Ops) -> Option<WaveletState>
    ensures { IfSome result (λ t. MatchOption shown ⊥ (λ s. run s (meanings ops.now) ≡ Some t)) }
{
    let Some(shown) = shown else {
        return None;
    };
    let mut shown = shown;
    match try_delta(alloc, &mut shown, ops) {
        Ok(None) => Some(shown),
        Ok(Some(_)) => None,
        Err(_) => None,
    }
}

// The flight with other operations.
fn flown(flight: Option<InFlight>, ops: Option<Ops>) -> Option<InFlight>
    ensures { result ≡ with_ops flight ops }
{
    let Some(flight) = flight else {
        return None;
    };
    let Some(ops) = ops else {
        return None;
    };
    Some(InFlight {
        sent: flight.into_sent(),
        ops,
    })
}
