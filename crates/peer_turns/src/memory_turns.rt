ghost use Rattle.std.specs.Prelude.{◌≡◌, ◌++◌, ◌∷◌, [], true, IfOk, OnOk, OnErr, slice_get};
ghost use Rattle.peer_turns.specs.Calls.{told};
ghost use Rattle.peer_turns.specs.MemoryCalls.{made_calls, relays_of, copies_of};
ghost use Rattle.peer_turns.specs.declared.absorbed.Absorbed.TheVariants.{Took};
ghost use Rattle.peer_turns.specs.declared.call.TurnCall.TheVariants.{TakeApplied, TakeAnswer, TakeDropped, NextRelay, NextCopy};

use crate::{Absorbed, CopyAt, PeerTurns, Relay, TurnCall, TurnFault};
use doc_items::Memory;
use std::alloc::Global;
use std::sync::Wait;
use wave_base::{DeltaId, Domain, WaveletName};
use wavelet_op::{AppliedDelta, Verdict};

/// Turns in memory, which answer from two lists whatever the domain, take all that they are given, and keep the calls.
pub struct MemoryTurns {
    relays: Vec<Relay>,
    copies: Vec<CopyAt>,
    calls: Vec<TurnCall>,
}

impl Drop for MemoryTurns {
    fn drop(self) {
        let MemoryTurns {
            relays: _relays,
            copies: _copies,
            calls: _calls,
        } = self;
    }
}

// The submission at a place.
fn relay_at(alloc: Global, relays: &[Relay], place: u64) -> Result<Option<Relay>, Memory>
    ensures { IfOk result (λ r. r ≡ slice_get relays.now place) }
{
    match relays.get(place as usize) {
        Some(relay) => Ok(Some(relay.copy(alloc)?)),
        None => Ok(None),
    }
}

// The copy at a place.
fn copy_at(alloc: Global, copies: &[CopyAt], place: u64) -> Result<Option<CopyAt>, Memory>
    ensures { IfOk result (λ c. c ≡ slice_get copies.now place) }
{
    match copies.get(place as usize) {
        Some(copy) => Ok(Some(copy.copy(alloc)?)),
        None => Ok(None),
    }
}

impl MemoryTurns {
    /// Turns at copies that reach so far, at which these submissions wait.
    pub fn new(alloc: Global, relays: Vec<Relay>, copies: Vec<CopyAt>) -> MemoryTurns
        ensures relays { relays_of result ≡ relays.items }
        ensures copies { copies_of result ≡ copies.items }
        ensures calls { made_calls result ≡ [] }
    {
        MemoryTurns {
            relays,
            copies,
            calls: Vec::new(alloc),
        }
    }

    /// The calls that were answered, in order.
    pub fn calls(&self) -> &[TurnCall]
        ensures { result.now ≡ made_calls self.now }
    {
        self.calls.as_slice()
    }

    // Keeps a call.
    fn keep(&mut self, call: TurnCall) -> Result<(), Memory>
        ensures kept { OnOk result (made_calls self.new ≡ made_calls self.old ++ call ∷ []) }
        ensures unkept { OnErr result (made_calls self.new ≡ made_calls self.old) }
        ensures same { (relays_of self.new ≡ relays_of self.old) × (copies_of self.new ≡ copies_of self.old) }
    {
        self.calls.push(call)?;
        Ok(())
    }
}

impl PeerTurns for MemoryTurns {
    ghost use Rattle.std.specs.Prelude.{true};
    ghost use Rattle.peer_turns.specs.MemoryCalls.{made_calls};

    ghost tells = { true };

    ghost calls = { λ t. made_calls t };

    fn take_applied<R: Wait>(
        &mut self,
        _rt: &R,
        alloc: Global,
        name: &WaveletName,
        delta: &AppliedDelta,
    ) -> Result<Absorbed, TurnFault>
        ensures calls { made_calls self.new ≡ made_calls self.old ++ told (TakeApplied name.now delta.now) result }
        ensures took { IfOk result (λ a. a ≡ Took) }
        ensures same { (relays_of self.new ≡ relays_of self.old) × (copies_of self.new ≡ copies_of self.old) }
    {
        let call = TurnCall::TakeApplied {
            name: name.copy(alloc)?,
            delta: delta.copy(alloc)?,
            answer: Ok(Absorbed::Took),
        };
        self.keep(call)?;
        Ok(Absorbed::Took)
    }

    fn take_answer<R: Wait>(
        &mut self,
        _rt: &R,
        alloc: Global,
        name: &WaveletName,
        id: &DeltaId,
        verdict: Verdict,
    ) -> Result<bool, TurnFault>
        ensures calls { made_calls self.new ≡ made_calls self.old ++ told (TakeAnswer name.now id.now verdict) result }
        ensures was_waiting { IfOk result (λ b. b ≡ true) }
        ensures same { (relays_of self.new ≡ relays_of self.old) × (copies_of self.new ≡ copies_of self.old) }
    {
        let call = TurnCall::TakeAnswer {
            name: name.copy(alloc)?,
            id: id.copy(alloc)?,
            verdict,
            answer: Ok(true),
        };
        self.keep(call)?;
        Ok(true)
    }

    fn take_dropped<R: Wait>(
        &mut self,
        _rt: &R,
        alloc: Global,
        name: &WaveletName,
    ) -> Result<(), TurnFault>
        ensures calls { made_calls self.new ≡ made_calls self.old ++ told (TakeDropped name.now) result }
        ensures same { (relays_of self.new ≡ relays_of self.old) × (copies_of self.new ≡ copies_of self.old) }
    {
        let call = TurnCall::TakeDropped {
            name: name.copy(alloc)?,
            answer: Ok(()),
        };
        self.keep(call)?;
        Ok(())
    }

    fn next_relay<R: Wait>(
        &mut self,
        _rt: &R,
        alloc: Global,
        domain: &Domain,
        place: u64,
    ) -> Result<Option<Relay>, TurnFault>
        ensures calls { made_calls self.new ≡ made_calls self.old ++ told (NextRelay domain.now place) result }
        ensures value { IfOk result (λ r. r ≡ slice_get (relays_of self.old) place) }
        ensures same { (relays_of self.new ≡ relays_of self.old) × (copies_of self.new ≡ copies_of self.old) }
    {
        let answer = relay_at(alloc, self.relays.as_slice(), place)?;
        let kept = relay_at(alloc, self.relays.as_slice(), place)?;
        let call = TurnCall::NextRelay {
            domain: domain.copy(alloc)?,
            place,
            answer: Ok(kept),
        };
        self.keep(call)?;
        Ok(answer)
    }

    fn next_copy<R: Wait>(
        &mut self,
        _rt: &R,
        alloc: Global,
        domain: &Domain,
        place: u64,
    ) -> Result<Option<CopyAt>, TurnFault>
        ensures calls { made_calls self.new ≡ made_calls self.old ++ told (NextCopy domain.now place) result }
        ensures value { IfOk result (λ c. c ≡ slice_get (copies_of self.old) place) }
        ensures same { (relays_of self.new ≡ relays_of self.old) × (copies_of self.new ≡ copies_of self.old) }
    {
        let answer = copy_at(alloc, self.copies.as_slice(), place)?;
        let kept = copy_at(alloc, self.copies.as_slice(), place)?;
        let call = TurnCall::NextCopy {
            domain: domain.copy(alloc)?,
            place,
            answer: Ok(kept),
        };
        self.keep(call)?;
        Ok(answer)
    }
}
