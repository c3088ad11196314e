ghost use Rattle.std.specs.Prelude.{◌≡◌, ◌<◌, ◌≤◌, [], Some, IfOk, IfErr, OnOk, OnErr, length, true};
ghost use Rattle.wavelet_op.specs.Acts.{meanings, AreNormal};
ghost use Rattle.wavelet_op.specs.Deltas.{is_count};
ghost use Rattle.wavelet_op.specs.States.{run};
ghost use Rattle.wavelet_codec.specs.Spelling.{delta_bytes, IsDelta};
ghost use Rattle.delta_history.specs.Histories.{head_of, hash_found, IsSameHistory, IsGrown};
ghost use Rattle.delta_history.specs.Legal.{standing, may_write, IsLegal};
ghost use Rattle.wavelet_state.specs.Snapshots.{max_inserted};
ghost use Rattle.delta_history.specs.Points.{start, acts_of, point_at, state_of};
ghost use Rattle.delta_history.specs.Pushes.{IsAsked, IsInvalid, IsReady, IsRefused};
ghost use Rattle.delta_history.specs.Steps.{IsFitting, IsWritten, step_after};
ghost use Rattle.delta_history.specs.Twins.{IsBehind};
ghost use Rattle.delta_history.specs.Verdicts.{kept};

use crate::first::adds_first;
use crate::log::Log;
use crate::states::{lead_on, state_after};
use crate::step::{Step, Written, next_step, step_of};
use crate::twin::{Twin, forget, keep};
use crate::{HistoryFault, Kept};
use doc_items::Memory;
use std::alloc::Global;
use std::marker::Model;
use std::mem::replace;
use wave_base::{DeltaId, HashedVersion, WaveletName};
use wavelet_op::{AppliedDelta, Ops, Role, WaveletFault};
use wavelet_state::{WaveletState, apply_delta};

/// The history of a wavelet, which is legal: each delta is valid at the state that the ones before lead to, starts at the head that
/// they leave, has a new id, and has an author whose role there is `Full`, or is the first and adds its author first.
pub struct History {
    log: Log,
    state: WaveletState,
    twin: Option<Twin>,
}

impl Drop for History {
    fn drop(self) {
        let History {
            log: _log,
            state: _state,
            twin: _twin,
        } = self;
    }
}

impl Model for History {
    ghost use Rattle.std.specs.Prelude.{◌≡◌, IfSome};
    ghost use Rattle.delta_history.specs.Histories.{HistoryOf, head_of};
    ghost use Rattle.delta_history.specs.Twins.{IsTwin};
    ghost use Rattle.delta_history.specs.contracts.log.Log as log_row;

    ghost Value = { HistoryOf };

    ghost coded = { log_row.the_row.coded };

    ghost view = { λ h. h.log };

    ghost invariant = { λ h. record { state : (head_of h.log).state ≡ h.state; twin : IfSome h.twin (IsTwin h.log.name h.log.deltas) } };
}

/// A delta that may come next, with its bytes and with the point that it leads to.
#[derive(Drop)]
pub struct Prepared {
    delta: AppliedDelta,
    written: Written,
    state: WaveletState,
}

impl Model for Prepared {
    ghost use Rattle.std.specs.Prelude.{◌≡◌};
    ghost use Rattle.doc_items.specs.contracts.item.Item as item_row;
    ghost use Rattle.wavelet_op.specs.contracts.delta.AppliedDelta as delta_row;
    ghost use Rattle.wavelet_op.specs.contracts.role.Role as role_row;
    ghost use Rattle.wavelet_codec.specs.Spelling.{delta_bytes, IsDelta};
    ghost use Rattle.delta_history.specs.Pushes.{PreparedOf, prepared_code};

    ghost Value = { PreparedOf };

    ghost coded = { prepared_code delta_row.the_row.coded role_row.the_row.coded item_row.the_row.coded };

    ghost view = { λ p. record {
      delta = p.delta;
      after = record { at = p.written.step.to; state = p.state; count = p.written.step.inserted };
    } };

    ghost invariant = { λ p. record { is : IsDelta p.delta; bytes : p.written.bytes.items ≡ delta_bytes p.delta } };
}

impl Prepared {
    /// The delta.
    pub fn delta(&self) -> &AppliedDelta
        ensures { result.now ≡ self.now.delta }
    {
        &self.delta
    }

    /// The canonical bytes that the delta has.
    pub fn bytes(&self) -> &[u8]
        ensures value { result.now ≡ delta_bytes self.now.delta }
        ensures is { IsDelta self.now.delta }
    {
        self.written.bytes.as_slice()
    }

    /// The hashed version after the delta.
    pub fn to(&self) -> HashedVersion
        ensures { result ≡ self.now.after.at }
    {
        self.written.step.to
    }
}

impl History {
    /// No delta.
    pub fn new(alloc: Global, name: WaveletName) -> History
        ensures name { result.name ≡ name }
        ensures empty { result.deltas ≡ [] }
    {
        History {
            log: Log::new(alloc, name),
            state: WaveletState::new(alloc),
            twin: None,
        }
    }

    /// The name of the wavelet.
    pub fn name(&self) -> &WaveletName
        ensures { result.now ≡ self.now.name }
    {
        self.log.name()
    }

    /// The hashed version after the last delta.
    pub fn head(&self) -> HashedVersion
        ensures { result ≡ (head_of self.now).at }
    {
        self.log.head()
    }

    /// The number of items that all deltas insert.
    pub fn inserted(&self) -> u64
        ensures value { result ≡ (head_of self.now).count }
        ensures bound { result ≤ max_inserted }
    {
        self.log.inserted()
    }

    /// The deltas, in order.
    pub fn deltas(&self) -> &[AppliedDelta]
        ensures value { result.now ≡ self.now.deltas }
        ensures legal { IsLegal self.now.name self.now.deltas }
    {
        self.log.deltas()
    }

    /// The number of deltas that there is room for.
    pub fn spare(&self) -> u64
        ensures { result ≡ self.now.spare }
    {
        self.log.spare()
    }

    /// The hash at a version; None exactly where the version is neither 0 nor the end of a delta.
    pub fn hash_at(&self, version: u64) -> Option<[u8; 32]>
        ensures { result ≡ hash_found self.now version }
    {
        self.log.hash_at(version)
    }

    /// Where the delta of an id stands; None exactly where none has it.
    pub fn kept(&self, id: &DeltaId) -> Option<Kept>
        ensures { result ≡ kept id.now (start self.now.name) self.now.deltas }
    {
        self.log.kept(id)
    }

    /// The state at the head.
    pub fn state(&self) -> &WaveletState
        ensures { result.now ≡ (head_of self.now).state }
    {
        &self.state
    }

    /// The state at a version, None exactly where the version is neither 0 nor the end of a delta. The deltas up to there are applied
    /// for it. The error is want of memory.
    pub fn state_at(&self, alloc: Global, version: u64) -> Result<Option<WaveletState>, Memory>
        ensures { IfOk result (λ o. o ≡ state_of (point_at self.now.name self.now.deltas version)) }
    {
        let deltas = self.log.deltas();
        match self.log.count_at(version) {
            Some(count) => Ok(Some(state_after(alloc, &deltas[..count])?)),
            None => Ok(None),
        }
    }

    // Whether the author of the delta may write: by its role at the head, and in an empty history by adding itself first.
    fn may_write(&self, delta: &AppliedDelta) -> bool
        ensures { result ≡ may_write (standing self.now.deltas (head_of self.now) delta.now.id.author (acts_of delta.now)) }
    {
        if self.log.deltas().is_empty() {
            return adds_first(&delta.ops, &delta.id.author);
        }
        self.state.role(&delta.id.author) == Some(Role::Full)
    }

    // What was found of the delta, if its author may write; else `NotLegal`.
    fn if_may_write<T: Drop>(&self, delta: &AppliedDelta, found: T) -> Result<T, HistoryFault>
        requires { IsFitting self.now delta.now }
        ensures same { IfOk result (λ f. f ≡ found) }
        ensures may { OnOk result (may_write (standing self.now.deltas (head_of self.now) delta.now.id.author (acts_of delta.now)) ≡ true) }
        ensures refused { IfErr result (IsRefused self.now delta.now) }
    {
        if self.may_write(delta) {
            Ok(found)
        } else {
            Err(HistoryFault::NotLegal)
        }
    }

    // What the delta leads to, its state apart. Refusals: `NotNext`, then `NotLegal` for another reason than its operations.
    fn step(&self, alloc: Global, delta: &AppliedDelta) -> Result<Written, HistoryFault>
        ensures asked { OnOk result (IsAsked self.now delta.now) }
        ensures written { IfOk result (λ w. IsWritten (head_of self.now).at (head_of self.now).count delta.now w.step w.bytes.items) }
        ensures refused { IfErr result (IsRefused self.now delta.now) }
        ensures legal { IsLegal self.now.name self.now.deltas }
    {
        // For the proof: the delta has operations, and the history is legal.
        let _len = len(delta);
        let _deltas = self.log.deltas();
        match next_step(alloc, &self.log, delta) {
            Ok(written) => self.if_may_write(delta, written),
            Err(fault) => Err(fault),
        }
    }

    // What a delta of these bytes leads to from the head, but for its state. Refusals: as those of `step`.
    fn step_of(&self, delta: &AppliedDelta, bytes: &[u8]) -> Result<Step, HistoryFault>
        requires { bytes.now ≡ delta_bytes delta.now }
        ensures asked { OnOk result (IsAsked self.now delta.now) }
        ensures step { IfOk result (λ s. s ≡ step_after (head_of self.now).at (head_of self.now).count delta.now) }
        ensures refused { IfErr result (IsRefused self.now delta.now) }
        ensures legal { IsLegal self.now.name self.now.deltas }
    {
        // For the proof: the delta has operations, and the history is legal.
        let _len = len(delta);
        let _deltas = self.log.deltas();
        match step_of(&self.log, delta, bytes) {
            Ok(step) => self.if_may_write(delta, step),
            Err(fault) => Err(fault),
        }
    }

    // A state of its own at the head, which the history doesn't keep. Only the last delta is applied to the second state, where there
    // is one.
    fn second(&mut self, alloc: Global) -> Result<WaveletState, Memory>
        ensures value { IfOk result (λ s. (head_of self.old).state ≡ s) }
        ensures same { self.new ≡ self.old }
    {
        match self.twin.take() {
            Some(Twin::Level(state)) => Ok(state),
            Some(Twin::Behind(state)) => self.caught_up(alloc, state),
            None => self.state.copy(alloc),
        }
    }

    // The state after the last delta, from the one before it.
    fn caught_up(&self, alloc: Global, state: WaveletState) -> Result<WaveletState, Memory>
        requires { IsBehind self.now.name self.now.deltas state }
        ensures { IfOk result (λ s. (head_of self.now).state ≡ s) }
    {
        let mut state = state;
        let Some(last) = self.log.deltas().last() else {
            return self.state.copy(alloc);
        };
        lead_on(alloc, &mut state, last)?;
        Ok(state)
    }

    // Puts the delta, which leads to this step but for its state, after the others. It is refused where its operations aren't valid.
    fn push_step(
        &mut self,
        alloc: Global,
        delta: AppliedDelta,
        step: Step,
    ) -> Result<(), HistoryFault>
        requires legal { IsLegal self.old.name self.old.deltas }
        requires asked { IsAsked self.old delta }
        requires step { step ≡ step_after (head_of self.old).at (head_of self.old).count delta }
        ensures ok { OnOk result (IsGrown self.old delta self.new) }
        ensures refused { IfErr result (IsRefused self.old delta) }
        ensures same { OnErr result (IsSameHistory self.old self.new) }
    {
        self.log.reserve(alloc)?;
        forget(&mut self.twin);
        match applied(alloc, &mut self.state, &delta.ops) {
            Ok(()) => {
                self.log.push(delta, step.to, step.inserted);
                Ok(())
            }
            Err(fault) => Err(fault),
        }
    }

    /// Puts the delta after the others. Refusals: `NotNext` exactly where it doesn't start at the head; then `NotLegal` exactly where
    /// the longer history wouldn't be legal. After a refusal, `Memory` included, all but the room is as it was.
    pub fn push_applied(&mut self, alloc: Global, delta: AppliedDelta) -> Result<(), HistoryFault>
        ensures ok { OnOk result (IsGrown self.old delta self.new) }
        ensures refused { IfErr result (IsRefused self.old delta) }
        ensures same { OnErr result (IsSameHistory self.old self.new) }
    {
        let step = self.step(alloc, &delta)?.step;
        self.push_step(alloc, delta, step)
    }

    /// Puts the delta, which was read from these bytes, after the others. Its bytes are hashed as they are; the outcomes are those of
    /// `push_applied`.
    pub fn push_read(
        &mut self,
        alloc: Global,
        delta: AppliedDelta,
        bytes: &[u8],
    ) -> Result<(), HistoryFault>
        requires { bytes.now ≡ delta_bytes delta }
        ensures ok { OnOk result (IsGrown self.old delta self.new) }
        ensures refused { IfErr result (IsRefused self.old delta) }
        ensures same { OnErr result (IsSameHistory self.old self.new) }
    {
        let step = self.step_of(&delta, bytes)?;
        self.push_step(alloc, delta, step)
    }

    /// The delta with what it leads to, for `commit`; there is room for it then. The refusals are those of `push_applied`. All but
    /// the room stays as it was. The documents aren't copied where the delta before was committed.
    pub fn prepare(&mut self, alloc: Global, delta: AppliedDelta) -> Result<Prepared, HistoryFault>
        ensures delta { IfOk result (λ p. p.delta ≡ delta) }
        ensures ready { IfOk result (λ p. IsReady self.old delta p.after) }
        ensures room { OnOk result (0 < self.new.spare) }
        ensures refused { IfErr result (IsRefused self.old delta) }
        ensures same { IsSameHistory self.old self.new }
    {
        let written = self.step(alloc, &delta)?;
        self.log.reserve(alloc)?;
        let mut state = self.second(alloc)?;
        match applied(alloc, &mut state, &delta.ops) {
            Ok(()) => Ok(Prepared {
                delta,
                written,
                state,
            }),
            Err(fault) => {
                keep(&mut self.twin, Twin::Level(state));
                Err(fault)
            }
        }
    }

    /// Puts the prepared delta, which may come next, after the others.
    pub fn commit(&mut self, prepared: Prepared)
        requires ready { IsReady self.old prepared.delta prepared.after }
        requires room { 0 < self.old.spare }
        ensures { IsGrown self.old prepared.delta self.new }
    {
        let Prepared {
            delta,
            written,
            state,
        } = prepared;
        let step = written.step;
        self.log.push(delta, step.to, step.inserted);
        let before = replace(&mut self.state, state);
        keep(&mut self.twin, Twin::Behind(before));
    }
}

// The number of operations of a delta.
fn len(delta: &AppliedDelta) -> u64
    ensures value { result ≡ length delta.now.ops }
    ensures some { is_count (length delta.now.ops) ≡ true }
    ensures normal { AreNormal delta.now.ops }
{
    delta.ops.len()
}

// Applies the operations to the state. Refusals: `NotLegal` exactly where they aren't valid. After one, the state is as it was.
fn applied(alloc: Global, state: &mut WaveletState, ops: &Ops) -> Result<(), HistoryFault>
    ensures ok { OnOk result (run state.old (meanings ops.now) ≡ Some state.new) }
    ensures refused { IfErr result (IsInvalid state.old (meanings ops.now)) }
    ensures same { OnErr result (state.new ≡ state.old) }
{
    match apply_delta(alloc, state, ops) {
        Ok(()) => Ok(()),
        Err(WaveletFault::Memory) => Err(HistoryFault::Memory),
        Err(_) => Err(HistoryFault::NotLegal),
    }
}
