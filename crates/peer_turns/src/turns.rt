ghost use Rattle.std.specs.Prelude.{◌≡◌, ◌++◌, List, Bool, IsTrue};
ghost use Rattle.peer_turns.specs.Calls.{told};
ghost use Rattle.peer_turns.specs.declared.call.TurnCall.{TurnCall};
ghost use Rattle.peer_turns.specs.declared.call.TurnCall.TheVariants.{TakeApplied, TakeAnswer, TakeDropped, NextRelay, NextCopy};

use crate::{Absorbed, CopyAt, Relay, TurnFault};
use std::alloc::Global;
use std::sync::Wait;
use wave_base::{DeltaId, Domain, WaveletName};
use wavelet_op::{AppliedDelta, Verdict};

/// Turns at the copies of wavelets that other domains host. Each call answers `Spent` where a shard that it enters has no turn left,
/// and `Memory` for want of memory.
pub trait PeerTurns {
    /// Whether it is told which calls were made.
    ghost tells: { Bool };

    /// The calls that were answered, in order, each with its answer. One that answered `Memory` isn't among them.
    ghost calls: { Self → List TurnCall };

    /// Gives a delta of its host's history to the copy of this name.
    fn take_applied<R: Wait>(
        &mut self,
        rt: &R,
        alloc: Global,
        name: &WaveletName,
        delta: &AppliedDelta,
    ) -> Result<Absorbed, TurnFault>
        ensures { IsTrue tells → calls self.new ≡ calls self.old ++ told (TakeApplied name.now delta.now) result };

    /// Gives what became of a submission to the copy of this name. True where the submission was waiting for it.
    fn take_answer<R: Wait>(
        &mut self,
        rt: &R,
        alloc: Global,
        name: &WaveletName,
        id: &DeltaId,
        verdict: Verdict,
    ) -> Result<bool, TurnFault>
        ensures { IsTrue tells → calls self.new ≡ calls self.old ++ told (TakeAnswer name.now id.now verdict) result };

    /// Tells the copy of this name that its host gives it no more.
    fn take_dropped<R: Wait>(
        &mut self,
        rt: &R,
        alloc: Global,
        name: &WaveletName,
    ) -> Result<(), TurnFault>
        ensures { IsTrue tells → calls self.new ≡ calls self.old ++ told (TakeDropped name.now) result };

    /// The submission at a place among those that wait for an answer of this domain, counted from 0; None past the last.
    fn next_relay<R: Wait>(
        &mut self,
        rt: &R,
        alloc: Global,
        domain: &Domain,
        place: u64,
    ) -> Result<Option<Relay>, TurnFault>
        ensures { IsTrue tells → calls self.new ≡ calls self.old ++ told (NextRelay domain.now place) result };

    /// How far the copy at a place reaches among those whose host is this domain, counted from 0; None past the last.
    fn next_copy<R: Wait>(
        &mut self,
        rt: &R,
        alloc: Global,
        domain: &Domain,
        place: u64,
    ) -> Result<Option<CopyAt>, TurnFault>
        ensures { IsTrue tells → calls self.new ≡ calls self.old ++ told (NextCopy domain.now place) result };
}
