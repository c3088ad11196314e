ghost use Rattle.std.specs.Prelude.{◌≡◌, List, Option, MatchResult};
ghost use Rattle.doc_items.specs.Maps.{Key};
ghost use Rattle.robot_host.specs.Calls.{Call, with_call};

use crate::Reaction;
use doc_items::Memory;
use std::alloc::Global;
use wave_base::{Address, WaveletName};
use wavelet_op::AppliedDelta;
use wavelet_state::WaveletState;

/// A participant that is a program.
pub trait Robot: Drop {
    /// Its address.
    ghost named: { Self → Key };

    /// The calls of `react` that answered Ok, in order, with their answers. A robot that doesn't tell them has None.
    ghost calls: { Self → Option (List Call) };

    /// The address under which the robot takes part. It never changes.
    fn address(&self) -> &Address
        ensures { result.now ≡ named self.now };

    /// Shows the robot a delta of the wavelet of this name with the state after it, and gives its answer. The error is want of memory:
    /// then the robot is as it was, and the delta counts as not shown.
    fn react(
        &mut self,
        alloc: Global,
        name: &WaveletName,
        delta: &AppliedDelta,
        state: &WaveletState,
    ) -> Result<Reaction, Memory>
        ensures told { MatchResult result (λ r. calls self.new ≡ with_call (calls self.old) name.now delta.now state.now r) (λ _. calls
            self.new ≡ calls self.old) }
        ensures address { named self.new ≡ named self.old };
}
