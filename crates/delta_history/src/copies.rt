ghost use Rattle.std.specs.Prelude.{◌≡◌, ◌≢◌, ℕ, Bool, List, [], Option, IfSome, IsSome, option_copied, slice_get};
ghost use Rattle.std.specs.Option.{option_map};
ghost use Rattle.wave_base.specs.Versions.{IdOf};
ghost use Rattle.wavelet_op.specs.declared.verdict.Verdict.{Verdict};
ghost use Rattle.delta_history.specs.Copying.{AreAscending, IsKeptOutcome};
ghost use Rattle.delta_history.specs.Histories.{HistoryOf};

use crate::History;
use wave_base::{DeltaId, WaveletName};
use wavelet_op::Verdict;

/// The copies of wavelets at one moment: the histories that are hosted here, and those that other domains host.
pub trait Copies {
    /// The history of a name; None where there is none with a delta.
    ghost copies: { Self → List ℕ → Option HistoryOf };

    /// The names hosted here whose history has a delta.
    ghost hosts: { Self → List (List ℕ) };

    /// Whether the copy of a name noted that its host gives it no more, and took no delta since.
    ghost drops: { Self → List ℕ → Bool };

    /// The verdict that is known for the submission of an id.
    ghost outcomes: { Self → List ℕ → IdOf → Option Verdict };

    /// The history of the name; None exactly where there is none with a delta.
    fn copy_of(&self, name: &WaveletName) -> Option<&History>
        ensures value { option_copied result ≡ copies self.now name.now }
        ensures named { IfSome result (λ h. h.now.name ≡ name.now) }
        ensures some { IfSome result (λ h. h.now.deltas ≢ []) };

    /// The name at a place among those hosted here whose history has a delta, in byte order; None exactly where the place isn't below
    /// their number.
    fn hosted(&self, place: u64) -> Option<&WaveletName>
        ensures value { option_copied result ≡ slice_get (hosts self.now) place }
        ensures there { IfSome result (λ n. IsSome (copies self.now n.now)) }
        ensures ascending { AreAscending (hosts self.now) };

    /// Whether the copy of that name noted a drop, and has taken no delta since.
    fn dropped(&self, name: &WaveletName) -> bool
        ensures { result ≡ drops self.now name.now };

    /// The acknowledgement that the copy keeps for the id; else the verdict noted for it, unless it waits for another one; else None.
    fn outcome(&self, name: &WaveletName, id: &DeltaId) -> Option<Verdict>
        ensures value { result ≡ outcomes self.now name.now id.now }
        ensures kept { IsKeptOutcome (copies self.now name.now) id.now result };
}
