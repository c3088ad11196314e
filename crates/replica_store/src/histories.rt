// What a copy asks of its history.
ghost use Rattle.std.specs.Prelude.{◌≡◌, is_some, IfErr, IsErrOf, OnOk, OnErr};
ghost use Rattle.wavelet_op.specs.Acts.{AreNormal};
ghost use Rattle.delta_history.specs.Histories.{IsSameHistory, IsGrown};
ghost use Rattle.delta_history.specs.Legal.{has_id, IsLegal, IsNext};
ghost use Rattle.delta_history.specs.Points.{start};
ghost use Rattle.delta_history.specs.Pushes.{IsRefused};
ghost use Rattle.delta_history.specs.Verdicts.{kept};

use delta_history::{History, HistoryFault, Kept};
use std::alloc::Global;
use wave_base::DeltaId;
use wavelet_op::AppliedDelta;

/// Where the delta of the id stands.
pub(crate) fn kept(history: &History, id: &DeltaId) -> Option<Kept>
    ensures value { result ≡ kept id.now (start history.now.name) history.now.deltas }
    ensures has { has_id id.now history.now.deltas ≡ is_some result }
{
    // For the proof: the history is legal.
    let _deltas = history.deltas();
    history.kept(id)
}

/// An equal delta is after the others. The refusals are those of `push_applied`.
pub(crate) fn push_copy(
    alloc: Global,
    history: &mut History,
    delta: &AppliedDelta,
) -> Result<(), HistoryFault>
    ensures grown { OnOk result (IsGrown history.old delta.now history.new) }
    ensures next { OnOk result (IsNext history.old.name history.old.deltas delta.now) }
    ensures refused { IfErr result (IsRefused history.old delta.now) }
    ensures normal { IsErrOf result HistoryFault.NotLegal → AreNormal delta.now.ops }
    ensures legal { IsLegal history.old.name history.old.deltas }
    ensures same { OnErr result (IsSameHistory history.old history.new) }
{
    // For the proof: the history is legal.
    let _before = history.deltas();
    let copy = delta.copy(alloc)?;
    history.push_applied(alloc, copy)?;
    // For the proof: it is legal still.
    let _after = history.deltas();
    Ok(())
}
