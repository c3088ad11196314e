// Operations past others.
ghost use Rattle.std.specs.Prelude.{◌≡◌, ◌++◌, ◌∷◌, [], MatchResult, OnOk};
ghost use Rattle.std.specs.List.{All};
ghost use Rattle.wavelet_op.specs.Acts.{IsStructuredAct};
ghost use Rattle.wavelet_op.specs.Grids.{at_index, pass_one};
ghost use Rattle.wavelet_op.specs.Passing.{act_held, acts_held, IsSettled, IsCrossed, IsPassed};
ghost use Rattle.wavelet_op.specs.Results.{Refuses};
ghost use Rattle.wavelet_op.specs.Transform.{bounded};

use crate::WaveletFault;
use crate::crossing::cross;
use crate::held::Held;
use doc_items::Memory;
use std::alloc::Global;

/// Takes two operations past each other. Refusals: `CountTooLarge`, `Conflict` with the index.
pub(crate) fn past<'a>(
    alloc: Global,
    index: u32,
    later: Held<'a>,
    earlier: Held<'a>,
) -> Result<(Held<'a>, Held<'a>), WaveletFault>
    requires later_structured { IsStructuredAct (act_held later) }
    requires earlier_structured { IsStructuredAct (act_held earlier) }
    requires later_settled { IsSettled later }
    requires earlier_settled { IsSettled earlier }
    ensures { MatchResult result
        (λ p. IsCrossed later.entry earlier.entry p)
        (λ f. Refuses (at_index index (bounded (act_held later.entry) (act_held earlier.entry))) f) }
{
    let crossing = cross(alloc, index, later.op(), earlier.op())?;
    Ok((
        later.turned(crossing.later),
        earlier.turned(crossing.earlier),
    ))
}

/// Takes an operation past others that stand in a row. Refusals: `CountTooLarge`, `Conflict` with the index.
pub(crate) fn pass<'a>(
    alloc: Global,
    index: u32,
    later: Held<'a>,
    earlier: Vec<Held<'a>>,
) -> Result<(Held<'a>, Vec<Held<'a>>), WaveletFault>
    requires later_structured { IsStructuredAct (act_held later) }
    requires earlier_structured { All IsStructuredAct (acts_held earlier.items) }
    requires later_settled { IsSettled later }
    requires earlier_settled { All IsSettled earlier.items }
    ensures { MatchResult result
        (λ p. IsPassed later.entry earlier.entry.items p.0 p.1.items)
        (λ f. Refuses (at_index index (pass_one bounded (act_held later.entry) (acts_held earlier.entry.items))) f) }
{
    let mut later = later;
    let mut passed = Vec::with_capacity(alloc, earlier.len())?;
    for op in earlier {
        let (mine, theirs) = past(alloc, index, later, op)?;
        later = mine;
        put(&mut passed, theirs)?;
    }
    Ok((later, passed))
}

fn put<'a>(list: &mut Vec<Held<'a>>, op: Held<'a>) -> Result<(), Memory>
    ensures { OnOk result (list.new.items ≡ list.old.items ++ op.entry ∷ []) }
{
    list.push(op)?;
    Ok(())
}
