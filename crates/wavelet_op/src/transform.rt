ghost use Rattle.std.specs.Prelude.{length, ◌≤◌, IfOk, IfErr, MatchResult};
ghost use Rattle.std.specs.List.{All};
ghost use Rattle.wavelet_op.specs.Acts.{meaning, meanings, IsStructuredAct, AreStructuredActs};
ghost use Rattle.wavelet_op.specs.Grids.{at_index, grid_by, bounded_grid};
ghost use Rattle.wavelet_op.specs.Passing.{acts_held, IsSettled, IsGridded};
ghost use Rattle.wavelet_op.specs.Results.{Refuses, IsPair, IsOpsPair};
ghost use Rattle.wavelet_op.specs.Transform.{bounded};

use crate::held::{Held, finished, lent};
use crate::joining::put;
use crate::pass::{pass, past};
use crate::{OpPair, Ops, OpsPair, WaveletFault, WaveletOp};
use std::alloc::Global;

/// Takes two operations that were made at one state past each other. Both results are in normal form and structured. Refusals,
/// in this order: `CountTooLarge` where two operations on one document are over more items together than a document may have,
/// `Conflict(0)` where no transform is defined.
#[tactic(auto, using(crate::proofs::Crossings::structured_step))]
pub fn transform_op(
    alloc: Global,
    later: &WaveletOp,
    earlier: &WaveletOp,
) -> Result<OpPair, WaveletFault>
    requires later { IsStructuredAct (meaning later.now) }
    requires earlier { IsStructuredAct (meaning earlier.now) }
    ensures ok { IfOk result (λ p. IsPair later.now earlier.now p) }
    ensures refused { IfErr result (λ f. Refuses (at_index 0 (bounded (meaning later.now) (meaning earlier.now))) f) }
{
    let (later, earlier) = past(alloc, 0, Held::Lent(later), Held::Lent(earlier))?;
    let later = later.finish(alloc)?;
    let earlier = earlier.finish(alloc)?;
    Ok(OpPair { later, earlier })
}

/// Takes two lists of operations that were made at one state past each other: each later operation, in order, passes through all
/// earlier ones, as the later ones before it left them. All results are in normal form and structured. A refusal is that of the
/// first pass that meets one: `CountTooLarge`, or `Conflict` with the index of the later operation.
pub fn transform_delta(alloc: Global, later: &Ops, earlier: &Ops) -> Result<OpsPair, WaveletFault>
    requires later { AreStructuredActs (meanings later.now) }
    requires earlier { AreStructuredActs (meanings earlier.now) }
    ensures ok { IfOk result (λ p. IsOpsPair later.now earlier.now p) }
    ensures refused { IfErr result (λ f. Refuses (bounded_grid (meanings later.now) (meanings earlier.now)) f) }
{
    let passed = lent(alloc, earlier.as_slice())?;
    let (done, passed) = pass_all(alloc, later.as_slice(), passed)?;
    let passed = finished(alloc, passed)?;
    let later = Ops::of(done);
    let earlier = Ops::of(passed);
    Ok(OpsPair { later, earlier })
}

// Takes each operation past the others, which stand in a row.
fn pass_all<'a>(
    alloc: Global,
    later: &'a [WaveletOp],
    earlier: Vec<Held<'a>>,
) -> Result<(Vec<WaveletOp>, Vec<Held<'a>>), WaveletFault>
    requires bound { length later.now ≤ 1000 }
    requires later_structured { AreStructuredActs (meanings later.now) }
    requires earlier_structured { All IsStructuredAct (acts_held earlier.items) }
    requires earlier_settled { All IsSettled earlier.items }
    ensures { MatchResult result
        (λ p. IsGridded later.entry.now earlier.entry.items p.0.items p.1.items)
        (λ f. Refuses (grid_by bounded 0 (meanings later.entry.now) (acts_held earlier.entry.items)) f) }
{
    let mut done = Vec::with_capacity(alloc, later.len())?;
    let mut passed = earlier;
    for (index, op) in later.iter().enumerate() {
        let (mine, theirs) = pass(alloc, index as u32, Held::Lent(op), passed)?;
        passed = theirs;
        let mine = mine.finish(alloc)?;
        put(&mut done, mine)?;
    }
    Ok((done, passed))
}
