ghost use Rattle.std.specs.Prelude.{◌≤◌, ◌<◌, IfOk, IfErr, OnOk, MatchResult, IsTrue, ◌↔◌};
ghost use Rattle.doc_items.specs.Limits.{max_count};
ghost use Rattle.doc_op.specs.Actions.{actions};
ghost use Rattle.op_compose.specs.Steps.{together, IsComposition, IsDontFit, IsRefused};

use crate::ComposeFault;
use crate::step::step;
use crate::weave::Weave;
use doc_items::MAX_COUNT;
use doc_op::{Cursor, DocOp};
use std::alloc::Global;

/// The operation that does what the first and then the second does, in normal form; structured where both are. Refusals, in
/// this order: `CountTooLarge` where the first's input and both counts of inserted items together exceed the greatest count;
/// `DontFit` where the second can't apply to what the first gives.
pub fn compose(alloc: Global, first: &DocOp, second: &DocOp) -> Result<DocOp, ComposeFault>
    ensures ok { IfOk result (λ op. IsComposition first.now second.now op) }
    ensures fits { OnOk result (together (actions first.now) (actions second.now) ≤ max_count) }
    ensures refused { IfErr result (λ e. IsRefused e first.now second.now) }
{
    if fit_together(first, second) {
        weave_over(alloc, first, second)
    } else {
        Err(ComposeFault::CountTooLarge)
    }
}

// Whether the first's input and both counts of inserted items are within the greatest count.
fn fit_together(first: &DocOp, second: &DocOp) -> bool
    ensures { IsTrue result ↔ (together (actions first.now) (actions second.now) ≤ max_count) }
{
    first.input_len() + (first.inserted() + second.inserted()) <= MAX_COUNT
}

fn weave_over(alloc: Global, first: &DocOp, second: &DocOp) -> Result<DocOp, ComposeFault>
    requires { together (actions first.now) (actions second.now) ≤ max_count }
    ensures { MatchResult result
        (λ op. IsComposition first.now second.now op)
        (λ e. IsDontFit e first.now second.now) }
{
    let mut done = Weave::new(alloc);
    let mut f = Cursor::new(alloc, first)?;
    let mut s = Cursor::new(alloc, second)?;
    'walk: loop {
        match step(alloc, &mut done, &mut f, &mut s) {
            Ok(more) => {
                if !more {
                    return Ok(done.finish(alloc)?);
                }
            }
            Err(fault) => return Err(fault),
        }
    }
}
