ghost use Rattle.std.specs.Prelude.{◌≤◌, IfOk, IfErr, OnOk, MatchResult, IsTrue, ◌↔◌};
ghost use Rattle.doc_items.specs.Limits.{max_count};
ghost use Rattle.doc_op.specs.Actions.{actions};
ghost use Rattle.doc_op.specs.Structure.{Structured};
ghost use Rattle.op_transform.specs.Results.{together, IsTransform, IsRefused};
ghost use Rattle.op_transform.specs.Steps.{IsPairOf, IsConflict};

use crate::step::step;
use crate::walk::Walk;
use crate::{Pair, TransformFault};
use doc_items::{MAX_COUNT, Memory};
use doc_op::{Cursor, DocOp};
use std::alloc::Global;

/// Takes two operations that were made on one document past each other: the later one for the document that the earlier one
/// gives, and the earlier one for the document that the later one gives. Where both insert, the later one's items come first.
/// Both results are in normal form and structured. Refusals, in this order: `CountTooLarge` where the larger input and both
/// counts of inserted items together exceed the greatest count; `Conflict` where the operations can't both apply to one document.
pub fn transform(alloc: Global, later: &DocOp, earlier: &DocOp) -> Result<Pair, TransformFault>
    requires later { Structured (actions later.now) }
    requires earlier { Structured (actions earlier.now) }
    ensures ok { IfOk result (λ p. IsTransform later.now earlier.now p) }
    ensures fits { OnOk result (together (actions later.now) (actions earlier.now) ≤ max_count) }
    ensures refused { IfErr result (λ f. IsRefused f later.now earlier.now) }
{
    if fit_together(later, earlier) {
        walk_over(alloc, later, earlier)
    } else {
        Err(TransformFault::CountTooLarge)
    }
}

// Whether the larger input and both counts of inserted items are within the greatest count.
fn fit_together(later: &DocOp, earlier: &DocOp) -> bool
    ensures { IsTrue result ↔ (together (actions later.now) (actions earlier.now) ≤ max_count) }
{
    let mine = later.input_len();
    let theirs = earlier.input_len();
    let larger = if mine < theirs { theirs } else { mine };
    larger + (later.inserted() + earlier.inserted()) <= MAX_COUNT
}

fn walk_over(alloc: Global, later: &DocOp, earlier: &DocOp) -> Result<Pair, TransformFault>
    requires later { Structured (actions later.now) }
    requires earlier { Structured (actions earlier.now) }
    requires fits { together (actions later.now) (actions earlier.now) ≤ max_count }
    ensures { MatchResult result
        (λ p. IsTransform later.now earlier.now p)
        (λ f. IsConflict f later.now earlier.now) }
{
    let mut done = Walk::new(alloc);
    let mut l = Cursor::new(alloc, later)?;
    let mut e = Cursor::new(alloc, earlier)?;
    'walk: loop {
        match step(alloc, &mut done, &mut l, &mut e) {
            Ok(more) => {
                if !more {
                    return Ok(finish(alloc, done)?);
                }
            }
            Err(fault) => return Err(fault),
        }
    }
}

// The operations that came out.
fn finish(alloc: Global, done: Walk) -> Result<Pair, Memory>
    ensures { IfOk result (λ p. IsPairOf done p) }
{
    let Walk {
        later,
        earlier,
        touched: _touched,
        place: _,
        length: _,
    } = done;
    let later = later.out.finish(alloc)?;
    let earlier = earlier.out.finish(alloc)?;
    Ok(Pair { later, earlier })
}
