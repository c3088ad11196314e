// Neighbouring operations on one document as one.
ghost use Rattle.std.specs.Prelude.{◌≡◌, ◌++◌, ◌∷◌, [], length, true, OnOk, MatchResult};
ghost use Rattle.doc_items.specs.Maps.{same_text};
ghost use Rattle.doc_op.specs.Actions.{actions};
ghost use Rattle.op_compose.specs.Steps.{IsComposition, IsRefused};
ghost use Rattle.wavelet_op.specs.Acts.{meaning, meanings, Mutates};
ghost use Rattle.wavelet_op.specs.Compacts.{bounded_join};
ghost use Rattle.wavelet_op.specs.Joining.{IsJoint, Unjoins, IsStep};
ghost use Rattle.wavelet_op.specs.Passing.{held, IsSettled};
ghost use Rattle.wavelet_op.specs.Results.{fault_of_compose};
ghost use Rattle.wavelet_op.specs.declared.op.WaveletOp.TheVariants.{Mutate};

use crate::held::Held;
use crate::{WaveletFault, WaveletOp};
use doc_items::Memory;
use doc_op::DocOp;
use op_compose::compose;
use std::alloc::Global;
use wave_base::DocumentName;

/// One operation further: it joins the one that is held, or that one is done and this one is held.
pub(crate) fn step<'a>(
    alloc: Global,
    done: &mut Vec<WaveletOp>,
    last: Held<'a>,
    next: &'a WaveletOp,
) -> Result<Held<'a>, WaveletFault>
    requires settled { IsSettled last }
    ensures { MatchResult result
        (λ h. IsStep done.old.items last.entry next.entry.now done.new.items h)
        (λ f. Unjoins (bounded_join (meaning (held last.entry)) (meaning next.entry.now)) f) }
{
    match join(alloc, last.op(), next)? {
        Some(one) => Ok(Held::Made(one)),
        None => {
            let last = last.finish(alloc)?;
            put(done, last)?;
            Ok(Held::Lent(next))
        }
    }
}

pub(crate) fn put(list: &mut Vec<WaveletOp>, op: WaveletOp) -> Result<(), Memory>
    ensures { OnOk result (list.new.items ≡ list.old.items ++ op ∷ []) }
{
    list.push(op)?;
    Ok(())
}

// The operation for two neighbours; None for those that stay apart.
#[tactic(auto, unfolding(crate::specs::Compacts::bounded_join))]
fn join(
    alloc: Global,
    first: &WaveletOp,
    second: &WaveletOp,
) -> Result<Option<WaveletOp>, WaveletFault>
    ensures { MatchResult result
        (λ o. IsJoint first.now second.now o)
        (λ f. Unjoins (bounded_join (meaning first.now) (meaning second.now)) f) }
{
    match first {
        WaveletOp::NoOp => Ok(None),
        WaveletOp::Add(_) => Ok(None),
        WaveletOp::Remove(_) => Ok(None),
        WaveletOp::SetRole { .. } => Ok(None),
        WaveletOp::Mutate { document, op } => join_mutation(alloc, document, op, second),
    }
}

#[tactic(auto, unfolding(crate::specs::Compacts::bounded_join))]
fn join_mutation(
    alloc: Global,
    document: &DocumentName,
    op: &DocOp,
    second: &WaveletOp,
) -> Result<Option<WaveletOp>, WaveletFault>
    ensures { MatchResult result
        (λ o. IsJoint (Mutate document.now op.now) second.now o)
        (λ f. Unjoins (bounded_join (meaning (Mutate document.now op.now)) (meaning second.now)) f) }
{
    match second {
        WaveletOp::NoOp => Ok(None),
        WaveletOp::Add(_) => Ok(None),
        WaveletOp::Remove(_) => Ok(None),
        WaveletOp::SetRole { .. } => Ok(None),
        WaveletOp::Mutate {
            document: other,
            op: next,
        } => {
            if document == other {
                compose_both(alloc, document, other, op, next)
            } else {
                Ok(None)
            }
        }
    }
}

// Two operations on one document as one; `other` is the same name.
#[tactic(auto, using(crate::proofs::Joinings::mutations_join, crate::proofs::Joinings::mutations_unjoined))]
fn compose_both(
    alloc: Global,
    document: &DocumentName,
    other: &DocumentName,
    op: &DocOp,
    next: &DocOp,
) -> Result<Option<WaveletOp>, WaveletFault>
    requires { same_text document.now other.now ≡ true }
    ensures { MatchResult result
        (λ o. IsJoint (Mutate document.now op.now) (Mutate other.now next.now) o)
        (λ f. Unjoins (bounded_join (Mutates document.now (actions op.now)) (Mutates other.now (actions next.now))) f) }
{
    match compose(alloc, op, next) {
        Ok(op) => {
            let document = document.copy(alloc)?;
            Ok(Some(WaveletOp::Mutate { document, op }))
        }
        Err(fault) => Err(WaveletFault::of_compose(fault)),
    }
}
