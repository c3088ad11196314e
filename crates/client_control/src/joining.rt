// Entries of the queue joined for one submission.
ghost use Rattle.std.specs.Prelude.{◌≡◌, ◌<◌, ◌++◌, ◌∷◌, [], length, map, None, MatchOption, IfOk, OnOk};
ghost use Rattle.std.specs.Result.{result_ok};
ghost use Rattle.wavelet_op.specs.Acts.{meanings, AreNormal};
ghost use Rattle.wavelet_op.specs.Compacts.{bounded_compact};
ghost use Rattle.follower_rules.specs.Submitting.{gather};
ghost use Rattle.client_control.specs.Joins.{join_on, IsCompacted, IsJoining, IsFit, IsFitting, IsGathered, IsGathering};

use crate::submitting::SUBMIT_BYTES;
use doc_items::Memory;
use std::alloc::{AllocError, Global};
use wavelet_codec::ops_len;
use wavelet_op::{MAX_OPS, Ops, WaveletFault, WaveletOp, compact};

/// Entries that become one submission: the first, and so many of those after it.
#[derive(Drop)]
pub(crate) struct Joint {
    pub ops: Ops,
    pub entries: usize,
}

fn put(list: &mut Vec<WaveletOp>, op: WaveletOp) -> Result<(), Memory>
    ensures { OnOk result (list.new.items ≡ list.old.items ++ op ∷ []) }
{
    list.push(op)?;
    Ok(())
}

// Copies of operations after a list.
fn put_copies(alloc: Global, list: &mut Vec<WaveletOp>, ops: &[WaveletOp]) -> Result<(), Memory>
    ensures { OnOk result (list.new.items ≡ list.old.items ++ ops.now) }
{
    for op in ops {
        let copy = op.copy(alloc)?;
        put(list, copy)?;
    }
    Ok(())
}

// Neighbouring operations on one document as one; None where some can't be.
fn compacted(alloc: Global, ops: &Ops) -> Result<Option<Ops>, Memory>
    ensures { IfOk result (λ o. IsCompacted ops.now o) }
{
    match compact(alloc, ops) {
        Ok(fewer) => Ok(Some(fewer)),
        Err(WaveletFault::OpInvalid(_)) => unreachable!(),
        Err(WaveletFault::CountTooLarge) => Ok(None),
        Err(WaveletFault::Conflict(_)) => unreachable!(),
        Err(WaveletFault::DontFit(_)) => Ok(None),
        Err(WaveletFault::Memory) => Err(AllocError),
    }
}

// An operation with others after it.
fn behind(alloc: Global, op: &WaveletOp, more: &[WaveletOp]) -> Result<Ops, Memory>
    requires { length more.now < 1000 }
    ensures { IfOk result (λ o. o ≡ op.now ∷ more.now) }
{
    let mut list = Vec::with_capacity(alloc, more.len() + 1)?;
    let first = op.copy(alloc)?;
    put(&mut list, first)?;
    put_copies(alloc, &mut list, more)?;
    match Ops::new(list) {
        Some(ops) => Ok(ops),
        None => unreachable!(),
    }
}

// Two lists in a row.
fn in_a_row(
    alloc: Global,
    front: &[WaveletOp],
    back: &[WaveletOp],
) -> Result<Vec<WaveletOp>, Memory>
    ensures { IfOk result (λ v. v.items ≡ front.now ++ back.now) }
{
    let mut list = Vec::new(alloc);
    put_copies(alloc, &mut list, front)?;
    put_copies(alloc, &mut list, back)?;
    Ok(list)
}

// Operations that are compacted, with others after them; None where some can't be composed.
#[tactic(auto, using(crate::proofs::Joinings::join_none, crate::proofs::Joinings::join_done))]
fn join_some(
    alloc: Global,
    ops: &[WaveletOp],
    more: &[WaveletOp],
) -> Result<Option<Vec<WaveletOp>>, Memory>
    requires some { 0 < length ops.now }
    requires normal { AreNormal ops.now }
    requires few { length more.now < 1000 }
    ensures { IfOk result (λ o. MatchOption o (result_ok (join_on (meanings ops.now) (meanings more.now)) ≡ None)
        (λ v. IsJoining ops.now more.now v.items)) }
{
    let (last, front) = match ops.split_last() {
        Some(parts) => parts,
        None => unreachable!(),
    };
    let ending = behind(alloc, last, more)?;
    let Some(fewer) = compacted(alloc, &ending)? else {
        return Ok(None);
    };
    let joined = in_a_row(alloc, front, fewer.as_slice())?;
    Ok(Some(joined))
}

// The operations, where they are short enough for a submission.
#[tactic(auto, using(crate::proofs::Joinings::fit_some, crate::proofs::Joinings::fit_none, crate::proofs::Joinings::count_is))]
fn if_short(alloc: Global, ops: Ops) -> Result<Option<Ops>, Memory>
    requires { AreNormal ops }
    ensures { IfOk result (λ o. IsFit (meanings ops) o) }
{
    // For the proof: they are as many as a delta may have.
    let _count = ops.len();
    if ops_len(alloc, &ops)? <= SUBMIT_BYTES {
        Ok(Some(ops))
    } else {
        Ok(None)
    }
}

// The operations of this list, where they are few and short enough for a submission.
#[tactic(auto, using(crate::proofs::Joinings::fit_many))]
fn if_fits(alloc: Global, list: Vec<WaveletOp>) -> Result<Option<Ops>, Memory>
    requires { AreNormal list.items }
    ensures { IfOk result (λ o. IsFit (meanings list.items) o) }
{
    match Ops::new(list) {
        Some(ops) => if_short(alloc, ops),
        None => Ok(None),
    }
}

// Operations that are compacted with an entry after them, where that fits.
#[tactic(auto, using(crate::proofs::Joinings::join_first_none, crate::proofs::Joinings::join_last_none, crate::proofs::Joinings::join_fits))]
fn join(alloc: Global, ops: &Ops, entry: &Ops) -> Result<Option<Ops>, Memory>
    requires { AreNormal ops.now }
    ensures { IfOk result (λ o. IsFitting (join_on (meanings ops.now) (meanings entry.now)) o) }
{
    let list = entry.as_slice();
    let cut = list.len().min(MAX_OPS - 1);
    let (first, last) = list.split_at(cut);
    let Some(some) = join_some(alloc, ops.as_slice(), first)? else {
        return Ok(None);
    };
    let Some(all) = join_some(alloc, some.as_slice(), last)? else {
        return Ok(None);
    };
    if_fits(alloc, all)
}

// An entry alone, compacted, where that fits.
#[tactic(auto, using(crate::proofs::Joinings::alone_fits))]
fn first_alone(alloc: Global, entry: &Ops) -> Result<Option<Ops>, Memory>
    ensures { IfOk result (λ o. IsFitting (bounded_compact (meanings entry.now)) o) }
{
    match compacted(alloc, entry)? {
        Some(ops) => if_short(alloc, ops),
        None => Ok(None),
    }
}

// Operations that are compacted with as many entries as fit.
#[tactic(auto, using(crate::proofs::Joinings::gather_stops, crate::proofs::Joinings::gather_goes))]
fn gather_on(alloc: Global, ops: Ops, rest: &[Ops]) -> Result<Joint, Memory>
    requires { AreNormal ops }
    ensures { IfOk result (λ g. IsGathering ops rest.now g) }
{
    let mut ops = ops;
    for entries in 0..rest.len() {
        let Some(more) = join(alloc, &ops, &rest[entries])? else {
            return Ok(Joint { ops, entries });
        };
        ops = more;
    }
    Ok(Joint {
        ops,
        entries: rest.len(),
    })
}

/// The first entry with as many of the others as fit; None where it alone doesn't.
#[tactic(auto, using(crate::proofs::Joinings::gathering_is, crate::proofs::Joinings::gathered_none))]
pub(crate) fn gather(alloc: Global, first: &Ops, rest: &[Ops]) -> Result<Option<Joint>, Memory>
    ensures { IfOk result (λ o. MatchOption o (gather (meanings first.now) (map meanings rest.now) ≡ None)
        (λ g. IsGathered first.now rest.now g)) }
{
    let Some(ops) = first_alone(alloc, first)? else {
        return Ok(None);
    };
    let joint = gather_on(alloc, ops, rest)?;
    Ok(Some(joint))
}
