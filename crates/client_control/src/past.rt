// What is pending, past the operations of a delta.
ghost use Rattle.std.specs.Prelude.{◌≡◌, ◌++◌, ◌∷◌, [], None, map, MatchOption, IfOk, OnOk};
ghost use Rattle.std.specs.Option.{option_map};
ghost use Rattle.wavelet_op.specs.Acts.{meanings, AreStructuredActs};
ghost use Rattle.follower_rules.specs.Receiving.{past, rebase, over};
ghost use Rattle.client_control.specs.Parts.{flight_of, ops_flying};
ghost use Rattle.client_control.specs.Steps.{AreStructured, IsPair, IsRebased, IsOver};

use crate::flight::InFlight;
use doc_items::Memory;
use std::alloc::{AllocError, Global};
use wavelet_op::{Ops, OpsPair, WaveletFault, transform_delta};

/// Entries past operations, and what is left of these.
#[derive(Drop)]
pub struct Rebased {
    pub entries: Vec<Ops>,
    pub left: Ops,
}

/// The flight's operations and the entries past those of a delta, and what is left of these.
#[derive(Drop)]
pub(crate) struct Passed {
    pub flight: Option<Ops>,
    pub queue: Vec<Ops>,
    pub left: Ops,
}

// Both lists, each past the other; None where they have no transform.
fn past(alloc: Global, later: &Ops, earlier: &Ops) -> Result<Option<OpsPair>, Memory>
    requires later { AreStructuredActs (meanings later.now) }
    requires earlier { AreStructuredActs (meanings earlier.now) }
    ensures { IfOk result (λ o. MatchOption o (past (meanings later.now) (meanings earlier.now) ≡ None)
        (λ p. IsPair later.now earlier.now p)) }
{
    match transform_delta(alloc, later, earlier) {
        Ok(pair) => Ok(Some(pair)),
        Err(WaveletFault::OpInvalid(_)) => unreachable!(),
        Err(WaveletFault::CountTooLarge) => Ok(None),
        Err(WaveletFault::Conflict(_)) => Ok(None),
        Err(WaveletFault::DontFit(_)) => unreachable!(),
        Err(WaveletFault::Memory) => Err(AllocError),
    }
}

fn put(list: &mut Vec<Ops>, ops: Ops) -> Result<(), Memory>
    ensures { OnOk result (list.new.items ≡ list.old.items ++ ops ∷ []) }
{
    list.push(ops)?;
    Ok(())
}

/// Entries in turn past operations, each past what the ones before it left of them; None exactly where some have no transform.
#[tactic(auto, using(crate::proofs::Passing::rebasing_start, crate::proofs::Passing::rebasing_end))]
pub fn rebase(alloc: Global, entries: &[Ops], ops: Ops) -> Result<Option<Rebased>, Memory>
    requires entries { AreStructured entries.now }
    requires ops { AreStructuredActs (meanings ops) }
    ensures { IfOk result (λ o. MatchOption o (rebase (map meanings entries.now) (meanings ops) ≡ None)
        (λ p. IsRebased entries.now ops p)) }
{
    let mut done = Vec::with_capacity(alloc, entries.len())?;
    let mut left = ops;
    for entry in entries {
        let Some(pair) = past(alloc, entry, &left)? else {
            return Ok(None);
        };
        put(&mut done, pair.later)?;
        left = pair.earlier;
    }
    Ok(Some(Rebased {
        entries: done,
        left,
    }))
}

// With nothing in flight.
fn queue_over(alloc: Global, queue: &[Ops], ops: &Ops) -> Result<Option<Passed>, Memory>
    requires queue { AreStructured queue.now }
    requires ops { AreStructuredActs (meanings ops.now) }
    ensures { IfOk result (λ o. MatchOption o (over None (map meanings queue.now) (meanings ops.now) ≡ None)
        (λ p. IsOver None queue.now ops.now p)) }
{
    let first = ops.copy(alloc)?;
    let Some(rest) = rebase(alloc, queue, first)? else {
        return Ok(None);
    };
    Ok(Some(Passed {
        flight: None,
        queue: rest.entries,
        left: rest.left,
    }))
}

/// The flight and the entries past the operations of a delta; None where some have no transform.
pub(crate) fn pass_over(
    alloc: Global,
    flight: &Option<InFlight>,
    queue: &[Ops],
    ops: &Ops,
) -> Result<Option<Passed>, Memory>
    requires flight { AreStructured (ops_flying flight.now) }
    requires queue { AreStructured queue.now }
    requires ops { AreStructuredActs (meanings ops.now) }
    ensures { IfOk result (λ o. MatchOption o (over (option_map flight_of flight.now) (map meanings queue.now) (meanings ops.now) ≡ None)
        (λ p. IsOver flight.now queue.now ops.now p)) }
{
    let Some(flight) = flight else {
        return queue_over(alloc, queue, ops);
    };
    let Some(pair) = past(alloc, &flight.ops, ops)? else {
        return Ok(None);
    };
    let Some(rest) = rebase(alloc, queue, pair.earlier)? else {
        return Ok(None);
    };
    Ok(Some(Passed {
        flight: Some(pair.later),
        queue: rest.entries,
        left: rest.left,
    }))
}

/// Equal entries.
pub(crate) fn copy_queue(alloc: Global, queue: &[Ops]) -> Result<Vec<Ops>, Memory>
    ensures { IfOk result (λ v. v.items ≡ queue.now) }
{
    let mut copies = Vec::with_capacity(alloc, queue.len())?;
    for ops in queue {
        let copy = ops.copy(alloc)?;
        put(&mut copies, copy)?;
    }
    Ok(copies)
}
