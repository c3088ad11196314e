// Two operations that were made at one state, each taken past the other.
ghost use Rattle.std.specs.Prelude.{◌≡◌, true, false, Some, None, MatchResult};
ghost use Rattle.doc_items.specs.Maps.{same_text};
ghost use Rattle.wavelet_op.specs.Acts.{meaning, Mutates, IsStructuredAct};
ghost use Rattle.wavelet_op.specs.Grids.{at_index};
ghost use Rattle.wavelet_op.specs.Passing.{IsCrossing};
ghost use Rattle.wavelet_op.specs.Results.{Refuses};
ghost use Rattle.wavelet_op.specs.Transform.{bounded};
ghost use Rattle.wavelet_op.specs.declared.op.WaveletOp.TheVariants.{Add, Remove, Mutate, SetRole};
ghost use Rattle.doc_op.specs.Actions.{actions};
ghost use Rattle.doc_op.specs.Structure.{Structured};

use crate::{Role, WaveletFault, WaveletOp};
use doc_op::DocOp;
use op_transform::transform;
use std::alloc::Global;
use wave_base::{Address, DocumentName};

/// What becomes of two operations; None where one stays as it is.
#[derive(Drop)]
pub(crate) struct Crossing {
    pub later: Option<WaveletOp>,
    pub earlier: Option<WaveletOp>,
}

impl Crossing {
    // Both stay.
    fn stays() -> Crossing
        ensures later { result.later ≡ None }
        ensures earlier { result.earlier ≡ None }
    {
        Crossing {
            later: None,
            earlier: None,
        }
    }

    // Both do nothing.
    fn idle() -> Crossing
        ensures later { result.later ≡ Some WaveletOp.NoOp }
        ensures earlier { result.earlier ≡ Some WaveletOp.NoOp }
    {
        Crossing {
            later: Some(WaveletOp::NoOp),
            earlier: Some(WaveletOp::NoOp),
        }
    }
}

/// What becomes of a later and an earlier operation. Refusals: `CountTooLarge`, `Conflict` with the index, which is the later
/// operation's.
#[tactic(auto, unfolding(crate::specs::Transform::bounded, crate::specs::Transform::exact, crate::specs::Transform::act_transform, crate::specs::Transform::is_within))]
pub(crate) fn cross(
    alloc: Global,
    index: u32,
    later: &WaveletOp,
    earlier: &WaveletOp,
) -> Result<Crossing, WaveletFault>
    requires later { IsStructuredAct (meaning later.now) }
    requires earlier { IsStructuredAct (meaning earlier.now) }
    ensures { MatchResult result
        (λ c. IsCrossing later.now earlier.now c)
        (λ f. Refuses (at_index index (bounded (meaning later.now) (meaning earlier.now))) f) }
{
    match later {
        WaveletOp::NoOp => Ok(Crossing::stays()),
        WaveletOp::Add(address) => cross_add(index, address, earlier),
        WaveletOp::Remove(address) => cross_remove(index, address, earlier),
        WaveletOp::SetRole { address, old, new } => {
            cross_role(alloc, index, address, *old, *new, earlier)
        }
        WaveletOp::Mutate { document, op } => cross_mutation(alloc, index, document, op, earlier),
    }
}

// What becomes of two operations on roles: on one address they clash, and on two both stay.
fn stay_apart(index: u32, address: &Address, other: &Address) -> Result<Crossing, WaveletFault>
    ensures { MatchResult result
        (λ c. (same_text address.now other.now ≡ false) × (c.later ≡ None) × (c.earlier ≡ None))
        (λ f. (same_text address.now other.now ≡ true) × (f ≡ WaveletFault.Conflict index)) }
{
    if address == other {
        Err(WaveletFault::Conflict(index))
    } else {
        Ok(Crossing::stays())
    }
}

#[tactic(auto, unfolding(crate::specs::Transform::bounded, crate::specs::Transform::exact, crate::specs::Transform::act_transform, crate::specs::Transform::is_within))]
fn cross_add(index: u32, address: &Address, earlier: &WaveletOp) -> Result<Crossing, WaveletFault>
    ensures { MatchResult result
        (λ c. IsCrossing (Add address.now) earlier.now c)
        (λ f. Refuses (at_index index (bounded (meaning (Add address.now)) (meaning earlier.now))) f) }
{
    match earlier {
        WaveletOp::NoOp => Ok(Crossing::stays()),
        WaveletOp::Add(other) => {
            if address == other {
                Ok(Crossing::idle())
            } else {
                Ok(Crossing::stays())
            }
        }
        WaveletOp::Remove(other) => stay_apart(index, address, other),
        WaveletOp::SetRole { address: other, .. } => stay_apart(index, address, other),
        WaveletOp::Mutate { .. } => Ok(Crossing::stays()),
    }
}

#[tactic(auto, unfolding(crate::specs::Transform::bounded, crate::specs::Transform::exact, crate::specs::Transform::act_transform, crate::specs::Transform::is_within))]
fn cross_remove(
    index: u32,
    address: &Address,
    earlier: &WaveletOp,
) -> Result<Crossing, WaveletFault>
    ensures { MatchResult result
        (λ c. IsCrossing (Remove address.now) earlier.now c)
        (λ f. Refuses (at_index index (bounded (meaning (Remove address.now)) (meaning earlier.now))) f) }
{
    match earlier {
        WaveletOp::NoOp => Ok(Crossing::stays()),
        WaveletOp::Add(other) => stay_apart(index, address, other),
        WaveletOp::Remove(other) => {
            if address == other {
                Ok(Crossing::idle())
            } else {
                Ok(Crossing::stays())
            }
        }
        WaveletOp::SetRole { address: other, .. } => {
            if address == other {
                Ok(Crossing {
                    later: None,
                    earlier: Some(WaveletOp::NoOp),
                })
            } else {
                Ok(Crossing::stays())
            }
        }
        WaveletOp::Mutate { .. } => Ok(Crossing::stays()),
    }
}

#[tactic(auto, unfolding(crate::specs::Transform::bounded, crate::specs::Transform::exact, crate::specs::Transform::act_transform, crate::specs::Transform::is_within))]
fn cross_role(
    alloc: Global,
    index: u32,
    address: &Address,
    old: Role,
    new: Role,
    earlier: &WaveletOp,
) -> Result<Crossing, WaveletFault>
    ensures { MatchResult result
        (λ c. IsCrossing (SetRole address.now old new) earlier.now c)
        (λ f. Refuses (at_index index (bounded (meaning (SetRole address.now old new)) (meaning earlier.now))) f) }
{
    match earlier {
        WaveletOp::NoOp => Ok(Crossing::stays()),
        WaveletOp::Add(other) => stay_apart(index, address, other),
        WaveletOp::Remove(other) => {
            if address == other {
                Ok(Crossing {
                    later: Some(WaveletOp::NoOp),
                    earlier: None,
                })
            } else {
                Ok(Crossing::stays())
            }
        }
        WaveletOp::SetRole {
            address: other,
            old: first,
            new: second,
        } => {
            if address != other {
                Ok(Crossing::stays())
            } else if old == *first {
                follow_role(alloc, address, *second, new)
            } else {
                Err(WaveletFault::Conflict(index))
            }
        }
        WaveletOp::Mutate { .. } => Ok(Crossing::stays()),
    }
}

// The later of two roles for one address takes the place of the earlier one's.
fn follow_role(
    alloc: Global,
    address: &Address,
    old: Role,
    new: Role,
) -> Result<Crossing, WaveletFault>
    ensures { MatchResult result
        (λ c. (c.later ≡ Some (SetRole address.now old new)) × (c.earlier ≡ Some WaveletOp.NoOp))
        (λ f. f ≡ WaveletFault.Memory) }
{
    let address = address.copy(alloc)?;
    Ok(Crossing {
        later: Some(WaveletOp::SetRole { address, old, new }),
        earlier: Some(WaveletOp::NoOp),
    })
}

#[tactic(auto, unfolding(crate::specs::Transform::bounded, crate::specs::Transform::exact, crate::specs::Transform::act_transform, crate::specs::Transform::is_within))]
fn cross_mutation(
    alloc: Global,
    index: u32,
    document: &DocumentName,
    op: &DocOp,
    earlier: &WaveletOp,
) -> Result<Crossing, WaveletFault>
    requires later { Structured (actions op.now) }
    requires earlier { IsStructuredAct (meaning earlier.now) }
    ensures { MatchResult result
        (λ c. IsCrossing (Mutate document.now op.now) earlier.now c)
        (λ f. Refuses (at_index index (bounded (meaning (Mutate document.now op.now)) (meaning earlier.now))) f) }
{
    match earlier {
        WaveletOp::NoOp => Ok(Crossing::stays()),
        WaveletOp::Add(_) => Ok(Crossing::stays()),
        WaveletOp::Remove(_) => Ok(Crossing::stays()),
        WaveletOp::SetRole { .. } => Ok(Crossing::stays()),
        WaveletOp::Mutate {
            document: other,
            op: first,
        } => {
            if document == other {
                cross_documents(alloc, index, document, other, op, first)
            } else {
                Ok(Crossing::stays())
            }
        }
    }
}

// Two operations on one document.
#[tactic(auto, using(crate::proofs::Crossings::mutations_cross, crate::proofs::Crossings::mutations_refused))]
fn cross_documents(
    alloc: Global,
    index: u32,
    document: &DocumentName,
    other: &DocumentName,
    op: &DocOp,
    first: &DocOp,
) -> Result<Crossing, WaveletFault>
    requires same { same_text document.now other.now ≡ true }
    requires later { Structured (actions op.now) }
    requires earlier { Structured (actions first.now) }
    ensures { MatchResult result
        (λ c. IsCrossing (Mutate document.now op.now) (Mutate other.now first.now) c)
        (λ f. Refuses (at_index index (bounded (Mutates document.now (actions op.now)) (Mutates other.now (actions first.now)))) f) }
{
    match transform(alloc, op, first) {
        Ok(pair) => {
            let document = document.copy(alloc)?;
            let other = other.copy(alloc)?;
            Ok(Crossing {
                later: Some(WaveletOp::Mutate {
                    document,
                    op: pair.later,
                }),
                earlier: Some(WaveletOp::Mutate {
                    document: other,
                    op: pair.earlier,
                }),
            })
        }
        Err(fault) => Err(WaveletFault::of_transform(fault, index)),
    }
}
