ghost use Rattle.wavelet_op.specs.Laws.{ActSquare, DeltaSquare, BoundedIsExact, StatesHold, PassAppends, CompactHolds, BoundedCompactIsExact};

/// The law of the transform on wavelets: operations that are valid at one state have a transform, both ways round lead to one
/// state, and nothing more is inserted; the same holds of lists of them. The bound on counts refuses results and gives no others.
/// Operations pass through deltas in a row as through the first and then through the others. A valid list leaves every document
/// balanced, and keeps none that is empty.
#[tactic(auto, using(crate::proofs::Squares::act_square, crate::proofs::Grids::delta_square, crate::proofs::Grids::bounded_is_exact, crate::proofs::Grids::pass_appends, crate::proofs::Wholes::states_hold))]
pub fn delta_square_holds()
    ensures acts { ActSquare }
    ensures lists { DeltaSquare }
    ensures bounded { BoundedIsExact }
    ensures passes { PassAppends }
    ensures states { StatesHold }
{}

/// The law of `compact`: what is valid at a state is compacted, leads to the same state and inserts no more. The bound on counts
/// refuses results and gives no others.
#[tactic(auto, using(crate::proofs::Compacts::compact_holds, crate::proofs::Compacts::bounded_compact_is_exact))]
pub fn compact_holds()
    ensures outcome { CompactHolds }
    ensures bounded { BoundedCompactIsExact }
{}
