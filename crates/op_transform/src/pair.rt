use doc_op::DocOp;

/// Both results of a transform: the later operation for the document that the earlier one gives, and the earlier operation for
/// the document that the later one gives.
#[derive(Drop)]
pub struct Pair {
    pub later: DocOp,
    pub earlier: DocOp,
}
