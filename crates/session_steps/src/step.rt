use shard_marks::Look;

/// What a session did. These values exist in proofs alone.
pub enum LinkStep {
    /// A message was read and answered: at this look where it asks for one, and with this reading of the clock where it was a submission.
    Read(Option<Look>, Option<u64>),
    /// What was new at this look was sent.
    Delivered(Look),
}
