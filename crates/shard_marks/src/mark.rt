// What a shard's history is a list of.
use wave_base::{DeltaId, Domain, WaveletName};
use wavelet_op::{AppliedDelta, Submission, Verdict};

/// An entry of a shard's history. These values exist in proofs alone.
pub enum Mark {
    /// The first one: whose shard it is, and its number.
    Began(Domain, u64),
    /// The history of a wavelet grew by this delta.
    Applied(WaveletName, AppliedDelta),
    /// The store failed at the submission of this id.
    Fault(WaveletName, DeltaId),
    /// A submission waits at a copy for the verdict of its host.
    Queued(WaveletName, Submission),
    /// The host of a copy gave this verdict on the submission of this id.
    Answered(WaveletName, DeltaId, Verdict),
    /// The host of a copy gives it no more.
    Dropped(WaveletName),
}
