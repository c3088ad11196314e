// What a copy is given by its host.
use peer_turns::Absorbed;
use wave_base::DeltaId;
use wavelet_op::{AppliedDelta, Verdict};

/// What a copy is given.
#[derive(Clone, Copy, Drop)]
pub enum Giving<'a> {
    /// A delta of the host's history.
    Delta(&'a AppliedDelta),
    /// The host's verdict on the submission of an id.
    Answer(&'a DeltaId, Verdict),
    /// That the host gives the copy no more.
    NoMore,
}

/// What is answered to it.
#[derive(Clone, Copy, Debug, Drop)]
pub enum Given {
    /// What the copy made of a delta.
    Absorbed(Absorbed),
    /// Whether a submission of the id was waiting for the verdict.
    Noted(bool),
    /// The drop was told.
    Told,
}
