use delta_history::Kept;

/// What a copy answers to a submission.
#[derive(Clone, Copy, Debug, Drop)]
pub enum Queued {
    /// Its history has a delta of the id, which stands there.
    Kept(Kept),
    /// The submission waits for the host's verdict.
    Waiting,
}
