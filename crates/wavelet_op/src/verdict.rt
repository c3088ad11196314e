use wave_base::HashedVersion;

/// What becomes of a submission.
#[derive(Clone, Copy, Debug, PartialEq, Eq)]
pub enum Verdict {
    /// It is in the history, as the delta at the version `at`, after which the history is at `to`.
    Ack { at: u64, to: HashedVersion },
    /// Its author is no participant.
    NotParticipant,
    /// Its author may only read.
    ReadOnly,
    /// No delta of the history ends at its version; the history is at `head`.
    UnknownVersion { head: HashedVersion },
    /// The hash at its version is another, `host`.
    WrongHash { host: [u8; 32] },
    /// Its operation of this index isn't valid.
    Invalid { index: u32 },
    /// The history, which is at `head`, has no room for it.
    Full { head: HashedVersion },
}
