use wave_base::HashedVersion;

/// What a copy answers to a delta of its host's history. Only `Took` changes it.
#[derive(Clone, Copy, Debug, Drop, PartialEq, Eq)]
pub enum Absorbed {
    /// The delta starts below the copy's version.
    Old,
    /// The delta starts above the copy's version.
    Gap,
    /// The delta starts at the copy's version, where the copy is at `mine`, with another hash.
    Diverged {
        mine: HashedVersion,
        theirs: HashedVersion,
    },
    /// The delta starts where the copy is, and the history with it wouldn't be legal.
    NotLegal,
    /// The copy's history ends with the delta.
    Took,
}
