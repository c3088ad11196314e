/// What a follower answers to a snapshot. Only `Took` changes it.
#[derive(Clone, Copy, Debug, PartialEq, Eq)]
pub enum Taken {
    /// Something is pending.
    Pending,
    /// The snapshot's version isn't above the follower's.
    Old,
    /// The follower is where the snapshot was taken.
    Took,
}
