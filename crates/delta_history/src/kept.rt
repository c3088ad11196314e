use wave_base::HashedVersion;

/// Where a delta stands in its history.
#[derive(Clone, Copy, Debug, Drop)]
pub struct Kept {
    /// The version at which it was applied.
    pub at: u64,
    /// The version after it, with the hash there.
    pub to: HashedVersion,
}
