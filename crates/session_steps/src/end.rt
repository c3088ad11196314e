use turn_lock::Spent;

/// Why a session ended.
#[derive(Clone, Copy, Drop)]
pub enum EndCause {
    /// The peer closed its link.
    Closed,
    /// The link failed.
    Failed,
    /// A shard has no turn left.
    Spent(Spent),
    /// Want of memory.
    Memory,
}
