/// Why a server stops before its sessions have ended.
#[derive(Clone, Copy, Debug, PartialEq, Eq)]
pub(crate) enum Stop {
    /// The door failed.
    Door,
    /// Want of memory.
    Memory,
    /// A job could not be started.
    Refused,
    /// A shard has no turn left.
    Spent,
}
