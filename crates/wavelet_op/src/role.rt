/// What a participant may do.
#[derive(Clone, Copy, Debug, PartialEq, Eq)]
pub enum Role {
    /// Read, and submit operations.
    Full,
    /// Read only.
    ReadOnly,
}
