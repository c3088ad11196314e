/// What a load came to.
#[derive(Clone, Copy, Debug, PartialEq, Eq, Drop)]
pub struct Summary {
    /// The version of the host's head, in operations.
    pub version: u64,
    /// The number of items of the document at the head.
    pub items: u64,
    /// The hash at the head, 32 bytes of SHA-256.
    pub hash: [u8; 32],
}
