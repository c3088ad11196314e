/// A moment of a shard's history: the one at which it had this length.
#[derive(Clone, Copy, Debug, Drop, PartialEq, Eq)]
pub struct Look {
    pub shard: u8,
    pub length: u64,
}

/// What a look at the length of a shard's history tells.
#[derive(Clone, Copy, Debug, Drop, PartialEq, Eq)]
pub enum News {
    /// It has the length that it had.
    Nothing,
    /// It has this length.
    Grown { length: u64 },
}
