use crate::Insertion;

/// Items that come in place of the `count` items from place `from` on.
#[derive(Drop)]
pub struct Replacement {
    pub from: u64,
    pub count: u64,
    pub items: Insertion,
}
