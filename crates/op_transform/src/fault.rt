use thiserror::Error;

/// Why two operations have no transform.
#[derive(Clone, Copy, Debug, PartialEq, Eq, Error)]
pub enum TransformFault {
    /// The larger of the two input lengths and both counts of inserted items together exceed the greatest count.
    #[error("operations over too many items together")]
    CountTooLarge,
    /// The operations can't both apply to one document: so many items are passed before the first at which they don't agree.
    #[error("operations that don't apply to one document, behind {0} common items")]
    Conflict(u64),
    /// Want of memory.
    #[error("out of memory")]
    Memory,
}

impl From<doc_items::Memory> for TransformFault {
    ghost use Rattle.std.specs.Prelude.{◌≡◌};
    ghost use Rattle.op_transform.specs.declared.fault.TransformFault.TheVariants.{Memory};

    ghost from_gives = { λ _ e. e ≡ Memory };

    fn from(_: doc_items::Memory) -> Self {
        TransformFault::Memory
    }
}
