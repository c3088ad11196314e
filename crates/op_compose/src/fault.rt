use thiserror::Error;

/// Why two operations have no composition.
#[derive(Clone, Copy, Debug, PartialEq, Eq, Error)]
pub enum ComposeFault {
    /// The first's input length and both counts of inserted items together exceed the greatest count.
    #[error("operations over too many items together")]
    CountTooLarge,
    /// The second operation can't apply to what the first gives. The number is how many items that the first gives are passed
    /// before the one at which they don't agree.
    #[error("an operation that doesn't apply behind the other, past {0} items")]
    DontFit(u64),
    /// Want of memory.
    #[error("out of memory")]
    Memory,
}

impl From<doc_items::Memory> for ComposeFault {
    ghost use Rattle.std.specs.Prelude.{◌≡◌};
    ghost use Rattle.op_compose.specs.declared.fault.ComposeFault.TheVariants.{Memory};

    ghost from_gives = { λ _ e. e ≡ Memory };

    fn from(_: doc_items::Memory) -> Self {
        ComposeFault::Memory
    }
}
