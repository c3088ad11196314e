use thiserror::Error;

/// Why an edit has no operation.
#[derive(Clone, Copy, Debug, PartialEq, Eq, Error)]
pub enum BuildFault {
    /// A text without characters, or a count of 0.
    #[error("an edit of nothing")]
    ZeroCount,
    /// The place or range isn't in the document, or an attribute is set where no element starts.
    #[error("a place that isn't in the document")]
    OutOfRange,
    /// The range has an element's start without its end, or an end without its start.
    #[error("a range that cuts an element")]
    CutsElement,
    /// The document's items and the new ones together exceed the greatest count.
    #[error("more items than a document may have")]
    CountTooLarge,
    /// Want of memory.
    #[error("out of memory")]
    Memory,
}

impl From<doc_items::Memory> for BuildFault {
    ghost use Rattle.std.specs.Prelude.{◌≡◌};
    ghost use Rattle.op_build.specs.declared.fault.BuildFault.TheVariants.{Memory};

    ghost from_gives = { λ _ e. e ≡ Memory };

    fn from(_: doc_items::Memory) -> Self {
        BuildFault::Memory
    }
}
