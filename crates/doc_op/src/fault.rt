use doc_items::Text;
use thiserror::Error;

/// Why a component was refused.
#[derive(Debug, Drop, Error)]
pub enum OpFault {
    /// The component has no count, no character or no key.
    #[error("a component without a count, a character or a key")]
    ZeroCount,
    /// The first key that doesn't ascend in its list, that ends without running, or that both ends and changes.
    #[error("a key that doesn't ascend, ends without running, or ends and changes")]
    BadBoundary(Text),
    /// The operation would take or give more items than a document may have.
    #[error("an operation over more items than a document may have")]
    CountTooLarge,
    /// Want of memory.
    #[error("out of memory")]
    Memory,
}

impl From<doc_items::Memory> for OpFault {
    ghost use Rattle.std.specs.Prelude.{◌≡◌};
    ghost use Rattle.doc_op.specs.declared.fault.OpFault.TheVariants.{Memory};

    ghost from_gives = { λ _ e. e ≡ Memory };

    fn from(_: doc_items::Memory) -> Self {
        OpFault::Memory
    }
}
