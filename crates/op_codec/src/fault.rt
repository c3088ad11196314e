use std::alloc::AllocFailed;
use thiserror::Error;

/// Why bytes are no operation.
#[derive(Clone, Copy, Debug, PartialEq, Eq, Error)]
pub enum CodecFault {
    /// No prefix of the bytes is the spelling of an operation.
    #[error("the bytes spell no operation")]
    BadBytes,
    /// Want of memory.
    #[error("not enough memory")]
    Memory,
}

impl From<doc_items::Memory> for CodecFault {
    ghost use Rattle.std.specs.Prelude.{◌≡◌};
    ghost use Rattle.op_codec.specs.declared.fault.CodecFault.TheVariants.{Memory};

    ghost from_gives = { λ _ e. e ≡ Memory };

    fn from(_: doc_items::Memory) -> Self {
        CodecFault::Memory
    }
}

impl<T: Drop> From<AllocFailed<T>> for CodecFault {
    ghost use Rattle.std.specs.Prelude.{◌≡◌};
    ghost use Rattle.op_codec.specs.declared.fault.CodecFault.TheVariants.{Memory};

    ghost from_gives = { λ _ e. e ≡ Memory };

    fn from(_: AllocFailed<T>) -> Self {
        CodecFault::Memory
    }
}
