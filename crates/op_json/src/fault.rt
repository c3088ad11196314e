use thiserror::Error;

/// Why a value is no operation.
#[derive(Clone, Copy, Debug, PartialEq, Eq, Error)]
pub enum JsonFault {
    /// The value is no array (index 0), or this is the index of its first element that is no component or that a builder
    /// refuses after those before it.
    #[error("element {0} of an operation is no component that may stand there")]
    BadField(u64),
    /// Want of memory.
    #[error("out of memory")]
    Memory,
}

impl From<doc_items::Memory> for JsonFault {
    ghost use Rattle.std.specs.Prelude.{◌≡◌};
    ghost use Rattle.op_json.specs.declared.fault.JsonFault.TheVariants.{Memory};

    ghost from_gives = { λ _ e. e ≡ Memory };

    fn from(_: doc_items::Memory) -> Self {
        JsonFault::Memory
    }
}
