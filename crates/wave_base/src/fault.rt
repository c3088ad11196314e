use thiserror::Error;

/// Why a text is no name.
#[derive(Clone, Copy, Debug, PartialEq, Eq, Error)]
pub enum BaseFault {
    /// The text is no address, or no domain.
    #[error("not an address or a domain")]
    BadAddress,
    /// The text is no name of a wavelet, a document or a session.
    #[error("not a name")]
    BadName,
    /// Want of memory.
    #[error("not enough memory")]
    Memory,
}

impl From<doc_items::Memory> for BaseFault {
    ghost use Rattle.std.specs.Prelude.{◌≡◌};
    ghost use Rattle.wave_base.specs.declared.fault.BaseFault.TheVariants.{Memory};

    ghost from_gives = { λ _ e. e ≡ Memory };

    fn from(_: doc_items::Memory) -> Self {
        BaseFault::Memory
    }
}
