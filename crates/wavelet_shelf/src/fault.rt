// Why a shelf wasn't loaded.
use std::alloc::AllocError;

/// Why a shelf wasn't loaded.
#[derive(Debug, Drop)]
pub enum ShelfFault {
    /// A file isn't the journal of a legal history of the wavelet whose file it is, by what stands at this offset, in bytes.
    Damaged { file: String, offset: u64 },
    /// The folder or a disk failed, and the shelf's count of faults tells so.
    Failed,
    /// Want of memory.
    Memory,
}

impl From<AllocError> for ShelfFault {
    ghost use Rattle.std.specs.Prelude.{◌≡◌};
    ghost use Rattle.wavelet_shelf.specs.declared.fault.ShelfFault.TheVariants.{Memory};

    ghost from_gives = { λ _ e. e ≡ Memory };

    fn from(_: AllocError) -> Self {
        ShelfFault::Memory
    }
}
