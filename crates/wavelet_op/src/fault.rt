ghost use Rattle.std.specs.Prelude.{◌≡◌};
ghost use Rattle.wavelet_op.specs.Results.{fault_of, fault_of_compose};

use op_compose::ComposeFault;
use op_transform::TransformFault;
use thiserror::Error;

/// Why a call on operations on wavelets was refused.
#[derive(Clone, Copy, Debug, PartialEq, Eq, Error)]
pub enum WaveletFault {
    /// The operation of this index isn't valid.
    #[error("operation {0} isn't valid")]
    OpInvalid(u32),
    /// Two operations on one document are over more items together than a document may have.
    #[error("operations over too many items together")]
    CountTooLarge,
    /// The later operation of this index, as it is when it meets an earlier one, can't be valid at one state with it.
    #[error("operation {0} can't be valid together with an earlier one")]
    Conflict(u32),
    /// Of two neighbouring operations on one document the second can't apply after the first: so many items are passed before the
    /// first at which they don't agree.
    #[error("an operation that doesn't apply behind the other, past {0} items")]
    DontFit(u64),
    /// Want of memory.
    #[error("out of memory")]
    Memory,
}

impl From<doc_items::Memory> for WaveletFault {
    ghost use Rattle.std.specs.Prelude.{◌≡◌};
    ghost use Rattle.wavelet_op.specs.declared.fault.WaveletFault.TheVariants.{Memory};

    ghost from_gives = { λ _ e. e ≡ Memory };

    fn from(_: doc_items::Memory) -> Self {
        WaveletFault::Memory
    }
}

impl WaveletFault {
    /// The fault where operations on a document have no transform, the later one being of this index.
    pub(crate) fn of_transform(fault: TransformFault, index: u32) -> WaveletFault
        ensures { result ≡ fault_of fault index }
    {
        match fault {
            TransformFault::CountTooLarge => WaveletFault::CountTooLarge,
            TransformFault::Conflict(_) => WaveletFault::Conflict(index),
            TransformFault::Memory => WaveletFault::Memory,
        }
    }

    /// The fault where operations on a document have no composition.
    pub(crate) fn of_compose(fault: ComposeFault) -> WaveletFault
        ensures { result ≡ fault_of_compose fault }
    {
        match fault {
            ComposeFault::CountTooLarge => WaveletFault::CountTooLarge,
            ComposeFault::DontFit(place) => WaveletFault::DontFit(place),
            ComposeFault::Memory => WaveletFault::Memory,
        }
    }
}
