// Why an operation doesn't apply to a state.
ghost use Rattle.std.specs.Prelude.{◌≡◌};
ghost use Rattle.wavelet_state.specs.Parts.{step_fault};

use op_validity::CheckFault;
use wavelet_op::WaveletFault;

/// The fault where the operation of this index doesn't apply to a document.
pub(crate) fn fault_at(fault: CheckFault, index: u32) -> WaveletFault
    ensures { result ≡ step_fault fault index }
{
    match fault {
        CheckFault::NotStructured(_) => WaveletFault::OpInvalid(index),
        CheckFault::Mismatch(_) => WaveletFault::OpInvalid(index),
        CheckFault::WrongLength => WaveletFault::OpInvalid(index),
        CheckFault::Memory => WaveletFault::Memory,
    }
}
