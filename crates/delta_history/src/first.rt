ghost use Rattle.std.specs.Prelude.{◌≡◌};
ghost use Rattle.wavelet_op.specs.Acts.{meanings};
ghost use Rattle.delta_history.specs.Legal.{adds_first};

use wave_base::Address;
use wavelet_op::{Ops, WaveletOp};

/// Whether the first operation adds the address, as that of a first delta adds its author.
pub fn adds_first(ops: &Ops, address: &Address) -> bool
    ensures { result ≡ adds_first (meanings ops.now) address.now }
{
    match ops.as_slice().first() {
        Some(WaveletOp::Add(added)) => address == added,
        _ => false,
    }
}
