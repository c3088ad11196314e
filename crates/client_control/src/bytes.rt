// The bytes of deltas.
ghost use Rattle.std.specs.Prelude.{◌≡◌, IfOk, OnOk};
ghost use Rattle.wavelet_codec.specs.Spelling.{delta_bytes, IsDelta};

use doc_items::Memory;
use std::alloc::{AllocError, Global};
use wavelet_codec::{applied_len, write_applied};
use wavelet_op::AppliedDelta;

// So many bytes, or more, can't be written.
const LIMIT: u64 = 1 << 32;

/// The bytes of a delta.
pub(crate) fn bytes(alloc: Global, delta: &AppliedDelta) -> Result<Vec<u8>, Memory>
    ensures value { IfOk result (λ v. v.items ≡ delta_bytes delta.now) }
    ensures is { OnOk result (IsDelta delta.now) }
{
    if applied_len(alloc, delta)? >= LIMIT {
        return Err(AllocError);
    }
    let mut bytes = Vec::new(alloc);
    write_applied(alloc, delta, &mut bytes)?;
    Ok(bytes)
}
