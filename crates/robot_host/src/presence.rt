// Whether an address was a participant before operations, by whether it is one after them.
ghost use Rattle.std.specs.Prelude.{◌≡◌};
ghost use Rattle.wavelet_op.specs.Acts.{meaning, meanings};
ghost use Rattle.delta_history.specs.Points.{acts_of};
ghost use Rattle.robot_host.specs.Presence.{was_before, were_before};

use wave_base::Address;
use wavelet_op::{AppliedDelta, Ops, WaveletOp};

// Whether the address was one before an operation that applies.
fn was_before(op: &WaveletOp, address: &Address, now: bool) -> bool
    ensures { result ≡ was_before address.now (meaning op.now) now }
{
    match op {
        WaveletOp::NoOp => now,
        WaveletOp::Add(added) => address != added && now,
        WaveletOp::Remove(removed) => address == removed || now,
        WaveletOp::Mutate { .. } => now,
        WaveletOp::SetRole { .. } => now,
    }
}

// Whether the address was one before operations that apply in turn.
fn were_before(ops: &Ops, address: &Address, now: bool) -> bool
    ensures { result ≡ were_before address.now (meanings ops.now) now }
{
    let list = ops.as_slice();
    let mut here = now;
    let mut left = list.len();
    while left > 0 {
        left -= 1;
        here = was_before(&list[left], address, here);
    }
    here
}

/// Whether the address was a participant before a delta that applies, by whether it is one after it.
pub(crate) fn was_participant(delta: &AppliedDelta, address: &Address, now: bool) -> bool
    ensures { result ≡ were_before address.now (acts_of delta.now) now }
{
    were_before(&delta.ops, address, now)
}
