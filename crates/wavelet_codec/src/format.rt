// The format byte of a delta.
ghost use Rattle.std.specs.Prelude.{◌≡◌};
ghost use Rattle.wavelet_codec.specs.Spelling.{sets_role, has_set_role, format};

use wavelet_op::WaveletOp;

fn sets_role(op: &WaveletOp) -> bool
    ensures { result ≡ sets_role op.now }
{
    matches!(op, WaveletOp::SetRole { .. })
}

fn has_set_role(ops: &[WaveletOp]) -> bool
    ensures { result ≡ has_set_role ops.now }
{
    ops.iter().any(|op| sets_role(op))
}

/// The byte that a delta with these operations begins with: 2 exactly where one of them sets a role, else 1.
pub(crate) fn format(ops: &[WaveletOp]) -> u8
    ensures { result ≡ format ops.now }
{
    if has_set_role(ops) { 2 } else { 1 }
}
